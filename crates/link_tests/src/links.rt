// Links to their end.
ghost use Rattle.std.specs.Prelude.{◌<◌};

use crate::noting::{NotingDesk, NotingPass};
use link_loop::{EnoughRoom, LinkEnd, ListDesk, ListPass, serve_link};
use list_types::{ByteList, List};
use p4_types::calls::Reply;
use p4_types::code::Code;
use p4_types::records::Output;
use p4rt_service::{Desk, Next};
use std::alloc::Global;
use std::collections::VecDeque;
use std::sync::Wait;
use std::test::Fail;
use sw_edge::{Departure, ListClock, MemoryLink, MemoryPorts};

// A client that asks for the capabilities, and the server's answer, whose version is 1.3.0.
const CLIENT: &str =
    "505249202a20485454502f322e300d0a0d0a534d0d0a0d0a00000004000000000000004e0104000000018386441d2f70342e76312e503452756e74696d652f4361706162696c6974696573418cf1e3c2e5f23a6ba0ab90f4ff5f106170706c69636174696f6e2f677270634002746508747261696c6572730000050001000000010000000000";

const VERSION: &str = "0a05312e332e30";

const SERVER: &str =
    "0000060400000000000003000000640000000401000000000000040800000000000000000500002c01040000000100073a73746174757303323030000c636f6e74656e742d74797065106170706c69636174696f6e2f6772706300000c00000000000100000000070a05312e332e3000000f010500000001000b677270632d7374617475730130";

// A client that opens the stream channel, what a server sends then, and how it closes the channel for room.
const CHANNEL: &str =
    "505249202a20485454502f322e300d0a0d0a534d0d0a0d0a00000004000000000000006f01040000000100073a6d6574686f6404504f535400073a736368656d65046874747000053a706174681e2f70342e76312e503452756e74696d652f53747265616d4368616e6e656c000a3a617574686f726974790173000c636f6e74656e742d74797065106170706c69636174696f6e2f67727063";

const GREETING: &str = "000006040000000000000300000064000000040100000000";

const CLOSING: &str =
    "00003b01050000000100073a73746174757303323030000c636f6e74656e742d74797065106170706c69636174696f6e2f67727063000b677270632d7374617475730138";

// The link and the ports of a test.
struct Edges {
    link: MemoryLink,
    ports: MemoryPorts,
}

// Written out, so that the tests need not look into it.
impl Drop for Edges {
    fn drop(self) {
        let Self {
            link: _link,
            ports: _ports,
        } = self;
    }
}

// A link that gives these bytes, of whose calls some fail.
fn link_of(alloc: Global, hex: &str, piece: usize, failing: Vec<u64>) -> Result<MemoryLink, Fail>
    requires { 0 < piece }
{
    let bytes = hex::decode(alloc, hex)?;
    Ok(MemoryLink::new(alloc, bytes, piece, 4096, failing, Vec::new(alloc))?)
}

// Ports of whose puts some fail.
fn ports_of(alloc: Global, failing: Vec<u64>) -> Result<MemoryPorts, Fail> {
    Ok(MemoryPorts::new(alloc, Vec::new(alloc), 2, failing, Vec::new(alloc))?)
}

// A link that gives these bytes, and ports. Some calls of the link fail, and some puts.
fn edges_of(
    alloc: Global,
    hex: &str,
    piece: usize,
    calls: Vec<u64>,
    puts: Vec<u64>,
) -> Result<Edges, Fail>
    requires { 0 < piece }
{
    let link = link_of(alloc, hex, piece, calls)?;
    let ports = ports_of(alloc, puts)?;
    Ok(Edges { link, ports })
}

fn output_of(alloc: Global, port: u16, bytes: &[u8]) -> Result<Next, Fail> {
    let bytes = ByteList::from_vec(Vec::from_slice(alloc, bytes)?);
    Ok(Next::Output(Output { port, bytes }))
}

// How a link ends, by a clock that stands still. It promises nothing, so that the tests do not carry what `serve_link` does.
fn served<D: Desk, W: Wait>(
    rt: &W,
    alloc: Global,
    edges: &mut Edges,
    desk: &D,
    pass: &mut D::Pass,
) -> LinkEnd
    requires { D.is_of desk.now pass.old }
{
    let mut clock = ListClock::new(Vec::new(alloc));
    serve_link(
        rt,
        alloc,
        &mut edges.link,
        &mut edges.ports,
        desk,
        pass,
        &mut clock,
        &mut EnoughRoom,
    )
}

// A pass whose one reply is the server's version.
fn pass_of_version(alloc: Global) -> Result<ListPass, Fail> {
    let mut messages = List::new(alloc);
    messages.push(ByteList::from_vec(hex::decode(alloc, VERSION)?))?;
    let mut replies = VecDeque::new(alloc);
    replies.push_back(Reply {
        code: Code::Ok,
        messages,
        notices: List::new(alloc),
        steps: 0,
        packet: None,
    })?;
    Ok(ListPass::new(3, replies, VecDeque::new(alloc)))
}

#[test]
fn capabilities(rt: HostRuntime) -> Result<(), Fail> {
    let alloc = rt.alloc();
    let server = hex::decode(alloc, SERVER)?;
    let mut edges = edges_of(alloc, CLIENT, 7, Vec::new(alloc), Vec::new(alloc))?;
    let mut pass = pass_of_version(alloc)?;
    let end = served(&rt, alloc, &mut edges, &ListDesk, &mut pass);
    assert!(rt; matches!(end, LinkEnd::Closed));
    assert!(rt; edges.link.sent() == server.as_slice());
    assert!(rt; pass.replies_left() == 0);
    drop(pass);
    Ok(())
}

// A pass with two packets for ports.
fn pass_of_outputs(alloc: Global) -> Result<ListPass, Fail> {
    let mut nexts = VecDeque::new(alloc);
    nexts.push_back(output_of(alloc, 1, &[1, 2])?)?;
    nexts.push_back(output_of(alloc, 2, &[3])?)?;
    Ok(ListPass::new(3, VecDeque::new(alloc), nexts))
}

fn is_one_packet(sent: &[Departure], port: u16, bytes: &[u8]) -> bool {
    match sent {
        [departure] => departure.port() == port && departure.bytes() == bytes,
        _ => false,
    }
}

#[test]
fn put_that_fails(rt: HostRuntime) -> Result<(), Fail> {
    let alloc = rt.alloc();
    let mut edges = edges_of(alloc, CHANNEL, 100, Vec::new(alloc), [0].to_vec(alloc)?)?;
    let mut pass = pass_of_outputs(alloc)?;
    let end = served(&rt, alloc, &mut edges, &ListDesk, &mut pass);
    assert!(rt; matches!(end, LinkEnd::Closed));
    assert!(rt;
        is_one_packet(edges.ports.sent(), 2, &[3]),
        "not one packet"
    );
    assert!(rt; pass.nexts_left() == 0);
    drop(pass);
    Ok(())
}

#[test]
fn pull_that_fails(rt: HostRuntime) -> Result<(), Fail> {
    let alloc = rt.alloc();
    let greeting = hex::decode(alloc, GREETING)?;
    let mut edges = edges_of(alloc, CHANNEL, 4096, [3].to_vec(alloc)?, Vec::new(alloc))?;
    let mut pass = NotingPass::new(VecDeque::new(alloc));
    let end = served(&rt, alloc, &mut edges, &NotingDesk, &mut pass);
    assert!(rt; matches!(end, LinkEnd::Fault));
    assert!(rt; edges.link.sent() == greeting.as_slice());
    assert!(rt; pass.calls == 1 && pass.leaves == 1);
    Ok(())
}

// What a server sends that closes the channel for room.
fn greeting_and_closing(alloc: Global) -> Result<Vec<u8>, Fail> {
    let mut sent = hex::decode(alloc, GREETING)?;
    sent.extend_from_slice(hex::decode(alloc, CLOSING)?.as_slice())?;
    Ok(sent)
}

// A pass that gives nothing, and then an overflow.
fn pass_of_overflow(alloc: Global) -> Result<NotingPass, Fail> {
    let mut gifts = VecDeque::new(alloc);
    gifts.push_back(None)?;
    gifts.push_back(Some(Next::Overflow))?;
    Ok(NotingPass::new(gifts))
}

#[test]
fn overflow(rt: HostRuntime) -> Result<(), Fail> {
    let alloc = rt.alloc();
    let sent = greeting_and_closing(alloc)?;
    let mut edges = edges_of(alloc, CHANNEL, 4096, Vec::new(alloc), Vec::new(alloc))?;
    let mut pass = pass_of_overflow(alloc)?;
    let end = served(&rt, alloc, &mut edges, &NotingDesk, &mut pass);
    assert!(rt; matches!(end, LinkEnd::Closed));
    assert!(rt; edges.link.sent() == sent.as_slice());
    assert!(rt; pass.calls == 1 && pass.leaves == 1);
    Ok(())
}
