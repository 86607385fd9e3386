// Links whose clients say too little at first.
ghost use Rattle.std.specs.Prelude.{◌<◌};

use crate::noting::{NotingDesk, NotingPass};
use link_loop::{EnoughRoom, LinkEnd, Room, serve_link};
use std::alloc::Global;
use std::collections::VecDeque;
use std::sync::Wait;
use std::test::Fail;
use sw_edge::{ListClock, MemoryLink, MemoryPorts};

// What a client sends first: the preface, and SETTINGS with one setting.
const CLIENT: &str =
    "505249202a20485454502f322e300d0a0d0a534d0d0a0d0a000006040000000000000300000064";

// What a server sends first, its answer to SETTINGS, and GOAWAY without an error and with the greatest last stream.
const GREETING: &str = "000006040000000000000300000064";

const ANSWER: &str = "000000040100000000";

const GOODBYE: &str = "0000080700000000007fffffff00000000";

const SECOND: u64 = 1_000_000_000;

// A client that opens the stream channel.
const CHANNEL: &str =
    "505249202a20485454502f322e300d0a0d0a534d0d0a0d0a00000004000000000000006f01040000000100073a6d6574686f6404504f535400073a736368656d65046874747000053a706174681e2f70342e76312e503452756e74696d652f53747265616d4368616e6e656c000a3a617574686f726974790173000c636f6e74656e742d74797065106170706c69636174696f6e2f67727063";

// What wants each link to go.
#[derive(Clone, Copy)]
struct NoRoom;

impl Room for NoRoom {
    fn is_wanted(&mut self, _quiet_since: Option<u64>) -> bool {
        true
    }
}

// What a link is sent and how it ends.
struct Told {
    end: LinkEnd,
    sent: Vec<u8>,
    calls: u64,
}

// Written out, so that the tests need not look into it.
impl Drop for Told {
    fn drop(self) {
        let Self {
            end: _,
            sent: _sent,
            calls: _,
        } = self;
    }
}

// How a link ends, and how many calls its client made, by a clock that tells these moments. It promises nothing, so
// that the tests do not carry what `serve_link` does.
fn end_of<O: Room, W: Wait>(
    rt: &W,
    alloc: Global,
    link: &mut MemoryLink,
    moments: Vec<u64>,
    room: &mut O,
) -> Result<(LinkEnd, u64), Fail> {
    let mut ports = MemoryPorts::new(alloc, Vec::new(alloc), 2, Vec::new(alloc), Vec::new(alloc))?;
    let mut pass = NotingPass::new(VecDeque::new(alloc));
    let mut clock = ListClock::new(moments);
    let end = serve_link(
        rt,
        alloc,
        link,
        &mut ports,
        &NotingDesk,
        &mut pass,
        &mut clock,
        room,
    );
    Ok((end, pass.calls))
}

// How a link ends that gives these bytes, of whose pulls some find none and of whose calls some fail, and what it is sent.
fn tell_by<O: Room, W: Wait>(
    rt: &W,
    alloc: Global,
    client: Vec<u8>,
    quiet: Vec<u64>,
    failing: Vec<u64>,
    moments: Vec<u64>,
    room: &mut O,
) -> Result<Told, Fail> {
    let mut link = MemoryLink::new(alloc, client, 4096, 4096, failing, quiet)?;
    let (end, calls) = end_of(rt, alloc, &mut link, moments, room)?;
    let sent = Vec::from_slice(alloc, link.sent())?;
    Ok(Told { end, sent, calls })
}

// The same of the first bytes of a client, as many as are told, where there is room.
fn tell<W: Wait>(
    rt: &W,
    alloc: Global,
    bytes: usize,
    quiet: Vec<u64>,
    failing: Vec<u64>,
    moments: Vec<u64>,
) -> Result<Told, Fail> {
    let mut client = hex::decode(alloc, CLIENT)?;
    client.truncate(bytes);
    tell_by(rt, alloc, client, quiet, failing, moments, &mut EnoughRoom)
}

// The same of a client's bytes, where there is no room.
fn tell_without_room<W: Wait>(
    rt: &W,
    alloc: Global,
    client: &str,
    quiet: Vec<u64>,
    moments: Vec<u64>,
) -> Result<Told, Fail> {
    let client = hex::decode(alloc, client)?;
    let failing = Vec::new(alloc);
    tell_by(rt, alloc, client, quiet, failing, moments, &mut NoRoom)
}

// These bytes, one behind the other.
fn joined(alloc: Global, parts: &[&str]) -> Result<Vec<u8>, Fail> {
    let mut bytes = Vec::new(alloc);
    for part in parts {
        bytes.extend_from_slice(hex::decode(alloc, part)?.as_slice())?;
    }
    Ok(bytes)
}

#[test]
fn a_client_that_says_nothing(rt: HostRuntime) -> Result<(), Fail> {
    let alloc = rt.alloc();
    let quiet = [0, 1, 2, 3].to_vec(alloc)?;
    let moments = [5 * SECOND, 9 * SECOND, 15 * SECOND - 1, 15 * SECOND].to_vec(alloc)?;
    let told = tell(&rt, alloc, 0, quiet, Vec::new(alloc), moments)?;
    let sent = joined(alloc, &[GREETING, GOODBYE])?;
    assert!(rt; matches!(told.end, LinkEnd::Quiet));
    assert!(rt; told.sent == sent);
    assert!(rt; told.calls == 0);
    Ok(())
}

#[test]
fn a_client_that_says_nothing_and_ends_in_time(rt: HostRuntime) -> Result<(), Fail> {
    let alloc = rt.alloc();
    let quiet = [0, 1].to_vec(alloc)?;
    let moments = [5 * SECOND, 9 * SECOND, 15 * SECOND - 1].to_vec(alloc)?;
    let told = tell(&rt, alloc, 0, quiet, Vec::new(alloc), moments)?;
    assert!(rt; matches!(told.end, LinkEnd::Closed));
    assert!(rt; told.sent == hex::decode(alloc, GREETING)?);
    Ok(())
}

#[test]
fn settings_without_their_last_byte(rt: HostRuntime) -> Result<(), Fail> {
    let alloc = rt.alloc();
    let quiet = [1, 2, 3].to_vec(alloc)?;
    let moments = [0, 0, 9 * SECOND, 10 * SECOND].to_vec(alloc)?;
    let told = tell(&rt, alloc, 38, quiet, Vec::new(alloc), moments)?;
    let sent = joined(alloc, &[GREETING, GOODBYE])?;
    assert!(rt; matches!(told.end, LinkEnd::Quiet));
    assert!(rt; told.sent == sent);
    Ok(())
}

#[test]
fn settings_that_are_whole(rt: HostRuntime) -> Result<(), Fail> {
    let alloc = rt.alloc();
    let quiet = [1, 2, 3].to_vec(alloc)?;
    let moments = [0, 0, 9 * SECOND, 10 * SECOND, 1000 * SECOND].to_vec(alloc)?;
    let told = tell(&rt, alloc, 39, quiet, Vec::new(alloc), moments)?;
    let sent = joined(alloc, &[GREETING, ANSWER])?;
    assert!(rt; matches!(told.end, LinkEnd::Closed));
    assert!(rt; told.sent == sent);
    Ok(())
}

#[test]
fn goodbye_at_which_the_link_fails(rt: HostRuntime) -> Result<(), Fail> {
    let alloc = rt.alloc();
    let quiet = [0, 1].to_vec(alloc)?;
    let moments = [0, 10 * SECOND].to_vec(alloc)?;
    let told = tell(&rt, alloc, 0, quiet, [2].to_vec(alloc)?, moments)?;
    assert!(rt; matches!(told.end, LinkEnd::Fault));
    Ok(())
}

#[test]
fn a_quiet_client_where_there_is_no_room(rt: HostRuntime) -> Result<(), Fail> {
    let alloc = rt.alloc();
    let quiet = [1, 2, 3].to_vec(alloc)?;
    let moments = [0, 7 * SECOND, 17 * SECOND - 1, 17 * SECOND].to_vec(alloc)?;
    let told = tell_without_room(&rt, alloc, CLIENT, quiet, moments)?;
    let sent = joined(alloc, &[GREETING, ANSWER, GOODBYE])?;
    assert!(rt; matches!(told.end, LinkEnd::Quiet));
    assert!(rt; told.sent == sent);
    assert!(rt; told.calls == 0);
    Ok(())
}

#[test]
fn a_client_that_ends_before_it_is_quiet_for_long(rt: HostRuntime) -> Result<(), Fail> {
    let alloc = rt.alloc();
    let quiet = [1, 2].to_vec(alloc)?;
    let moments = [0, 7 * SECOND, 17 * SECOND - 1].to_vec(alloc)?;
    let told = tell_without_room(&rt, alloc, CLIENT, quiet, moments)?;
    assert!(rt; matches!(told.end, LinkEnd::Closed));
    Ok(())
}

#[test]
fn a_quiet_controller_is_not_ended(rt: HostRuntime) -> Result<(), Fail> {
    let alloc = rt.alloc();
    let quiet = [1, 2, 3].to_vec(alloc)?;
    let moments = [0, 7 * SECOND, 17 * SECOND, 1000 * SECOND].to_vec(alloc)?;
    let told = tell_without_room(&rt, alloc, CHANNEL, quiet, moments)?;
    assert!(rt; matches!(told.end, LinkEnd::Closed));
    assert!(rt; told.sent == joined(alloc, &[GREETING, ANSWER])?);
    assert!(rt; told.calls == 1);
    Ok(())
}
