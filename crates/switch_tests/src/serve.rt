// Serving to the net's end, by the words of the command line.
use crate::links::Script;
use crate::nets::ScriptNet;
use crate::stage::Stage;
use std::alloc::Global;
use std::sync::Wait;
use std::test::Fail;
use std::thread::Threads;
use sw_edge::{Clock, MemorySink, MemorySource};

// A client that asks for the capabilities, and the server's answer, whose version is 1.3.0.
const CLIENT: &str =
    "505249202a20485454502f322e300d0a0d0a534d0d0a0d0a00000004000000000000004e0104000000018386441d2f70342e76312e503452756e74696d652f4361706162696c6974696573418cf1e3c2e5f23a6ba0ab90f4ff5f106170706c69636174696f6e2f677270634002746508747261696c6572730000050001000000010000000000";

const SERVER: &str =
    "0000060400000000000003000000640000000401000000000000040800000000000000000500002c01040000000100073a73746174757303323030000c636f6e74656e742d74797065106170706c69636174696f6e2f6772706300000c00000000000100000000070a05312e332e3000000f010500000001000b677270632d7374617475730130";

// A client that opens the stream channel and asks to be primary with the election id 1. The first that does is told that it is; the other
// is refused (INVALID_ARGUMENT), which closes its channel.
const CONTROLLER: &str =
    "505249202a20485454502f322e300d0a0d0a534d0d0a0d0a00000004000000000000006f01040000000100073a6d6574686f6404504f535400073a736368656d65046874747000053a706174681e2f70342e76312e503452756e74696d652f53747265616d4368616e6e656c000a3a617574686f726974790173000c636f6e74656e742d74797065106170706c69636174696f6e2f6772706300000d00000000000100000000080a0608011a021001";

const PRIMARY: &str =
    "0000060400000000000003000000640000000401000000000000040800000000000000000d0000040800000000010000000d00002c01040000000100073a73746174757303323030000c636f6e74656e742d74797065106170706c69636174696f6e2f6772706300000f000000000001000000000a0a0808011a0210012200";

const REFUSED: &str =
    "0000060400000000000003000000640000000401000000000000040800000000000000000d0000040800000000010000000d00003b01050000000100073a73746174757303323030000c636f6e74656e742d74797065106170706c69636174696f6e2f67727063000b677270632d7374617475730133";

// A client that opens the stream channel and says nothing on it, and what a switch sends it.
const CHANNEL: &str =
    "505249202a20485454502f322e300d0a0d0a534d0d0a0d0a00000004000000000000006f01040000000100073a6d6574686f6404504f535400073a736368656d65046874747000053a706174681e2f70342e76312e503452756e74696d652f53747265616d4368616e6e656c000a3a617574686f726974790173000c636f6e74656e742d74797065106170706c69636174696f6e2f67727063";

const SETTINGS: &str = "000006040000000000000300000064000000040100000000";

// As many links as a switch has lanes.
const LANES: usize = 32;

/// More links than a switch has lanes.
const MANY: usize = 40;

// What a client sends, and what a switch sends it.
struct Exchange {
    client: Vec<u8>,
    server: Vec<u8>,
}

impl Exchange {
    fn decode(alloc: Global, client: &str, server: &str) -> Result<Exchange, Fail> {
        let client = hex::decode(alloc, client)?;
        let server = hex::decode(alloc, server)?;
        Ok(Exchange { client, server })
    }
}

// Written out, as that of the streams is, so that the tests need not look into it.
impl Drop for Exchange {
    fn drop(self) {
        let Self {
            client: _client,
            server: _server,
        } = self;
    }
}

// A clock that stands still.
#[derive(Clone, Copy)]
struct StillClock;

impl Clock for StillClock {
    ghost last = { λ c. 0 };

    fn now(&mut self) -> u64 {
        0
    }
}

// A clock that tells a second more each time.
#[derive(Clone, Copy)]
struct SecondsClock {
    last: u64,
}

impl Clock for SecondsClock {
    ghost last = { λ c. c.last };

    fn now(&mut self) -> u64 {
        self.last = self.last.saturating_add(1_000_000_000);
        self.last
    }
}

// What a program that serves could read and write.
struct Streams {
    source: MemorySource,
    out: MemorySink,
    err: MemorySink,
}

impl Streams {
    fn open(alloc: Global) -> Result<Streams, Fail> {
        let out = MemorySink::new(alloc, 16, Vec::new(alloc))?;
        let err = MemorySink::new(alloc, 64, Vec::new(alloc))?;
        let source = MemorySource::in_pieces(Vec::new(alloc), 1, Vec::new(alloc));
        Ok(Streams { source, out, err })
    }
}

impl Drop for Streams {
    fn drop(self) {
        let Self {
            source: _source,
            out: _out,
            err: _err,
        } = self;
    }
}

// The status of a program with these words, by a net whose links follow these scripts. It promises nothing, so that the tests do not carry
// what `run` does.
#[tactic(none)]
fn status_by<T: Threads + Wait + Sync, K: Clock + Send>(
    rt: &T,
    alloc: Global,
    words: &[&str],
    streams: &mut Streams,
    stage: &Stage,
    scripts: &[Script<'_>],
    packets: u64,
    clock: &mut K,
) -> u8 {
    let mut net = ScriptNet::new(rt, stage, scripts, packets);
    p4switch_run::run(
        rt,
        alloc,
        words,
        &mut streams.source,
        &mut streams.out,
        &mut streams.err,
        &mut net,
        clock,
    )
}

// The status of a program that serves links which follow these scripts, beside so many packets, by a clock.
fn status_of<T: Threads + Wait + Sync, K: Clock + Send>(
    rt: &T,
    alloc: Global,
    streams: &mut Streams,
    stage: &Stage,
    scripts: &[Script<'_>],
    packets: u64,
    clock: &mut K,
) -> u8 {
    let words = [
        "serve",
        "--workers",
        "3",
        "--packets",
        "9100",
        "--port",
        "9559",
    ];
    status_by(rt, alloc, &words, streams, stage, scripts, packets, clock)
}

#[test]
fn links_are_served_beside_one_another_and_packets_beside_them(
    rt: HostRuntime,
) -> Result<(), Fail> {
    let alloc = rt.alloc();
    let exchange = Exchange::decode(alloc, CLIENT, SERVER)?;
    let mut streams = Streams::open(alloc)?;
    let stage = Stage::new(alloc);
    let script = Script {
        bytes: exchange.client.as_slice(),
        before: 1,
        until: 0,
        gone: 0,
    };
    let status = status_of(
        &rt,
        alloc,
        &mut streams,
        &stage,
        &[script, script],
        3,
        &mut StillClock,
    );
    drop(streams);
    assert!(rt; status == 0);
    let server = exchange.server.as_slice();
    assert!(rt; stage.first.was_sent(&rt, server), "the first link");
    assert!(rt; stage.second.was_sent(&rt, server), "the second");
    assert!(rt; stage.packets() == 3, "packets");
    assert!(rt; !stage.gave_up(), "nobody waits in vain");
    Ok(())
}

#[test]
fn what_one_controller_took_another_cannot_take(rt: HostRuntime) -> Result<(), Fail> {
    let alloc = rt.alloc();
    let refused = hex::decode(alloc, REFUSED)?;
    let exchange = Exchange::decode(alloc, CONTROLLER, PRIMARY)?;
    let mut streams = Streams::open(alloc)?;
    let stage = Stage::new(alloc);
    let first = Script {
        bytes: exchange.client.as_slice(),
        before: 0,
        until: refused.len(),
        gone: 0,
    };
    let second = Script {
        bytes: exchange.client.as_slice(),
        before: exchange.server.len(),
        until: 0,
        gone: 0,
    };
    let status = status_of(
        &rt,
        alloc,
        &mut streams,
        &stage,
        &[first, second],
        0,
        &mut StillClock,
    );
    drop(streams);
    assert!(rt; status == 0);
    let primary = exchange.server.as_slice();
    assert!(rt; stage.first.was_sent(&rt, primary), "the first");
    assert!(rt;
        stage.second.was_sent(&rt, refused.as_slice()),
        "the second"
    );
    Ok(())
}

#[test]
fn more_links_are_served_than_there_are_lanes(rt: HostRuntime) -> Result<(), Fail> {
    let alloc = rt.alloc();
    let exchange = Exchange::decode(alloc, CLIENT, SERVER)?;
    let mut streams = Streams::open(alloc)?;
    let stage = Stage::new(alloc);
    let script = Script {
        bytes: exchange.client.as_slice(),
        before: 0,
        until: 0,
        gone: 0,
    };
    let status = status_of(
        &rt,
        alloc,
        &mut streams,
        &stage,
        &[script; MANY],
        0,
        &mut StillClock,
    );
    drop(streams);
    assert!(rt; status == 0);
    let sent = exchange.server.len().saturating_mul(MANY / 2);
    assert!(rt; stage.first.length() == sent && stage.second.length() == sent);
    Ok(())
}

#[test]
fn a_link_that_finds_no_lane_is_closed(rt: HostRuntime) -> Result<(), Fail> {
    let alloc = rt.alloc();
    let exchange = Exchange::decode(alloc, CHANNEL, SETTINGS)?;
    let mut streams = Streams::open(alloc)?;
    let stage = Stage::new(alloc);
    let holder = Script {
        bytes: exchange.client.as_slice(),
        before: 0,
        until: 0,
        gone: 1,
    };
    let scripts = [holder; LANES + 1];
    let mut clock = SecondsClock { last: 0 };
    let status = status_of(&rt, alloc, &mut streams, &stage, &scripts, 0, &mut clock);
    drop(streams);
    assert!(rt; status == 0);
    let sent = exchange.server.len().saturating_mul(LANES / 2);
    assert!(rt; stage.first.length() == sent, "the first place");
    assert!(rt; stage.second.length() == sent, "the second");
    assert!(rt; !stage.gave_up(), "nobody waits in vain");
    Ok(())
}
