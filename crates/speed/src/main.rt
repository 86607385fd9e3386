//! Measures what only shows inside of the process. The words behind the program's name are done in turn:
//!
//! - `blocks`: the decoding of header blocks.
//! - `connections`: the bytes of an HTTP/2 connection in pieces.
//! - `counters`: the counters that threads share.
//! - `desk WORK TIMES TAPE`: the desk of a switch that serves. TAPE is a file, as `/dev/stdin`. The calls of its controllers' lane 0 are
//!   made first. Then each lane of workers works on a thread of its own, beside a writer that makes the calls of lane 1 in turn. Where
//!   WORK is `packets`, each worker runs its packets so often, in bursts; where it is `enter`, each enters a snapshot so often and leaves
//!   it. It then tells how long that took, and how long as many uncontended additions to an atomic word. Where WORK is `look`, each looks
//!   at snapshots while the writer makes its calls so often, and no time is told: all packets of a worker, run on one snapshot, are to
//!   leave at one port, since each call of the writer sends all of them to another, and no snapshot is to be older than the one before.
//! - `packets`: the reading of fields and the value of expressions.
//! - `replay count TAPE`: a run with a thread for each lane of the tape in a file. It tells what came of it.
//! - `replay measure TAPE`: the same, and how long the reading of the tape, the run and the making of the report took.
//! - `router`: the stages of one packet and its whole run, by a program whose ForwardingPipelineConfig stands on standard input.
//! - `tables`: look-ups in a table of routes, and changes beside it.
//!
//! Where a word is none of these, or there is none at all, it tells the words.
#![tactic(auto)]

mod blocks;
mod connections;
mod counters;
mod desk;
mod moments;
mod packets;
mod replay;
mod router;
mod routes;
mod tables;
mod tapes;

use bm_pipeline::Pipeline;
use list_types::NoMemory;
use router::{Measured, Part};
use std::env::{self, Args};
use std::io::{self, Read};
use std::sync::Wait;
use std::thread::Threads;
use std::time::Clock;

fn tell_packets(rt: &HostRuntime) -> io::Result<()> {
    let field = packets::fields(rt, &[0x5a; 64]);
    println!(rt;
        "a field of 48 bits: {} hundredths of a nanosecond (sum {})",
        field.hundredths, field.sum
    )?;
    let expression = packets::expressions(rt)?;
    println!(rt;
        "three operators: {} hundredths of a nanosecond (sum {})",
        expression.hundredths, expression.sum
    )
}

fn tell_blocks(rt: &HostRuntime) -> io::Result<()> {
    let first = blocks::first_requests(rt)?;
    let next = blocks::next_requests(rt)?;
    println!(rt;
        "a first request: {} nanoseconds, the next ones: {} ({} headers)",
        first.nanoseconds, next.nanoseconds, first.headers
    )
}

fn tell_connections(rt: &HostRuntime) -> io::Result<()> {
    let bytes = connections::bytes_of_client(rt, &blocks::FIRST_REQUEST)?;
    for size in [1, 100, 16_384, 2_097_152] {
        let took = connections::measure(rt, &bytes, size)?;
        println!(rt;
            "pieces of {size} bytes: {} hundredths of a nanosecond a byte ({} events)",
            took.hundredths, took.events
        )?;
    }
    Ok(())
}

fn tell_tables(rt: &HostRuntime) -> io::Result<()> {
    for routes in [1_000, 8_000] {
        let took = tables::look_ups(rt, routes)?;
        println!(rt;
            "{routes} routes: {} hundredths of a nanosecond by name, {} by key ({} found), {} an INSERT into another table ({} made and undone)",
            took.find, took.best, took.found, took.change, took.made
        )?;
    }
    Ok(())
}

// How often a packet goes through a part in a batch, and through a table of 1,000 routes.
const TIMES: u32 = 20_000;

const SCANS: u32 = 500;

fn tell(rt: &HostRuntime, name: &str, took: &Measured) -> io::Result<()> {
    println!(rt;
        "{name}: {} hundredths of a nanosecond (sum {})",
        took.hundredths, took.sum
    )
}

// What is measured of the stages, by name.
const PARTS: [(&str, Part); 6] = [
    ("enter", Part::Enter),
    ("parse", Part::Parse),
    ("act", Part::Act),
    ("checksums", Part::Checksums),
    ("deparse", Part::Deparse),
    ("stages", Part::Stages),
];

fn tell_parts(rt: &HostRuntime, pipeline: &Pipeline, room: &mut router::Room) -> io::Result<()> {
    for (name, part) in PARTS {
        let took = router::measure(rt, pipeline, part, &router::ARGUMENTS, room, TIMES);
        tell(rt, name, &took)?;
    }
    Ok(())
}

fn tell_stages(rt: &HostRuntime, config: &[u8]) -> io::Result<()> {
    let plane = routes::plane_of(rt.alloc(), config, 0)?;
    let told = match router::open(rt.alloc()) {
        Ok(mut room) => {
            let told = tell_parts(rt, plane.config().pipeline(), &mut room);
            drop(room);
            told
        }
        Err(NoMemory) => Err(io::Error::from(io::ErrorKind::OutOfMemory)),
    };
    drop(plane);
    told
}

fn tell_run(rt: &HostRuntime, config: &[u8], routes: u32, times: u32) -> io::Result<()> {
    let plane = routes::plane_of(rt.alloc(), config, routes)?;
    let took = router::measure_run(rt, &plane, times);
    drop(plane);
    let took = took?;
    println!(rt;
        "run with {routes} routes: {} hundredths of a nanosecond (sum {})",
        took.hundredths, took.sum
    )
}

fn tell_config(rt: &HostRuntime, config: &[u8]) -> io::Result<()> {
    tell_stages(rt, config)?;
    tell_run(rt, config, 4, TIMES)?;
    tell_run(rt, config, 1_000, SCANS)
}

fn tell_router(rt: &HostRuntime) -> io::Result<()> {
    let mut config = Vec::new(rt.alloc());
    rt.stdin().read_to_end(&mut config)?;
    tell_config(rt, config.as_slice())
}

fn tell_counters<T: Threads + Clock + AllocGlobal + Sync>(
    threads: &T,
    rt: &HostRuntime,
) -> io::Result<()> {
    for apart in [0, 262_144] {
        for count in [1, 2, 4] {
            let measured = counters::measure(threads, count, apart)?;
            println!(rt;
                "{count} threads, slots {apart} apart: {} hundredths of a nanosecond a hit, {} packets at slot 0",
                measured.hundredths, measured.packets
            )?;
        }
    }
    Ok(())
}

// The words, and what each takes.
const WORDS: [&str; 11] = [
    "blocks",
    "connections",
    "counters",
    "desk look TIMES TAPE",
    "desk packets TIMES TAPE",
    "desk enter TIMES TAPE",
    "packets",
    "replay count TAPE",
    "replay measure TAPE",
    "router",
    "tables",
];

fn tell_words(rt: &HostRuntime) -> io::Result<()> {
    for words in WORDS {
        println!(rt; "speed {words}")?;
    }
    Ok(())
}

// Does what a word asks for, with the words that it takes from those behind it. Whether it is one of the words.
fn is_done<T: Threads + Wait + Clock + AllocGlobal + Sync>(
    threads: &T,
    rt: &HostRuntime,
    word: &str,
    words: &mut Args,
) -> io::Result<bool> {
    let told = match word {
        "blocks" => tell_blocks(rt),
        "connections" => tell_connections(rt),
        "counters" => tell_counters(threads, rt),
        "desk" => return desk::tell(threads, rt, words),
        "packets" => tell_packets(rt),
        "replay" => return replay::tell(threads, rt, words),
        "router" => tell_router(rt),
        "tables" => tell_tables(rt),
        _ => return Ok(false),
    };
    told?;
    Ok(true)
}

fn main(rt: HostRuntime) -> io::Result<()> {
    let mut words = env::args(&rt)?;
    let _program = words.next();
    let mut next = words.next();
    if next.is_none() {
        return tell_words(&rt);
    }
    for _ in 0..u64::MAX {
        let Some(word) = next else {
            return Ok(());
        };
        if !is_done(&rt, &rt, word.as_str(), &mut words)? {
            return tell_words(&rt);
        }
        next = words.next();
    }
    Ok(())
}
