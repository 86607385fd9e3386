// A run with a thread for each lane of a tape.
use crate::moments::nanoseconds;
use crate::tapes::{START, read_tape};
use list_types::NoMemory;
use replay_run::{Freely, replay_free};
use std::alloc::Global;
use std::env::Args;
use std::io;
use std::sync::Wait;
use std::thread::Threads;
use std::time::Clock;
use tape_form::{Tape, report_text};

// What came of a run, and the nanoseconds that the run and the report took.
#[derive(Clone, Copy)]
struct Figures {
    calls: usize,
    packets: usize,
    bytes: usize,
    run: u128,
    report: u128,
}

fn measured<R: Threads + Wait + Clock + Sync>(
    rt: &R,
    alloc: Global,
    tape: Tape,
) -> Result<Figures, NoMemory> {
    let before = nanoseconds(rt);
    let report = replay_free(rt, alloc, &Freely, START, tape.into_records(alloc)?)?;
    let between = nanoseconds(rt);
    let Ok(text) = report_text(alloc, &report) else {
        drop(report);
        return Err(NoMemory);
    };
    let after = nanoseconds(rt);
    let figures = Figures {
        calls: report.journal.len(),
        packets: report.records.len(),
        bytes: text.len(),
        run: between.saturating_sub(before),
        report: after.saturating_sub(between),
    };
    drop(text);
    drop(report);
    Ok(figures)
}

fn tell_counts(rt: &HostRuntime, figures: &Figures) -> io::Result<()> {
    println!(rt;
        "{} calls, {} packets, {} bytes of report",
        figures.calls, figures.packets, figures.bytes
    )
}

fn tell_times(rt: &HostRuntime, read: u128, figures: &Figures) -> io::Result<()> {
    println!(rt;
        "read {} us, run {} us, report {} us",
        read / 1_000,
        figures.run / 1_000,
        figures.report / 1_000
    )
}

// Whether the next of the words asks for times too; nothing where it is none of the replay's.
fn are_times_asked(words: &mut Args) -> Option<bool> {
    match words.next()?.as_str() {
        "count" => Some(false),
        "measure" => Some(true),
        _ => None,
    }
}

/// Runs the tape that the words name, and tells what came of it. Whether they are the words of a replay.
pub fn tell<T: Threads + Wait + Clock + Sync>(
    threads: &T,
    rt: &HostRuntime,
    words: &mut Args,
) -> io::Result<bool> {
    let Some(are_times_asked) = are_times_asked(words) else {
        return Ok(false);
    };
    let (tape, read) = read_tape(rt, words)?;
    let figures = match tape {
        Some(tape) => measured(threads, rt.alloc(), tape),
        None => {
            println!(rt; "no tape")?;
            return Ok(true);
        }
    };
    match figures {
        Ok(figures) => {
            tell_counts(rt, &figures)?;
            if are_times_asked {
                tell_times(rt, read, &figures)?;
            }
        }
        Err(NoMemory) => println!(rt; "no memory")?,
    }
    Ok(true)
}
