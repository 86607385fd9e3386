//! A row of the whole program over memory: its status, its report and its line for these words and this tape. The desk of a
//! run on threads, on one thread in the order of the tape, has to give the reports that a run in lockstep gives.
//!
//! A row has words between blanks, a tape in hex that is read seven bytes at a time, and the failing reads of it and pieces of the
//! report. It is answered by the status, the lines of the report behind `> `, and the line behind `! `. Where the run was in
//! lockstep and the desk gives another report, that is told too.
ghost use Rattle.std.specs.Prelude.{◌≡◌};

use crate::words::words_of;
use list_types::ByteList;
use p4_types::events::Start;
use replay_run::replay_in_order;
use row_lines::{NoAnswer, bytes, numbers, say, tell};
use std::alloc::Global;
use std::sync::Wait;
use std::thread::Threads;
use sw_edge::{ListClock, MemoryNet, MemorySink, MemorySource, Source};
use tape_form::{Tape, report_text};

/// The status of the program over memory. It has no clause, so that the rows do not carry what `run` promises.
#[tactic(none)]
pub fn status_of<T: Threads + Wait + Sync, S: Source>(
    rt: &T,
    alloc: Global,
    words: &[&str],
    tape: &mut S,
    out: &mut MemorySink,
    err: &mut MemorySink,
) -> u8 {
    let mut net = MemoryNet::new(
        Vec::new(alloc),
        Vec::new(alloc),
        Vec::new(alloc),
        Vec::new(alloc),
    );
    let mut clock = ListClock::new(Vec::new(alloc));
    let status = p4switch_run::run(rt, alloc, words, tape, out, err, &mut net, &mut clock);
    drop(net);
    status
}

// With what the words of a replay start a switch.
fn start_of(words: &[&str]) -> Result<Start, NoAnswer> {
    let mut start = Start {
        device: 1,
        cpu: 255,
        rows: 16_384,
        slots: 1_048_576,
        bridge: false,
    };
    let mut option = "";
    for word in words {
        match option {
            "--device" => start.device = word.parse::<u64>()?,
            "--cpu" => start.cpu = word.parse::<u16>()?,
            "--rows" => start.rows = word.parse::<u32>()?,
            _ => {}
        }
        start.bridge = start.bridge || *word == "--bridge";
        option = word;
    }
    Ok(start)
}

// The tape of these bytes.
fn tape_of(alloc: Global, tape: &str) -> Result<Tape, NoAnswer> {
    let mut source = MemorySource::in_pieces(bytes(alloc, tape)?, 65_536, Vec::new(alloc));
    let read = Tape::read(alloc, &mut source);
    drop(source);
    match read {
        Ok(tape) => Ok(tape),
        Err(_) => Err(NoAnswer),
    }
}

// The report that the desk gives of a tape on which no lane brings bytes.
fn report_of<T: Threads + Wait + Sync>(
    rt: &T,
    alloc: Global,
    start: Start,
    tape: Tape,
) -> Result<ByteList, NoAnswer>
    requires { start.slots ≡ 1048576 }
{
    let given = replay_in_order(rt, alloc, start, tape.into_records(alloc)?)?;
    let text = report_text(alloc, &given);
    drop(given);
    Ok(text?)
}

// Whether the desk gives this report of the tape, too. Of a tape on which a lane brings bytes it gives none.
fn desk_agrees<T: Threads + Wait + Sync>(
    rt: &T,
    alloc: Global,
    words: &[&str],
    tape: &str,
    report: &[u8],
) -> Result<bool, NoAnswer> {
    let start = Start {
        slots: 1_048_576,
        ..start_of(words)?
    };
    let tape = tape_of(alloc, tape)?;
    if tape.brings_bytes() {
        drop(tape);
        return Ok(true);
    }
    let given = report_of(rt, alloc, start, tape)?;
    Ok(given.as_slice() == report)
}

/// Adds what came, line by line, each behind a mark.
pub fn say_lines(told: &mut String, mark: &str, came: &[u8]) {
    let Ok(text) = std::str::from_utf8(came) else {
        say(told, "no text");
        return;
    };
    for line in text.split_inclusive('\n') {
        let _ = told.push('\n');
        let _ = told.push_str(mark);
        let _ = told.push_str(line.trim_end_matches('\n'));
    }
    if !text.is_empty() && !text.ends_with('\n') {
        say(told, "without an end of line");
    }
}

/// A sink with room for this many bytes, of which these pieces fail.
pub fn sink_of(alloc: Global, room: usize, pieces: &str) -> Result<MemorySink, NoAnswer> {
    let failing = numbers(alloc, pieces)?;
    Ok(MemorySink::new(alloc, room, failing)?)
}

// A tape in hex that is read seven bytes at a time, and of which these reads fail.
fn source_of(alloc: Global, tape: &str, reads: &str) -> Result<MemorySource, NoAnswer> {
    let failing = numbers(alloc, reads)?;
    Ok(MemorySource::in_pieces(bytes(alloc, tape)?, 7, failing))
}

/// Tells what the program answers to these words and the tape of a source, and gives its status. Its report is in the sink then.
pub fn tell_run<T: Threads + Wait + Sync, S: Source>(
    rt: &T,
    alloc: Global,
    words: &[&str],
    source: &mut S,
    out: &mut MemorySink,
    told: &mut String,
) -> Result<u8, NoAnswer> {
    let mut err = sink_of(alloc, 4_096, "")?;
    let status = status_of(rt, alloc, words, source, out, &mut err);
    tell(told, status);
    say_lines(told, "> ", out.sent());
    say_lines(told, "! ", err.sent());
    Ok(status)
}

/// Answers a row.
pub fn answer<T: Threads + Wait + Sync>(
    rt: &T,
    alloc: Global,
    asked: &[&str],
    told: &mut String,
) -> Result<(), NoAnswer> {
    let [words, tape, reads, pieces] = asked else {
        return Err(NoAnswer);
    };
    let words = words_of(alloc, words)?;
    let mut out = sink_of(alloc, 65_536, pieces)?;
    let mut source = source_of(alloc, tape, reads)?;
    let status = tell_run(rt, alloc, &words, &mut source, &mut out, told)?;
    if status == 0 && words.contains(&"--lockstep") {
        if !desk_agrees(rt, alloc, &words, tape, out.sent())? {
            say(told, "but not by the desk");
        }
    }
    Ok(())
}
