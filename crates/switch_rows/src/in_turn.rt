//! Rows of the whole program over memory with one call that fails, at each place in turn. The same answers in a row are told once, behind
//! how often they came.
//!
//! - A row of reads has words between blanks, how many bytes a read gives at most, how many runs there are, and what is read in hex. In
//!   the run of a number, from 0, the read of that number fails. It is told what a run of the whole program tells.
//! - A row of pieces has words, how many runs there are, and what is read in hex. In the run of a number the piece of that number of what
//!   is written fails. It is told the status, whether what was written is what stands before that piece, and the line; and where the
//!   line cannot be written, whether all else stays.
ghost use Rattle.std.specs.Prelude.{◌<◌};

use crate::runs::{say_lines, sink_of, status_of, tell_run};
use crate::turns::Turns;
use crate::words::words_of;
use row_lines::{NoAnswer, bytes, say, tell};
use std::alloc::Global;
use std::sync::Wait;
use std::thread::Threads;
use sw_edge::{MemorySink, MemorySource};

/// How many bytes a piece of a write has at most.
const PIECE: usize = 64;

// A list of this number alone.
fn only(alloc: Global, number: u64) -> Result<Vec<u64>, NoAnswer> {
    let mut numbers = Vec::new(alloc);
    numbers.push(number)?;
    Ok(numbers)
}

// What is read, of which this read fails.
fn source_of(alloc: Global, input: &[u8], piece: usize, read: u64) -> Result<MemorySource, NoAnswer>
    requires { 0 < piece }
{
    let failing = only(alloc, read)?;
    Ok(MemorySource::in_pieces(Vec::from_slice(alloc, input)?, piece, failing))
}

// What the program answers to what is read.
fn read_answer<T: Threads + Wait + Sync>(
    rt: &T,
    alloc: Global,
    words: &[&str],
    source: MemorySource,
) -> Result<String, NoAnswer> {
    let mut source = source;
    let mut out = sink_of(alloc, 65_536, "")?;
    let mut told = String::new(alloc);
    tell_run(rt, alloc, words, &mut source, &mut out, &mut told)?;
    Ok(told)
}

// Lets each read fail in turn.
fn reads<T: Threads + Wait + Sync>(
    rt: &T,
    alloc: Global,
    words: &[&str],
    piece: usize,
    runs: u64,
    input: &[u8],
    told: &mut String,
) -> Result<(), NoAnswer>
    requires { 0 < piece }
{
    let mut turns = Turns::new(alloc);
    for read in 0..runs {
        let source = source_of(alloc, input, piece, read)?;
        turns.take(read_answer(rt, alloc, words, source)?, told)?;
    }
    turns.end(told)
}

/// Answers a row of reads.
pub fn answer_reads<T: Threads + Wait + Sync>(
    rt: &T,
    alloc: Global,
    asked: &[&str],
    told: &mut String,
) -> Result<(), NoAnswer> {
    let [words, piece, runs, input] = asked else {
        return Err(NoAnswer);
    };
    let piece = piece.parse::<usize>()?;
    let runs = runs.parse::<u64>()?;
    if piece == 0 {
        return Err(NoAnswer);
    }
    let words = words_of(alloc, words)?;
    let input = bytes(alloc, input)?;
    reads(rt, alloc, &words, piece, runs, &input, told)
}

// The status of the program with these words over what is read.
fn written<T: Threads + Wait + Sync>(
    rt: &T,
    alloc: Global,
    words: &[&str],
    input: &[u8],
    out: &mut MemorySink,
    err: &mut MemorySink,
) -> Result<u8, NoAnswer> {
    let input = Vec::from_slice(alloc, input)?;
    let mut source = MemorySource::new(input, Vec::new(alloc));
    Ok(status_of(rt, alloc, words, &mut source, out, err))
}

// A sink of which this piece fails.
fn failing_at(alloc: Global, piece: u64) -> Result<MemorySink, NoAnswer> {
    Ok(MemorySink::new(alloc, 65_536, only(alloc, piece)?)?)
}

// How what was written stands to the whole, where this piece fails.
fn place_of(sent: &[u8], whole: &[u8], piece: u64) -> &'static str {
    if sent == whole {
        return "whole";
    }
    let Ok(piece) = usize::try_from(piece) else {
        return "another";
    };
    if whole.starts_with(sent) && Some(sent.len()) == piece.checked_mul(PIECE) {
        "cut there"
    } else {
        "another"
    }
}

// Tells whether the same comes where the line cannot be written.
fn tell_silent<T: Threads + Wait + Sync>(
    rt: &T,
    alloc: Global,
    words: &[&str],
    input: &[u8],
    piece: u64,
    spoken: (u8, &[u8]),
    told: &mut String,
) -> Result<(), NoAnswer> {
    let (status, sent) = spoken;
    let mut out = failing_at(alloc, piece)?;
    let mut err = failing_at(alloc, 0)?;
    let silent = written(rt, alloc, words, input, &mut out, &mut err)?;
    if silent != status || out.sent() != sent || !err.sent().is_empty() {
        say(told, "but not without its line");
    }
    Ok(())
}

// What comes where this piece of what is written fails.
fn piece_answer<T: Threads + Wait + Sync>(
    rt: &T,
    alloc: Global,
    words: &[&str],
    input: &[u8],
    whole: &[u8],
    piece: u64,
) -> Result<String, NoAnswer> {
    let mut out = failing_at(alloc, piece)?;
    let mut err = sink_of(alloc, 4_096, "")?;
    let status = written(rt, alloc, words, input, &mut out, &mut err)?;
    let mut told = String::new(alloc);
    tell(&mut told, status);
    say(&mut told, place_of(out.sent(), whole, piece));
    tell_silent(
        rt,
        alloc,
        words,
        input,
        piece,
        (status, out.sent()),
        &mut told,
    )?;
    say_lines(&mut told, "! ", err.sent());
    Ok(told)
}

// What is written where no piece fails.
fn whole_of<T: Threads + Wait + Sync>(
    rt: &T,
    alloc: Global,
    words: &[&str],
    input: &[u8],
) -> Result<MemorySink, NoAnswer> {
    let mut out = sink_of(alloc, 65_536, "")?;
    let mut err = sink_of(alloc, 4_096, "")?;
    let _status = written(rt, alloc, words, input, &mut out, &mut err)?;
    Ok(out)
}

// Lets each piece fail in turn.
fn pieces<T: Threads + Wait + Sync>(
    rt: &T,
    alloc: Global,
    words: &[&str],
    runs: u64,
    input: &[u8],
    told: &mut String,
) -> Result<(), NoAnswer> {
    let whole = whole_of(rt, alloc, words, input)?;
    let mut turns = Turns::new(alloc);
    for piece in 0..runs {
        turns.take(
            piece_answer(rt, alloc, words, input, whole.sent(), piece)?,
            told,
        )?;
    }
    turns.end(told)
}

/// Answers a row of pieces.
pub fn answer_pieces<T: Threads + Wait + Sync>(
    rt: &T,
    alloc: Global,
    asked: &[&str],
    told: &mut String,
) -> Result<(), NoAnswer> {
    let [words, runs, input] = asked else {
        return Err(NoAnswer);
    };
    let runs = runs.parse::<u64>()?;
    let words = words_of(alloc, words)?;
    let input = bytes(alloc, input)?;
    pieces(rt, alloc, &words, runs, &input, told)
}
