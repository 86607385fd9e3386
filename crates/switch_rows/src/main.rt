//! Rows of the whole switch, a row a line of the standard input: its kind, its name, and what is asked, with tabs between them.
//!
//! - `run` is the whole program over memory.
//! - `repeated` is the same over a tape that is made while it is read.
//! - `reads-in-turn` and `pieces-in-turn` are the same with one call that fails, at each place in turn.
//! - `cuts` is the same of a connection to a switch that serves.
//! - `desk` is what callers and workers do at the desk of a switch that serves.
#![tactic(auto)]

mod cuts;
mod desks;
mod in_turn;
mod links;
mod opening;
mod repeated;
mod runs;
mod stage;
mod steps;
mod telling;
mod turns;
mod words;

use row_lines::NoAnswer;
use std::alloc::Global;
use std::io;
use std::sync::Wait;
use std::thread::Threads;

// Answers a row of its kind.
fn answer<T: Threads + Wait + Sync>(
    rt: &T,
    alloc: Global,
    kind: &str,
    asked: &[&str],
    told: &mut String,
) -> Result<(), NoAnswer> {
    match kind {
        "run" => runs::answer(rt, alloc, asked, told),
        "repeated" => repeated::answer(rt, alloc, asked, told),
        "reads-in-turn" => in_turn::answer_reads(rt, alloc, asked, told),
        "pieces-in-turn" => in_turn::answer_pieces(rt, alloc, asked, told),
        "desk" => opening::answer(rt, alloc, asked, told),
        "cuts" => cuts::answer(rt, alloc, asked, told),
        _ => Err(NoAnswer),
    }
}

fn main(rt: HostRuntime) -> io::Result<()> {
    row_lines::answer_lines(
        &rt,
        |alloc: Global, kind: &str, asked: &[&str], told: &mut String| {
            answer(&rt, alloc, kind, asked, told)
        },
    )
}
