//! A row of a desk: what callers and workers do at the desk of a switch that serves, each row at a desk of its own, and what they get
//! of it.
//!
//! A row has what the desk opens with, and steps, with tabs between them. A desk opens with so many workers, and with the bridge or
//! with no program (`1 bridge`, `2 -`), and where a third word names them with so many slots of counters (`0 bridge 1024`); its device
//! is 1, and packets of controllers enter at port 255. Each step is answered on a line of its own:
//!
//! - `call LANE METHOD HEX`, as a connection asks: the reply's code and messages, the notices that the caller is told with it, and the
//!   packet that it makes enter. `leave LANE` is the end of the caller's stream.
//! - `next LANE NOW`, as a connection asks: what the lane is given, a message or an output or an overflow, or nothing, and how many
//!   steps its pass then knows.
//! - `packet WORKER PORT NOW HEX`, which comes at the worker's ports: after how many steps it is run, the lane of the primary then, and
//!   what is put at a port. What it gives to controllers is handed on.
//! - `run WORKER PORT HEX`: the same and the packet's fate, of a packet that comes at no ports. What it gives to controllers is handed on
//!   only by `deliver WORKER NOW`.
//! - `link LANE HEX`: a connection of these bytes, served by the lane to its end, which is told. `link LANE HEX WAY N` is one that is cut:
//!   by `end` and `fault` it ends or fails behind N bytes, by `push` its bytes come one by one and its push N fails, from 0.
//! - `tell LANE LANE`: the second learns what the first tells, and how many steps it then knows.
//! - `repeat N STEP;STEP`: these steps so often, the same answers in a row told once, behind their number.
//!
//! METHOD is `write`, `read`, `set`, `get`, `stream` or `capabilities`, HEX is bytes, of which `.` has none, and NOW is in nanoseconds.
//! In the end the desk is closed and each pass is compared with it, and the number of steps is told.
ghost use Rattle.std.specs.Prelude.{◌≡◌, ◌<◌, ◌≤◌, IfOk};
ghost use Rattle.live_desk.specs.Opening.{AreParts};

use crate::desks::RowDesk;
use crate::stage::{DeskStage, verdicts_of};
use crate::steps::answer_steps;
use live_desk::{Naming, Parts, open_desk, open_parts};
use p4_types::events::Start;
use pkt_worker::Verdict;
use pub_snap::Publisher;
use row_lines::{NoAnswer, say};
use serve_run::with_verdicts;
use std::alloc::Global;
use std::marker::Brand;
use std::sync::Wait;

/// How many workers a desk has at most.
const MOST_WORKERS: usize = 16;

/// How many slots of counters a desk has at most, and where it is not said how many.
const MOST_SLOTS: u32 = 1_048_576;

// Does the steps of a row at a desk with these passes, the highest lane first, and these workers, and closes it.
fn answer_at<W: Wait, D: RowDesk>(
    rt: &W,
    alloc: Global,
    desk: D,
    passes: Vec<D::Pass>,
    workers: Vec<D::Worker>,
    verdicts: Vec<Verdict>,
    steps: &[&str],
    told: &mut String,
) -> Result<(), NoAnswer> {
    let mut stage = DeskStage::new(rt, desk, passes, workers, verdicts);
    say(told, "open");
    let done = answer_steps(alloc, &mut stage, steps, told);
    let steps = stage.close();
    write!(told, "\n> end {steps}")?;
    done
}

// Answers a row at the desk of these names.
fn play<'a, J: Naming, T: Wait>(
    rt: &'a T,
    alloc: Global,
    start: Start,
    publisher: Publisher<&'a T>,
    parts: Parts,
    verdicts: Vec<Verdict>,
    steps: &[&str],
    told: &mut String,
) -> Result<(), NoAnswer>
    requires start { start ≡ J.start }
    requires parts { AreParts start publisher parts }
    requires list { publisher.told.list ≡ J.list }
    requires bank { parts.bank.id ≡ J.bank }
    requires table { parts.table ≡ J.table }
{
    let Ok((desk, (passes, workers))) = open_desk::<J, &T>(rt, alloc, start, publisher, parts)
    else {
        return Err(NoAnswer);
    };
    let Ok(passes) = with_verdicts(alloc, passes) else {
        drop(desk);
        drop(workers);
        return Err(NoAnswer);
    };
    answer_at(rt, alloc, desk, passes, workers, verdicts, steps, told)
}

// Answers a row at a desk that starts so, with so many workers.
fn open_and_play<T: Wait>(
    rt: &T,
    alloc: Global,
    start: Start,
    workers: usize,
    verdicts: Vec<Verdict>,
    steps: &[&str],
    told: &mut String,
) -> Result<(), NoAnswer>
    requires workers { workers ≤ 16 }
    requires slots { (0 < start.slots) × (start.slots ≤ 1048576) }
{
    let Ok((publisher, parts)) = open_parts(rt, alloc, &start, workers) else {
        return Err(NoAnswer);
    };
    play::<Brand, T>(rt, alloc, start, publisher, parts, verdicts, steps, told)
}

// A program, and how many slots there are.
fn slots_of(words: &str) -> Result<(&str, u32), NoAnswer>
    ensures { IfOk result (λ r. (0 < r.1) × (r.1 ≤ 1048576)) }
{
    let Some((program, slots)) = words.split_once(' ') else {
        return Ok((words, MOST_SLOTS));
    };
    let slots = slots.parse::<u32>()?;
    if slots == 0 || slots > MOST_SLOTS {
        return Err(NoAnswer);
    }
    Ok((program, slots))
}

// With what a desk opens, and with how many workers.
fn opening_of(words: &str) -> Result<(usize, Start), NoAnswer>
    ensures { IfOk result (λ r. (0 < r.1.slots) × (r.1.slots ≤ 1048576)) }
{
    let Some((workers, program)) = words.split_once(' ') else {
        return Err(NoAnswer);
    };
    let (program, slots) = slots_of(program)?;
    let start = Start {
        device: 1,
        cpu: 255,
        rows: 1_024,
        slots,
        bridge: program == "bridge",
    };
    Ok((workers.parse::<usize>()?, start))
}

/// Answers a row: its steps, a line each.
pub fn answer<T: Wait>(
    rt: &T,
    alloc: Global,
    asked: &[&str],
    told: &mut String,
) -> Result<(), NoAnswer> {
    let [words, steps @ ..] = asked else {
        return Err(NoAnswer);
    };
    let (workers, start) = opening_of(words)?;
    if workers > MOST_WORKERS {
        return Err(NoAnswer);
    }
    let verdicts = verdicts_of(alloc, workers)?;
    open_and_play(rt, alloc, start, workers, verdicts, steps, told)
}
