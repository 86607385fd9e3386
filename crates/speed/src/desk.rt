// The desk of a switch that serves, by a tape. The calls of its controllers' lane 0 are made first. Then each lane of workers works on a
// thread of its own, beside a writer that makes the calls of lane 1 in turn.
mod asking;
mod dealing;
mod live;
mod looking;
mod measured;
mod running;
mod working;

use crate::moments::nanoseconds;
use crate::tapes::read_tape;
use asking::{Ran, Task, Work};
use dealing::{Plan, deal};
use list_types::NoMemory;
use running::open_and_run;
use std::alloc::Global;
use std::env::Args;
use std::io;
use std::sync::Wait;
use std::sync::atomic::{AtomicU64, Ordering};
use std::thread::Threads;
use std::time::Clock;
use tape_form::Tape;

/// How often the writer makes its calls at most, beside workers that do not wait for it.
const MOST_TURNS: u64 = 100_000_000;

// What workers do by the next of the words.
fn work_of(words: &mut Args) -> Option<Work> {
    match words.next()?.as_str() {
        "look" => Some(Work::Look),
        "packets" => Some(Work::Carry),
        "enter" => Some(Work::Enter),
        _ => None,
    }
}

// The number that is the next of the words.
fn times_of(words: &mut Args) -> Option<u64> {
    words.next()?.as_str().parse::<u64>().ok()
}

// What the words ask for.
fn task_of(words: &mut Args) -> Option<Task> {
    let work = work_of(words)?;
    let times = times_of(words)?;
    let turns = match work {
        Work::Look => times,
        Work::Carry | Work::Enter => MOST_TURNS,
    };
    Some(Task { work, times, turns })
}

// How long so many additions to an atomic word take, and what they come to.
fn additions<T: Clock>(rt: &T, times: u64) -> (u128, u64) {
    let word = AtomicU64::new(0);
    let before = nanoseconds(rt);
    for _ in 0..times {
        word.fetch_add(1, Ordering::SeqCst);
    }
    let took = nanoseconds(rt).saturating_sub(before);
    (took, word.load(Ordering::SeqCst))
}

fn tell_looks(rt: &HostRuntime, ran: &Ran) -> io::Result<()> {
    println!(rt;
        "{} calls OK, {} of the writer",
        ran.first.ok, ran.written.ok
    )?;
    println!(rt;
        "{} readers: {} snapshots torn, {} older than the one before, {} of {} steps seen by each",
        ran.workers, ran.done.torn, ran.done.back, ran.done.steps, ran.written.steps
    )
}

fn tell_times(rt: &HostRuntime, task: Task, what: &str, ran: &Ran) -> io::Result<()> {
    println!(rt;
        "{} calls OK, {} workers, {} {what}",
        ran.first.ok, ran.workers, ran.done.count
    )?;
    let (took, added) = additions(rt, task.times);
    println!(rt;
        "{} us, {} calls of the writer OK, {added} additions in {} us",
        ran.nanoseconds / 1_000,
        ran.written.ok,
        took / 1_000
    )
}

fn tell_ran(rt: &HostRuntime, task: Task, ran: &Ran) -> io::Result<()> {
    match task.work {
        Work::Look => tell_looks(rt, ran),
        Work::Carry => tell_times(rt, task, "packets sent", ran),
        Work::Enter => tell_times(rt, task, "snapshots entered", ran),
    }
}

// What the records of a tape make of it.
fn plan_of(alloc: Global, tape: Tape) -> Result<Plan, NoMemory> {
    let records = tape.into_records(alloc)?;
    let plan = deal(alloc, records.as_slice());
    drop(records);
    plan
}

// What came of the task by a tape.
fn ran_by<T: Threads + Wait + Clock + Sync>(
    threads: &T,
    alloc: Global,
    tape: Tape,
    task: Task,
) -> Result<Ran, NoMemory> {
    let Plan { calls, loads } = plan_of(alloc, tape)?;
    let ran = open_and_run(threads, alloc, &calls, loads, task);
    drop(calls);
    ran
}

/// Does what the words ask for at a desk by the tape that they name, and tells what came of it. Whether they are the words of a desk.
pub fn tell<T: Threads + Wait + Clock + Sync>(
    threads: &T,
    rt: &HostRuntime,
    words: &mut Args,
) -> io::Result<bool> {
    let Some(task) = task_of(words) else {
        return Ok(false);
    };
    let (tape, _) = read_tape(rt, words)?;
    let ran = match tape {
        Some(tape) => ran_by(threads, rt.alloc(), tape, task),
        None => {
            println!(rt; "no tape")?;
            return Ok(true);
        }
    };
    match ran {
        Ok(ran) => tell_ran(rt, task, &ran)?,
        Err(NoMemory) => println!(rt; "no memory")?,
    }
    Ok(true)
}
