// The plan, at a desk of its own.
ghost use Rattle.std.specs.Prelude.{◌≡◌};
ghost use Rattle.live_desk.specs.Opening.{AreParts};

use crate::desk::asking::{Ran, Task};
use crate::desk::dealing::{Calls, Load};
use crate::desk::measured::Desk;
use crate::desk::working::{Job, Shared, make_calls, work_beside};
use crate::moments::nanoseconds;
use crate::tapes::START;
use list_types::NoMemory;
use live_desk::{LiveDesk, Naming, Parts, open_desk, open_parts};
use pub_snap::Publisher;
use std::alloc::Global;
use std::marker::Brand;
use std::sync::Wait;
use std::sync::atomic::AtomicBool;
use std::thread::Threads;
use std::time::Clock;

/// How many workers run at once at most.
const MOST_WORKERS: usize = 16;

/// A desk with its passes and its workers.
type Opened<D, P, W> = (D, (Vec<P>, Vec<W>));

// A job for each worker that has a list of packets.
fn jobs_of<W: Drop>(
    alloc: Global,
    workers: Vec<W>,
    mut loads: Vec<Vec<Load>>,
) -> Result<Vec<Job<W>>, NoMemory> {
    let mut jobs = Vec::new(alloc);
    for worker in workers {
        if let Some(loads) = loads.pop() {
            jobs.push(Job { worker, loads })?;
        }
    }
    Ok(jobs)
}

// The first calls are made, and then the workers work beside the writer.
fn run_calls<D: Desk + Send + Sync, T: Threads + Wait + Clock + Sync>(
    rt: &T,
    shared: &Shared<D, &T>,
    pass: &mut D::Pass,
    jobs: Vec<Job<D::Worker>>,
    calls: &Calls,
) -> Result<Ran, NoMemory> {
    let first = make_calls(shared, pass, calls.first.as_slice(), 1);
    let workers = jobs.len();
    let before = nanoseconds(rt);
    let (done, written) = work_beside(shared, pass, jobs, calls.written.as_slice())?;
    Ok(Ran {
        first,
        workers,
        done,
        written,
        nanoseconds: nanoseconds(rt).saturating_sub(before),
    })
}

// The calls and the work of these workers, with one pass of those of the desk.
fn run_workers<D: Desk + Send + Sync, T: Threads + Wait + Clock + Sync>(
    rt: &T,
    shared: &Shared<D, &T>,
    mut passes: Vec<D::Pass>,
    jobs: Vec<Job<D::Worker>>,
    calls: &Calls,
) -> Result<Ran, NoMemory> {
    let pass = passes.pop();
    drop(passes);
    match pass {
        Some(mut pass) => {
            let ran = run_calls(rt, shared, &mut pass, jobs, calls);
            drop(pass);
            ran
        }
        None => {
            drop(jobs);
            Err(NoMemory)
        }
    }
}

// The plan at a desk that was opened.
fn run_at<D: Desk + Send + Sync + Drop, T: Threads + Wait + Clock + Sync>(
    rt: &T,
    alloc: Global,
    opened: Opened<D, D::Pass, D::Worker>,
    calls: &Calls,
    loads: Vec<Vec<Load>>,
    task: Task,
) -> Result<Ran, NoMemory> {
    let (desk, (passes, workers)) = opened;
    let shared = Shared {
        rt,
        alloc,
        desk,
        task,
        is_written: AtomicBool::new(false),
        is_done: AtomicBool::new(false),
    };
    let ran = match jobs_of(alloc, workers, loads) {
        Ok(jobs) => run_workers(rt, &shared, passes, jobs, calls),
        Err(NoMemory) => {
            drop(passes);
            Err(NoMemory)
        }
    };
    drop(shared);
    ran
}

// The plan at a desk with these names.
fn run<J: Naming + Send + Sync, T: Threads + Wait + Clock + Sync>(
    rt: &T,
    alloc: Global,
    publisher: Publisher<&T>,
    parts: Parts,
    calls: &Calls,
    loads: Vec<Vec<Load>>,
    task: Task,
) -> Result<Ran, NoMemory>
    requires start { START ≡ J.start }
    requires parts { AreParts START publisher parts }
    requires list { publisher.told.list ≡ J.list }
    requires bank { parts.bank.id ≡ J.bank }
    requires table { parts.table ≡ J.table }
{
    let Ok(opened) = open_desk::<J, &T>(rt, alloc, START, publisher, parts) else {
        drop(loads);
        return Err(NoMemory);
    };
    run_at::<LiveDesk<J, &T>, T>(rt, alloc, opened, calls, loads, task)
}

/// Opens a desk with a worker for each list of packets, at most 16, and runs the calls and the packets there.
pub fn open_and_run<T: Threads + Wait + Clock + Sync>(
    rt: &T,
    alloc: Global,
    calls: &Calls,
    loads: Vec<Vec<Load>>,
    task: Task,
) -> Result<Ran, NoMemory> {
    let workers = loads.len().min(MOST_WORKERS);
    let Ok((publisher, parts)) = open_parts(rt, alloc, &START, workers) else {
        drop(loads);
        return Err(NoMemory);
    };
    run::<Brand, T>(rt, alloc, publisher, parts, calls, loads, task)
}
