// What each thread does.
use crate::desk::asking::{Done, Made, Task, Work};
use crate::desk::dealing::Load;
use crate::desk::looking::{Sight, enter_often, look};
use crate::desk::measured::{Desk, Worker};
use list_types::NoMemory;
use p4_types::calls::Call;
use pkt_worker::Verdict;
use std::alloc::Global;
use std::sync::Wait;
use std::sync::atomic::{AtomicBool, Ordering};
use std::thread::{Threads, join, map_vec, yield_now};

/// What all threads share: the desk, what is asked for, whether the writer has made its calls, and whether the workers are done.
#[derive(Drop)]
pub struct Shared<D, R> {
    pub rt: R,
    pub alloc: Global,
    pub desk: D,
    pub task: Task,
    pub is_written: AtomicBool,
    pub is_done: AtomicBool,
}

/// A worker with its packets.
#[derive(Drop)]
pub struct Job<W> {
    pub worker: W,
    pub loads: Vec<Load>,
}

// Runs the packets once, and adds how many were sent.
fn carry_once<D: Desk>(desk: &D, worker: &mut D::Worker, sight: &mut Sight, done: &mut Done) {
    let Sight { loads, verdict, .. } = sight;
    for load in loads.as_slice() {
        if desk.carry(worker, load, verdict) {
            done.count = done.count.saturating_add(1);
        }
    }
}

// Runs the packets as often as it is asked for.
fn carry<D: Desk, R>(shared: &Shared<D, R>, mut worker: D::Worker, mut sight: Sight) -> Done {
    let mut done = Done::nothing(0);
    for _ in 0..shared.task.times {
        carry_once(&shared.desk, &mut worker, &mut sight, &mut done);
    }
    worker.end_burst();
    drop(worker);
    drop(sight);
    done
}

// Looks at snapshots until the writer has made its calls, the last time behind them.
fn look_on<D, R: Wait, W: Worker>(shared: &Shared<D, R>, worker: W, mut sight: Sight) -> Done {
    let mut viewer = worker.into_viewer();
    let mut done = Done::nothing(0);
    for _ in shared.rt.forever() {
        let is_last = shared.is_written.load(Ordering::SeqCst);
        let (left, is_entered) = look::<W>(viewer, &mut sight, &mut done);
        viewer = left;
        if is_last && is_entered {
            W::close(viewer);
            drop(sight);
            return done;
        }
        yield_now();
    }
    unreachable!()
}

// A worker's work, with memory of its own.
fn work<D: Desk, R: Wait>(shared: &Shared<D, R>, job: Job<D::Worker>) -> Result<Done, NoMemory> {
    let Job { worker, loads } = job;
    let Ok(sight) = Sight::open(shared.alloc, loads) else {
        drop(worker);
        return Err(NoMemory);
    };
    Ok(match shared.task.work {
        Work::Carry => carry(shared, worker, sight),
        Work::Look => look_on(shared, worker, sight),
        Work::Enter => {
            drop(sight);
            enter_often(worker, shared.task.times)
        }
    })
}

// What several workers did.
fn all_of(each: &[Result<Done, NoMemory>]) -> Result<Done, NoMemory> {
    let mut all = Done::nothing(u64::MAX);
    for done in each {
        match done {
            Ok(done) => all = all.and(*done),
            Err(NoMemory) => return Err(NoMemory),
        }
    }
    Ok(all)
}

// The work of all workers, each on a thread of its own.
fn work_each<D: Desk + Send + Sync, R: Threads + Wait + Send + Sync>(
    shared: &Shared<D, R>,
    jobs: Vec<Job<D::Worker>>,
) -> Result<Done, NoMemory> {
    let each = map_vec(
        &shared.rt,
        jobs,
        &|job: Job<D::Worker>| -> Result<Done, NoMemory> { work(shared, job) },
    );
    shared.is_done.store(true, Ordering::SeqCst);
    all_of(each?.as_slice())
}

/// Makes calls one after another, so often, unless the workers are done before. Without memory for a packet it makes none.
pub fn make_calls<D: Desk, R>(
    shared: &Shared<D, R>,
    pass: &mut D::Pass,
    calls: &[Call],
    turns: u64,
) -> Made {
    let mut made = Made { ok: 0, steps: 0 };
    let Ok(mut verdict) = Verdict::open(shared.alloc) else {
        return made;
    };
    for _ in 0..turns {
        for call in calls {
            if shared.is_done.load(Ordering::SeqCst) {
                return made;
            }
            made = made.and_then(shared.desk.make(pass, call, &mut verdict));
        }
    }
    made
}

// Makes the writer's calls.
fn write<D: Desk, R>(shared: &Shared<D, R>, pass: &mut D::Pass, calls: &[Call]) -> Made {
    let turns = if calls.is_empty() {
        0
    } else {
        shared.task.turns
    };
    let made = make_calls(shared, pass, calls, turns);
    shared.is_written.store(true, Ordering::SeqCst);
    made
}

/// The work of all workers beside the writer.
pub fn work_beside<D: Desk + Send + Sync, R: Threads + Wait + Send + Sync>(
    shared: &Shared<D, R>,
    pass: &mut D::Pass,
    jobs: Vec<Job<D::Worker>>,
    calls: &[Call],
) -> Result<(Done, Made), NoMemory> {
    // where no thread can be made, the writer goes first: workers may wait for its calls
    let (done, made) = join(
        &shared.rt,
        || -> Result<Done, NoMemory> { work_each(shared, jobs) },
        || -> Made { write(shared, pass, calls) },
    );
    Ok((done?, made))
}
