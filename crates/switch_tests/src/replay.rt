// Lanes run on threads of their own: some of these runs need turns of one lane between turns of another, and some have all lanes of a tape
// at once.
use crate::holding::{Holding, Turn};
use crate::tapes::{ask, beginning, insert, meet, packet, run, tape_of_calls};
use p4_types::journal::Entry;
use p4_types::records::{Fate, Record};
use p4_types::tape::Who;
use replay_run::Freely;
use std::alloc::{AllocError, Global};
use std::sync::Wait;
use std::test::Fail;
use std::thread::Threads;
use std::time::Clock;

const PACKETS: usize = 50;

fn turn(who: Who, number: u64) -> Turn {
    Turn { who, number }
}

// How many calls and packets a run had of which turns were held, and whether a turn was let go that was to be held.
#[derive(Clone, Copy)]
struct Held {
    calls: usize,
    packets: usize,
    let_go: bool,
}

fn run_held<T: Threads + Wait + Clock + Sync>(
    rt: &T,
    alloc: Global,
    first: (Turn, Turn),
    second: (Turn, Turn),
    tape: Vec<u8>,
) -> Result<Held, Fail> {
    let gate = Holding::new(rt, first, second);
    let report = run(rt, alloc, &gate, tape)?;
    let held = Held {
        calls: report.journal.len(),
        packets: report.records.len(),
        let_go: gate.has_let_go(),
    };
    drop(report);
    Ok(held)
}

// A tape with two calls of controller lane 0 and two packets of worker lane 0.
fn tape_of_both(alloc: Global) -> Result<Vec<u8>, AllocError> {
    let mut tape = tape_of_calls(alloc, 1, 2)?;
    packet(&mut tape, 0)?;
    packet(&mut tape, 0)?;
    Ok(tape)
}

// The worker's first packet waits for the controller's second call, and that for the worker's second packet.
#[test]
fn a_controller_and_a_worker_run_side_by_side(rt: HostRuntime) -> Result<(), Fail> {
    let tape = tape_of_both(rt.alloc())?;
    let held = run_held(
        &rt,
        rt.alloc(),
        (turn(Who::Worker(0), 1), turn(Who::Controller(0), 2)),
        (turn(Who::Controller(0), 2), turn(Who::Worker(0), 2)),
        tape,
    )?;
    assert!(rt; !held.let_go, "a turn was not asked");
    assert!(rt; held.calls == 2 && held.packets == 2);
    Ok(())
}

// A tape with two packets of each of two workers.
fn tape_of_workers(alloc: Global) -> Result<Vec<u8>, AllocError> {
    let mut tape = beginning(alloc)?;
    for worker in 0..2u8 {
        packet(&mut tape, worker)?;
        packet(&mut tape, worker)?;
    }
    Ok(tape)
}

// The second packet of each worker waits for that of the other.
#[test]
fn two_workers_run_side_by_side(rt: HostRuntime) -> Result<(), Fail> {
    let tape = tape_of_workers(rt.alloc())?;
    let one = turn(Who::Worker(0), 2);
    let other = turn(Who::Worker(1), 2);
    let held = run_held(&rt, rt.alloc(), (one, other), (other, one), tape)?;
    assert!(rt; !held.let_go, "a turn was not asked");
    assert!(rt; held.calls == 0 && held.packets == 4);
    Ok(())
}

// A tape with two calls of each of two controllers, one controller after the other.
fn tape_of_controllers(alloc: Global) -> Result<Vec<u8>, AllocError> {
    let mut tape = beginning(alloc)?;
    for lane in 0..2u8 {
        ask(&mut tape, lane)?;
        ask(&mut tape, lane)?;
    }
    Ok(tape)
}

// The second call of each controller waits for that of the other.
#[test]
fn two_controllers_run_side_by_side(rt: HostRuntime) -> Result<(), Fail> {
    let tape = tape_of_controllers(rt.alloc())?;
    let one = turn(Who::Controller(0), 2);
    let other = turn(Who::Controller(1), 2);
    let held = run_held(&rt, rt.alloc(), (one, other), (other, one), tape)?;
    assert!(rt; !held.let_go, "a turn was not asked");
    assert!(rt; held.calls == 4 && held.packets == 0);
    Ok(())
}

fn are_all(made: &[u64], each: u64) -> bool {
    for calls in made {
        if *calls != each {
            return false;
        }
    }
    true
}

// Whether the calls of each lane stand in the journal in their order, each once, and so many of each of the first lanes.
fn are_in_turn(
    alloc: Global,
    journal: &[Entry],
    lanes: usize,
    each: u64,
) -> Result<bool, AllocError> {
    let mut made = vec![in alloc; 0u64; lanes]?;
    for entry in journal {
        let Some(calls) = made.get_mut(entry.lane as usize) else {
            return Ok(false);
        };
        if entry.call != calls.saturating_add(1) {
            return Ok(false);
        }
        *calls = entry.call;
    }
    Ok(are_all(made.as_slice(), each))
}

// How many entries the journal has of a run in which each of the first lanes asks so often, and whether they stand in turn.
fn made_by<T: Threads + Wait + Sync>(
    rt: &T,
    alloc: Global,
    lanes: u8,
    each: u64,
) -> Result<(usize, bool), Fail> {
    let tape = tape_of_calls(alloc, lanes, each)?;
    let report = run(rt, alloc, &Freely, tape)?;
    let count = report.journal.len();
    let in_turn = are_in_turn(alloc, report.journal.as_slice(), usize::from(lanes), each);
    drop(report);
    Ok((count, in_turn?))
}

#[test]
fn two_controllers_make_the_calls_of_one_journal(rt: HostRuntime) -> Result<(), Fail> {
    for _ in 0..10u8 {
        assert!(rt; made_by(&rt, rt.alloc(), 2, 500)? == (1_000, true));
    }
    Ok(())
}

#[test]
fn thirty_two_controllers_make_the_calls_of_one_journal(rt: HostRuntime) -> Result<(), Fail> {
    for _ in 0..10u8 {
        assert!(rt; made_by(&rt, rt.alloc(), 32, 50)? == (1_600, true));
    }
    Ok(())
}

// Adds a meet of each worker with the first call of controller lane 0, and some frames behind it.
fn add_workers(tape: &mut Vec<u8>) -> Result<(), AllocError> {
    for worker in 0..16u8 {
        meet(tape, worker, 0, 1)?;
        for _ in 0..PACKETS {
            packet(tape, worker)?;
        }
    }
    Ok(())
}

// A tape on which controller lane 0 inserts the frame's address, each other controller asks three times, and each worker
// has some frames behind a meet with the insert.
fn tape_of_all(alloc: Global) -> Result<Vec<u8>, AllocError> {
    let mut tape = beginning(alloc)?;
    insert(&mut tape, 0)?;
    for lane in 1..32u8 {
        for _ in 0..3u8 {
            ask(&mut tape, lane)?;
        }
    }
    add_workers(&mut tape)?;
    Ok(tape)
}

// The frame left at port 2, by the entry that the worker had met.
fn is_forwarded(packet: &Record) -> bool {
    match packet.outputs.as_slice() {
        [output] => {
            matches!(packet.fate, Fate::Sent)
                && packet.steps == 1
                && packet.hits.len() == 1
                && output.port == 2
        }
        _ => false,
    }
}

fn are_forwarded(packets: &[Record]) -> bool {
    for packet in packets {
        if !is_forwarded(packet) {
            return false;
        }
    }
    true
}

// How many calls and packets a run of all lanes has, and whether each frame was forwarded.
fn forwarded<T: Threads + Wait + Sync>(
    rt: &T,
    alloc: Global,
) -> Result<(usize, usize, bool), Fail> {
    let tape = tape_of_all(alloc)?;
    let report = run(rt, alloc, &Freely, tape)?;
    let calls = report.journal.len();
    let packets = report.records.len();
    let all = are_forwarded(report.records.as_slice());
    drop(report);
    Ok((calls, packets, all))
}

#[test]
fn sixteen_workers_run_beside_thirty_two_controllers(rt: HostRuntime) -> Result<(), Fail> {
    for _ in 0..20u8 {
        let (calls, packets, all) = forwarded(&rt, rt.alloc())?;
        assert!(rt; calls == 94);
        assert!(rt; packets == 16 * PACKETS);
        assert!(rt; all);
    }
    Ok(())
}
