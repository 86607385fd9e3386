//! Ticks over watched entries.
ghost use Rattle.std.specs.Prelude.{◌≡◌, ◌<◌, ◌≤◌, length, IfOk};

use idle_words::{Idle, StampSeat, Stamps, Watched, open};
use row_lines::{NoAnswer, Step, steps, tell};
use std::alloc::Global;

const STAMPS: u32 = 8;

fn stamp_of(number: u64) -> Result<u32, NoAnswer>
    ensures { IfOk result (λ stamp. stamp < STAMPS) }
{
    if number < u64::from(STAMPS) {
        Ok(number as u32)
    } else {
        Err(NoAnswer)
    }
}

fn act(
    alloc: Global,
    stamps: &Stamps,
    seat: &mut StampSeat,
    idle: &mut Idle,
    entries: &mut Vec<Watched>,
    step: Step<'_>,
    told: &mut String,
) -> Result<(), NoAnswer>
    requires seat { seat.old.stamps ≡ stamps.now.id }
    requires room { (stamps.now.count ≡ STAMPS) × (STAMPS ≤ length idle.old.untold) }
    ensures seat { seat.new.stamps ≡ seat.old.stamps }
    ensures room { length idle.new.untold ≡ length idle.old.untold }
{
    let [one, two, three, _] = step.numbers;
    match step.verb {
        "watch" => entries.push(Watched {
            seq: one,
            stamp: stamp_of(two)?,
            timeout: three,
        })?,
        "touch" => stamps.touch(seat, stamp_of(one)?, two),
        "tick" => {
            if !entries.iter().all(|entry| entry.stamp < STAMPS) {
                return Err(NoAnswer);
            }
            let names = idle.tick(alloc, one, entries.as_slice(), stamps, seat)?;
            tell(told, names.as_slice());
        }
        "next" => tell(told, idle.next_tick()),
        _ => return Err(NoAnswer),
    }
    Ok(())
}

/// Of an entry that is watched, a touch and a tick: of each tick the entries that it names, and of `next` when the next tick may name one.
pub fn ticks(alloc: Global, asked: &[&str], told: &mut String) -> Result<(), NoAnswer> {
    let [part] = asked else {
        return Err(NoAnswer);
    };
    let (stamps, mut seat) = open(alloc, STAMPS)?;
    let mut idle = Idle::open(alloc, STAMPS)?;
    let mut entries = Vec::new(alloc);
    let steps = steps(alloc, part)?;
    for step in steps.as_slice() {
        act(
            alloc,
            &stamps,
            &mut seat,
            &mut idle,
            &mut entries,
            *step,
            told,
        )?;
    }
    Ok(())
}
