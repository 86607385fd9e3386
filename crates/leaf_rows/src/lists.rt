//! A vector whose edits are undone, and outboxes.
use mail_room::Outbox;
use row_lines::{NoAnswer, Step, say, steps, tell};
use std::alloc::Global;
use undo_vec::UndoVec;

fn edit(list: &mut UndoVec<u64>, step: Step<'_>) -> Result<(), NoAnswer> {
    let [place, item, _, _] = step.numbers;
    let at = usize::try_from(place).unwrap_or(usize::MAX);
    match step.verb {
        "push" => list.push(place)?,
        "insert" if at <= list.len() => list.insert(at, item)?,
        "replace" if at < list.len() => list.replace(at, item)?,
        "remove" if at < list.len() => list.remove(at)?,
        "settle" => list.settle(),
        "undo" => list.undo(),
        _ => return Err(NoAnswer),
    }
    Ok(())
}

/// Of edits: the items after each `settle`, `undo` and `show`.
pub fn edits(alloc: Global, asked: &[&str], told: &mut String) -> Result<(), NoAnswer> {
    let [part] = asked else {
        return Err(NoAnswer);
    };
    let mut list = UndoVec::new(alloc);
    for step in steps(alloc, part)? {
        if step.verb != "show" {
            edit(&mut list, step)?;
        }
        if matches!(step.verb, "settle" | "undo" | "show") {
            tell(told, list.as_slice());
        }
    }
    Ok(())
}

// Puts this many items, with the numbers from `first` on. How many were taken, and which came back first.
fn put(told: &mut String, outbox: &mut Outbox<u64>, notices: bool, first: u64, count: u64) {
    let mut taken = 0u64;
    let mut back = None;
    for number in 0..count {
        let item = first.wrapping_add(number);
        let put = if notices {
            outbox.put_notice(item)
        } else {
            outbox.put_packet(item)
        };
        match put {
            Ok(()) => taken = taken.wrapping_add(1),
            Err(item) => back = back.or(Some(item)),
        }
    }
    tell(told, taken);
    tell(told, back);
}

// Takes this many items. How many of them, from the first on, have the numbers from `first` on.
fn take(outbox: &mut Outbox<u64>, first: u64, count: u64) -> u64 {
    for number in 0..count {
        if outbox.next() != Some(first.wrapping_add(number)) {
            return number;
        }
    }
    count
}

/// Of `packets` and `notices`, each with a first number and a count: how many are taken, and the first that comes back.
/// Of `take` with both: how many items bear these numbers. Of `next`: that item. How many wait at last.
pub fn outbox(alloc: Global, asked: &[&str], told: &mut String) -> Result<(), NoAnswer> {
    let [part] = asked else {
        return Err(NoAnswer);
    };
    let mut outbox = Outbox::open(alloc)?;
    for step in steps(alloc, part)? {
        let [first, count, _, _] = step.numbers;
        match step.verb {
            "packets" => put(told, &mut outbox, false, first, count),
            "notices" => put(told, &mut outbox, true, first, count),
            "take" => tell(told, take(&mut outbox, first, count)),
            "next" => tell(told, outbox.next()),
            _ => return Err(NoAnswer),
        }
    }
    say(told, "waiting");
    tell(told, outbox.len());
    tell(told, outbox.is_empty());
    Ok(())
}
