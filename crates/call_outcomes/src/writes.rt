//! What a Write answers, from what its updates do.
ghost use Rattle.std.specs.Prelude.{◌≡◌, ◌∷◌, [], ◌++◌, IfOk, OnOk, map, if◌then◌else◌};
ghost use Rattle.std.specs.List.{filter_map};
ghost use Rattle.std.specs.Result.{result_ok};
ghost use Rattle.p4_types.specs.declared.events.Event.TheVariants as events;
ghost use Rattle.switch_spec.specs.Answer.{atomicity_of, is_atomic, has_failed, batch, continued, all_or_nothing};
ghost use Rattle.call_outcomes.specs.Prepared.{IsPrepared};

use crate::lists::only;
use crate::messages;
use crate::prepared::Prepared;
use list_types::{ByteList, List, NoMemory};
use p4_types::calls::Atomicity;
use p4_types::code::{Cause, Code};
use p4_types::events::{Event, Origin};
use p4_types::table::Change;
use plane_state::Config;
use std::alloc::Global;

type Outcomes = List<Result<Change, Cause>>;

/// An atomicity by its number.
pub fn atomicity_of(number: i32) -> Option<Atomicity>
    ensures { result ≡ atomicity_of number }
{
    match number {
        0 => Some(Atomicity::ContinueOnError),
        1 => Some(Atomicity::RollbackOnError),
        2 => Some(Atomicity::DataplaneAtomic),
        _ => None,
    }
}

/// Whether a list takes effect whole or not at all.
pub fn is_atomic(atomicity: Option<Atomicity>) -> bool
    ensures { result ≡ is_atomic atomicity }
{
    match atomicity {
        Some(Atomicity::ContinueOnError) => false,
        _ => true,
    }
}

fn has_failed(outcomes: &[Result<Change, Cause>]) -> bool
    ensures { result ≡ has_failed outcomes.now }
{
    for outcome in outcomes {
        if outcome.is_err() {
            return true;
        }
    }
    false
}

// The changes of the updates that succeeded.
fn changes(alloc: Global, outcomes: Outcomes) -> Result<List<Change>, NoMemory>
    ensures { IfOk result (λ list. list ≡ filter_map result_ok outcomes) }
{
    let mut list = List::new(alloc);
    for outcome in outcomes.into_vec() {
        push_change(&mut list, outcome)?;
    }
    Ok(list)
}

fn push_change(list: &mut List<Change>, outcome: Result<Change, Cause>) -> Result<(), NoMemory>
    ensures { OnOk result (list.new ≡ list.old ++ filter_map result_ok (outcome ∷ [])) }
{
    if let Ok(change) = outcome {
        list.push(change)?;
    }
    Ok(())
}

// Each change is a step.
fn steps(alloc: Global, by: Origin, changes: List<Change>) -> Result<List<Event<Config>>, NoMemory>
    ensures { IfOk result (λ list. list ≡ map (events.Change by) changes) }
{
    let mut list = List::new(alloc);
    for change in changes.into_vec() {
        list.push(Event::Change { by, change })?;
    }
    Ok(list)
}

// All changes are one step; none are no step.
fn batch(alloc: Global, by: Origin, changes: List<Change>) -> Result<List<Event<Config>>, NoMemory>
    ensures { IfOk result (λ list. list ≡ batch by changes) }
{
    let mut list = List::new(alloc);
    if changes.is_empty() {
        return Ok(list);
    }
    list.push(Event::Batch { by, changes })?;
    Ok(list)
}

/// One message of no bytes.
pub fn empty_message(alloc: Global) -> Result<List<ByteList>, NoMemory>
    ensures { IfOk result (λ list. list ≡ [] ∷ []) }
{
    only(alloc, List::new(alloc))
}

// What a list answers whose updates are judged one by one.
fn continued(alloc: Global, by: Origin, outcomes: Outcomes) -> Result<Prepared, NoMemory>
    ensures { IfOk result (λ p. IsPrepared (continued by outcomes) p) }
{
    if !has_failed(outcomes.as_slice()) {
        return Ok(Prepared {
            code: Code::Ok,
            messages: empty_message(alloc)?,
            events: steps(alloc, by, changes(alloc, outcomes)?)?,
            notices: List::new(alloc),
            packet: None,
        });
    }
    let status = messages::of_continued(alloc, outcomes.as_slice())?;
    Ok(Prepared {
        code: Code::Unknown,
        messages: only(alloc, status)?,
        events: steps(alloc, by, changes(alloc, outcomes)?)?,
        notices: List::new(alloc),
        packet: None,
    })
}

// What a list answers that takes effect whole or not at all.
fn all_or_nothing(alloc: Global, by: Origin, outcomes: Outcomes) -> Result<Prepared, NoMemory>
    ensures { IfOk result (λ p. IsPrepared (all_or_nothing by outcomes) p) }
{
    if !has_failed(outcomes.as_slice()) {
        return Ok(Prepared {
            code: Code::Ok,
            messages: empty_message(alloc)?,
            events: batch(alloc, by, changes(alloc, outcomes)?)?,
            notices: List::new(alloc),
            packet: None,
        });
    }
    let status = messages::of_batch(alloc, outcomes.as_slice())?;
    Ok(Prepared {
        code: Code::Unknown,
        messages: only(alloc, status)?,
        events: List::new(alloc),
        notices: List::new(alloc),
        packet: None,
    })
}

/// What a list of updates answers.
pub fn written(
    alloc: Global,
    atomic: bool,
    by: Origin,
    outcomes: Outcomes,
) -> Result<Prepared, NoMemory>
    ensures { IfOk result (λ p. IsPrepared (if atomic then all_or_nothing by outcomes else continued by outcomes) p) }
{
    if atomic {
        all_or_nothing(alloc, by, outcomes)
    } else {
        continued(alloc, by, outcomes)
    }
}
