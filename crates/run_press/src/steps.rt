//! The steps that events are.
ghost use Rattle.std.specs.Prelude.{◌≡◌, ◌∷◌, ◌++◌, [], map, IfOk, OnOk};
ghost use Rattle.switch_spec.specs.History.{step_of};
ghost use Rattle.run_press.specs.Kinds.{steps_in};

use list_types::{List, NoMemory};
use p4_types::events::Event;
use p4_types::journal::{Step, StepKind};
use plane_state::Config;
use std::alloc::Global;

// The step that an event is, if it is one.
fn step_of(event: &Event<Config>) -> Option<Step>
    ensures { result ≡ step_of event.now }
{
    match event {
        Event::Arbitrate { .. } => Some(Step {
            kind: StepKind::Arbitrate,
            changes: 0,
        }),
        Event::Leave { .. } => Some(Step {
            kind: StepKind::Leave,
            changes: 0,
        }),
        Event::Change { .. } => Some(Step {
            kind: StepKind::Change,
            changes: 1,
        }),
        Event::Batch { changes, .. } => Some(Step {
            kind: StepKind::Batch,
            changes: changes.len() as u64,
        }),
        Event::Save { .. } => Some(Step {
            kind: StepKind::Save,
            changes: 0,
        }),
        Event::Commit { .. } => Some(Step {
            kind: StepKind::Commit,
            changes: 0,
        }),
        Event::Close => None,
    }
}

/// The step that each of these events is, if it is one.
pub fn kinds_of(alloc: Global, events: &[Event<Config>]) -> Result<Vec<Option<Step>>, NoMemory>
    ensures { IfOk result (λ kinds. kinds.items ≡ map step_of events.now) }
{
    let mut kinds = Vec::new(alloc);
    for event in events {
        kinds.push(step_of(event))?;
    }
    Ok(kinds)
}

fn push_step(steps: &mut List<Step>, kind: Option<Step>) -> Result<(), NoMemory>
    ensures { OnOk result (steps.new ≡ steps.old ++ steps_in (kind ∷ [])) }
{
    if let Some(step) = kind {
        steps.push(step)?;
    }
    Ok(())
}

/// The steps among these.
pub fn steps_in(alloc: Global, kinds: &[Option<Step>]) -> Result<List<Step>, NoMemory>
    ensures { IfOk result (λ steps. steps ≡ steps_in kinds.now) }
{
    let mut steps = List::new(alloc);
    for kind in kinds {
        push_step(&mut steps, *kind)?;
    }
    Ok(steps)
}
