//! The answers to calls, before their events are handed on.
ghost use Rattle.std.specs.Prelude.{◌≡◌, false, IfOk};
ghost use Rattle.std.specs.Option.{option_copied};
ghost use Rattle.switch_spec.specs.Answer.{write_refusal, write_answer, written, answer_to, is_atomic, atomicity_of};
ghost use Rattle.plane_spec.specs.Legal.{Legal};
ghost use Rattle.plane_spec.specs.Planes.{primary as primary_session, scope_of, applied, outcomes};
ghost use Rattle.switch_spec.specs.History.{is_unavailable};
ghost use Rattle.switch_spec.specs.Reading.{read_result};
ghost use Rattle.call_outcomes.specs.Prepared.{IsPrepared};
ghost use Rattle.ctl_core.specs.Prepared.{Leads, Made};

use crate::{pipelines, stream};
use call_outcomes::{
    Prepared, atomicity_of, capabilities, failure, is_atomic, is_of_primary, read_reply,
    unreadable, written,
};
use list_types::{ByteList, List, NoMemory};
use p4_types::calls::Call;
use p4_types::code::Code;
use p4_types::events::{Event, Origin};
use p4_types::messages::{ReadRequest, WriteRequest};
use plane_image::{Image, Scope};
use plane_read::Counts;
use plane_state::Config;
use role_arbiter::Session;
use std::alloc::Global;

/// How many updates a Write may have.
const UPDATES: usize = 4_096;

// Why a Write is refused whole, where its role has this primary, or none.
fn write_refusal(image: &Image, primary: Option<&Session>, request: &WriteRequest) -> Option<Code>
    requires { option_copied primary ≡ primary_session image.now.now request.now.role_id }
    ensures { result ≡ write_refusal image.now.now request.now }
{
    if request.device_id != image.device() {
        return Some(Code::NotFound);
    }
    if !is_of_primary(primary, request.election_id) {
        return Some(Code::PermissionDenied);
    }
    if image.target().is_none() {
        return Some(Code::FailedPrecondition);
    }
    if atomicity_of(request.atomicity).is_none() {
        return Some(Code::InvalidArgument);
    }
    if request.updates.len() > UPDATES {
        return Some(Code::ResourceExhausted);
    }
    None
}

// What the updates of a Write answer, which are made in the image, where the role's primary may write what the scope says.
fn updated(
    alloc: Global,
    image: &mut Image,
    by: Origin,
    scope: &Scope,
    request: &WriteRequest,
) -> Result<Prepared, NoMemory>
    requires role { scope.now.role ≡ request.now.role_id }
    requires scope { scope.now.ids ≡ scope_of image.old.now scope.now.role }
    ensures answer { IfOk result (λ p. IsPrepared (written (is_atomic (atomicity_of request.now.atomicity)) by (outcomes image.old.now request.now.role_id request.now.updates)) p) }
    ensures made { IfOk result (λ p. Made image.old.now image.new.now p.events) }
    ensures before { image.new.before ≡ image.old.before }
    ensures steps { image.new.steps ≡ image.old.steps }
{
    let outcomes = image.updates(alloc, scope, request.updates.as_slice())?;
    let atomic = is_atomic(atomicity_of(request.atomicity));
    let answer = written(alloc, atomic, by, outcomes)?;
    Ok(answer)
}

// Where there are no events, nothing is changed.
fn undo_without(image: &mut Image, events: &[Event<Config>])
    requires made { Made image.old.before image.old.now events.now }
    ensures now { image.new.now ≡ applied image.old.before events.now }
    ensures before { image.new.before ≡ image.old.before }
    ensures steps { image.new.steps ≡ image.old.steps }
{
    if events.is_empty() {
        image.undo();
    }
}

fn write(
    alloc: Global,
    image: &mut Image,
    lane: u16,
    call: u64,
    request: &WriteRequest,
) -> Result<Prepared, NoMemory>
    requires settled { image.old.before ≡ image.old.now }
    ensures prepared { IfOk result (λ p. IsPrepared (write_answer image.old.now lane call request.now) p) }
    ensures leads { IfOk result (λ p. Leads image.old image.new p.events) }
    ensures before { image.new.before ≡ image.old.before }
    ensures steps { image.new.steps ≡ image.old.steps }
{
    let primary = image.roles().primary_session(request.role_id);
    if let Some(code) = write_refusal(image, primary, request) {
        return failure(alloc, code);
    }
    let scope = Scope::of(request.role_id, primary);
    let by = Origin {
        caller: lane,
        call,
        role: request.role_id,
        election_id: request.election_id,
    };
    let prepared = updated(alloc, image, by, &scope, request)?;
    undo_without(image, prepared.events.as_slice());
    Ok(prepared)
}

// What a Read selects, or the code with which it is refused.
#[tactic(auto, unfolding(switch_spec::specs::Reading::read_result))]
fn read<C: Counts>(
    alloc: Global,
    image: &Image,
    counts: &C,
    request: &ReadRequest,
) -> Result<Result<List<ByteList>, Code>, NoMemory>
    ensures { IfOk result (λ answer. answer ≡ read_result image.now.now (C.figures counts.now) request.now) }
{
    if request.device_id != image.device() {
        return Ok(Err(Code::NotFound));
    }
    match image.target() {
        Some(plane) => plane_read::read(alloc, plane, counts, request.entities.as_slice()),
        None => Ok(Err(Code::FailedPrecondition)),
    }
}

// The answer to a lane's call.
fn answer<C: Counts>(
    alloc: Global,
    image: &mut Image,
    lane: u16,
    number: u64,
    call: &Call,
    counts: &C,
) -> Result<Prepared, NoMemory>
    requires settled { image.old.before ≡ image.old.now }
    ensures prepared { IfOk result (λ p. IsPrepared (answer_to image.old.now (C.figures counts.now) lane number call.now) p) }
    ensures leads { IfOk result (λ p. Leads image.old image.new p.events) }
    ensures before { image.new.before ≡ image.old.before }
    ensures steps { image.new.steps ≡ image.old.steps }
{
    match call {
        Call::Write(request) => write(alloc, image, lane, number, request),
        Call::Read(request) => read_reply(alloc, read(alloc, image, counts, request)?),
        Call::Set(request) => pipelines::set(alloc, image, lane, number, request),
        Call::Get(request) => pipelines::get(alloc, image, request),
        Call::Stream(message) => stream::answer(alloc, image, lane, number, message),
        Call::Leave => stream::leave(alloc, image, lane, number),
        Call::Capabilities => capabilities(alloc),
        Call::Unreadable(method) => unreadable(alloc, *method),
    }
}

/// The answer to a lane's call, whose events were made in the image and may follow; a Read sees these counts. Without
/// memory the image may be changed, which is still to be undone.
pub(crate) fn prepare<C: Counts>(
    alloc: Global,
    image: &mut Image,
    lane: u16,
    number: u64,
    call: &Call,
    counts: &C,
) -> Result<Prepared, NoMemory>
    requires settled { image.old.before ≡ image.old.now }
    requires alive { image.old.now.closed ≡ false }
    ensures prepared { IfOk result (λ p. IsPrepared (answer_to image.old.now (C.figures counts.now) lane number call.now) p) }
    ensures leads { IfOk result (λ p. Leads image.old image.new p.events) }
    ensures before { image.new.before ≡ image.old.before }
    ensures steps { image.new.steps ≡ image.old.steps }
    ensures available { IfOk result (λ p. is_unavailable p.code ≡ false) }
    ensures may { IfOk result (λ p. Legal image.old.now p.events) }
    ensures alive { IfOk result (λ p. (applied image.old.now p.events).closed ≡ false) }
{
    let prepared = answer(alloc, image, lane, number, call, counts)?;
    Ok(prepared)
}
