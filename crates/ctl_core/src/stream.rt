//! The stream channel: who may write, and what controllers are told of it.
ghost use Rattle.std.specs.Prelude.{◌≡◌, IfOk};
ghost use Rattle.switch_spec.specs.Answer.{arbitration_answer, stream_answer, leave_answer};
ghost use Rattle.call_outcomes.specs.Prepared.{IsPrepared};
ghost use Rattle.ctl_core.specs.Prepared.{Leads};

use crate::packets;
use call_outcomes::{Prepared, bare, only, standing_notices, unserved_answer};
use list_types::{List, NoMemory};
use p4_types::code::{ArbitrationRule, Code};
use p4_types::events::{Event, Origin};
use p4_types::ids::Ids;
use p4_types::messages::{MasterArbitrationUpdate, StreamMessageRequest};
use p4v1_read::arbitration_update;
use plane_image::Image;
use std::alloc::Global;

// The ids of a configuration, if there is one.
fn copied(config: &Option<Ids>) -> Option<Ids>
    ensures { result ≡ config.now }
{
    match config {
        None => None,
        Some(ids) => Some(ids.copy()),
    }
}

// A session is made or changed as the update asks for, unless a rule refuses it.
fn arbitration(
    alloc: Global,
    image: &mut Image,
    lane: u16,
    call: u64,
    update: &MasterArbitrationUpdate,
) -> Result<Prepared, NoMemory>
    requires settled { image.old.before ≡ image.old.now }
    ensures prepared { IfOk result (λ p. IsPrepared (arbitration_answer image.old.now lane call update.now) p) }
    ensures leads { IfOk result (λ p. Leads image.old image.new p.events) }
    ensures before { image.new.before ≡ image.old.before }
    ensures steps { image.new.steps ≡ image.old.steps }
{
    if update.device_id != image.device() {
        return Ok(bare(alloc, ArbitrationRule::A1.code()));
    }
    let new = match image.roles().check(lane, arbitration_update(update)) {
        Ok(new) => new,
        Err(rule) => return Ok(bare(alloc, rule.code())),
    };
    let role = new.session.role;
    let by = Origin {
        caller: lane,
        call,
        role,
        election_id: new.session.election_id,
    };
    let config = copied(&new.session.config);
    let lanes = image.enter(new);
    let notices = standing_notices(alloc, image.device(), image.roles(), role, lanes.as_slice())?;
    Ok(Prepared {
        code: Code::Ok,
        messages: List::new(alloc),
        notices,
        events: only(alloc, Event::Arbitrate { by, config })?,
        packet: None,
    })
}

/// A message of the stream channel, which may have no member.
pub(crate) fn answer(
    alloc: Global,
    image: &mut Image,
    lane: u16,
    call: u64,
    message: &Option<StreamMessageRequest>,
) -> Result<Prepared, NoMemory>
    requires settled { image.old.before ≡ image.old.now }
    ensures prepared { IfOk result (λ p. IsPrepared (stream_answer image.old.now lane call message.now) p) }
    ensures leads { IfOk result (λ p. Leads image.old image.new p.events) }
    ensures before { image.new.before ≡ image.old.before }
    ensures steps { image.new.steps ≡ image.old.steps }
{
    match message {
        None => Ok(bare(alloc, Code::InvalidArgument)),
        Some(StreamMessageRequest::Arbitration(update)) => {
            arbitration(alloc, image, lane, call, update)
        }
        Some(StreamMessageRequest::DigestAck(_)) => Ok(bare(alloc, Code::Ok)),
        Some(StreamMessageRequest::Packet(packet)) => packets::answer(alloc, image, lane, packet),
        Some(StreamMessageRequest::Other(_)) => unserved_answer(alloc, lane),
    }
}

/// The end of a lane's stream: its session ends, if it has one.
pub(crate) fn leave(
    alloc: Global,
    image: &mut Image,
    lane: u16,
    call: u64,
) -> Result<Prepared, NoMemory>
    requires settled { image.old.before ≡ image.old.now }
    ensures prepared { IfOk result (λ p. IsPrepared (leave_answer image.old.now lane call) p) }
    ensures leads { IfOk result (λ p. Leads image.old image.new p.events) }
    ensures before { image.new.before ≡ image.old.before }
    ensures steps { image.new.steps ≡ image.old.steps }
{
    let role = match image.roles().session(lane) {
        None => return Ok(bare(alloc, Code::Ok)),
        Some(session) => session.role,
    };
    let lanes = image.roles().told_at_leave(lane);
    image.leave(lane);
    let notices = standing_notices(alloc, image.device(), image.roles(), role, lanes.as_slice())?;
    Ok(Prepared {
        code: Code::Ok,
        messages: List::new(alloc),
        notices,
        events: only(alloc, Event::Leave { caller: lane, call })?,
        packet: None,
    })
}
