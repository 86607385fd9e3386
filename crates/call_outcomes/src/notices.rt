//! What controllers are told on their streams.
ghost use Rattle.std.specs.Prelude.{◌≡◌, [], IfOk};
ghost use Rattle.switch_spec.specs.Answer.{unserved_answer};
ghost use Rattle.switch_spec.specs.Notices.{role_told, standing_notices, unserved};
ghost use Rattle.call_outcomes.specs.Messages.{standing_by};
ghost use Rattle.call_outcomes.specs.Prepared.{IsPrepared};

use crate::lists::only;
use crate::messages;
use crate::prepared::Prepared;
use list_types::{List, NoMemory};
use p4_types::calls::Notice;
use p4_types::code::Code;
use p4_types::messages::{
    Any, MasterArbitrationUpdate, Role, Status, StreamError, StreamErrorDetails,
    StreamMessageResponse, Uint128,
};
use role_arbiter::{Roles, status_by};
use std::alloc::Global;

// The role of a notice: its id alone, and none where it is 0.
fn role_told(role: u64) -> Option<Role>
    ensures { result ≡ role_told role }
{
    if role == 0 {
        return None;
    }
    Some(Role {
        id: role,
        config: None,
    })
}

// What a session is told of a role whose greatest election id is this one.
fn standing(
    alloc: Global,
    device: u64,
    role: u64,
    greatest: Uint128,
    code: Code,
) -> MasterArbitrationUpdate
    ensures { result ≡ standing_by device role greatest code }
{
    MasterArbitrationUpdate {
        device_id: device,
        role: role_told(role),
        election_id: greatest,
        status: Some(Status {
            code: i32::from(code.number()),
            message: messages::empty_text(alloc),
            details: List::new(alloc),
        }),
    }
}

/// These lanes are told where they stand in a role.
pub fn standing_notices(
    alloc: Global,
    device: u64,
    roles: &Roles,
    role: u64,
    lanes: &[u16],
) -> Result<List<Notice>, NoMemory>
    ensures { IfOk result (λ list. list ≡ standing_notices device roles.now role lanes.now) }
{
    let primary = roles.primary_session(role);
    let greatest = roles.greatest(role);
    let mut list = List::new(alloc);
    for lane in lanes {
        let told = standing(alloc, device, role, greatest, status_by(primary, *lane));
        list.push(Notice {
            lane: *lane,
            message: StreamMessageResponse::Arbitration(told),
        })?;
    }
    Ok(list)
}

// The error that answers a message that is not served.
fn unserved(alloc: Global) -> Result<StreamError, NoMemory>
    ensures { IfOk result (λ error. error ≡ unserved) }
{
    let other = Any {
        type_url: messages::empty_text(alloc),
        value: List::new(alloc),
    };
    Ok(StreamError {
        canonical_code: i32::from(Code::Unimplemented.number()),
        message: messages::empty_text(alloc),
        space: messages::space(alloc)?,
        code: 0,
        details: Some(StreamErrorDetails::Other(other)),
    })
}

/// The caller is told that its message is not served.
pub fn unserved_answer(alloc: Global, lane: u16) -> Result<Prepared, NoMemory>
    ensures answer { IfOk result (λ p. IsPrepared (unserved_answer lane) p) }
    ensures nothing { IfOk result (λ p. p.events ≡ []) }
{
    let message = StreamMessageResponse::Error(unserved(alloc)?);
    Ok(Prepared {
        code: Code::Ok,
        messages: List::new(alloc),
        notices: only(alloc, Notice { lane, message })?,
        events: List::new(alloc),
        packet: None,
    })
}
