//! Packets that controllers send.
ghost use Rattle.std.specs.Prelude.{◌≡◌, [], IfOk};
ghost use Rattle.switch_spec.specs.Answer.{packet_reply};
ghost use Rattle.switch_spec.specs.PacketsOut.{is_primary, packet_result};
ghost use Rattle.call_outcomes.specs.Prepared.{IsPrepared};

use call_outcomes::{Prepared, packet_reply};
use list_types::{ByteList, NoMemory};
use p4_types::code::Code;
use p4_types::messages::PacketOut;
use packet_out::{PacketRule, entering};
use plane_image::Image;
use std::alloc::Global;

// Whether a session of this status is the primary of its role.
fn is_primary(status: Option<Code>) -> bool
    ensures { result ≡ is_primary status }
{
    match status {
        Some(Code::Ok) => true,
        _ => false,
    }
}

// The bytes that enter of a lane's packet, or the first of the rules P1 to P4 that it breaks.
#[tactic(auto, unfolding(switch_spec::specs::PacketsOut::packet_result))]
fn result_of(
    alloc: Global,
    image: &Image,
    lane: u16,
    packet: &PacketOut,
) -> Result<Result<ByteList, PacketRule>, NoMemory>
    ensures { IfOk result (λ answer. answer ≡ packet_result image.now.now lane packet.now) }
{
    if !is_primary(image.roles().status(lane)) {
        return Ok(Err(PacketRule::P1));
    }
    match image.active() {
        None => Ok(Err(PacketRule::P2)),
        Some(plane) => entering(alloc, plane.config().info(), packet),
    }
}

/// A lane's packet enters, or the lane is told by which rule it is refused.
pub(crate) fn answer(
    alloc: Global,
    image: &Image,
    lane: u16,
    packet: &PacketOut,
) -> Result<Prepared, NoMemory>
    ensures answer { IfOk result (λ p. IsPrepared (packet_reply lane packet.now (packet_result image.now.now lane packet.now)) p) }
    ensures nothing { IfOk result (λ p. p.events ≡ []) }
{
    let answer = result_of(alloc, image, lane, packet)?;
    packet_reply(alloc, lane, packet, answer)
}
