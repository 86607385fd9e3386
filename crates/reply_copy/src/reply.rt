//! A whole reply.
ghost use Rattle.std.specs.Prelude.{◌≡◌, IfOk};

use crate::bytes::{copied_bytes, copied_each};
use crate::notices::copied_notices;
use list_types::{ByteList, NoMemory};
use p4_types::calls::Reply;
use std::alloc::Global;

fn copied_packet(alloc: Global, packet: &Option<ByteList>) -> Result<Option<ByteList>, NoMemory>
    ensures { IfOk result (λ copy. copy ≡ packet.now) }
{
    match packet {
        None => Ok(None),
        Some(packet) => Ok(Some(copied_bytes(alloc, packet)?)),
    }
}

/// The same reply, in memory of its own.
pub fn copied_reply(alloc: Global, reply: &Reply) -> Result<Reply, NoMemory>
    ensures { IfOk result (λ copy. copy ≡ reply.now) }
{
    Ok(Reply {
        code: reply.code,
        messages: copied_each(alloc, &reply.messages)?,
        notices: copied_notices(alloc, &reply.notices)?,
        steps: reply.steps,
        packet: copied_packet(alloc, &reply.packet)?,
    })
}
