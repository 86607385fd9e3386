//! The first rule that a P4Info breaks.
ghost use Rattle.std.specs.Prelude.{◌≡◌, Some, IfSome, IfOk};
ghost use Rattle.wire_messages.specs.Answers.{ReadsInMemory};
ghost use Rattle.std.specs.Option.{option_map};
ghost use Rattle.p4v1_read.specs.Nested.{read};
ghost use Rattle.p4v1_read.specs.P4Infos.{p4info_of};
ghost use Rattle.info_rules.specs.Flaw.{flaw, flaw_read};

use crate::opened::opened;
use crate::readable::Readable;
use crate::{references, rules};
use list_types::{NoMemory, Refusal};
use p4_types::p4info::P4Info;
use std::alloc::Global;
use wire_messages::{Message, Unreadable};

#[tactic(auto, unfolding(crate::specs::Flaw::flaw))]
fn flaw_of(alloc: Global, message: &Message<'_>) -> Result<Option<u8>, Refusal<Unreadable>>
    ensures { IfSome (p4info_of message.now) (λ info. ReadsInMemory (λ x. x) result (Some (flaw info))) }
{
    if rules::breaks_i2(alloc, message)? {
        return Ok(Some(2));
    }
    if rules::breaks_i3(alloc, message)? {
        return Ok(Some(3));
    }
    if rules::breaks_i4(alloc, message)? {
        return Ok(Some(4));
    }
    if references::breaks_i5(alloc, message)? {
        return Ok(Some(5));
    }
    if rules::breaks_i6(alloc, message)? {
        return Ok(Some(6));
    }
    if rules::breaks_i7(alloc, message)? {
        return Ok(Some(7));
    }
    if rules::breaks_i8(alloc, message)? {
        return Ok(Some(8));
    }
    if rules::breaks_i9(alloc, message)? {
        return Ok(Some(9));
    }
    Ok(None)
}

fn first_flaw(alloc: Global, bytes: &[u8]) -> Result<Option<u8>, Refusal<Unreadable>>
    ensures { ReadsInMemory (λ x. x) result (option_map flaw (read p4info_of bytes.now)) }
{
    let message = opened(bytes)?;
    P4Info::check(alloc, &message)?;
    flaw_of(alloc, &message)
}

/// The first rule that the bytes of a P4Info (p4.config.v1) break: 1 where they are not read, else 2 to 9. While they are judged
/// nothing is kept of them but ids, names and references, so a P4Info with a great many small objects takes no more than one
/// with a few large ones.
pub fn info_flaw(alloc: Global, bytes: &[u8]) -> Result<Option<u8>, NoMemory>
    ensures { IfOk result (λ rule. rule ≡ flaw_read (read p4info_of bytes.now)) }
{
    match first_flaw(alloc, bytes) {
        Ok(rule) => Ok(rule),
        Err(Refusal::NoMemory) => Err(NoMemory),
        Err(Refusal::For(_)) => Ok(Some(1)),
    }
}
