//! A P4Info from its bytes, which are judged before an object is kept.
ghost use Rattle.std.specs.Prelude.{◌≡◌, IfOk, None};
ghost use Rattle.info_rules.specs.Flaw.{flaw_read};
ghost use Rattle.p4info_model.specs.Answers.{AcceptsRead};
ghost use Rattle.p4v1_read.specs.Nested.{read};
ghost use Rattle.p4v1_read.specs.P4Infos.{p4info_of};

use crate::flaw::InfoFault;
use crate::valid::P4Info;
use info_rules::info_flaw;
use list_types::{NoMemory, Refusal};
use p4v1_read::read_p4info;
use std::alloc::Global;

fn kept(alloc: Global, bytes: &[u8]) -> Result<P4Info, NoMemory>
    requires { flaw_read (read p4info_of bytes.now) ≡ None }
    ensures { IfOk result (λ info. AcceptsRead (read p4info_of bytes.now) (Ok info)) }
{
    match read_p4info(alloc, bytes) {
        Ok(message) => P4Info::of(alloc, message),
        Err(Refusal::NoMemory) => Err(NoMemory),
        Err(Refusal::For(_)) => unreachable!(),
    }
}

/// The P4Info that the bytes are (p4.config.v1), or the first rule that they break: I1 where they are not read, else I2 to I9.
/// Nothing is kept of bytes that break one.
pub fn read_info(alloc: Global, bytes: &[u8]) -> Result<P4Info, Refusal<InfoFault>>
    ensures { AcceptsRead (read p4info_of bytes.now) result }
{
    match info_flaw(alloc, bytes)? {
        Some(rule) => Err(Refusal::For(InfoFault { rule })),
        None => Ok(kept(alloc, bytes)?),
    }
}
