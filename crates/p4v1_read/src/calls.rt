//! The call that a client's message is.
ghost use Rattle.std.specs.Prelude.{◌≡◌, IfOk, option_map};
ghost use Rattle.p4v1_read.specs.Calls.{call_by, call_of};
ghost use Rattle.wire_messages.specs.Answers.{ReadsInMemory};

use crate::reading;
use list_types::{NoMemory, Refusal};
use p4_types::calls::{Call, Method};
use std::alloc::Global;
use wire_messages::Unreadable;

#[tactic(auto, unfolding(crate::specs::Calls::call_by))]
fn call(alloc: Global, method: Method, bytes: &[u8]) -> Result<Call, Refusal<Unreadable>>
    ensures { ReadsInMemory (λ x. x) result (call_by method bytes.now) }
{
    match method {
        Method::Write => Ok(Call::Write(reading::from_bytes(alloc, bytes)?)),
        Method::Read => Ok(Call::Read(reading::from_bytes(alloc, bytes)?)),
        Method::SetForwardingPipelineConfig => Ok(Call::Set(reading::from_bytes(alloc, bytes)?)),
        Method::GetForwardingPipelineConfig => Ok(Call::Get(reading::from_bytes(alloc, bytes)?)),
        Method::StreamChannel => Ok(Call::Stream(reading::from_bytes(alloc, bytes)?)),
        Method::Capabilities => {
            reading::fields(bytes)?;
            Ok(Call::Capabilities)
        }
    }
}

/// The call that a client's message is, by its method; one that is not read is `Call::Unreadable`. It copies the
/// bytes that the call keeps.
pub fn read_call(alloc: Global, method: Method, bytes: &[u8]) -> Result<Call, NoMemory>
    ensures { IfOk result (λ call. call ≡ call_of method bytes.now) }
{
    match call(alloc, method, bytes) {
        Ok(call) => Ok(call),
        Err(Refusal::For(_)) => Ok(Call::Unreadable(method)),
        Err(Refusal::NoMemory) => Err(NoMemory),
    }
}
