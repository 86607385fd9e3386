//! What a call is.
ghost use Rattle.std.specs.Prelude.{◌≡◌, IfSome};
ghost use Rattle.switch_spec.specs.Answer.{called};

use p4_types::calls::Call;
use p4v1_read::read_call;
use std::alloc::Global;
use switch_spec::calls::LaneCall;

/// Reads the message of a call; without memory for it there is none.
pub fn read(alloc: Global, call: &LaneCall) -> Option<Call>
    ensures { IfSome result (λ read. read ≡ called call.now) }
{
    match call {
        LaneCall::Asks { method, message } => read_call(alloc, *method, message.as_slice()).ok(),
        LaneCall::Leaves => Some(Call::Leave),
    }
}
