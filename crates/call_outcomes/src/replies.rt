//! Answers that need no more than what was found.
ghost use Rattle.std.specs.Prelude.{◌≡◌, ◌∷◌, [], IfOk};
ghost use Rattle.switch_spec.specs.Answer.{unreadable, plain, failed, read_reply, set_reply, get_reply};
ghost use Rattle.switch_spec.specs.Status.{capabilities_bytes};
ghost use Rattle.call_outcomes.specs.Prepared.{IsPrepared};

use crate::lists::only;
use crate::messages;
use crate::prepared::Prepared;
use list_types::{ByteList, List, NoMemory};
use p4_types::calls::Method;
use p4_types::code::Code;
use p4_types::events::Event;
use plane_state::Config;
use std::alloc::Global;
use switch_spec::refusals::SetRefusal;

/// A call that fails for this code alone.
pub fn failure(alloc: Global, code: Code) -> Result<Prepared, NoMemory>
    ensures answer { IfOk result (λ p. IsPrepared (failed code) p) }
    ensures nothing { IfOk result (λ p. p.events ≡ []) }
{
    Ok(Prepared {
        code,
        messages: messages::of_code(alloc, code)?,
        notices: List::new(alloc),
        events: List::new(alloc),
        packet: None,
    })
}

/// The answer to a Read: its responses' bytes, or the code with which it is refused.
pub fn read_reply(alloc: Global, answer: Result<List<ByteList>, Code>) -> Result<Prepared, NoMemory>
    ensures answer { IfOk result (λ p. IsPrepared (read_reply answer) p) }
    ensures nothing { IfOk result (λ p. p.events ≡ []) }
{
    match answer {
        Ok(messages) => Ok(Prepared {
            code: Code::Ok,
            messages,
            notices: List::new(alloc),
            events: List::new(alloc),
            packet: None,
        }),
        Err(code) => failure(alloc, code),
    }
}

/// The answer to a message that is not read; one of the stream channel has no Status.
pub fn unreadable(alloc: Global, method: Method) -> Result<Prepared, NoMemory>
    ensures answer { IfOk result (λ p. IsPrepared (unreadable method) p) }
    ensures nothing { IfOk result (λ p. p.events ≡ []) }
{
    match method {
        Method::StreamChannel => Ok(bare(alloc, Code::InvalidArgument)),
        _ => failure(alloc, Code::InvalidArgument),
    }
}

/// A code without a message.
pub fn bare(alloc: Global, code: Code) -> Prepared
    ensures answer { IsPrepared (plain code []) result }
    ensures nothing { result.events ≡ [] }
{
    Prepared {
        code,
        messages: List::new(alloc),
        notices: List::new(alloc),
        events: List::new(alloc),
        packet: None,
    }
}

/// The answer to a call that asks for the capabilities: the version of the interface.
pub fn capabilities(alloc: Global) -> Result<Prepared, NoMemory>
    ensures answer { IfOk result (λ p. IsPrepared (plain Code.Ok (capabilities_bytes ∷ [])) p) }
    ensures nothing { IfOk result (λ p. p.events ≡ []) }
{
    Ok(Prepared {
        code: Code::Ok,
        messages: messages::of_capabilities(alloc)?,
        notices: List::new(alloc),
        events: List::new(alloc),
        packet: None,
    })
}

/// The answer to a call that sets a pipeline: its events, or why it is refused.
pub fn set_reply(
    alloc: Global,
    answer: Result<List<Event<Config>>, SetRefusal>,
) -> Result<Prepared, NoMemory>
    ensures answer { IfOk result (λ p. IsPrepared (set_reply answer) p) }
{
    match answer {
        Ok(events) => Ok(Prepared {
            code: Code::Ok,
            messages: only(alloc, List::new(alloc))?,
            notices: List::new(alloc),
            events,
            packet: None,
        }),
        Err(SetRefusal::Breaks(rule)) => Ok(Prepared {
            code: Code::InvalidArgument,
            messages: messages::of_rule(alloc, rule)?,
            notices: List::new(alloc),
            events: List::new(alloc),
            packet: None,
        }),
        Err(SetRefusal::Fails(code)) => failure(alloc, code),
    }
}

/// The answer to a call that asks for a pipeline: the response's bytes, or the code with which it is refused.
pub fn get_reply(alloc: Global, answer: Result<ByteList, Code>) -> Result<Prepared, NoMemory>
    ensures answer { IfOk result (λ p. IsPrepared (get_reply answer) p) }
    ensures nothing { IfOk result (λ p. p.events ≡ []) }
{
    match answer {
        Ok(message) => Ok(Prepared {
            code: Code::Ok,
            messages: only(alloc, message)?,
            notices: List::new(alloc),
            events: List::new(alloc),
            packet: None,
        }),
        Err(code) => failure(alloc, code),
    }
}
