//! The answer that a server's message is.
ghost use Rattle.std.specs.Prelude.{◌≡◌};
ghost use Rattle.p4v1_read.specs.Nested.{read};
ghost use Rattle.p4v1_wire.specs.ServerMessages.{capabilities_response_of, get_response_of, read_response_of};
ghost use Rattle.p4v1_answers.specs.Answers.{answer_of};
ghost use Rattle.wire_messages.specs.Answers.{ReadsInMemory};

use crate::reading;
use crate::reading::Readable;
use list_types::{List, Refusal};
use p4_types::calls::Method;
use p4_types::messages::{
    CapabilitiesResponse, Entity, GetForwardingPipelineConfigResponse, StreamMessageResponse,
};
use std::alloc::Global;
use wire_messages::Unreadable;

/// A message that a server sends, by the method that it answers (P4Runtime 1.3.0, "P4Runtime Service").
#[derive(Drop)]
pub enum Answer {
    /// `WriteResponse`, which is empty.
    Write,
    /// The entities of a `ReadResponse`, each a choice that may have no member.
    Read(List<Option<Entity>>),
    /// `SetForwardingPipelineConfigResponse`, which is empty.
    SetForwardingPipelineConfig,
    GetForwardingPipelineConfig(GetForwardingPipelineConfigResponse),
    /// A message of the stream channel, a choice that may have no member.
    StreamChannel(Option<StreamMessageResponse>),
    Capabilities(CapabilitiesResponse),
}

#[tactic(auto, unfolding(p4v1_wire::specs::ServerMessages::read_response_of))]
fn entities(alloc: Global, bytes: &[u8]) -> Result<List<Option<Entity>>, Refusal<Unreadable>>
    ensures { ReadsInMemory (λ x. x) result (read read_response_of bytes.now) }
{
    let message = reading::fields(bytes)?;
    reading::all(alloc, &message, 1)
}

impl Readable for GetForwardingPipelineConfigResponse {
    ghost meaning = { get_response_of };

    #[tactic(auto, unfolding(p4v1_wire::specs::ServerMessages::get_response_of))]
    fn read(
        alloc: Global,
        bytes: &[u8],
    ) -> Result<GetForwardingPipelineConfigResponse, Refusal<Unreadable>> {
        let message = reading::fields(bytes)?;
        let config = reading::one(alloc, &message, 1)?;
        Ok(GetForwardingPipelineConfigResponse { config })
    }
}

impl Readable for CapabilitiesResponse {
    ghost meaning = { capabilities_response_of };

    #[tactic(auto, unfolding(p4v1_wire::specs::ServerMessages::capabilities_response_of))]
    fn read(alloc: Global, bytes: &[u8]) -> Result<CapabilitiesResponse, Refusal<Unreadable>> {
        let message = reading::fields(bytes)?;
        let p4runtime_api_version = reading::text(alloc, &message, 1)?;
        Ok(CapabilitiesResponse {
            p4runtime_api_version,
        })
    }
}

/// The answer that a server's message is, by the method that was called. The bytes are unreadable where they are no
/// message, or a field that the answer has bears another type or value than its own; fields that it has not are passed
/// over, but in a `Role`. It copies the bytes that the answer keeps.
#[tactic(auto, unfolding(crate::specs::Answers::answer_of))]
pub fn read_answer(
    alloc: Global,
    method: Method,
    bytes: &[u8],
) -> Result<Answer, Refusal<Unreadable>>
    ensures { ReadsInMemory (λ answer. answer) result (answer_of method bytes.now) }
{
    match method {
        Method::Write => {
            reading::fields(bytes)?;
            Ok(Answer::Write)
        }
        Method::Read => Ok(Answer::Read(entities(alloc, bytes)?)),
        Method::SetForwardingPipelineConfig => {
            reading::fields(bytes)?;
            Ok(Answer::SetForwardingPipelineConfig)
        }
        Method::GetForwardingPipelineConfig => Ok(Answer::GetForwardingPipelineConfig(
            Readable::read(alloc, bytes)?,
        )),
        Method::StreamChannel => Ok(Answer::StreamChannel(Readable::read(alloc, bytes)?)),
        Method::Capabilities => Ok(Answer::Capabilities(Readable::read(alloc, bytes)?)),
    }
}
