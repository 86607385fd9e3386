//! Requests, each read by the fields of its message.
ghost use Rattle.std.specs.Prelude.{◌≡◌, [], ◌∷◌, IfOk};
ghost use Rattle.p4v1_read.specs.Nested.{read};
ghost use Rattle.p4v1_read.specs.Requests.{uint128_of, election_id_at, update_of, write_request_of, read_request_of, cookie_of, config_of, set_request_of, get_request_of};
ghost use Rattle.wire_messages.specs.Answers.{ReadsInMemory};
ghost use Rattle.wire_messages.specs.Message.{message_at};

use crate::reading;
use crate::reading::Readable;
use list_types::{ByteList, NoMemory, Refusal};
use p4_types::messages::{
    Cookie, Entity, ForwardingPipelineConfig, GetForwardingPipelineConfigRequest, ReadRequest,
    SetForwardingPipelineConfigRequest, Uint128, Update, WriteRequest,
};
use std::alloc::Global;
use wire_messages::{Message, Unreadable};

const WRITE_REQUEST_FIELDS: [u32; 5] = [1, 2, 3, 4, 5];

const SET_REQUEST_FIELDS: [u32; 5] = [1, 2, 3, 4, 5];

impl Readable for Uint128 {
    ghost meaning = { uint128_of };

    #[tactic(auto, unfolding(crate::specs::Requests::uint128_of))]
    fn read(alloc: Global, message: &Message<'_>) -> Result<Uint128, Refusal<Unreadable>> {
        let high = message.uint64(1)?;
        let low = message.uint64(2)?;
        Ok(Uint128 { high, low })
    }
}

#[tactic(auto, unfolding(crate::specs::Requests::election_id_at))]
pub(crate) fn election_id(
    alloc: Global,
    message: &Message<'_>,
    number: u32,
) -> Result<Uint128, Refusal<Unreadable>>
    ensures { ReadsInMemory (λ x. x) result (election_id_at number message.now) }
{
    match reading::one(alloc, message, number)? {
        Some(id) => Ok(id),
        None => Ok(Uint128 { high: 0, low: 0 }),
    }
}

impl Readable for Update {
    ghost meaning = { update_of };

    #[tactic(auto, unfolding(crate::specs::Requests::update_of))]
    fn read(alloc: Global, message: &Message<'_>) -> Result<Update, Refusal<Unreadable>> {
        let kind = message.int32(1)?;
        let entity: Option<Option<Entity>> = reading::one(alloc, message, 2)?;
        Ok(Update {
            kind,
            entity: entity.flatten(),
        })
    }
}

impl Readable for WriteRequest {
    ghost meaning = { write_request_of };

    #[tactic(auto, unfolding(crate::specs::Requests::write_request_of))]
    fn read(alloc: Global, message: &Message<'_>) -> Result<WriteRequest, Refusal<Unreadable>> {
        if !message.has_only(&WRITE_REQUEST_FIELDS) {
            return Err(Refusal::For(Unreadable));
        }
        let device_id = message.uint64(1)?;
        let role_id = message.uint64(2)?;
        let election_id = election_id(alloc, message, 3)?;
        let updates = reading::all(alloc, message, 4)?;
        let atomicity = message.int32(5)?;
        Ok(WriteRequest {
            device_id,
            role_id,
            election_id,
            updates,
            atomicity,
        })
    }
}

impl Readable for ReadRequest {
    ghost meaning = { read_request_of };

    #[tactic(auto, unfolding(crate::specs::Requests::read_request_of))]
    fn read(alloc: Global, message: &Message<'_>) -> Result<ReadRequest, Refusal<Unreadable>> {
        let device_id = message.uint64(1)?;
        let entities = reading::all(alloc, message, 2)?;
        Ok(ReadRequest {
            device_id,
            entities,
        })
    }
}

impl Readable for Cookie {
    ghost meaning = { cookie_of };

    #[tactic(auto, unfolding(crate::specs::Requests::cookie_of))]
    fn read(alloc: Global, message: &Message<'_>) -> Result<Cookie, Refusal<Unreadable>> {
        let cookie = message.uint64(1)?;
        Ok(Cookie { cookie })
    }
}

fn p4info(alloc: Global, message: &Message<'_>) -> Result<Option<ByteList>, Refusal<Unreadable>>
    ensures { ReadsInMemory (λ x. x) result (message_at 1 message.now) }
{
    match message.message(1)? {
        Some(bytes) => Ok(Some(reading::copied(alloc, bytes)?)),
        None => Ok(None),
    }
}

impl Readable for ForwardingPipelineConfig {
    ghost meaning = { config_of };

    #[tactic(auto, unfolding(crate::specs::Requests::config_of))]
    fn read(
        alloc: Global,
        message: &Message<'_>,
    ) -> Result<ForwardingPipelineConfig, Refusal<Unreadable>> {
        let p4info = p4info(alloc, message)?;
        let p4_device_config = reading::bytes(alloc, message, 2)?;
        let cookie = reading::one(alloc, message, 3)?;
        Ok(ForwardingPipelineConfig {
            p4info,
            p4_device_config,
            cookie,
        })
    }
}

impl Readable for SetForwardingPipelineConfigRequest {
    ghost meaning = { set_request_of };

    #[tactic(auto, unfolding(crate::specs::Requests::set_request_of))]
    fn read(
        alloc: Global,
        message: &Message<'_>,
    ) -> Result<SetForwardingPipelineConfigRequest, Refusal<Unreadable>> {
        if !message.has_only(&SET_REQUEST_FIELDS) {
            return Err(Refusal::For(Unreadable));
        }
        let device_id = message.uint64(1)?;
        let role_id = message.uint64(2)?;
        let election_id = election_id(alloc, message, 3)?;
        let action = message.int32(4)?;
        let config = reading::one(alloc, message, 5)?;
        Ok(SetForwardingPipelineConfigRequest {
            device_id,
            role_id,
            election_id,
            action,
            config,
        })
    }
}

impl Readable for GetForwardingPipelineConfigRequest {
    ghost meaning = { get_request_of };

    #[tactic(auto, unfolding(crate::specs::Requests::get_request_of))]
    fn read(
        alloc: Global,
        message: &Message<'_>,
    ) -> Result<GetForwardingPipelineConfigRequest, Refusal<Unreadable>> {
        let device_id = message.uint64(1)?;
        let response_type = message.int32(2)?;
        Ok(GetForwardingPipelineConfigRequest {
            device_id,
            response_type,
        })
    }
}

/// The configuration that the bytes are, or none where they are not read. It copies the bytes that it
/// keeps.
pub fn read_config(
    alloc: Global,
    bytes: &[u8],
) -> Result<Option<ForwardingPipelineConfig>, NoMemory>
    ensures { IfOk result (λ config. config ≡ read config_of bytes.now) }
{
    match reading::from_bytes(alloc, bytes) {
        Ok(config) => Ok(Some(config)),
        Err(Refusal::For(_)) => Ok(None),
        Err(Refusal::NoMemory) => Err(NoMemory),
    }
}
