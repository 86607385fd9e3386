//! Messages that clients send too, each read as it stands in a message of a client.
ghost use Rattle.std.specs.Prelude.{◌≡◌, ◌≤◌, ◌++◌, [], ◌∷◌, IfOk, IfSome, IfNone};
ghost use Rattle.std.specs.Prelude as spec;
ghost use Rattle.p4v1_answers.specs.Borrowed.{entities_in, arbitration_in, entry_in};
ghost use Rattle.p4v1_read.specs.Entities.{table_entry_of, entity_of};
ghost use Rattle.p4v1_read.specs.Requests.{config_of};
ghost use Rattle.p4v1_read.specs.Stream.{arbitration_of};
ghost use Rattle.wire_fields.specs.Spelling.{field_bytes, bytes_field};

use crate::reading::Readable;
use list_types::{List, NoMemory, Refusal};
use p4_types::calls::{Call, Method};
use p4_types::messages::{
    Entity, ForwardingPipelineConfig, MasterArbitrationUpdate, StreamMessageRequest, TableEntry,
};
use p4v1_read::{read_call, read_config};
use std::alloc::Global;
use wire_fields::Writer;
use wire_messages::Unreadable;

// The message that has these bytes in a field, and nothing else.
fn around(alloc: Global, number: u32, bytes: &[u8]) -> Result<Writer, NoMemory>
    requires not_zero { 1 ≤ number }
    requires in_range { number ≤ 536870911 }
    ensures { IfOk result (λ message. message ≡ field_bytes (bytes_field number bytes.now)) }
{
    let mut message = Writer::new(alloc);
    message.bytes(number, bytes)?;
    Ok(message)
}

impl Readable for ForwardingPipelineConfig {
    ghost meaning = { config_of };

    fn read(alloc: Global, bytes: &[u8]) -> Result<ForwardingPipelineConfig, Refusal<Unreadable>> {
        match read_config(alloc, bytes)? {
            Some(config) => Ok(config),
            None => Err(Refusal::For(Unreadable)),
        }
    }
}

fn entities_in(call: Call) -> Option<List<Option<Entity>>>
    ensures { result ≡ entities_in call }
{
    match call {
        Call::Read(request) => Some(request.entities),
        _ => None,
    }
}

fn arbitration_in(call: Call) -> Option<MasterArbitrationUpdate>
    ensures { result ≡ arbitration_in call }
{
    match call {
        Call::Stream(Some(StreamMessageRequest::Arbitration(update))) => Some(update),
        _ => None,
    }
}

fn entry_in(entity: Option<Entity>) -> Option<TableEntry>
    ensures { result ≡ entry_in entity }
{
    match entity {
        Some(Entity::TableEntry(entry)) => Some(entry),
        _ => None,
    }
}

// The last item of a list.
fn last<T: Drop>(list: List<T>) -> Option<T>
    ensures some { IfSome result (λ item. (before : spec.List T) × (list ≡ before ++ item ∷ [])) }
    ensures none { IfNone result (list ≡ []) }
{
    let mut items = list.into_vec();
    items.pop()
}

// The one entity of a ReadRequest.
impl Readable for Option<Entity> {
    ghost meaning = { entity_of };

    #[tactic(auto, using(crate::proofs::Alone::entity_refused))]
    fn read(alloc: Global, bytes: &[u8]) -> Result<Option<Entity>, Refusal<Unreadable>> {
        let request = around(alloc, 2, bytes)?;
        let call = read_call(alloc, Method::Read, request.as_slice())?;
        let Some(entities) = entities_in(call) else {
            return Err(Refusal::For(Unreadable));
        };
        match last(entities) {
            Some(entity) => Ok(entity),
            None => Err(Refusal::For(Unreadable)),
        }
    }
}

// The member of an entity.
impl Readable for TableEntry {
    ghost meaning = { table_entry_of };

    fn read(alloc: Global, bytes: &[u8]) -> Result<TableEntry, Refusal<Unreadable>> {
        let inside = around(alloc, 2, bytes)?;
        let entity = Readable::read(alloc, inside.as_slice())?;
        match entry_in(entity) {
            Some(entry) => Ok(entry),
            None => Err(Refusal::For(Unreadable)),
        }
    }
}

// The member of a StreamMessageRequest.
impl Readable for MasterArbitrationUpdate {
    ghost meaning = { arbitration_of };

    fn read(alloc: Global, bytes: &[u8]) -> Result<MasterArbitrationUpdate, Refusal<Unreadable>> {
        let request = around(alloc, 1, bytes)?;
        let call = read_call(alloc, Method::StreamChannel, request.as_slice())?;
        match arbitration_in(call) {
            Some(update) => Ok(update),
            None => Err(Refusal::For(Unreadable)),
        }
    }
}
