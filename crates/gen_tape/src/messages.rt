//! The calls and the packets of a made load.
ghost use Rattle.std.specs.Prelude.{◌≡◌, IfOk};
ghost use Rattle.run_spec.specs.Rows.{id_bytes};
ghost use Rattle.tape_spec.specs.declared.item.TapeItem.TheVariants as items;
ghost use Rattle.gen_tape.specs.Generated.{asking, commit_bytes, committing, config_bytes, frame_to, insert_bytes};

use crate::router::{info, json};
use list_types::{ByteList, NoMemory};
use p4_types::calls::Method;
use p4_types::tape::TapeRecord;
use std::alloc::Global;
use tape_spec::TapeItem;
use wire_fields::Writer;

/// The number of VERIFY_AND_COMMIT.
const VERIFY_AND_COMMIT: u64 = 3;

// Bytes in memory of their own.
fn copied(alloc: Global, bytes: &[u8]) -> Result<ByteList, NoMemory>
    ensures { IfOk result (λ copy. copy ≡ bytes.now) }
{
    let copy = Vec::from_slice(alloc, bytes)?;
    Ok(ByteList::from_vec(copy))
}

/// A call of controller 0.
pub fn call_of(method: Method, message: ByteList) -> TapeItem
    ensures { result ≡ items.Record (TapeRecord.Call 0 method message) }
{
    TapeItem::Record(TapeRecord::Call {
        lane: 0,
        method,
        message,
    })
}

/// Controller 0 asks for role 0 of device 1 with election id 1.
#[tactic(auto, unfolding(canon_bytes::specs::Base128::base_128))]
pub fn asking(alloc: Global) -> Result<TapeItem, NoMemory>
    ensures { IfOk result (λ item. item ≡ asking) }
{
    // a StreamMessageRequest with a MasterArbitrationUpdate
    let message = copied(alloc, &[0x0a, 6, 0x08, 1, 0x1a, 2, 0x10, 1])?;
    Ok(call_of(Method::StreamChannel, message))
}

// The election id 1 as a Uint128.
fn first_id(alloc: Global) -> Result<Writer, NoMemory>
    ensures { IfOk result (λ bytes. bytes ≡ id_bytes 1) }
{
    let mut id = Writer::new(alloc);
    id.varint(2, 1)?;
    Ok(id)
}

// A ForwardingPipelineConfig.
fn config(alloc: Global, info: &[u8], json: &[u8]) -> Result<Writer, NoMemory>
    ensures { IfOk result (λ bytes. bytes ≡ config_bytes info.now json.now) }
{
    let mut config = Writer::new(alloc);
    config.bytes(1, info)?;
    config.bytes(2, json)?;
    Ok(config)
}

// A SetForwardingPipelineConfigRequest that commits a configuration.
#[tactic(auto, unfolding(crate::specs::Generated::commit_bytes))]
fn commit_message(alloc: Global, info: &[u8], json: &[u8]) -> Result<ByteList, NoMemory>
    ensures { IfOk result (λ bytes. bytes ≡ commit_bytes info.now json.now) }
{
    let id = first_id(alloc)?;
    let config = config(alloc, info, json)?;
    let mut request = Writer::new(alloc);
    request.varint(1, 1)?;
    request.bytes(3, id.as_slice())?;
    request.varint(4, VERIFY_AND_COMMIT)?;
    request.bytes(5, config.as_slice())?;
    Ok(ByteList::from_vec(request.finish()))
}

/// Controller 0 commits the router.
pub fn committing(alloc: Global) -> Result<TapeItem, NoMemory>
    ensures { IfOk result (λ item. item ≡ committing) }
{
    let message = commit_message(alloc, info(), json())?;
    Ok(call_of(Method::SetForwardingPipelineConfig, message))
}

/// The canonical bytes of a WriteRequest that inserts the route of 10.x.y.0/24 to a port.
#[tactic(auto, unfolding(canon_bytes::specs::Base128::base_128, crate::specs::Generated::insert_bytes))]
pub fn insert_message(alloc: Global, x: u8, y: u8, port: u8) -> Result<ByteList, NoMemory>
    ensures { IfOk result (λ bytes. bytes ≡ insert_bytes x y port) }
{
    copied(
        alloc,
        &[
            // device 1, election id 1, and an INSERT of a table entry
            0x08, 1, 0x1a, 2, 0x10, 1, 0x22, 53, 0x08, 1, 0x12, 49, 0x12, 47,
            // its table
            0x08, 0x82, 0x80, 0x80, 0x10,
            // its match of field 1 by a prefix of 24 bits
            0x12, 12, 0x08, 1, 0x22, 8, 0x0a, 4, 10, x, y, 0, 0x10, 24,
            // its action
            0x1a, 26, 0x0a, 24, 0x08, 0x83, 0x80, 0x80, 0x08,
            // the action's port
            0x22, 5, 0x10, 1, 0x1a, 1, port,
            // the next Ethernet address
            0x22, 10, 0x10, 2, 0x1a, 6, 2, 0, 0, 0, 0, 1,
        ],
    )
}

/// A frame of 34 bytes from 10.0.0.1 to 10.x.y.1, with 64 hops left.
#[tactic(auto, unfolding(crate::specs::Generated::frame_to))]
pub fn frame(alloc: Global, x: u8, y: u8) -> Result<ByteList, NoMemory>
    ensures { IfOk result (λ bytes. bytes ≡ frame_to x y) }
{
    copied(
        alloc,
        &[
            // Ethernet
            2, 0, 0, 0, 0, 10, 2, 0, 0, 0, 0, 1, 8, 0,
            // IPv4
            0x45, 0, 0, 20, 0, 0, 0, 0, 64, 1, 0, 0, 10, 0, 0, 1, 10, x, y, 1,
        ],
    )
}
