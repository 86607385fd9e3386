//! The tape of a number.
ghost use Rattle.std.specs.Prelude.{◌≡◌, ◌≤◌, ◌<◌, ◌++◌, ◌*◌, IfOk, OnOk, map};
ghost use Rattle.run_spec.specs.Text.{count_up};
ghost use Rattle.gen_tape.specs.Generated.{generated, inserting, sending, target};

use crate::messages::{asking, call_of, committing, frame, insert_message};
use list_types::NoMemory;
use p4_types::calls::Method;
use p4_types::tape::TapeRecord;
use std::alloc::Global;
use tape_spec::TapeItem;

// Controller 0 inserts the route of this number.
fn inserting(alloc: Global, i: u32) -> Result<TapeItem, NoMemory>
    requires { i < 6400 }
    ensures { IfOk result (λ item. item ≡ inserting i) }
{
    let message = insert_message(alloc, (i / 256) as u8, (i % 256) as u8, (1 + i % 8) as u8)?;
    Ok(call_of(Method::Write, message))
}

// The network to which packet j goes.
#[tactic(auto, using(crate::proofs::Counting::product_small, crate::proofs::Counting::target_small))]
fn target(number: u32, j: u32) -> u32
    requires low { 1 ≤ number }
    requires high { number ≤ 64 }
    requires packet { j < 25600 }
    ensures value { result ≡ target number j }
    ensures below { result < 12800 }
{
    (j * (100 * number - 1) + number) % (200 * number)
}

// Worker 0 gets packet j from port 0.
fn sending(alloc: Global, number: u32, j: u32) -> Result<TapeItem, NoMemory>
    requires low { 1 ≤ number }
    requires high { number ≤ 64 }
    requires packet { j < 25600 }
    ensures { IfOk result (λ item. item ≡ sending number j) }
{
    let to = target(number, j);
    let packet = frame(alloc, (to / 256) as u8, (to % 256) as u8)?;
    Ok(TapeItem::Record(TapeRecord::Packet {
        lane: 0,
        port: 0,
        packet,
    }))
}

// Adds the routes.
fn push_routes(alloc: Global, items: &mut Vec<TapeItem>, count: u32) -> Result<(), NoMemory>
    requires { count ≤ 6400 }
    ensures { OnOk result (items.new.items ≡ items.old.items ++ map inserting (count_up 0 count)) }
{
    for i in 0..count {
        let item = inserting(alloc, i)?;
        items.push(item)?;
    }
    Ok(())
}

// Adds the packets.
fn push_packets(
    alloc: Global,
    items: &mut Vec<TapeItem>,
    number: u32,
    count: u32,
) -> Result<(), NoMemory>
    requires low { 1 ≤ number }
    requires high { number ≤ 64 }
    requires count { count ≤ 25600 }
    ensures { OnOk result (items.new.items ≡ items.old.items ++ map (sending number) (count_up 0 count)) }
{
    for j in 0..count {
        let item = sending(alloc, number, j)?;
        items.push(item)?;
    }
    Ok(())
}

/// The items of the tape of a number, 1 to 64: controller 0 commits a router and inserts 100 routes for each one of the number, and worker 0 gets 400
/// packets for each, of which the routes send one half and the table's default drops the other.
#[tactic(auto, unfolding(crate::specs::Generated::generated))]
pub fn generate(alloc: Global, number: u32) -> Result<Vec<TapeItem>, NoMemory>
    requires low { 1 ≤ number }
    requires high { number ≤ 64 }
    ensures { IfOk result (λ items. items.items ≡ generated number) }
{
    let mut items = Vec::new(alloc);
    items.push(asking(alloc)?)?;
    items.push(committing(alloc)?)?;
    push_routes(alloc, &mut items, 100 * number)?;
    push_packets(alloc, &mut items, number, 400 * number)?;
    Ok(items)
}
