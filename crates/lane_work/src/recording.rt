//! The record of a packet, made of its verdict.
ghost use Rattle.std.specs.Prelude.{◌≡◌, map, OnOk, OnErr, IfOk};
ghost use Rattle.lane_work.specs.Work.{with_last};
ghost use Rattle.switch_spec.specs.Meaning.{record_of, to_lane};

use list_types::{List, NoMemory};
use p4_types::messages::PacketIn;
use p4_types::records::{CpuMessage, Record};
use p4_types::tape::Who;
use pkt_worker::Verdict;
use std::alloc::Global;

// Packets for a controller, which go to this lane or to none.
fn addressed(
    alloc: Global,
    lane: Option<u16>,
    packets: List<PacketIn>,
) -> Result<List<CpuMessage>, NoMemory>
    ensures { IfOk result (λ messages. messages ≡ map (to_lane lane) packets) }
{
    let mut messages = List::new(alloc);
    for packet in packets.into_vec() {
        messages.push(CpuMessage { lane, packet })?;
    }
    Ok(messages)
}

// The record of a lane's packet after so many steps, of which packets to a controller go to this lane or to none.
fn recorded(
    alloc: Global,
    who: Who,
    index: u64,
    steps: u64,
    receiver: Option<u16>,
    verdict: &Verdict,
) -> Result<Record, NoMemory>
    ensures { IfOk result (λ r. r ≡ record_of who index steps receiver verdict.now) }
{
    Ok(Record {
        who,
        index,
        steps,
        fate: verdict.fate(),
        outputs: verdict.outputs(alloc)?,
        cpu: addressed(alloc, receiver, verdict.packet_ins(alloc)?)?,
        digest: verdict.sample(alloc)?,
        hits: verdict.hit_list(alloc)?,
    })
}

/// Adds the record of the last packet, if it is still to be made. Without memory nothing is added.
pub(crate) fn record_last(
    alloc: Global,
    who: Who,
    is_due: bool,
    steps: u64,
    receiver: Option<u16>,
    verdict: &Verdict,
    records: &mut List<Record>,
) -> Result<(), NoMemory>
    ensures recorded { OnOk result (records.new ≡ with_last who records.old is_due steps receiver verdict.now) }
    ensures kept { OnErr result (records.new ≡ records.old) }
{
    if !is_due {
        return Ok(());
    }
    let index = records.as_slice().len() as u64 + 1;
    let last = recorded(alloc, who, index, steps, receiver, verdict)?;
    records.push(last)?;
    Ok(())
}
