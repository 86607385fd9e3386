// What a tape asks for.
use list_types::{ByteList, NoMemory};
use p4_types::calls::{Call, Method};
use p4_types::tape::TapeRecord;
use p4v1_read::read_call;
use std::alloc::Global;

/// A packet that a worker runs, and the port at which it enters.
#[derive(Drop)]
pub struct Load {
    pub port: u16,
    pub packet: ByteList,
}

/// The calls that are made first, and those of the writer.
#[derive(Drop)]
pub struct Calls {
    pub first: Vec<Call>,
    pub written: Vec<Call>,
}

/// The calls, and the packets of each worker.
#[derive(Drop)]
pub struct Plan {
    pub calls: Calls,
    pub loads: Vec<Vec<Load>>,
}

// A list for each worker up to this one.
fn add_lists(alloc: Global, loads: &mut Vec<Vec<Load>>, lane: usize) -> Result<(), NoMemory> {
    for _ in loads.len()..lane.saturating_add(1) {
        loads.push(Vec::new(alloc))?;
    }
    Ok(())
}

// A packet for the worker of a lane.
fn add_load(
    alloc: Global,
    loads: &mut Vec<Vec<Load>>,
    lane: usize,
    port: u16,
    packet: &[u8],
) -> Result<(), NoMemory> {
    add_lists(alloc, loads, lane)?;
    if let Some(list) = loads.get_mut(lane) {
        let packet = ByteList::from_vec(Vec::from_slice(alloc, packet)?);
        list.push(Load { port, packet })?;
    }
    Ok(())
}

// A call of a lane.
fn add_call(
    alloc: Global,
    calls: &mut Calls,
    lane: u16,
    method: Method,
    message: &[u8],
) -> Result<(), NoMemory> {
    let list = match lane {
        0 => &mut calls.first,
        _ => &mut calls.written,
    };
    list.push(read_call(alloc, method, message)?)?;
    Ok(())
}

// Meets and the ends of streams are passed over.
fn add_record(alloc: Global, plan: &mut Plan, record: &TapeRecord) -> Result<(), NoMemory> {
    match record {
        TapeRecord::Call {
            lane,
            method,
            message,
        } => add_call(alloc, &mut plan.calls, *lane, *method, message.as_slice()),
        TapeRecord::Packet { lane, port, packet } => {
            let lane = usize::from(*lane);
            add_load(alloc, &mut plan.loads, lane, *port, packet.as_slice())
        }
        TapeRecord::Leave { .. } | TapeRecord::Meet { .. } => Ok(()),
    }
}

/// Deals the records of a tape.
pub fn deal(alloc: Global, records: &[TapeRecord]) -> Result<Plan, NoMemory> {
    let mut plan = Plan {
        calls: Calls {
            first: Vec::new(alloc),
            written: Vec::new(alloc),
        },
        loads: Vec::new(alloc),
    };
    for record in records {
        if add_record(alloc, &mut plan, record).is_err() {
            drop(plan);
            return Err(NoMemory);
        }
    }
    Ok(plan)
}
