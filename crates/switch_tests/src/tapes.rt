// Tapes, and runs of them.
use p4_types::events::Start;
use p4_types::journal::Report;
use replay_run::{Gate, replay_free};
use std::alloc::{AllocError, Global};
use std::sync::Wait;
use std::test::Fail;
use std::thread::Threads;
use sw_edge::MemorySource;
use tape_form::Tape;

/// A switch that starts with the bridge, and with controller lane 0 as its primary.
const BRIDGE: Start = Start {
    device: 1,
    cpu: 255,
    rows: 16_384,
    slots: 1_048_576,
    bridge: true,
};

// The frame to address 02, from address 01.
const FRAME: [u8; 14] = [0, 0, 0, 0, 0, 2, 0, 0, 0, 0, 0, 1, 8, 0];

// A Write that inserts into the bridge's table: address 02 to port 2.
const INSERT: [u8; 44] = [
    0x08, 0x01, 0x1a, 0x02, 0x10, 0x01, 0x22, 0x24, 0x08, 0x01, 0x12, 0x20, 0x12, 0x1e, 0x08, 0x81,
    0x80, 0x80, 0x10, 0x12, 0x07, 0x08, 0x01, 0x12, 0x03, 0x0a, 0x01, 0x02, 0x1a, 0x0e, 0x0a, 0x0c,
    0x08, 0x81, 0x80, 0x80, 0x08, 0x22, 0x05, 0x10, 0x01, 0x1a, 0x01, 0x02,
];

/// The bytes of a tape without its end.
pub(crate) fn beginning(alloc: Global) -> Result<Vec<u8>, AllocError> {
    Vec::from_slice(alloc, b"P4TAPE1\n")
}

/// Adds a Write of this controller's lane that inserts the frame's address.
pub(crate) fn insert(tape: &mut Vec<u8>, lane: u8) -> Result<(), AllocError> {
    tape.extend_from_slice(&[1, 0, lane, 0, 0, 0, 45, 1])?;
    tape.extend_from_slice(&INSERT)
}

/// Adds a call of this controller's lane that changes nothing.
pub(crate) fn ask(tape: &mut Vec<u8>, lane: u8) -> Result<(), AllocError> {
    tape.extend_from_slice(&[1, 0, lane, 0, 0, 0, 1, 6])
}

/// Adds the frame, which this worker gets from port 1.
pub(crate) fn packet(tape: &mut Vec<u8>, worker: u8) -> Result<(), AllocError> {
    tape.extend_from_slice(&[2, 0, worker, 0, 0, 0, 16, 0, 1])?;
    tape.extend_from_slice(&FRAME)
}

/// Adds a meet of this worker with a call of a controller's lane.
pub(crate) fn meet(tape: &mut Vec<u8>, worker: u8, lane: u8, call: u8) -> Result<(), AllocError> {
    tape.extend_from_slice(&[5, 0, worker, 0, 0, 0, 6, 0, lane, 0, 0, 0, call])
}

/// The beginning of a tape on which each of the first lanes asks so often.
pub(crate) fn tape_of_calls(alloc: Global, lanes: u8, each: u64) -> Result<Vec<u8>, AllocError> {
    let mut tape = beginning(alloc)?;
    for _ in 0..each {
        for lane in 0..lanes {
            ask(&mut tape, lane)?;
        }
    }
    Ok(tape)
}

// Reads a tape whose end is still to be added.
fn read(alloc: Global, tape: Vec<u8>) -> Result<Tape, Fail> {
    let mut bytes = tape;
    bytes.extend_from_slice(&[0; 7])?;
    let mut source = MemorySource::in_pieces(bytes, 65_536, Vec::new(alloc));
    let tape = tape_from(alloc, &mut source);
    drop(source);
    match tape {
        Some(tape) => Ok(tape),
        None => Err("not a tape".into()),
    }
}

// It promises nothing, so that the tests do not carry what `read` does.
#[tactic(none)]
fn tape_from(alloc: Global, source: &mut MemorySource) -> Option<Tape> {
    Tape::read(alloc, source).ok()
}

/// Runs a tape whose end is still to be added, on a switch with the bridge.
pub(crate) fn run<T: Threads + Wait + Sync, G: Gate + Sync>(
    rt: &T,
    alloc: Global,
    gate: &G,
    tape: Vec<u8>,
) -> Result<Report, Fail> {
    let records = read(alloc, tape)?.into_records(alloc)?;
    Ok(replay_free(rt, alloc, gate, BRIDGE, records)?)
}
