// A program's stages over one packet, and the whole run of it.
ghost use Rattle.std.specs.Prelude.{◌≡◌, ◌+◌, ◌<◌, ◌≤◌, [], All, IsTrue, length};
ghost use Rattle.act_exec.specs.Marks.{TakesData};
ghost use Rattle.pkt_codec.specs.Room.{HasRoom};
ghost use Rattle.pkt_worker.specs.Slots.{HasSlots};

use crate::moments::nanoseconds;
use act_exec::{Marks, run_action};
use bm_expr::Store;
use bm_pipeline::Pipeline;
use list_types::NoMemory;
use pkt_codec::{PacketBuf, deparse, enter, parse, update_sums};
use pkt_worker::{Scratch, Verdict, run};
use plane_state::Plane;
use std::alloc::Global;
use std::io::{self, Error, ErrorKind};
use std::time::Clock;

// Of so many batches the fastest counts, so that other work beside it is not counted.
const BATCHES: u32 = 40;

/// An IPv4 packet of 34 bytes from 10.0.0.1 to 10.0.0.1, with 64 hops left.
pub const PACKET: [u8; 34] = [
    2, 0, 0, 0, 0, 10, 2, 0, 0, 0, 0, 1, 8, 0, 0x45, 0, 0, 20, 0, 0, 0, 0, 64, 1, 0, 0, 10, 0, 0,
    1, 10, 0, 0, 1,
];

/// The arguments of `route`: a port and an Ethernet address.
pub const ARGUMENTS: [u128; 2] = [3, 0x0200_0000_0001];

/// What is measured.
#[derive(Clone, Copy)]
pub enum Part {
    /// The store of a packet that enters.
    Enter,
    Parse,
    /// The first action.
    Act,
    Checksums,
    Deparse,
    /// The four before, with the store.
    Stages,
}

/// What a packet took, in hundredths of a nanosecond, and a sum of what came, which keeps the work from being left out.
#[derive(Drop)]
pub struct Measured {
    pub hundredths: u128,
    pub sum: u64,
}

/// What the stages need.
#[derive(Drop)]
pub struct Room {
    store: Store,
    marks: Marks,
    out: PacketBuf,
}

/// Takes the memory of the stages.
pub fn open(alloc: Global) -> Result<Room, NoMemory> {
    let store = Store::open(alloc, 0, 0)?;
    let marks = Marks::open(alloc)?;
    let out = PacketBuf::open(alloc)?;
    Ok(Room { store, marks, out })
}

// A packet that entered and was parsed. How many bytes were extracted.
fn parsed(pipeline: &Pipeline, store: &mut Store) -> usize
    ensures room { HasRoom pipeline.now store.new }
    ensures used { result ≤ 34 }
{
    let program = pipeline.program();
    store.fit(program.fields, program.headers.len());
    enter(pipeline, 1, PACKET.len(), store);
    parse(pipeline, &PACKET, store).used
}

fn takes_data(pipeline: &Pipeline, args: &[u128]) -> bool
    ensures { IsTrue result → TakesData pipeline.now 0 args.now }
{
    match pipeline.program().actions.as_slice().get(0) {
        None => false,
        Some(action) => action.runtime_data.len() == args.len(),
    }
}

fn enters(pipeline: &Pipeline, store: &mut Store, times: u32) -> u64 {
    let program = pipeline.program();
    let mut sum = 0u64;
    for time in 0..times {
        store.fit(program.fields, program.headers.len());
        enter(pipeline, (time % 8) as u16, PACKET.len(), store);
        sum = sum.wrapping_add(u64::from(time % 8));
    }
    sum
}

fn parses(pipeline: &Pipeline, store: &mut Store, times: u32) -> u64 {
    parsed(pipeline, store);
    let mut sum = 0u64;
    for _ in 0..times {
        sum = sum.wrapping_add(parse(pipeline, &PACKET, store).used as u64);
    }
    sum
}

// Runs the first action, if it takes these data.
fn acts(pipeline: &Pipeline, args: &[u128], room: &mut Room, times: u32) -> u64 {
    if !takes_data(pipeline, args) {
        return 0;
    }
    parsed(pipeline, &mut room.store);
    for _ in 0..times {
        room.marks.clear();
        run_action(pipeline, 0, args, &mut room.store, &mut room.marks);
    }
    u64::from(times)
}

fn checksums(pipeline: &Pipeline, store: &mut Store, times: u32) -> u64 {
    parsed(pipeline, store);
    for _ in 0..times {
        update_sums(pipeline, store);
    }
    u64::from(times)
}

fn deparses(pipeline: &Pipeline, room: &mut Room, times: u32) -> u64 {
    let used = parsed(pipeline, &mut room.store);
    let mut sum = 0u64;
    for _ in 0..times {
        if deparse(pipeline, &room.store, &PACKET[used..], &mut room.out) {
            sum = sum.wrapping_add(room.out.as_slice().len() as u64);
        }
    }
    sum
}

// The stages of one packet, with the first action if it takes these data. How many bytes leave.
fn stages(pipeline: &Pipeline, args: &[u128], room: &mut Room) -> u64 {
    let used = parsed(pipeline, &mut room.store);
    room.marks.clear();
    if takes_data(pipeline, args) {
        run_action(pipeline, 0, args, &mut room.store, &mut room.marks);
    }
    update_sums(pipeline, &mut room.store);
    if deparse(pipeline, &room.store, &PACKET[used..], &mut room.out) {
        room.out.as_slice().len() as u64
    } else {
        0
    }
}

fn all_stages(pipeline: &Pipeline, args: &[u128], room: &mut Room, times: u32) -> u64 {
    let mut sum = 0u64;
    for _ in 0..times {
        sum = sum.wrapping_add(stages(pipeline, args, room));
    }
    sum
}

fn batch(pipeline: &Pipeline, part: Part, args: &[u128], room: &mut Room, times: u32) -> u64 {
    match part {
        Part::Enter => enters(pipeline, &mut room.store, times),
        Part::Parse => parses(pipeline, &mut room.store, times),
        Part::Act => acts(pipeline, args, room, times),
        Part::Checksums => checksums(pipeline, &mut room.store, times),
        Part::Deparse => deparses(pipeline, room, times),
        Part::Stages => all_stages(pipeline, args, room, times),
    }
}

fn hundredths(before: u128, after: u128, times: u32) -> u128 {
    after
        .saturating_sub(before)
        .saturating_mul(100)
        .checked_div(u128::from(times))
        .unwrap_or(0)
}

/// Measures a part over the packet again and again.
pub fn measure<R: Clock>(
    rt: &R,
    pipeline: &Pipeline,
    part: Part,
    args: &[u128],
    room: &mut Room,
    times: u32,
) -> Measured {
    let mut best = u128::MAX;
    let mut sum = 0u64;
    for _ in 0..BATCHES {
        let before = nanoseconds(rt);
        sum = sum.wrapping_add(batch(pipeline, part, args, room, times));
        let after = nanoseconds(rt);
        best = best.min(hundredths(before, after, times));
    }
    Measured {
        hundredths: best,
        sum,
    }
}

// Whether a plane has no cells, so that their slots are within the limit.
fn has_no_cells(plane: &Plane) -> bool
    ensures { IsTrue result → HasSlots plane.now.now }
{
    match plane.config().info().info().counters.as_slice() {
        [] => plane.cells() == 0,
        _ => false,
    }
}

// Runs the packet so often through a plane. How many bytes left.
fn runs(plane: &Plane, scratch: &mut Scratch, verdict: &mut Verdict, times: u32) -> u64
    requires slots { HasSlots plane.now.now }
{
    let mut sum = 0u64;
    for _ in 0..times {
        run(Some(plane), 255, 1, &PACKET, scratch, verdict);
        if let Some((_, bytes)) = verdict.output(0) {
            sum = sum.wrapping_add(bytes.len() as u64);
        }
    }
    sum
}

/// Takes the memory that packets need while they run.
pub fn memory_of_run(alloc: Global) -> Result<(Scratch, Verdict), NoMemory> {
    let scratch = Scratch::open(alloc)?;
    Ok((scratch, Verdict::open(alloc)?))
}

/// Measures the whole run of the packet through a plane without cells.
pub fn measure_run<R: Clock + AllocGlobal>(
    rt: &R,
    plane: &Plane,
    times: u32,
) -> io::Result<Measured> {
    if !has_no_cells(plane) {
        return Err(Error::from(ErrorKind::InvalidData));
    }
    let Ok((mut scratch, mut verdict)) = memory_of_run(rt.alloc()) else {
        return Err(Error::from(ErrorKind::OutOfMemory));
    };
    let mut best = u128::MAX;
    let mut sum = 0u64;
    for _ in 0..BATCHES {
        let before = nanoseconds(rt);
        sum = sum.wrapping_add(runs(plane, &mut scratch, &mut verdict, times));
        let after = nanoseconds(rt);
        best = best.min(hundredths(before, after, times));
    }
    drop(scratch);
    drop(verdict);
    Ok(Measured {
        hundredths: best,
        sum,
    })
}
