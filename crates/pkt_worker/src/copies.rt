//! The copies of a packet that were made before the last one.
ghost use Rattle.std.specs.Prelude.{◌≡◌, ◌+◌, ◌<◌, ◌≤◌, ◌++◌, [], ◌∷◌, All, length, map, slice_get, vec_capacity, Some, None, IfOk, OnOk};
ghost use Rattle.std.specs.Option.{option_map};
ghost use Rattle.p4_types.specs.declared.records.Fate.TheVariants as fates;
ghost use Rattle.packet_spec.specs.Meaning as spec;
ghost use Rattle.pkt_worker.specs.Copies.{no_copies, fate_behind, with_copy, copies_room, output_of, packet_in_of, IsOutputWithin, IsPacketInWithin};
ghost use Rattle.pkt_worker.specs.Verdicts.{carried, bytes_room, numbers_room};

use crate::ending::{Datum, Ending};
use crate::lists::{add, place_all};
use crate::single::{Single, copied, told};
use list_types::{List, NoMemory};
use p4_types::messages::PacketIn;
use p4_types::records::{DropReason, Fate, Output};
use std::alloc::Global;
use std::marker::Model;

/// How many copies there is room for: one fewer than a multicast group has replicas.
const COPIES: usize = 31;

/// How many bytes a copy has at most.
const LONGEST: usize = 10_240;

/// How many numbers the header of a copy to a controller carries at most.
const NUMBERS: usize = 128;

/// A copy that leaves at a port, with the place of its bytes.
#[derive(Clone, Copy)]
pub(crate) struct OutputPart {
    port: u16,
    start: usize,
    end: usize,
}

/// A copy that goes to a controller, with the places of its bytes and of the numbers of its header.
#[derive(Clone, Copy)]
pub(crate) struct PacketInPart {
    start: usize,
    end: usize,
    first: usize,
    last: usize,
}

/// Copies that were made, with room for 31: whether one was sent, and what they send. Their bytes stand end to end.
#[derive(Drop)]
pub(crate) struct Copies {
    count: usize,
    fate: Option<Fate>,
    outputs: Vec<OutputPart>,
    packet_ins: Vec<PacketInPart>,
    bytes: Vec<u8>,
    metadata: Vec<Datum>,
}

impl Model for Copies {
    ghost use Rattle.std.specs.Prelude.{length, map, vec_capacity};
    ghost use Rattle.pkt_worker.specs.Copies.{CopiesMade, output_of, packet_in_of, AreKept, HaveRoom};

    ghost Value = { CopiesMade };

    ghost view = { λ c. record {
      count = c.count;
      fate = c.fate;
      outputs = map (output_of c.bytes.items) c.outputs.items;
      packet_ins = map (packet_in_of c.bytes.items c.metadata.items) c.packet_ins.items;
    } };

    ghost invariant = { λ c.
        AreKept c.count c.outputs.items c.packet_ins.items (length c.bytes.items) (length c.metadata.items)
        × HaveRoom (vec_capacity c.outputs) (vec_capacity c.packet_ins) (vec_capacity c.bytes) (vec_capacity c.metadata) };
}

// What becomes of a packet: it is sent where a copy before or this one was; else its fate is that of the first.
fn fate_with(before: Fate, fate: Fate) -> Fate
    ensures { result ≡ spec.fate_with before fate }
{
    match fate {
        Fate::Sent => Fate::Sent,
        Fate::Dropped(_) => before,
    }
}

// What goes to a controller of these bytes and numbers.
fn packet_in_of(
    alloc: Global,
    bytes: &[u8],
    metadata: &[Datum],
    part: PacketInPart,
) -> Result<PacketIn, NoMemory>
    requires { IsPacketInWithin (length bytes.now) (length metadata.now) part }
    ensures { IfOk result (λ packet. packet ≡ packet_in_of bytes.now metadata.now part) }
{
    told(
        alloc,
        &bytes[part.start..part.end],
        &metadata[part.first..part.last],
    )
}

// Keeps what leaves at a port behind what was kept.
fn keep_output(port: u16, more: &[u8], bytes: &mut Vec<u8>, parts: &mut Vec<OutputPart>)
    requires bytes_room { length bytes.old.items + length more.now ≤ vec_capacity bytes.old }
    requires parts_room { length parts.old.items < vec_capacity parts.old }
    requires within { All (IsOutputWithin (length bytes.old.items)) parts.old.items }
    ensures kept { map (output_of bytes.new.items) parts.new.items ≡ map (output_of bytes.old.items) parts.old.items ++ (record { port = port; bytes = more.now }) ∷ [] }
    ensures bytes { bytes.new.items ≡ bytes.old.items ++ more.now }
    ensures within { All (IsOutputWithin (length bytes.new.items)) parts.new.items }
    ensures one_more { length parts.new.items ≡ length parts.old.items + 1 }
    ensures bytes_room { vec_capacity bytes.old ≤ vec_capacity bytes.new }
    ensures parts_room { vec_capacity parts.old ≤ vec_capacity parts.new }
{
    let (start, end) = place_all(bytes, more);
    add(parts, OutputPart { port, start, end });
}

// Keeps what goes to a controller behind what was kept.
fn keep_packet_in(
    payload: &[u8],
    numbers: &[Datum],
    bytes: &mut Vec<u8>,
    metadata: &mut Vec<Datum>,
    parts: &mut Vec<PacketInPart>,
)
    requires bytes_room { length bytes.old.items + length payload.now ≤ vec_capacity bytes.old }
    requires metadata_room { length metadata.old.items + length numbers.now ≤ vec_capacity metadata.old }
    requires parts_room { length parts.old.items < vec_capacity parts.old }
    requires within { All (IsPacketInWithin (length bytes.old.items) (length metadata.old.items)) parts.old.items }
    ensures kept { map (packet_in_of bytes.new.items metadata.new.items) parts.new.items ≡ map (packet_in_of bytes.old.items metadata.old.items) parts.old.items ++ (record { payload = payload.now; metadata = map carried numbers.now }) ∷ [] }
    ensures bytes { bytes.new.items ≡ bytes.old.items ++ payload.now }
    ensures metadata { metadata.new.items ≡ metadata.old.items ++ numbers.now }
    ensures within { All (IsPacketInWithin (length bytes.new.items) (length metadata.new.items)) parts.new.items }
    ensures one_more { length parts.new.items ≡ length parts.old.items + 1 }
    ensures bytes_room { vec_capacity bytes.old ≤ vec_capacity bytes.new }
    ensures metadata_room { vec_capacity metadata.old ≤ vec_capacity metadata.new }
    ensures parts_room { vec_capacity parts.old ≤ vec_capacity parts.new }
{
    let (start, end) = place_all(bytes, payload);
    let (first, last) = place_all(metadata, numbers);
    let part = PacketInPart {
        start,
        end,
        first,
        last,
    };
    add(parts, part);
}

// Adds what leaves at ports.
fn push_output_parts(
    alloc: Global,
    bytes: &[u8],
    parts: &[OutputPart],
    outputs: &mut List<Output>,
) -> Result<(), NoMemory>
    requires within { All (IsOutputWithin (length bytes.now)) parts.now }
    ensures { OnOk result (outputs.new ≡ outputs.old ++ map (output_of bytes.now) parts.now) }
{
    for part in parts {
        let copy = copied(alloc, &bytes[part.start..part.end])?;
        outputs.push(Output {
            port: part.port,
            bytes: copy,
        })?;
    }
    Ok(())
}

// Adds what goes to a controller.
fn push_packet_in_parts(
    alloc: Global,
    bytes: &[u8],
    metadata: &[Datum],
    parts: &[PacketInPart],
    packets: &mut List<PacketIn>,
) -> Result<(), NoMemory>
    requires within { All (IsPacketInWithin (length bytes.now) (length metadata.now)) parts.now }
    ensures { OnOk result (packets.new ≡ packets.old ++ map (packet_in_of bytes.now metadata.now) parts.now) }
{
    for part in parts {
        packets.push(packet_in_of(alloc, bytes, metadata, *part)?)?;
    }
    Ok(())
}

impl Copies {
    /// No copies. All their memory is taken here.
    pub(crate) fn open(alloc: Global) -> Result<Copies, NoMemory>
        ensures { IfOk result (λ copies. copies ≡ no_copies) }
    {
        Ok(Copies {
            count: 0,
            fate: None,
            outputs: Vec::with_capacity(alloc, COPIES)?,
            packet_ins: Vec::with_capacity(alloc, COPIES)?,
            bytes: Vec::with_capacity(alloc, COPIES * LONGEST)?,
            metadata: Vec::with_capacity(alloc, COPIES * NUMBERS)?,
        })
    }

    /// Forgets all copies.
    pub(crate) fn clear(&mut self)
        ensures { self.new ≡ no_copies }
    {
        self.count = 0;
        self.fate = None;
        self.outputs.clear();
        self.packet_ins.clear();
        self.bytes.clear();
        self.metadata.clear();
    }

    /// Adds a copy, for which there is room. It takes no memory.
    pub(crate) fn push(&mut self, copy: &Single)
        requires room { self.old.count < copies_room }
        ensures { self.new ≡ with_copy self.old copy.now }
    {
        let left = copy.left();
        match left.ending {
            Ending::Dropped(reason) => self.push_none(reason),
            Ending::ToPort(port) => self.push_output(port, left.bytes),
            Ending::ToController => self.push_packet_in(&left.bytes[left.payload..], left.metadata),
        }
    }

    // Adds a copy that was dropped.
    fn push_none(&mut self, reason: DropReason)
        requires room { self.old.count < copies_room }
        ensures { self.new ≡ record self.old { count = self.old.count + 1; fate = Some (fate_behind self.old.fate (fates.Dropped reason)) } }
    {
        self.fate = Some(self.fate_behind(Fate::Dropped(reason)));
        self.count += 1;
    }

    // Adds a copy that leaves at a port.
    fn push_output(&mut self, port: u16, bytes: &[u8])
        requires room { self.old.count < copies_room }
        requires few { length bytes.now ≤ bytes_room }
        ensures { self.new ≡ record self.old { count = self.old.count + 1; fate = Some fates.Sent; outputs = self.old.outputs ++ (record { port = port; bytes = bytes.now }) ∷ [] } }
    {
        keep_output(port, bytes, &mut self.bytes, &mut self.outputs);
        self.fate = Some(Fate::Sent);
        self.count += 1;
    }

    // Adds a copy that goes to a controller.
    fn push_packet_in(&mut self, payload: &[u8], metadata: &[Datum])
        requires room { self.old.count < copies_room }
        requires few_bytes { length payload.now ≤ bytes_room }
        requires few_numbers { length metadata.now ≤ numbers_room }
        ensures { self.new ≡ record self.old { count = self.old.count + 1; fate = Some fates.Sent; packet_ins = self.old.packet_ins ++ (record { payload = payload.now; metadata = map carried metadata.now }) ∷ [] } }
    {
        keep_packet_in(
            payload,
            metadata,
            &mut self.bytes,
            &mut self.metadata,
            &mut self.packet_ins,
        );
        self.fate = Some(Fate::Sent);
        self.count += 1;
    }

    /// What becomes of a packet whose last copy has this fate.
    pub(crate) fn fate_behind(&self, fate: Fate) -> Fate
        ensures { result ≡ fate_behind self.now.fate fate }
    {
        match self.fate {
            None => fate,
            Some(before) => fate_with(before, fate),
        }
    }

    /// How many packets leave at ports.
    pub(crate) fn output_count(&self) -> usize
        ensures count { result ≡ length self.now.outputs }
        ensures few { result ≤ copies_room }
    {
        self.outputs.len()
    }

    /// What leaves at ports, by its place: the port and the bytes.
    pub(crate) fn output(&self, place: usize) -> Option<(u16, &[u8])>
        ensures { option_map (λ output. record { port = output.0; bytes = output.1.now }) result ≡ slice_get self.now.outputs place }
    {
        let part = self.outputs.get(place)?;
        Some((part.port, &self.bytes[part.start..part.end]))
    }

    /// Adds what leaves at ports.
    pub(crate) fn push_outputs(
        &self,
        alloc: Global,
        outputs: &mut List<Output>,
    ) -> Result<(), NoMemory>
        ensures { OnOk result (outputs.new ≡ outputs.old ++ self.now.outputs) }
    {
        push_output_parts(
            alloc,
            self.bytes.as_slice(),
            self.outputs.as_slice(),
            outputs,
        )
    }

    /// How many packets go to a controller.
    pub(crate) fn packet_in_count(&self) -> usize
        ensures count { result ≡ length self.now.packet_ins }
        ensures few { result ≤ copies_room }
    {
        self.packet_ins.len()
    }

    /// What goes to a controller, by its place.
    pub(crate) fn packet_in(
        &self,
        alloc: Global,
        place: usize,
    ) -> Result<Option<PacketIn>, NoMemory>
        ensures { IfOk result (λ packet. packet ≡ slice_get self.now.packet_ins place) }
    {
        match self.packet_ins.get(place) {
            None => Ok(None),
            Some(part) => Ok(Some(packet_in_of(
                alloc,
                self.bytes.as_slice(),
                self.metadata.as_slice(),
                *part,
            )?)),
        }
    }

    /// Adds what goes to a controller.
    pub(crate) fn push_packet_ins(
        &self,
        alloc: Global,
        packets: &mut List<PacketIn>,
    ) -> Result<(), NoMemory>
        ensures { OnOk result (packets.new ≡ packets.old ++ self.now.packet_ins) }
    {
        push_packet_in_parts(
            alloc,
            self.bytes.as_slice(),
            self.metadata.as_slice(),
            self.packet_ins.as_slice(),
            packets,
        )
    }
}
