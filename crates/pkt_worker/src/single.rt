//! What becomes of a packet that goes to one port, or of one copy of it.
ghost use Rattle.std.specs.Prelude.{◌≡◌, ◌<◌, ◌≤◌, ◌++◌, [], ◌∷◌, All, length, map, slice_get, vec_capacity, Some, None, IfOk, OnOk};
ghost use Rattle.std.specs.Option.{option_map};
ghost use Rattle.canon_bytes.specs.Bits.{bits};
ghost use Rattle.canon_bytes.specs.ByteString.{canon};
ghost use Rattle.p4_types.specs.declared.messages.P4Data.TheVariants as contents;
ghost use Rattle.p4_types.specs.declared.records.DropReason.TheVariants as reasons;
ghost use Rattle.packet_spec.specs.Meaning as spec;
ghost use Rattle.pkt_codec.specs.Room.{HasRoom, IsInStore};
ghost use Rattle.program_spec.specs.Deparsing.{deparsed};
ghost use Rattle.program_spec.specs.Stores as stores;
ghost use Rattle.pkt_worker.specs.Verdicts.{carried, verdict_by, bytes_room, hits_room, numbers_room};

use crate::ending::{Datum, Ending, Left};
use crate::lists::add;
use crate::metadata;
use bm_expr::Store;
use bm_pipeline::headers::FieldRef;
use list_types::{ByteList, List, NoMemory};
use p4_types::messages::{P4Data, PacketIn, PacketMetadata};
use p4_types::records::{DropReason, Fate, HitMark, Output, Sample};
use pkt_codec::{PacketBuf, deparse};
use plane_state::Plane;
use std::alloc::Global;
use std::marker::Model;

/// For how many hits there is room.
const HITS: usize = 274_560;

/// For how many numbers of a header or a sample there is room.
const NUMBERS: usize = 128;

/// What becomes of a packet that goes to one port, or of the last of its copies, with room for every one: 10,240 bytes that
/// leave, or go to a controller with 128 numbers, a sample of 128 numbers, and 274,560 hits.
#[derive(Drop)]
pub(crate) struct Single {
    ending: Ending,
    bytes: PacketBuf,
    payload: usize,
    metadata: Vec<Datum>,
    digest: Option<u32>,
    elements: Vec<u128>,
    hits: Vec<HitMark>,
}

impl Model for Single {
    ghost use Rattle.std.specs.Prelude.{◌≤◌, length, vec_capacity};
    ghost use Rattle.packet_spec.specs.Meaning.{Verdict};
    ghost use Rattle.pkt_worker.specs.Verdicts.{verdict_by, sample_by, bytes_room, hits_room, numbers_room};

    ghost Value = { Verdict };

    ghost view = { λ v. verdict_by v.ending v.bytes v.payload v.metadata.items (sample_by v.digest v.elements.items) v.hits.items };

    ghost invariant = { λ v.
        (v.payload ≤ length v.bytes)
        × ((length v.bytes ≤ bytes_room)
        × ((length v.metadata.items ≤ numbers_room)
        × ((length v.hits.items ≤ hits_room)
        × ((numbers_room ≤ vec_capacity v.metadata)
        × ((numbers_room ≤ vec_capacity v.elements)
        × (hits_room ≤ vec_capacity v.hits)))))) };
}

// The numbers of these fields.
fn read_all(fields: &[FieldRef], store: &Store, numbers: &mut Vec<u128>)
    requires few { length fields.now ≤ numbers_room }
    requires in_store { All (IsInStore store.now) fields.now }
    requires room { numbers_room ≤ vec_capacity numbers.old }
    ensures read { numbers.new.items ≡ map (stores.read store.now) fields.now }
    ensures room { numbers_room ≤ vec_capacity numbers.new }
{
    numbers.clear();
    for field in fields {
        add(numbers, pkt_codec::read(store, *field));
    }
}

pub(crate) fn copied(alloc: Global, bytes: &[u8]) -> Result<ByteList, NoMemory>
    ensures { IfOk result (λ list. list ≡ bytes.now) }
{
    Ok(List::from_vec(Vec::from_slice(alloc, bytes)?))
}

fn spelled(alloc: Global, numbers: &[u128]) -> Result<List<ByteList>, NoMemory>
    ensures { IfOk result (λ list. list ≡ map canon numbers.now) }
{
    let mut list = List::new(alloc);
    for number in numbers {
        list.push(canon_bytes::write(alloc, *number)?)?;
    }
    Ok(list)
}

fn metadata_of(alloc: Global, numbers: &[Datum]) -> Result<List<PacketMetadata>, NoMemory>
    ensures { IfOk result (λ list. list ≡ map carried numbers.now) }
{
    let mut list = List::new(alloc);
    for datum in numbers {
        let value = canon_bytes::write(alloc, datum.number)?;
        list.push(PacketMetadata {
            metadata_id: datum.id,
            value,
        })?;
    }
    Ok(list)
}

pub(crate) fn told(alloc: Global, payload: &[u8], metadata: &[Datum]) -> Result<PacketIn, NoMemory>
    ensures { IfOk result (λ packet. packet ≡ record { payload = payload.now; metadata = map carried metadata.now }) }
{
    Ok(PacketIn {
        payload: copied(alloc, payload)?,
        metadata: metadata_of(alloc, metadata)?,
    })
}

impl Single {
    /// A verdict on no packet. All its memory is taken here.
    pub(crate) fn open(alloc: Global) -> Result<Single, NoMemory>
        ensures { IfOk result (λ verdict. verdict ≡ spec.dropped reasons.WithoutPipeline None []) }
    {
        Ok(Single {
            ending: Ending::Dropped(DropReason::WithoutPipeline),
            bytes: PacketBuf::open(alloc)?,
            payload: 0,
            metadata: Vec::with_capacity(alloc, NUMBERS)?,
            digest: None,
            elements: Vec::with_capacity(alloc, NUMBERS)?,
            hits: Vec::with_capacity(alloc, HITS)?,
        })
    }

    /// Whether the packet was sent, or why it was dropped.
    pub(crate) fn fate(&self) -> Fate
        ensures { result ≡ self.now.fate }
    {
        match self.ending {
            Ending::Dropped(reason) => Fate::Dropped(reason),
            Ending::ToPort(_) | Ending::ToController => Fate::Sent,
        }
    }

    /// What the packet hit, in order.
    pub(crate) fn hits(&self) -> &[HitMark]
        ensures hits { result.now ≡ self.now.hits }
        ensures few { length result.now ≤ hits_room }
    {
        self.hits.as_slice()
    }

    /// How many packets leave at ports.
    pub(crate) fn output_count(&self) -> usize
        ensures count { result ≡ length self.now.outputs }
        ensures few { result ≤ 1 }
    {
        match self.ending {
            Ending::ToPort(_) => 1,
            _ => 0,
        }
    }

    /// What leaves at ports, by its place: the port and the bytes.
    pub(crate) fn output(&self, place: usize) -> Option<(u16, &[u8])>
        ensures { option_map (λ output. record { port = output.0; bytes = output.1.now }) result ≡ slice_get self.now.outputs place }
    {
        match self.ending {
            Ending::ToPort(port) if place == 0 => Some((port, self.bytes.as_slice())),
            _ => None,
        }
    }

    /// Adds what leaves at ports.
    pub(crate) fn push_outputs(
        &self,
        alloc: Global,
        outputs: &mut List<Output>,
    ) -> Result<(), NoMemory>
        ensures { OnOk result (outputs.new ≡ outputs.old ++ self.now.outputs) }
    {
        if let Ending::ToPort(port) = self.ending {
            let bytes = copied(alloc, self.bytes.as_slice())?;
            outputs.push(Output { port, bytes })?;
        }
        Ok(())
    }

    /// How many packets go to a controller.
    pub(crate) fn packet_in_count(&self) -> usize
        ensures count { result ≡ length self.now.packet_ins }
        ensures few { result ≤ 1 }
    {
        match self.ending {
            Ending::ToController => 1,
            _ => 0,
        }
    }

    /// What goes to a controller, by its place.
    pub(crate) fn packet_in(
        &self,
        alloc: Global,
        place: usize,
    ) -> Result<Option<PacketIn>, NoMemory>
        ensures { IfOk result (λ packet. packet ≡ slice_get self.now.packet_ins place) }
    {
        match self.ending {
            Ending::ToController if place == 0 => {
                let payload = &self.bytes.as_slice()[self.payload..];
                Ok(Some(told(alloc, payload, self.metadata.as_slice())?))
            }
            _ => Ok(None),
        }
    }

    /// Adds what goes to a controller.
    pub(crate) fn push_packet_ins(
        &self,
        alloc: Global,
        packets: &mut List<PacketIn>,
    ) -> Result<(), NoMemory>
        ensures { OnOk result (packets.new ≡ packets.old ++ self.now.packet_ins) }
    {
        if let Ending::ToController = self.ending {
            let payload = &self.bytes.as_slice()[self.payload..];
            packets.push(told(alloc, payload, self.metadata.as_slice())?)?;
        }
        Ok(())
    }

    /// What a digest is given, if it is given anything.
    pub(crate) fn sample(&self, alloc: Global) -> Result<Option<Sample>, NoMemory>
        ensures { IfOk result (λ sample. sample ≡ self.now.sample) }
    {
        match self.digest {
            None => Ok(None),
            Some(digest) => Ok(Some(Sample {
                digest,
                content: P4Data::Struct(spelled(alloc, self.elements.as_slice())?),
            })),
        }
    }

    /// What the packet hit, in order.
    pub(crate) fn hit_list(&self, alloc: Global) -> Result<List<HitMark>, NoMemory>
        ensures hits { IfOk result (λ hits. hits ≡ self.now.hits) }
        ensures few { IfOk result (λ hits. length hits ≤ hits_room) }
    {
        Ok(List::from_vec(Vec::from_slice(alloc, self.hits.as_slice())?))
    }

    /// What leaves, or goes to a controller, of which it may be a part: how it ends, all bytes, where those begin that go to a
    /// controller, and the numbers of the header before them.
    pub(crate) fn left(&self) -> Left<'_>
        ensures left { self.now ≡ verdict_by result.ending result.bytes.now result.payload result.metadata.now self.now.sample self.now.hits }
        ensures bytes { length result.bytes.now ≤ bytes_room }
        ensures payload { result.payload ≤ length result.bytes.now }
        ensures metadata { length result.metadata.now ≤ numbers_room }
    {
        Left {
            ending: self.ending,
            bytes: self.bytes.as_slice(),
            payload: self.payload,
            metadata: self.metadata.as_slice(),
        }
    }

    /// Makes it the verdict on a packet that comes to no plane. It takes no memory, and neither does what follows.
    pub(crate) fn clear(&mut self)
        ensures { self.new ≡ spec.dropped reasons.WithoutPipeline None [] }
    {
        self.ending = Ending::Dropped(DropReason::WithoutPipeline);
        self.digest = None;
        self.hits.clear();
    }

    /// Adds a hit, for which there is room.
    pub(crate) fn hit(&mut self, mark: HitMark)
        requires room { length self.old.hits < hits_room }
        ensures { self.new ≡ record self.old { hits = self.old.hits ++ mark ∷ [] } }
    {
        add(&mut self.hits, mark);
    }

    /// Gives a digest the numbers of these fields.
    pub(crate) fn give(&mut self, digest: u32, fields: &[FieldRef], store: &Store)
        requires few { length fields.now ≤ numbers_room }
        requires in_store { All (IsInStore store.now) fields.now }
        ensures { self.new ≡ record self.old { sample = Some (record { digest = digest; content = contents.Struct (map (λ field. canon (stores.read store.now field)) fields.now) }) } }
    {
        read_all(fields, store, &mut self.elements);
        self.digest = Some(digest);
    }

    /// Drops the packet.
    pub(crate) fn drop_for(&mut self, reason: DropReason)
        ensures { self.new ≡ spec.dropped reason self.old.sample self.old.hits }
    {
        self.ending = Ending::Dropped(reason);
    }

    /// Sends what a store and the bytes that were not extracted make at a port; at the CPU port it goes to a controller.
    pub(crate) fn send(&mut self, plane: &Plane, cpu: u16, port: u16, store: &Store, rest: &[u8])
        requires room { HasRoom plane.now.now.config.program store.now }
        ensures { self.new ≡ spec.sent_to plane.now.now.config.info cpu port self.old.sample self.old.hits (deparsed plane.now.now.config.program store.now (bits rest.now)) }
    {
        self.payload = 0;
        let config = plane.config();
        if !deparse(config.pipeline(), store, rest, &mut self.bytes) {
            self.ending = Ending::Dropped(DropReason::TooLong);
            return;
        }
        if port != cpu {
            self.ending = Ending::ToPort(port);
            return;
        }
        self.ending = metadata::to_controller(
            metadata::packet_in_fields(config.info()),
            self.bytes.as_slice(),
            &mut self.payload,
            &mut self.metadata,
        );
    }
}
