//! Verdicts on packets.
ghost use Rattle.std.specs.Prelude.{◌≡◌, ◌≤◌, [], length, slice_get, None, IfOk};
ghost use Rattle.std.specs.Option.{option_map};
ghost use Rattle.p4_types.specs.declared.records.DropReason.TheVariants as reasons;
ghost use Rattle.packet_spec.specs.Meaning as spec;
ghost use Rattle.pkt_worker.specs.Verdicts.{hits_room};

use crate::copies::Copies;
use crate::single::Single;
use list_types::{List, NoMemory};
use p4_types::messages::PacketIn;
use p4_types::records::{Fate, HitMark, Output, Sample};
use std::alloc::Global;
use std::marker::Model;

/// What becomes of a packet, with room for every one: 32 copies of at most 10,240 bytes that leave, or go to a controller with
/// 128 numbers each, a sample of 128 numbers, and 274,560 hits.
#[derive(Drop)]
pub struct Verdict {
    /// The copies before the last one.
    pub(crate) copies: Copies,
    /// The last copy, or the packet itself where it goes to one port.
    pub(crate) last: Single,
}

impl Model for Verdict {
    ghost use Rattle.packet_spec.specs.Meaning.{Verdict};
    ghost use Rattle.pkt_worker.specs.Copies.{with_last};

    ghost Value = { Verdict };

    ghost view = { λ v. with_last v.copies v.last };
}

impl Verdict {
    /// A verdict on no packet. All its memory is taken here.
    pub fn open(alloc: Global) -> Result<Verdict, NoMemory>
        ensures { IfOk result (λ verdict. verdict ≡ spec.dropped reasons.WithoutPipeline None []) }
    {
        Ok(Verdict {
            copies: Copies::open(alloc)?,
            last: Single::open(alloc)?,
        })
    }

    /// Whether the packet was sent, or why it was dropped.
    pub fn fate(&self) -> Fate
        ensures { result ≡ self.now.fate }
    {
        self.copies.fate_behind(self.last.fate())
    }

    /// What the packet hit, in order.
    pub fn hits(&self) -> &[HitMark]
        ensures hits { result.now ≡ self.now.hits }
        ensures few { length result.now ≤ hits_room }
    {
        self.last.hits()
    }

    /// How many packets leave at ports.
    pub fn output_count(&self) -> usize
        ensures { result ≡ length self.now.outputs }
    {
        self.copies.output_count() + self.last.output_count()
    }

    /// What leaves at ports, by its place: the port and the bytes.
    pub fn output(&self, place: usize) -> Option<(u16, &[u8])>
        ensures { option_map (λ output. record { port = output.0; bytes = output.1.now }) result ≡ slice_get self.now.outputs place }
    {
        let before = self.copies.output_count();
        if place < before {
            self.copies.output(place)
        } else {
            self.last.output(place - before)
        }
    }

    /// What leaves at ports.
    pub fn outputs(&self, alloc: Global) -> Result<List<Output>, NoMemory>
        ensures { IfOk result (λ outputs. outputs ≡ self.now.outputs) }
    {
        let mut outputs = List::new(alloc);
        self.copies.push_outputs(alloc, &mut outputs)?;
        self.last.push_outputs(alloc, &mut outputs)?;
        Ok(outputs)
    }

    /// What goes to a controller, by its place.
    pub fn packet_in(&self, alloc: Global, place: usize) -> Result<Option<PacketIn>, NoMemory>
        ensures { IfOk result (λ packet. packet ≡ slice_get self.now.packet_ins place) }
    {
        let before = self.copies.packet_in_count();
        if place < before {
            self.copies.packet_in(alloc, place)
        } else {
            self.last.packet_in(alloc, place - before)
        }
    }

    /// What goes to a controller.
    pub fn packet_ins(&self, alloc: Global) -> Result<List<PacketIn>, NoMemory>
        ensures { IfOk result (λ packets. packets ≡ self.now.packet_ins) }
    {
        let mut packets = List::new(alloc);
        self.copies.push_packet_ins(alloc, &mut packets)?;
        self.last.push_packet_ins(alloc, &mut packets)?;
        Ok(packets)
    }

    /// What a digest is given, if it is given anything.
    pub fn sample(&self, alloc: Global) -> Result<Option<Sample>, NoMemory>
        ensures { IfOk result (λ sample. sample ≡ self.now.sample) }
    {
        self.last.sample(alloc)
    }

    /// What the packet hit, in order.
    pub fn hit_list(&self, alloc: Global) -> Result<List<HitMark>, NoMemory>
        ensures hits { IfOk result (λ hits. hits ≡ self.now.hits) }
        ensures few { IfOk result (λ hits. length hits ≤ hits_room) }
    {
        self.last.hit_list(alloc)
    }
}
