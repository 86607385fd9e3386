//! What a packet gives to controllers.
use list_types::{List, NoMemory};
use p4_types::messages::PacketIn;
use p4_types::records::Sample;
use pkt_worker::Verdict;
use std::alloc::Global;

/// Packets to a controller, and a sample of a digest, of one verdict; or want of memory for them.
#[derive(Drop)]
pub struct Handed {
    pub packets: Result<List<PacketIn>, NoMemory>,
    pub sample: Result<Option<Sample>, NoMemory>,
}

impl Handed {
    ghost use Rattle.std.specs.Prelude.{◌≡◌, IfOk};
    ghost use Rattle.live_desk.specs.Mailing.{is_nothing};

    /// What a verdict gives to controllers.
    pub fn of(alloc: Global, verdict: &Verdict) -> Handed
        ensures packets { IfOk result.packets (λ packets. packets ≡ verdict.now.packet_ins) }
        ensures sample { IfOk result.sample (λ sample. sample ≡ verdict.now.sample) }
    {
        Handed {
            packets: verdict.packet_ins(alloc),
            sample: verdict.sample(alloc),
        }
    }

    /// Whether there is nothing to be given, and no want of memory.
    pub fn is_nothing(&self) -> bool
        ensures { result ≡ is_nothing self.now.packets self.now.sample }
    {
        match (&self.packets, &self.sample) {
            (Ok(packets), Ok(None)) => packets.is_empty(),
            _ => false,
        }
    }
}
