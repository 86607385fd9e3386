//! What became of a packet.
use crate::messages::{P4Data, PacketIn};
use crate::tape::Who;
use list_types::{ByteList, List};

/// What a packet hit: a table's entry by its sequence number, with the slot of its direct counter, or a cell of an
/// indirect counter.
#[derive(Clone, Copy)]
pub enum HitMark {
    Entry {
        table: u32,
        seq: u64,
        slot: Option<u32>,
    },
    Cell {
        slot: u32,
    },
}

/// Why a packet was dropped. Its number in a report is the variant's value.
#[derive(Clone, Copy)]
pub enum DropReason {
    ByPipeline = 1,
    WithoutPipeline = 2,
    /// More than 10,240 bytes would leave.
    TooLong = 3,
    /// It is shorter than the controller's header.
    TooShortForController = 4,
}

/// Whether a packet was sent.
#[derive(Clone, Copy)]
pub enum Fate {
    Sent,
    Dropped(DropReason),
}

/// What leaves at a port.
#[derive(Drop)]
pub struct Output {
    pub port: u16,
    pub bytes: ByteList,
}

/// A packet to a controller's lane, or to none.
#[derive(Drop)]
pub struct CpuMessage {
    pub lane: Option<u16>,
    pub packet: PacketIn,
}

/// What a packet gives to a digest: its id, and the data.
#[derive(Drop)]
pub struct Sample {
    pub digest: u32,
    pub content: P4Data,
}

/// The `index`th packet of a lane, from 1, after `steps` steps.
#[derive(Drop)]
pub struct Record {
    pub who: Who,
    pub index: u64,
    pub steps: u64,
    pub fate: Fate,
    pub outputs: List<Output>,
    pub cpu: List<CpuMessage>,
    pub digest: Option<Sample>,
    /// In the order in which they came.
    pub hits: List<HitMark>,
}
