//! The journal of a run, and the report that is made of it.
use crate::calls::Reply;
use crate::records::Record;
use list_types::{ByteList, List};

/// The kind of a step.
#[derive(Clone, Copy)]
pub enum StepKind {
    Arbitrate,
    Leave,
    Change,
    Batch,
    Save,
    Commit,
}

/// A step, with the number of updates of a change or batch, else 0.
#[derive(Clone, Copy)]
pub struct Step {
    pub kind: StepKind,
    pub changes: u64,
}

/// A call of the journal: the `call`th of its controller's lane, from 1, with its steps and its reply.
#[derive(Drop)]
pub struct Entry {
    pub lane: u16,
    pub call: u64,
    pub steps: List<Step>,
    pub reply: Reply,
}

/// The packets and bytes that an entry of a table with a direct counter has counted.
#[derive(Clone, Copy)]
pub struct CountLine {
    pub seq: u64,
    pub table: u32,
    pub packets: u64,
    pub bytes: u64,
}

/// The packets and bytes that a cell of an indirect counter has counted.
#[derive(Clone, Copy)]
pub struct CellLine {
    pub slot: u32,
    pub counter: u32,
    pub index: u64,
    pub packets: u64,
    pub bytes: u64,
}

/// All that a report shows: the journal in its order, the bytes sent on lanes of a transport by
/// rising lane, the packets (of each lane in its order), and the counts.
#[derive(Drop)]
pub struct Report {
    pub journal: List<Entry>,
    pub sent: List<(u16, ByteList)>,
    pub records: List<Record>,
    pub counts: List<CountLine>,
    pub cells: List<CellLine>,
}
