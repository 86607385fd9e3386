//! How a packet ends.
use p4_types::records::DropReason;

/// How a packet ends.
#[derive(Clone, Copy)]
pub(crate) enum Ending {
    Dropped(DropReason),
    ToPort(u16),
    ToController,
}

/// A number that a controller's header carries, of the field with this id.
#[derive(Clone, Copy)]
pub(crate) struct Datum {
    pub id: u32,
    pub number: u128,
}

/// What leaves, or goes to a controller: how it ends, all bytes, where those begin that go to a controller, and the numbers of
/// the header before them.
#[derive(Clone, Copy)]
pub(crate) struct Left<'a> {
    pub ending: Ending,
    pub bytes: &'a [u8],
    pub payload: usize,
    pub metadata: &'a [Datum],
}
