//! The items of a tape.
use list_types::ByteList;
use p4_types::tape::TapeRecord;

/// One item of a tape, the end record left out.
#[derive(Drop)]
pub enum TapeItem {
    /// A record that is played as it is.
    Record(TapeRecord),
    /// Bytes, 1 to 65,536 of them, that the gRPC client of a controller's lane sends (0 to 31).
    Bytes { lane: u16, bytes: ByteList },
}
