//! Why a header block is not read.
ghost use Rattle.std.specs.Prelude.{◌≡◌};
ghost use Rattle.list_types.specs.declared.memory.Refusal.TheVariants as refusals;

use list_types::Refusal;

/// What is wrong with a header block: the first fault from left to right.
#[derive(Clone, Copy)]
pub enum HpackFault {
    /// An index is 0, lies behind the last entry, or is above 2^32 - 1.
    BadIndex = 1,
    /// A string is no Huffman code, or is padded wrongly.
    BadHuffman = 2,
    /// An update of the table's size is above 4,096, or does not stand at the start.
    TableSize = 3,
    /// The block ends inside a header, or a length is above 2^32 - 1.
    Truncated = 4,
    /// The sizes of the headers are above 65,536 together, each counted as an entry's.
    ListTooLong = 5,
}

pub(crate) const BAD_HUFFMAN: Refusal<HpackFault> = Refusal::For(HpackFault::BadHuffman);

pub(crate) const TABLE_SIZE: Refusal<HpackFault> = Refusal::For(HpackFault::TableSize);

pub(crate) const TRUNCATED: Refusal<HpackFault> = Refusal::For(HpackFault::Truncated);

pub(crate) const LIST_TOO_LONG: Refusal<HpackFault> = Refusal::For(HpackFault::ListTooLong);

impl From<HpackFault> for Refusal<HpackFault> {
    ghost from_gives = { λ fault e. e ≡ refusals.For fault };

    fn from(fault: HpackFault) -> Refusal<HpackFault> {
        Refusal::For(fault)
    }
}
