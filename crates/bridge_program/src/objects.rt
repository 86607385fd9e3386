//! The bridge's P4Info.
ghost use Rattle.std.specs.Prelude.{◌≡◌, ◌∷◌, [], IfOk};
ghost use Rattle.plane_spec.specs.Bridge.{bridge_info, bridge_bytes};

use list_types::{ByteList, List, NoMemory, Refusal};
use p4info_model::{P4Info, read_info};
use std::alloc::Global;

pub(crate) const TABLE: u32 = 0x0200_0001;

pub(crate) const FORWARD: u32 = 0x0100_0001;

pub(crate) const DROP: u32 = 0x0100_0002;

// The table `bridge` with an exact field `eth.dst` of 48 bits and room for 4 entries, and its actions `forward`, with a `port` of
// 9 bits, and `drop`.
const BYTES: [u8; 95] = [
    0x12, 0x30, 0x0a, 0x0d, 0x08, 0x81, 0x80, 0x80, 0x10, 0x12, 0x06, 0x62, 0x72, 0x69, 0x64, 0x67,
    0x65, 0x12, 0x0f, 0x08, 0x01, 0x12, 0x07, 0x65, 0x74, 0x68, 0x2e, 0x64, 0x73, 0x74, 0x20, 0x30,
    0x28, 0x02, 0x1a, 0x05, 0x08, 0x81, 0x80, 0x80, 0x08, 0x1a, 0x05, 0x08, 0x82, 0x80, 0x80, 0x08,
    0x40, 0x04, 0x1a, 0x1c, 0x0a, 0x0e, 0x08, 0x81, 0x80, 0x80, 0x08, 0x12, 0x07, 0x66, 0x6f, 0x72,
    0x77, 0x61, 0x72, 0x64, 0x12, 0x0a, 0x08, 0x01, 0x12, 0x04, 0x70, 0x6f, 0x72, 0x74, 0x20, 0x09,
    0x1a, 0x0d, 0x0a, 0x0b, 0x08, 0x82, 0x80, 0x80, 0x08, 0x12, 0x04, 0x64, 0x72, 0x6f, 0x70,
];

/// A list of one item.
pub(crate) fn only<T>(alloc: Global, item: T) -> Result<List<T>, NoMemory>
where
    T: Drop,
    ensures { IfOk result (λ list. list ≡ item ∷ []) }
{
    let mut list = List::new(alloc);
    list.push(item)?;
    Ok(list)
}

/// The canonical bytes of the bridge's P4Info (p4.config.v1).
#[tactic(auto, unfolding(plane_spec::specs::Bridge::bridge_bytes))]
pub(crate) fn info_bytes(alloc: Global) -> Result<ByteList, NoMemory>
    ensures { IfOk result (λ bytes. bytes ≡ bridge_bytes) }
{
    let mut bytes = List::new(alloc);
    bytes.extend_from_slice(&BYTES)?;
    Ok(bytes)
}

/// The objects that the bytes of the bridge's P4Info are.
pub(crate) fn info(alloc: Global, bytes: &[u8]) -> Result<P4Info, NoMemory>
    requires { bytes.now ≡ bridge_bytes }
    ensures { IfOk result (λ info. info ≡ bridge_info) }
{
    match read_info(alloc, bytes) {
        Ok(info) => Ok(info),
        Err(Refusal::NoMemory) => Err(NoMemory),
        Err(Refusal::For(_)) => unreachable!(),
    }
}
