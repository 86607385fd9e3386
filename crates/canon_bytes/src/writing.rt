//! Writing a number as its canonical byte string.
ghost use Rattle.std.specs.Prelude.{◌≡◌, ◌++◌, IfOk, OnOk};
ghost use Rattle.canon_bytes.specs.ByteString.{canon};

use list_types::{ByteList, NoMemory};
use std::alloc::Global;

fn push_number(bytes: &mut ByteList, value: u128) -> Result<(), NoMemory>
    ensures { OnOk result (bytes.new ≡ bytes.old ++ canon value) }
{
    if value >= 256 {
        push_number(bytes, value / 256)?;
    }
    bytes.push((value % 256) as u8)?;
    Ok(())
}

/// The big-endian bytes of a number: as few as there can be, and at least one.
pub fn write(alloc: Global, value: u128) -> Result<ByteList, NoMemory>
    ensures { IfOk result (λ bytes. bytes ≡ canon value) }
{
    let mut bytes = ByteList::new(alloc);
    push_number(&mut bytes, value)?;
    Ok(bytes)
}
