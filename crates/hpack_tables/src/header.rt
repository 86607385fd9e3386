//! A header.
ghost use Rattle.std.specs.Prelude.{◌≡◌, IfOk};

use list_types::{ByteList, NoMemory};
use std::alloc::Global;

/// A header: its name and its value.
#[derive(Drop)]
pub struct Header {
    pub name: ByteList,
    pub value: ByteList,
}

/// These bytes in a list.
pub(crate) fn copied(alloc: Global, bytes: &[u8]) -> Result<ByteList, NoMemory>
    ensures { IfOk result (λ list. list ≡ bytes.now) }
{
    let mut list = ByteList::new(alloc);
    list.extend_from_slice(bytes)?;
    Ok(list)
}

pub(crate) fn copy(alloc: Global, header: &Header) -> Result<Header, NoMemory>
    ensures { IfOk result (λ x. x ≡ header.now) }
{
    let name = copied(alloc, header.name.as_slice())?;
    let value = copied(alloc, header.value.as_slice())?;
    Ok(Header { name, value })
}
