//! Bytes, texts and what consists of them.
ghost use Rattle.std.specs.Prelude.{◌≡◌, IfOk};

use list_types::{ByteList, List, NoMemory, Text};
use p4_types::messages::{Any, PacketMetadata};
use std::alloc::Global;

pub(crate) fn copied_bytes(alloc: Global, bytes: &ByteList) -> Result<ByteList, NoMemory>
    ensures { IfOk result (λ copy. copy ≡ bytes.now) }
{
    Ok(ByteList::from_vec(Vec::from_slice(alloc, bytes.as_slice())?))
}

pub(crate) fn copied_text(alloc: Global, text: &Text) -> Result<Text, NoMemory>
    ensures { IfOk result (λ copy. copy ≡ text.now) }
{
    Ok(Text::from_string(String::from_str(alloc, text.as_str())?))
}

pub(crate) fn copied_any(alloc: Global, any: &Any) -> Result<Any, NoMemory>
    ensures { IfOk result (λ copy. copy ≡ any.now) }
{
    Ok(Any {
        type_url: copied_text(alloc, &any.type_url)?,
        value: copied_bytes(alloc, &any.value)?,
    })
}

pub(crate) fn copied_any_if(alloc: Global, any: &Option<Any>) -> Result<Option<Any>, NoMemory>
    ensures { IfOk result (λ copy. copy ≡ any.now) }
{
    match any {
        None => Ok(None),
        Some(any) => Ok(Some(copied_any(alloc, any)?)),
    }
}

pub(crate) fn copied_anys(alloc: Global, list: &List<Any>) -> Result<List<Any>, NoMemory>
    ensures { IfOk result (λ copy. copy ≡ list.now) }
{
    let mut copy = List::new(alloc);
    for any in list.as_slice() {
        copy.push(copied_any(alloc, any)?)?;
    }
    Ok(copy)
}

pub(crate) fn copied_each(alloc: Global, list: &List<ByteList>) -> Result<List<ByteList>, NoMemory>
    ensures { IfOk result (λ copy. copy ≡ list.now) }
{
    let mut copy = List::new(alloc);
    for bytes in list.as_slice() {
        copy.push(copied_bytes(alloc, bytes)?)?;
    }
    Ok(copy)
}

pub(crate) fn copied_metadata(
    alloc: Global,
    list: &List<PacketMetadata>,
) -> Result<List<PacketMetadata>, NoMemory>
    ensures { IfOk result (λ copy. copy ≡ list.now) }
{
    let mut copy = List::new(alloc);
    for one in list.as_slice() {
        copy.push(PacketMetadata {
            metadata_id: one.metadata_id,
            value: copied_bytes(alloc, &one.value)?,
        })?;
    }
    Ok(copy)
}
