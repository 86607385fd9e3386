//! Samples, and the lists of them that were sent.
ghost use Rattle.std.specs.Prelude.{◌≡◌, map, IfOk};
ghost use Rattle.digest_lists.specs.Data.{same_members, same_data};
ghost use Rattle.digest_lists.specs.Sending.{has_sample};

use list_types::{ByteList, List, NoMemory};
use p4_types::messages::P4Data;
use std::alloc::Global;

/// A sample, and the moment at which it was taken, in nanoseconds.
#[derive(Drop)]
pub(crate) struct TakenSample {
    pub(crate) content: P4Data,
    pub(crate) taken_at: u64,
}

/// A list that was sent, and the moment of it, in nanoseconds.
#[derive(Drop)]
pub(crate) struct SentList {
    pub(crate) list_id: u64,
    pub(crate) sent_at: u64,
    pub(crate) samples: List<TakenSample>,
}

fn same_members(a: &[ByteList], b: &[ByteList]) -> bool
    ensures { result ≡ same_members a.now b.now }
{
    match a {
        [] => b.is_empty(),
        [first, others @ ..] => match b {
            [] => false,
            [other, rest @ ..] => {
                first.as_slice() == other.as_slice() && same_members(others, rest)
            }
        },
    }
}

fn same_data(a: &P4Data, b: &P4Data) -> bool
    ensures { result ≡ same_data a.now b.now }
{
    match (a, b) {
        (P4Data::Bitstring(a), P4Data::Bitstring(b)) => a.as_slice() == b.as_slice(),
        (P4Data::Struct(a), P4Data::Struct(b)) => same_members(a.as_slice(), b.as_slice()),
        _ => false,
    }
}

/// Whether one of the list's samples is equal to this.
pub(crate) fn has_sample(content: &P4Data, sent: &SentList) -> bool
    ensures { result ≡ has_sample content.now sent.now }
{
    sent.samples
        .as_slice()
        .iter()
        .any(|sample| same_data(&sample.content, content))
}

fn copy_bytes(alloc: Global, bytes: &ByteList) -> Result<ByteList, NoMemory>
    ensures { IfOk result (λ copy. copy ≡ bytes.now) }
{
    let bytes = Vec::from_slice(alloc, bytes.as_slice())?;
    Ok(List::from_vec(bytes))
}

fn copy_members(alloc: Global, members: &[ByteList]) -> Result<List<ByteList>, NoMemory>
    ensures { IfOk result (λ copy. copy ≡ members.now) }
{
    let mut copy = List::new(alloc);
    for member in members {
        let member = copy_bytes(alloc, member)?;
        copy.push(member)?;
    }
    Ok(copy)
}

fn copy_data(alloc: Global, content: &P4Data) -> Result<P4Data, NoMemory>
    ensures { IfOk result (λ copy. copy ≡ content.now) }
{
    match content {
        P4Data::Bitstring(bytes) => {
            let bytes = copy_bytes(alloc, bytes)?;
            Ok(P4Data::Bitstring(bytes))
        }
        P4Data::Struct(members) => {
            let members = copy_members(alloc, members.as_slice())?;
            Ok(P4Data::Struct(members))
        }
    }
}

/// The data of samples.
pub(crate) fn copy_contents(
    alloc: Global,
    samples: &[TakenSample],
) -> Result<List<P4Data>, NoMemory>
    ensures { IfOk result (λ contents. contents ≡ map (λ sample. sample.content) samples.now) }
{
    let mut contents = List::new(alloc);
    for sample in samples {
        let content = copy_data(alloc, &sample.content)?;
        contents.push(content)?;
    }
    Ok(contents)
}
