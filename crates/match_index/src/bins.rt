//! Sequence numbers in bins, by fingerprints.
ghost use Rattle.std.specs.Prelude.{◌≡◌, [], OnOk, OnErr, IsTrue};
ghost use Rattle.match_index.specs.Bins.{at, Adds, Loses, AreSame, AreEmpty};

use crate::seqs::Seqs;
use list_types::NoMemory;
use std::alloc::Global;
use std::collections::HashMap;

/// The numbers in the bin of a fingerprint.
pub(crate) fn at(bins: &HashMap<u64, Seqs>, print: u64) -> &[u64]
    ensures { result.now ≡ at bins.now print }
{
    match bins.get(&print) {
        Some(seqs) => seqs.as_slice(),
        None => &[],
    }
}

/// Puts a number in the bin of a fingerprint.
pub(crate) fn put(
    bins: &mut HashMap<u64, Seqs>,
    alloc: Global,
    print: u64,
    seq: u64,
) -> Result<(), NoMemory>
    ensures ok { OnOk result (Adds bins.old bins.new print seq) }
    ensures err { OnErr result (AreSame bins.old bins.new) }
{
    if let Some(seqs) = bins.get_mut(&print) {
        seqs.push(seq)?;
        return Ok(());
    }
    let mut seqs = Seqs::new(alloc);
    seqs.push(seq)?;
    bins.insert(print, seqs)?;
    Ok(())
}

/// Takes a number from the bin of a fingerprint. It takes no memory, and leaves no empty bin.
pub(crate) fn remove(bins: &mut HashMap<u64, Seqs>, print: u64, seq: u64)
    ensures { Loses bins.old bins.new print seq }
{
    let Some(seqs) = bins.get_mut(&print) else {
        return;
    };
    seqs.remove(seq);
    if seqs.is_empty() {
        bins.remove(&print);
    }
}

/// Whether there is no bin.
pub(crate) fn are_empty(bins: &HashMap<u64, Seqs>) -> bool
    ensures { IsTrue result → AreEmpty bins.now }
{
    bins.is_empty()
}
