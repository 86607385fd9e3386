//! Changes of the digest entries, by rising id of the digest.
ghost use Rattle.std.specs.Prelude.{◌≡◌, is_some, IfOk, IfErr, OnOk, OnErr};
ghost use Rattle.std.specs.Option.{option_map};
ghost use Rattle.p4_types.specs.declared.table.DigestChange.TheVariants as digest_changes;
ghost use Rattle.plane_spec.specs.Planes.{if_present, if_absent, with_digest, digest_in, digest_cause_in, digests_changed};
ghost use Rattle.plane_state.specs.Answers.{WithMemory, WhereRefused};
ghost use Rattle.plane_state.specs.Versions.{IsCounted};
ghost use Rattle.table_store.specs.Answers.{Refuses};
ghost use Rattle.table_store.specs.Rising.{AreRising, StandsAt, WouldStandAt};

use crate::causes::{ABSENT, PRESENT};
use crate::parts::{Drawn, NOTHING, Parts};
use list_types::Refusal;
use p4_types::code::Cause;
use p4_types::messages::DigestEntry;
use p4_types::table::DigestChange;
use undo_vec::UndoVec;

// Where the entry of a digest stands, or where it would stand.
fn place_of(entries: &[DigestEntry], digest: u32) -> Result<usize, usize>
    requires { AreRising (λ d. d.digest_id) entries.now }
    ensures found { IfOk result (StandsAt (λ d. d.digest_id) entries.now digest) }
    ensures absent { IfErr result (WouldStandAt (λ d. d.digest_id) entries.now digest) }
{
    entries.binary_search_by_key(&digest, |entry| entry.digest_id)
}

/// The entry of a digest, if it has one.
pub(crate) fn digest_in(entries: &[DigestEntry], digest: u32) -> Option<&DigestEntry>
    requires { AreRising (λ d. d.digest_id) entries.now }
    ensures { option_map (λ entry. entry.now) result ≡ digest_in digest entries.now }
{
    match place_of(entries, digest) {
        Ok(place) => Some(&entries[place]),
        Err(_) => None,
    }
}

// Adds the entry of a digest that has none.
fn insert(entries: &mut UndoVec<DigestEntry>, entry: DigestEntry) -> Result<(), Refusal<Cause>>
    requires { AreRising (λ d. d.digest_id) entries.old.items }
    ensures refused { Refuses result (if_present (is_some (digest_in entry.digest_id entries.old.items))) }
    ensures ok { OnOk result (entries.new.items ≡ with_digest entry entries.old.items) }
    ensures err { OnErr result (entries.new.items ≡ entries.old.items) }
    ensures before { entries.new.before ≡ entries.old.before }
{
    let place = place_of(entries.as_slice(), entry.digest_id);
    match place {
        Ok(_) => Err(Refusal::For(PRESENT)),
        Err(place) => Ok(entries.insert(place, entry)?),
    }
}

// Puts an entry in the place of that of its digest.
fn modify(entries: &mut UndoVec<DigestEntry>, entry: DigestEntry) -> Result<(), Refusal<Cause>>
    requires { AreRising (λ d. d.digest_id) entries.old.items }
    ensures refused { Refuses result (if_absent (is_some (digest_in entry.digest_id entries.old.items))) }
    ensures ok { OnOk result (entries.new.items ≡ with_digest entry entries.old.items) }
    ensures err { OnErr result (entries.new.items ≡ entries.old.items) }
    ensures before { entries.new.before ≡ entries.old.before }
{
    let place = place_of(entries.as_slice(), entry.digest_id);
    match place {
        Ok(place) => Ok(entries.replace(place, entry)?),
        Err(_) => Err(Refusal::For(ABSENT)),
    }
}

// Removes the entry of a digest.
fn delete(entries: &mut UndoVec<DigestEntry>, digest: u32) -> Result<(), Refusal<Cause>>
    requires { AreRising (λ d. d.digest_id) entries.old.items }
    ensures refused { Refuses result (if_absent (is_some (digest_in digest entries.old.items))) }
    ensures ok { OnOk result (entries.new.items ≡ digests_changed entries.old.items (digest_changes.Delete digest)) }
    ensures err { OnErr result (entries.new.items ≡ entries.old.items) }
    ensures before { entries.new.before ≡ entries.old.before }
{
    let place = place_of(entries.as_slice(), digest);
    match place {
        Ok(place) => Ok(entries.remove(place)?),
        Err(_) => Err(Refusal::For(ABSENT)),
    }
}

// Makes a change of a digest entry; refused where it is there, or is not (U10), or for want of memory.
fn edit(entries: &mut UndoVec<DigestEntry>, change: &DigestChange) -> Result<(), Refusal<Cause>>
    requires { AreRising (λ d. d.digest_id) entries.old.items }
    ensures refused { Refuses result (digest_cause_in entries.old.items change.now) }
    ensures ok { OnOk result (entries.new.items ≡ digests_changed entries.old.items change.now) }
    ensures err { OnErr result (entries.new.items ≡ entries.old.items) }
    ensures before { entries.new.before ≡ entries.old.before }
{
    match change {
        DigestChange::Insert(entry) => insert(entries, *entry),
        DigestChange::Modify(entry) => modify(entries, *entry),
        DigestChange::Delete(digest) => delete(entries, *digest),
    }
}

impl Parts {
    /// Makes a change of a digest entry.
    pub(crate) fn change_digest(&mut self, change: &DigestChange) -> Result<Drawn, Refusal<Cause>>
        requires counted { IsCounted self.old.now }
        ensures refused { Refuses result (digest_cause_in self.old.now.plane.digests change.now) }
        ensures ok { OnOk result (self.new.now.plane ≡ record self.old.now.plane { digests = digests_changed self.old.now.plane.digests change.now }) }
        ensures drawn { IfOk result (λ drawn. drawn ≡ record { numbers = 0; slots = 0 }) }
        ensures stays { WhereRefused result (self.new.now ≡ self.old.now) }
        ensures counted { WithMemory result (IsCounted self.new.now) }
        ensures before { self.new.before ≡ self.old.before }
    {
        edit(&mut self.digests, change)?;
        Ok(NOTHING)
    }
}
