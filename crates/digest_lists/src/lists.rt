//! The digests that are set.
ghost use Rattle.std.specs.Prelude.{◌≡◌, ◌==◌, ◌<◌, ◌≤◌, [], not, length, filter, position, nat_lt, slice_get, vec_len, vec_capacity, Some, None, Ok, IfOk, OnOk, OnErr};
ghost use Rattle.std.specs.List.{fold, position_or_len};
ghost use Rattle.std.specs.Option.{option_copied};
ghost use Rattle.digest_lists.specs.State.{ids_of};
ghost use Rattle.digest_lists.specs.Sending.{is_due};
ghost use Rattle.digest_lists.specs.Laws.{IsSound};
ghost use Rattle.digest_lists.specs.Fold.{HasRoom, IsTaken, has_room, inserted, is_set, names, with_config, with_entry, set_digest, set_to, take_sample, sent_at_sample, acknowledge, send_due, sent_at_tick};

use crate::digest::Digest;
use list_types::NoMemory;
use p4_types::messages::{DigestConfig, DigestEntry, DigestList, P4Data};
use std::alloc::Global;
use std::marker::Model;

/// The most digests that are set.
const DIGEST_LIMIT: usize = 128;

fn place_of(digests: &[Digest], id: u32) -> Option<usize>
    ensures { result ≡ position (λ digest. digest.id == id) digests.now }
{
    digests.iter().position(|digest| digest.id() == id)
}

fn place_of_due(digests: &[Digest], now: u64) -> Option<usize>
    ensures { result ≡ position (λ digest. is_due digest now) digests.now }
{
    digests.iter().position(|digest| digest.is_due(now))
}

fn first_greater(digests: &[Digest], id: u32) -> Option<usize>
    ensures { result ≡ position (λ digest. nat_lt id digest.id) digests.now }
{
    digests.iter().position(|digest| id < digest.id())
}

#[tactic(auto, using(crate::proofs::Places::first_greater_some))]
fn place_before_greater(digests: &[Digest], id: u32) -> usize
    ensures { result ≡ position_or_len (λ digest. nat_lt id digest.id) digests.now }
{
    match first_greater(digests, id) {
        Some(place) => place,
        None => digests.len(),
    }
}

fn insert(digests: &mut Vec<Digest>, new: Digest)
    requires few { vec_len digests.old < 128 }
    requires room { 128 ≤ vec_capacity digests.old }
    ensures items { digests.new.items ≡ inserted digests.old.items new }
    ensures few { vec_len digests.new ≤ 128 }
    ensures room { 128 ≤ vec_capacity digests.new }
{
    let place = place_before_greater(digests, new.id());
    digests.insert(place, new).unwrap();
}

fn configure(digests: &mut Vec<Digest>, alloc: Global, id: u32, config: DigestConfig)
    requires few { vec_len digests.old ≤ 128 }
    requires left { length (with_config digests.old.items id config) ≤ 128 }
    requires room { 128 ≤ vec_capacity digests.old }
    ensures items { digests.new.items ≡ with_config digests.old.items id config }
    ensures few { vec_len digests.new ≤ 128 }
    ensures room { 128 ≤ vec_capacity digests.new }
{
    match place_of(digests, id) {
        Some(place) => digests[place].configure(config),
        None => insert(digests, Digest::new(alloc, id, config)),
    }
}

fn forget(digests: &mut Vec<Digest>, id: u32)
    ensures items { digests.new.items ≡ filter (λ digest. not (digest.id == id)) digests.old.items }
    ensures few { vec_len digests.new ≤ vec_len digests.old }
    ensures room { vec_capacity digests.new ≡ vec_capacity digests.old }
{
    digests.retain(|digest| digest.id() != id);
}

fn is_set(digests: &[Digest], id: u32) -> bool
    ensures { result ≡ is_set digests.now id }
{
    digests.iter().any(|digest| digest.id() == id)
}

fn names(entries: &[DigestEntry], id: u32) -> bool
    ensures { result ≡ names entries.now id }
{
    entries.iter().any(|entry| entry.digest_id == id)
}

// Forgets all that is kept of digests that no entry names.
fn keep_named(digests: &mut Vec<Digest>, entries: &[DigestEntry])
    ensures items { digests.new.items ≡ filter (λ digest. names entries.now digest.id) digests.old.items }
    ensures few { vec_len digests.new ≤ vec_len digests.old }
    ensures room { vec_capacity digests.new ≡ vec_capacity digests.old }
{
    digests.retain(|digest| names(entries, digest.id()));
}

/// The digests that are set, by rising id. A contract sees the list of them.
#[derive(Drop)]
pub struct Lists {
    digests: Vec<Digest>,
    alloc: Global,
}

impl Model for Lists {
    ghost use Rattle.std.specs.Prelude as spec;
    ghost use Rattle.std.specs.Prelude.{vec_len, vec_capacity, ◌≤◌};
    ghost use Rattle.digest_lists.specs.State.{DigestState};
    ghost use Rattle.digest_lists.specs.Laws.{IsSound};

    ghost Value = { spec.List DigestState };

    ghost view = { λ lists. lists.digests.items };

    ghost invariant = { λ lists. (vec_len lists.digests ≤ 128) × (128 ≤ vec_capacity lists.digests) × IsSound lists.digests.items };
}

impl Lists {
    /// No digest is set. There is room for 128.
    pub fn open(alloc: Global) -> Result<Lists, NoMemory>
        ensures { IfOk result (λ lists. lists ≡ []) }
    {
        let digests = Vec::with_capacity(alloc, DIGEST_LIMIT)?;
        Ok(Lists { digests, alloc })
    }

    /// How many digests are set: at most 128, by rising id.
    pub fn len(&self) -> usize
        ensures len { result ≡ length self.now }
        ensures few { result ≤ 128 }
        ensures sound { IsSound self.now }
    {
        self.digests.len()
    }

    /// The id of a digest that is set, by its place among them.
    pub fn id(&self, place: usize) -> u32
        requires { place < length self.now }
        ensures { slice_get (ids_of self.now) place ≡ Some result }
    {
        self.digests[place].id()
    }

    /// Whether no digest is set.
    pub fn is_empty(&self) -> bool
        ensures { result ≡ (length self.now == 0) }
    {
        self.digests.is_empty()
    }

    /// Sets a digest's configuration, or forgets all that is kept of the digest.
    pub fn set(&mut self, digest: u32, config: Option<&DigestConfig>)
        requires { HasRoom self.old digest (option_copied config) }
        ensures { self.new ≡ set_digest self.old digest (option_copied config.entry) }
    {
        match config {
            Some(config) => configure(&mut self.digests, self.alloc, digest, *config),
            None => forget(&mut self.digests, digest),
        }
    }

    // Whether a digest is set, or there is room for one more.
    fn has_room(&self, id: u32) -> bool
        ensures room { result ≡ has_room self.now id }
        ensures few { length self.now ≤ 128 }
    {
        is_set(&self.digests, id) || self.digests.len() < DIGEST_LIMIT
    }

    // Sets the configuration of an entry's digest, where there is room for it.
    fn set_entry(&mut self, entry: &DigestEntry)
        ensures { self.new ≡ with_entry self.old entry.now }
    {
        if self.has_room(entry.digest_id) {
            self.set(entry.digest_id, Some(&entry.config));
        }
    }

    fn forget_others(&mut self, entries: &[DigestEntry])
        ensures { self.new ≡ filter (λ digest. names entries.now digest.id) self.old }
    {
        keep_named(&mut self.digests, entries);
    }

    fn set_entries(&mut self, entries: &[DigestEntry])
        ensures { self.new ≡ fold with_entry self.old entries.now }
    {
        for entry in entries {
            self.set_entry(entry);
        }
    }

    /// Sets the digests that entries name, in their order, with their configurations, as far as there is room, and forgets all that is kept
    /// of other digests. Of one that was set and stays set all that is kept stays.
    pub fn set_to(&mut self, entries: &[DigestEntry])
        ensures { self.new ≡ set_to self.old entries.now }
    {
        self.forget_others(entries);
        self.set_entries(entries);
    }

    /// Takes a sample of a digest at a moment, in nanoseconds, and gives the list that is sent, if it
    /// makes one due. Without memory nothing changes, and the sample is lost. Where its digest is not set, and where the sample
    /// is passed over, no memory is asked for.
    pub fn sample(
        &mut self,
        digest: u32,
        sample: P4Data,
        now: u64,
    ) -> Result<Option<DigestList>, NoMemory>
        ensures sent { IfOk result (λ sent. sent ≡ sent_at_sample self.old digest sample now) }
        ensures state { OnOk result (self.new ≡ take_sample self.old digest sample now) }
        ensures kept { OnErr result (self.new ≡ self.old) }
        ensures taken { OnErr result (IsTaken self.old digest sample now) }
    {
        match place_of(&self.digests, digest) {
            Some(place) => self.digests[place].sample(self.alloc, sample, now),
            None => Ok(None),
        }
    }

    /// Acknowledges a list of a digest. An id that no waiting list has changes nothing.
    pub fn ack(&mut self, digest: u32, list: u64)
        ensures { self.new ≡ acknowledge self.old digest list }
    {
        if let Some(place) = place_of(&self.digests, digest) {
            self.digests[place].acknowledge(list);
        }
    }

    /// Gives the list of the lowest digest that is due at a moment, in nanoseconds, if one is.
    /// Without memory nothing changes.
    pub fn tick(&mut self, now: u64) -> Result<Option<DigestList>, NoMemory>
        ensures none_due { sent_at_tick self.old now ≡ None → result ≡ Ok None }
        ensures sent { IfOk result (λ sent. sent ≡ sent_at_tick self.old now) }
        ensures state { OnOk result (self.new ≡ send_due self.old now) }
        ensures kept { OnErr result (self.new ≡ self.old) }
    {
        match place_of_due(&self.digests, now) {
            Some(place) => {
                let list = self.digests[place].send(self.alloc, now)?;
                Ok(Some(list))
            }
            None => Ok(None),
        }
    }
}
