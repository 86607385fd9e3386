//! Ticks, which name the entries whose timeout has passed.
ghost use Rattle.std.specs.Prelude.{◌≡◌, ◌<◌, ◌≤◌, ◌++◌, [], length, replicate, All, IsTrue, IfOk, OnOk, OnErr};
ghost use Rattle.counter_bank.specs.Figures.{raise_at};
ghost use Rattle.idle_words.specs.Account.{most_stamps, OnlyNotes};
ghost use Rattle.idle_words.specs.Idle.{is_due, next_of, earlier_of, Ticked};
ghost use Rattle.idle_words.specs.Scan.{raised_by, Scanned};

use crate::stamps::{StampSeat, Stamps};
use list_types::{List, NoMemory};
use std::alloc::Global;
use std::marker::Model;

/// A table entry that is watched: its sequence number, its stamp, and its idle timeout in nanoseconds, where 0 is none.
#[derive(Clone, Copy)]
pub struct Watched {
    pub seq: u64,
    pub stamp: u32,
    pub timeout: u64,
}

/// What is remembered from tick to tick: 8 bytes for each stamp. A contract sees for each stamp the least last moment at which its entry has
/// not been named, and the next moment at which an entry may be named.
#[derive(Drop)]
pub struct Idle {
    untold: Vec<u64>,
    next: Option<u64>,
}

impl Model for Idle {
    ghost use Rattle.idle_words.specs.Idle.{Remembered};

    ghost Value = { Remembered };

    ghost view = { λ i. record { untold = i.untold.items; next = i.next } };
}

// The last moment of a hit that was told.
#[derive(Clone, Copy)]
struct Mark {
    stamp: u32,
    after: u64,
}

// What a tick found so far.
#[derive(Drop)]
struct Findings {
    names: List<u64>,
    marks: List<Mark>,
    next: Option<u64>,
}

impl Idle {
    /// For entries with so many stamps, at most 1,048,576. None has been named.
    pub fn open(alloc: Global, stamps: u32) -> Result<Idle, NoMemory>
        requires { stamps ≤ most_stamps }
        ensures { IfOk result (λ i. i ≡ record { untold = replicate stamps 0; next = None }) }
    {
        let untold = vec![in alloc; 0u64; stamps as usize]?;
        Ok(Idle { untold, next: None })
    }

    /// The next moment at which a tick over the entries of the last one may name one of them, in nanoseconds, as long as hits bear moments
    /// that are not before that tick's. There is none without a timeout that can pass.
    pub fn next_tick(&self) -> Option<u64>
        ensures { result ≡ self.now.next }
    {
        self.next
    }

    /// Looks at the stamp of each entry, and names those whose timeout has passed and that no earlier tick named at the same last moment: their
    /// sequence numbers, in the order of the list. Without memory for these it has named nothing.
    pub fn tick(
        &mut self,
        alloc: Global,
        now: u64,
        entries: &[Watched],
        stamps: &Stamps,
        seat: &mut StampSeat,
    ) -> Result<List<u64>, NoMemory>
        requires stamps { seat.old.stamps ≡ stamps.now.id }
        requires range { All (λ entry. entry.stamp < stamps.now.count) entries.now }
        requires room { stamps.now.count ≤ length self.old.untold }
        ensures ok { IfOk result (λ names. Ticked now entries.now self.old self.new seat.old seat.new names) }
        ensures err { OnErr result (self.new ≡ self.old) }
        ensures seat { OnlyNotes seat.old seat.new }
        ensures same { length self.new.untold ≡ length self.old.untold }
    {
        let found = scan(alloc, self.untold.as_slice(), now, entries, stamps, seat)?;
        let Findings { names, marks, next } = found;
        raise_all(self.untold.as_mut_slice(), marks.as_slice());
        self.next = next;
        Ok(names)
    }
}

// Looks at the stamp of each entry.
fn scan(
    alloc: Global,
    untold: &[u64],
    now: u64,
    entries: &[Watched],
    stamps: &Stamps,
    seat: &mut StampSeat,
) -> Result<Findings, NoMemory>
    requires stamps { seat.old.stamps ≡ stamps.now.id }
    requires range { All (λ entry. entry.stamp < stamps.now.count) entries.now }
    requires room { stamps.now.count ≤ length untold.now }
    ensures ok { IfOk result (λ found. Scanned now untold.now entries.now seat.old seat.new found.names found.marks found.next) }
    ensures seat { OnlyNotes seat.old seat.new }
{
    let mut found = Findings::new(alloc);
    for entry in entries {
        let last = stamps.last(seat, entry.stamp);
        found.add(untold, now, *entry, last)?;
    }
    Ok(found)
}

impl Findings {
    ghost use Rattle.idle_words.specs.Idle.{Look};
    ghost use Rattle.idle_words.specs.Scan.{more_names, more_marks};

    fn new(alloc: Global) -> Findings
        ensures { (result.names ≡ []) × (result.marks ≡ []) × (result.next ≡ None) }
    {
        Findings {
            names: List::new(alloc),
            marks: List::new(alloc),
            next: None,
        }
    }

    // What was found at an entry's stamp.
    fn add(&mut self, untold: &[u64], now: u64, entry: Watched, last: u64) -> Result<(), NoMemory>
        requires { entry.stamp < length untold.now }
        ensures names { OnOk result (self.new.names ≡ self.old.names ++ more_names untold.now now record { entry = entry; last = last }) }
        ensures marks { OnOk result (self.new.marks ≡ self.old.marks ++ more_marks untold.now now record { entry = entry; last = last }) }
        ensures next { OnOk result (self.new.next ≡ earlier_of self.old.next (next_of now record { entry = entry; last = last })) }
    {
        if has_passed(now, entry, last) && untold[entry.stamp as usize] <= last {
            self.names.push(entry.seq)?;
            self.marks.push(Mark {
                stamp: entry.stamp,
                after: last + 1,
            })?;
        }
        self.next = earlier(self.next, next_look(now, entry, last));
        Ok(())
    }
}

// The timeout has passed.
fn has_passed(now: u64, entry: Watched, last: u64) -> bool
    ensures passed { result ≡ is_due now record { entry = entry; last = last } }
    ensures before { IsTrue result → last < now }
{
    if entry.timeout == 0 {
        return false;
    }
    match last.checked_add(entry.timeout) {
        Some(end) => end <= now,
        None => false,
    }
}

// When the entry is to be looked at again.
fn next_look(now: u64, entry: Watched, last: u64) -> Option<u64>
    ensures { result ≡ next_of now record { entry = entry; last = last } }
{
    if entry.timeout == 0 {
        return None;
    }
    if has_passed(now, entry, last) {
        now.checked_add(entry.timeout)
    } else {
        last.checked_add(entry.timeout)
    }
}

fn earlier(one: Option<u64>, other: Option<u64>) -> Option<u64>
    ensures { result ≡ earlier_of one other }
{
    match (one, other) {
        (None, next) => next,
        (Some(m), None) => Some(m),
        (Some(m), Some(n)) => { if m <= n { Some(m) } else { Some(n) } }
    }
}

fn raise_all(untold: &mut [u64], marks: &[Mark])
    requires { All (λ mark. mark.stamp < length untold.old) marks.now }
    ensures { untold.new ≡ raised_by untold.old marks.now }
{
    for mark in marks {
        raise(untold, *mark);
    }
}

fn raise(untold: &mut [u64], mark: Mark)
    requires { mark.stamp < length untold.old }
    ensures { untold.new ≡ raise_at untold.old mark.stamp mark.after }
{
    let at = mark.stamp as usize;
    if untold[at] < mark.after {
        untold[at] = mark.after;
    }
}
