//! What actions leave beside a packet's store.
ghost use Rattle.std.specs.Prelude.{◌≡◌, ◌+◌, ◌<◌, ◌≤◌, ◌++◌, [], ◌∷◌, length, map, Some, None, IfOk};
ghost use Rattle.act_exec.specs.Marks.{counts_room};

use list_types::NoMemory;
use std::alloc::Global;
use std::marker::Model;

/// How many counts there is room for.
const ROOM: usize = 8_320;

/// A count of an indirect counter.
#[derive(Clone, Copy)]
pub struct Count {
    /// The counter's place among the indirect counters of the P4Info.
    pub counter: usize,
    /// The index of the cell, which may be one that the counter has not.
    pub index: u128,
}

/// The counts of a packet's actions, in order, and the last digest list that they named, with room for 8,320 counts.
#[derive(Drop)]
pub struct Marks {
    counts: Vec<Count>,
    used: usize,
    learned: Option<usize>,
}

impl Model for Marks {
    ghost use Rattle.std.specs.Prelude.{◌≡◌, ◌≤◌, take, length, map};
    ghost use Rattle.act_exec.specs.Marks as spec;

    ghost Value = { spec.Marked };

    ghost view = { λ marks. record {
      counted = map (λ count. record { counter = count.counter; index = count.index }) (take marks.used marks.counts.items);
      learned = marks.learned;
    } };

    ghost invariant = { λ marks. (length marks.counts.items ≡ 8320) × (marks.used ≤ 8320) };
}

impl Marks {
    /// No counts, and no digest list. All its memory is taken here.
    pub fn open(alloc: Global) -> Result<Marks, NoMemory>
        ensures { IfOk result (λ marks. marks ≡ record { counted = []; learned = None }) }
    {
        let none = Count {
            counter: 0,
            index: 0,
        };
        let counts = vec![in alloc; none; ROOM]?;
        Ok(Marks {
            counts,
            used: 0,
            learned: None,
        })
    }

    /// The counts, in order.
    pub fn counts(&self) -> &[Count]
        ensures { map (λ count. record { counter = count.counter; index = count.index }) result.now ≡ self.now.counted }
    {
        &self.counts[..self.used]
    }

    /// The place of the last digest list that was named among the learn lists, if one was.
    pub fn learned(&self) -> Option<usize>
        ensures { result ≡ self.now.learned }
    {
        self.learned
    }

    /// Forgets all. It takes no memory.
    pub fn clear(&mut self)
        ensures { self.new ≡ record { counted = []; learned = None } }
    {
        self.used = 0;
        self.learned = None;
    }

    /// Forgets the counts, and keeps the digest list. It takes no memory.
    pub fn forget_counts(&mut self)
        ensures { self.new ≡ record self.old { counted = [] } }
    {
        self.used = 0;
    }

    /// Adds a count.
    pub(crate) fn count(&mut self, counter: usize, index: u128)
        requires room { length self.old.counted < counts_room }
        ensures { self.new ≡ record self.old { counted = self.old.counted ++ record { counter = counter; index = index } ∷ [] } }
    {
        self.counts[self.used] = Count { counter, index };
        self.used += 1;
    }

    /// Names a digest list.
    pub(crate) fn learn(&mut self, list: usize)
        ensures { self.new ≡ record self.old { learned = Some list } }
    {
        self.learned = Some(list);
    }
}
