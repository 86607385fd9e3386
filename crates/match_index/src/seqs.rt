//! Sequence numbers in a list.
ghost use Rattle.std.specs.Prelude.{◌≡◌, ◌==◌, ◌++◌, [], ◌∷◌, length, filter, not, OnOk, OnErr};

use list_types::NoMemory;
use smallvec::SmallVec;
use std::alloc::Global;
use std::marker::Model;

/// Sequence numbers, which contracts see as the list of them. One takes no memory.
#[derive(Drop)]
pub(crate) struct Seqs {
    items: SmallVec<u64, 1>,
}

impl Model for Seqs {
    ghost use Rattle.std.specs.Prelude.{List, ℕ};

    ghost Value = { List ℕ };

    ghost view = { λ seqs. seqs.items.items };
}

impl Seqs {
    /// No numbers, which takes no memory.
    pub(crate) fn new(alloc: Global) -> Seqs
        ensures { result ≡ [] }
    {
        Seqs {
            items: SmallVec::new(alloc),
        }
    }

    pub(crate) fn as_slice(&self) -> &[u64]
        ensures { result.now ≡ self.now }
    {
        self.items.as_slice()
    }

    pub(crate) fn is_empty(&self) -> bool
        ensures { result ≡ (length self.now == 0) }
    {
        self.items.is_empty()
    }

    /// Adds a number at the end.
    pub(crate) fn push(&mut self, seq: u64) -> Result<(), NoMemory>
        ensures ok { OnOk result (self.new ≡ self.old ++ seq ∷ []) }
        ensures err { OnErr result (self.new ≡ self.old) }
    {
        self.items.push(seq)?;
        Ok(())
    }

    /// Takes a number away. It takes no memory.
    pub(crate) fn remove(&mut self, seq: u64)
        ensures { self.new ≡ filter (λ other. not (other == seq)) self.old }
    {
        self.items.retain(|other| *other != seq);
    }
}
