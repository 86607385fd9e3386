//! The ids of a role's configuration, in a room of fixed size.
ghost use Rattle.std.specs.Prelude.{◌≡◌, ◌<◌, ◌++◌, [], ◌∷◌, length, nat_le};

use std::marker::Model;

/// The most ids in a role's configuration.
pub const ID_LIMIT: usize = 128;

/// The ids that a role may write, at most 128, which a contract sees as the list of them. It takes no memory.
#[derive(Drop)]
pub struct Ids {
    items: [u32; ID_LIMIT],
    len: usize,
}

impl Model for Ids {
    ghost use Rattle.std.specs.Prelude.{List, ℕ, take, ◌≤◌};

    ghost Value = { List ℕ };

    ghost view = { λ ids. take ids.len ids.items };

    ghost invariant = { λ ids. ids.len ≤ 128 };
}

impl Ids {
    /// No ids.
    pub fn new() -> Ids
        ensures { result ≡ [] }
    {
        Ids {
            items: [0; ID_LIMIT],
            len: 0,
        }
    }

    /// The ids in the order in which they were added.
    pub fn as_slice(&self) -> &[u32]
        ensures { result.now ≡ self.now }
    {
        &self.items[..self.len]
    }

    /// Whether there is no room for one more: 128 are in it.
    pub fn is_full(&self) -> bool
        ensures { result ≡ nat_le 128 (length self.now) }
    {
        self.len >= ID_LIMIT
    }

    /// Adds an id behind the others, for which there is room.
    pub fn push(&mut self, id: u32)
        requires { length self.old < 128 }
        ensures { self.new ≡ self.old ++ id ∷ [] }
    {
        self.items[self.len] = id;
        self.len += 1;
    }

    /// The same ids once more; it takes no memory.
    pub fn copy(&self) -> Ids
        ensures { result ≡ self.now }
    {
        Ids {
            items: self.items,
            len: self.len,
        }
    }
}
