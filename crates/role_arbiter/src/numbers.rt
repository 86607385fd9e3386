//! Lists of lanes that take no memory.
ghost use Rattle.std.specs.Prelude.{◌≡◌, ◌<◌, ◌++◌, [], ◌∷◌, length};

use std::marker::Model;

/// The most live sessions.
pub const SESSION_LIMIT: usize = 32;

/// The lanes of sessions that are to be told of a step, at most 32. A contract sees the list of them.
#[derive(Drop)]
pub struct Lanes {
    items: [u16; SESSION_LIMIT],
    len: usize,
}

impl Model for Lanes {
    ghost use Rattle.std.specs.Prelude.{List, ℕ, take, ◌≤◌};

    ghost Value = { List ℕ };

    ghost view = { λ lanes. take lanes.len lanes.items };

    ghost invariant = { λ lanes. lanes.len ≤ 32 };
}

impl Lanes {
    pub(crate) fn new() -> Lanes
        ensures { result ≡ [] }
    {
        Lanes {
            items: [0; SESSION_LIMIT],
            len: 0,
        }
    }

    /// The lanes in the order in which they were added.
    pub fn as_slice(&self) -> &[u16]
        ensures { result.now ≡ self.now }
    {
        &self.items[..self.len]
    }

    pub(crate) fn push(&mut self, lane: u16)
        requires { length self.old < 32 }
        ensures { self.new ≡ self.old ++ lane ∷ [] }
    {
        self.items[self.len] = lane;
        self.len += 1;
    }
}
