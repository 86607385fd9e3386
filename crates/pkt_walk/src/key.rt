//! Keys of tables, in a room of fixed size.
ghost use Rattle.std.specs.Prelude.{◌≡◌, ◌<◌, ◌≤◌, ◌++◌, [], ◌∷◌, All, length, map};
ghost use Rattle.pkt_codec.specs.Room.{IsInStore};
ghost use Rattle.program_spec.specs.Stores as stores;

use bm_expr::Store;
use bm_pipeline::headers::FieldRef;
use std::marker::Model;

/// The most fields of a key.
const FIELDS: usize = 16;

/// The values of a table's key, at most 16, which a contract sees as the list of them. It takes no memory.
#[derive(Drop)]
pub(crate) struct Key {
    items: [u128; FIELDS],
    len: usize,
}

impl Model for Key {
    ghost use Rattle.std.specs.Prelude.{List, ℕ, take, ◌≤◌};

    ghost Value = { List ℕ };

    ghost view = { λ key. take key.len key.items };

    ghost invariant = { λ key. key.len ≤ 16 };
}

impl Key {
    fn new() -> Key
        ensures { result ≡ [] }
    {
        Key {
            items: [0; FIELDS],
            len: 0,
        }
    }

    pub(crate) fn as_slice(&self) -> &[u128]
        ensures { result.now ≡ self.now }
    {
        &self.items[..self.len]
    }

    // Adds the value of the next field, for which there is room.
    fn push(&mut self, value: u128)
        requires { length self.old < 16 }
        ensures { self.new ≡ self.old ++ value ∷ [] }
    {
        self.items[self.len] = value;
        self.len += 1;
    }

    /// The values of these fields.
    pub(crate) fn of(fields: &[FieldRef], store: &Store) -> Key
        requires few { length fields.now ≤ 16 }
        requires in_store { All (IsInStore store.now) fields.now }
        ensures { result ≡ map (stores.read store.now) fields.now }
    {
        let mut key = Key::new();
        for field in fields {
            key.push(pkt_codec::read(store, *field));
        }
        key
    }
}
