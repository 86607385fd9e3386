//! Keys and arguments, in rooms of fixed size.
ghost use Rattle.std.specs.Prelude.{◌≡◌, ◌<◌, ◌++◌, [], ◌∷◌, length};

use std::marker::Model;

/// The most match fields of a table.
pub const FIELD_LIMIT: usize = 16;

/// The most parameters of an action.
pub const PARAM_LIMIT: usize = 8;

/// What an entry asks of one field of its table's key.
#[derive(Clone, Copy)]
pub enum FieldTest {
    /// The field is left out of the match: every value holds.
    Any,
    /// An exact or an optional field: the value.
    Equal(u128),
    /// A longest-prefix field: the first `length` of the `width` bits are those of `value`.
    Prefix {
        value: u128,
        length: u32,
        width: u32,
    },
    /// A ternary field: the bits of `mask` are those of `value`.
    Masked {
        value: u128,
        mask: u128,
    },
    /// A range field: `low` to `high`, both included.
    Between {
        low: u128,
        high: u128,
    },
}

/// A test for each field of a table's key, at most 16, which a contract sees as the list of them. It takes no memory.
#[derive(Drop)]
pub struct Tests {
    items: [FieldTest; FIELD_LIMIT],
    len: usize,
}

impl Model for Tests {
    ghost use Rattle.std.specs.Prelude.{List, take, ◌≤◌};
    ghost use Rattle.p4_types.specs.declared.keys.FieldTest.{FieldTest};

    ghost Value = { List FieldTest };

    ghost view = { λ tests. take tests.len tests.items };

    ghost invariant = { λ tests. tests.len ≤ 16 };
}

impl Tests {
    /// No tests.
    pub fn new() -> Tests
        ensures { result ≡ [] }
    {
        Tests {
            items: [FieldTest::Any; FIELD_LIMIT],
            len: 0,
        }
    }

    /// The tests, one for each field of the table's key, in the order of the P4Info.
    pub fn as_slice(&self) -> &[FieldTest]
        ensures { result.now ≡ self.now }
    {
        &self.items[..self.len]
    }

    /// Adds the test of the next field, for which there is room.
    pub fn push(&mut self, test: FieldTest)
        requires { length self.old < 16 }
        ensures { self.new ≡ self.old ++ test ∷ [] }
    {
        self.items[self.len] = test;
        self.len += 1;
    }

    /// The same tests once more; it takes no memory.
    pub fn copy(&self) -> Tests
        ensures { result ≡ self.now }
    {
        Tests {
            items: self.items,
            len: self.len,
        }
    }
}

/// The arguments of an action, at most 8, which a contract sees as the list of them. It takes no memory.
#[derive(Drop)]
pub struct Arguments {
    items: [u128; PARAM_LIMIT],
    len: usize,
}

impl Model for Arguments {
    ghost use Rattle.std.specs.Prelude.{List, ℕ, take, ◌≤◌};

    ghost Value = { List ℕ };

    ghost view = { λ arguments. take arguments.len arguments.items };

    ghost invariant = { λ arguments. arguments.len ≤ 8 };
}

impl Arguments {
    /// No arguments.
    pub fn new() -> Arguments
        ensures { result ≡ [] }
    {
        Arguments {
            items: [0; PARAM_LIMIT],
            len: 0,
        }
    }

    /// The arguments, in the order of the action's parameters.
    pub fn as_slice(&self) -> &[u128]
        ensures { result.now ≡ self.now }
    {
        &self.items[..self.len]
    }

    /// Adds the argument of the next parameter, for which there is room.
    pub fn push(&mut self, argument: u128)
        requires { length self.old < 8 }
        ensures { self.new ≡ self.old ++ argument ∷ [] }
    {
        self.items[self.len] = argument;
        self.len += 1;
    }

    /// The same arguments once more; it takes no memory.
    pub fn copy(&self) -> Arguments
        ensures { result ≡ self.now }
    {
        Arguments {
            items: self.items,
            len: self.len,
        }
    }
}
