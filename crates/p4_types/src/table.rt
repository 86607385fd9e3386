//! The entries of a table, and the changes that updates make. They are values that take no memory of their own: the calls
//! of a one-shot set and the members of a group are shared.
ghost use Rattle.std.specs.Prelude.{◌≡◌, IfOk};

use crate::keys::{Arguments, Tests};
use crate::messages::DigestEntry;
use crate::multicast::MulticastChange;
use crate::profiles::ProfileChange;
use crate::shared::Shared;
use crate::weights::{Weighted, WeightedList};
use list_types::NoMemory;

/// An action with its arguments, in the order of the action's parameters.
#[derive(Drop)]
pub struct ActionCall {
    pub action: u32,
    pub arguments: Arguments,
}

impl ActionCall {
    /// The same call once more; it takes no memory.
    pub fn copy(&self) -> ActionCall
        ensures { result ≡ self.now }
    {
        ActionCall {
            action: self.action,
            arguments: self.arguments.copy(),
        }
    }
}

/// An action of a one-shot set, with its share of the set's weights.
#[derive(Drop)]
pub struct WeightedCall {
    pub call: ActionCall,
    pub weight: u32,
}

impl Weighted for WeightedCall {
    ghost weighs = { λ action. action.weight };

    fn weight(&self) -> u32 {
        self.weight
    }
}

/// What an entry does where it is hit: it runs an action; or it leaves the choice to a member or a group of its table's
/// action profile, by its id, or to a set of actions of its own under that profile (P4Runtime 1.3.0, "One Shot Action
/// Selector Programming").
#[derive(Drop)]
pub enum EntryAction {
    Call(ActionCall),
    Member {
        profile: u32,
        id: u32,
    },
    Group {
        profile: u32,
        id: u32,
    },
    Set {
        profile: u32,
        calls: Shared<WeightedList<WeightedCall>>,
    },
}

impl EntryAction {
    /// The same, which shares the calls of a set and takes no memory; refused only where they have too many owners to be
    /// counted.
    pub fn share(&self) -> Result<EntryAction, NoMemory>
        ensures { IfOk result (λ action. action ≡ self.now) }
    {
        Ok(match self {
            EntryAction::Call(call) => EntryAction::Call(call.copy()),
            EntryAction::Member { profile, id } => EntryAction::Member {
                profile: *profile,
                id: *id,
            },
            EntryAction::Group { profile, id } => EntryAction::Group {
                profile: *profile,
                id: *id,
            },
            EntryAction::Set { profile, calls } => EntryAction::Set {
                profile: *profile,
                calls: calls.share()?,
            },
        })
    }
}

/// What tells an entry from the others: its table, its match (a test for each field of the table's key, in
/// the order of the P4Info) and its priority.
#[derive(Drop)]
pub struct EntryName {
    pub table: u32,
    pub tests: Tests,
    pub priority: i32,
}

impl EntryName {
    /// The same name once more; it takes no memory.
    pub fn copy(&self) -> EntryName
        ensures { result ≡ self.now }
    {
        EntryName {
            table: self.table,
            tests: self.tests.copy(),
            priority: self.priority,
        }
    }
}

/// An entry of a table. Of two that are equal otherwise the one of the lower sequence number wins.
#[derive(Drop)]
pub struct Entry {
    pub name: EntryName,
    pub seq: u64,
    pub controller_metadata: u64,
    pub action: EntryAction,
    /// The slot of its direct counter.
    pub slot: Option<u32>,
}

/// The default action of a table.
#[derive(Drop)]
pub struct DefaultAction {
    pub table: u32,
    pub action: ActionCall,
}

/// What an INSERT or a MODIFY brings to a table.
#[derive(Drop)]
pub struct EntryChange {
    pub name: EntryName,
    pub controller_metadata: u64,
    pub action: EntryAction,
}

/// What an update does to what it names (P4Runtime 1.3.0, "Update").
#[derive(Clone, Copy)]
pub enum UpdateKind {
    Insert,
    Modify,
    Delete,
}

/// What an update of a digest entry changes.
#[derive(Clone, Copy)]
pub enum DigestChange {
    Insert(DigestEntry),
    Modify(DigestEntry),
    Delete(u32),
}

/// What an update changes.
#[derive(Drop)]
pub enum Change {
    InsertEntry(EntryChange),
    ModifyEntry(EntryChange),
    DeleteEntry(EntryName),
    /// The default action of a table; none restores the program's.
    ModifyDefault {
        table: u32,
        action: Option<ActionCall>,
    },
    Profile(ProfileChange),
    Digest(DigestChange),
    Multicast(MulticastChange),
}

/// What is left to be drawn, and what is drawn next: rows, slots of counters, stamps of when entries were hit, and sequence
/// numbers, of which the next is the greatest of 64 bits less those that are left.
#[derive(Clone, Copy)]
pub struct Room {
    pub rows: u32,
    pub slots: u32,
    pub next_slot: u32,
    pub next_stamp: u32,
    pub numbers: u64,
}
