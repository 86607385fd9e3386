//! The members and groups of action profiles, and the changes that updates make of them.
ghost use Rattle.std.specs.Prelude.{◌≡◌, IfOk};

use crate::shared::Shared;
use crate::table::ActionCall;
use crate::weights::{Weighted, WeightedList};
use list_types::NoMemory;

/// A member of an action profile: an action, by the id under which entries and groups name it.
#[derive(Drop)]
pub struct Member {
    pub profile: u32,
    pub id: u32,
    pub call: ActionCall,
}

impl Member {
    /// The same member once more; it takes no memory.
    pub fn copy(&self) -> Member
        ensures { result ≡ self.now }
    {
        Member {
            profile: self.profile,
            id: self.id,
            call: self.call.copy(),
        }
    }
}

/// A member's share of a group, by its id in the group's profile.
#[derive(Clone, Copy)]
pub struct Share {
    pub member: u32,
    pub weight: u32,
}

impl Weighted for Share {
    ghost weighs = { λ share. share.weight };

    fn weight(&self) -> u32 {
        self.weight
    }
}

/// A group of an action profile, with its members in the order in which they were given.
#[derive(Drop)]
pub struct Group {
    pub profile: u32,
    pub id: u32,
    pub shares: Shared<WeightedList<Share>>,
}

impl Group {
    /// The same, which shares the list of members and takes no memory; refused only where it has too many owners to be
    /// counted.
    pub fn share(&self) -> Result<Group, NoMemory>
        ensures { IfOk result (λ group. group ≡ self.now) }
    {
        Ok(Group {
            profile: self.profile,
            id: self.id,
            shares: self.shares.share()?,
        })
    }
}

/// What an update of a member or a group changes.
#[derive(Drop)]
pub enum ProfileChange {
    InsertMember(Member),
    ModifyMember(Member),
    DeleteMember { profile: u32, id: u32 },
    InsertGroup(Group),
    ModifyGroup(Group),
    DeleteGroup { profile: u32, id: u32 },
}
