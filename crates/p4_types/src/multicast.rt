//! Multicast groups, each with its replicas in a room of fixed size, and the changes that updates make of them.
ghost use Rattle.std.specs.Prelude.{◌≡◌, ◌<◌, ◌≤◌, ◌++◌, [], ◌∷◌, length};

use crate::messages::Replica;
use std::marker::Model;

/// The most replicas of a multicast group.
pub const REPLICA_LIMIT: usize = 32;

const NO_REPLICA: Replica = Replica {
    egress_port: 0,
    instance: 0,
};

/// The replicas of a multicast group, at most 32, which a contract sees as the list of them. It takes no memory.
#[derive(Drop)]
pub struct Replicas {
    items: [Replica; REPLICA_LIMIT],
    len: usize,
}

impl Model for Replicas {
    ghost use Rattle.std.specs.Prelude.{List, take, ◌≤◌};
    ghost use Rattle.p4_types.specs.declared.messages.Replica.{Replica};

    ghost Value = { List Replica };

    ghost view = { λ replicas. take replicas.len replicas.items };

    ghost invariant = { λ replicas. replicas.len ≤ 32 };
}

impl Replicas {
    /// No replicas.
    pub fn new() -> Replicas
        ensures { result ≡ [] }
    {
        Replicas {
            items: [NO_REPLICA; REPLICA_LIMIT],
            len: 0,
        }
    }

    /// The replicas, in the order in which the group gives them.
    pub fn as_slice(&self) -> &[Replica]
        ensures replicas { result.now ≡ self.now }
        ensures few { length result.now ≤ 32 }
    {
        &self.items[..self.len]
    }

    /// Adds a replica behind the others, for which there is room.
    pub fn push(&mut self, replica: Replica)
        requires { length self.old < 32 }
        ensures { self.new ≡ self.old ++ replica ∷ [] }
    {
        self.items[self.len] = replica;
        self.len += 1;
    }

    /// The same replicas once more; it takes no memory.
    pub fn copy(&self) -> Replicas
        ensures { result ≡ self.now }
    {
        Replicas {
            items: self.items,
            len: self.len,
        }
    }
}

/// A multicast group: a packet that it is chosen for leaves once for each of its replicas.
#[derive(Drop)]
pub struct MulticastGroup {
    pub id: u32,
    pub replicas: Replicas,
}

impl MulticastGroup {
    /// The same group once more; it takes no memory.
    pub fn copy(&self) -> MulticastGroup
        ensures { result ≡ self.now }
    {
        MulticastGroup {
            id: self.id,
            replicas: self.replicas.copy(),
        }
    }
}

/// What an update of a multicast group changes.
#[derive(Drop)]
pub enum MulticastChange {
    Insert(MulticastGroup),
    Modify(MulticastGroup),
    Delete(u32),
}
