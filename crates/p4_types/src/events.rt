//! The start of a switch, and the events that change it.
use crate::ids::Ids;
use crate::messages::Uint128;
use crate::shared::Shared;
use crate::table::Change;
use list_types::List;

/// With what a switch starts.
#[derive(Clone, Copy)]
pub struct Start {
    pub device: u64,
    /// The port at which packets from and to a controller pass, 1 to 510.
    pub cpu: u16,
    /// How many rows the tables have together, 1,024 to 262,144.
    pub rows: u32,
    /// How many slots of counters there are, at most 1,048,576: as many are drawn at most, of all planes together, as long as it runs.
    pub slots: u32,
    /// Whether the built-in bridge is the active program and controller lane 0 its live primary.
    pub bridge: bool,
}

/// The call that made an event, and the role and election id that it bore.
#[derive(Clone, Copy)]
pub struct Origin {
    pub caller: u16,
    pub call: u64,
    pub role: u64,
    pub election_id: Uint128,
}

/// What a Commit makes active.
#[derive(Drop)]
pub enum Committed<C> {
    /// The staged plane, with the writes made to it.
    Staged,
    /// A new plane of this configuration.
    Fresh(Shared<C>),
}

/// One event of the published list, where a configuration is a `C`.
#[derive(Drop)]
pub enum Event<C> {
    /// The caller's session is made, or takes the role, the election id and the configuration: the
    /// ids that the role may write, or none where it may write all.
    Arbitrate { by: Origin, config: Option<Ids> },
    /// The caller's session ends.
    Leave { caller: u16, call: u64 },
    /// One change of the target plane.
    Change { by: Origin, change: Change },
    /// Changes of the target plane that are one step.
    Batch { by: Origin, changes: List<Change> },
    /// A new plane of a configuration is staged, in the place of one that was.
    Save { by: Origin, config: Shared<C> },
    /// A plane becomes the active one, and none is staged.
    Commit { by: Origin, content: Committed<C> },
    /// The end of the list. It is no step.
    Close,
}
