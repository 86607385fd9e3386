//! A valid P4Info: the objects of a program with their references, widths and kinds as types.
use crate::p4info::Preamble;
use list_types::{ByteList, List, Text};

/// The objects of a program, each kind in the order of the P4Info.
#[derive(Drop)]
pub struct Info {
    pub tables: List<Table>,
    pub actions: List<Action>,
    pub action_profiles: List<ActionProfile>,
    pub counters: List<Counter>,
    pub direct_counters: List<DirectCounter>,
    pub controller_packet_metadata: List<ControllerHeader>,
    pub digests: List<Digest>,
}

#[derive(Drop)]
pub struct Table {
    pub preamble: Preamble,
    pub match_fields: List<MatchField>,
    pub action_refs: List<ActionRef>,
    /// The id of the default action that never changes.
    pub const_default_action: Option<u32>,
    /// The id of the table's action profile.
    pub action_profile: Option<u32>,
    /// The ids of its direct counters.
    pub direct_counters: List<u32>,
    /// How many entries it may have; 0 leaves the number to the switch.
    pub size: u64,
    pub idle_timeout_behavior: i32,
    pub is_const_table: bool,
}

/// How a field of a key is matched.
#[derive(Clone, Copy)]
pub enum MatchKind {
    Exact,
    Lpm,
    Ternary,
    Range,
    Optional,
}

#[derive(Drop)]
pub struct MatchField {
    pub id: u32,
    pub name: Text,
    /// In bits, 1 to 128.
    pub bitwidth: u32,
    pub kind: MatchKind,
}

/// Where a table's action may stand.
#[derive(Clone, Copy)]
pub enum Scope {
    TableAndDefault,
    TableOnly,
    DefaultOnly,
}

#[derive(Clone, Copy)]
pub struct ActionRef {
    pub id: u32,
    pub scope: Scope,
}

#[derive(Drop)]
pub struct Action {
    pub preamble: Preamble,
    pub params: List<Param>,
}

#[derive(Drop)]
pub struct Param {
    pub id: u32,
    pub name: Text,
    /// In bits, 1 to 128.
    pub bitwidth: u32,
}

#[derive(Drop)]
pub struct ActionProfile {
    pub preamble: Preamble,
    pub table_ids: List<u32>,
    pub with_selector: bool,
    /// How many members it may have; 0 leaves the number to the switch.
    pub size: u64,
    /// The limit of a group's weights; 0 is none.
    pub max_group_size: u32,
}

#[derive(Drop)]
pub struct Counter {
    pub preamble: Preamble,
    /// 1 BYTES, 2 PACKETS, 3 BOTH.
    pub unit: i32,
    pub size: u64,
}

#[derive(Drop)]
pub struct DirectCounter {
    pub preamble: Preamble,
    /// 1 BYTES, 2 PACKETS, 3 BOTH.
    pub unit: i32,
    pub table: u32,
}

/// A header that goes before the payload of a packet from or to a controller.
#[derive(Drop)]
pub struct ControllerHeader {
    pub preamble: Preamble,
    pub fields: List<HeaderField>,
}

#[derive(Drop)]
pub struct HeaderField {
    pub id: u32,
    pub name: Text,
    /// In bits, 1 to 128.
    pub bitwidth: u32,
}

#[derive(Drop)]
pub struct Digest {
    pub preamble: Preamble,
    /// The bytes of its type, which are carried unread.
    pub type_spec: Option<ByteList>,
}
