//! The messages of a P4Info (p4.config.v1), with the names of their fields. Enumerations keep their
//! numbers, since a message may bear any number.
use list_types::{ByteList, List, Text};
use text_lists::TextList;

/// What all objects of a program have.
#[derive(Drop)]
pub struct Preamble {
    pub id: u32,
    pub name: Text,
    pub alias: Text,
    pub annotations: TextList,
}

#[derive(Drop)]
pub struct P4Info {
    pub tables: List<Table>,
    pub actions: List<Action>,
    pub action_profiles: List<ActionProfile>,
    pub counters: List<Counter>,
    pub direct_counters: List<DirectCounter>,
    pub controller_packet_metadata: List<ControllerPacketMetadata>,
    pub digests: List<Digest>,
}

#[derive(Drop)]
pub struct Table {
    pub preamble: Option<Preamble>,
    pub match_fields: List<MatchField>,
    pub action_refs: List<ActionRef>,
    pub const_default_action_id: u32,
    pub implementation_id: u32,
    pub direct_resource_ids: List<u32>,
    pub size: i64,
    pub idle_timeout_behavior: i32,
    pub is_const_table: bool,
}

#[derive(Drop)]
pub struct MatchField {
    pub id: u32,
    pub name: Text,
    pub bitwidth: i32,
    /// 2 EXACT, 3 LPM, 4 TERNARY, 5 RANGE, 6 OPTIONAL.
    pub match_type: i32,
}

#[derive(Clone, Copy)]
pub struct ActionRef {
    pub id: u32,
    /// 0 TABLE_AND_DEFAULT, 1 TABLE_ONLY, 2 DEFAULT_ONLY.
    pub scope: i32,
}

#[derive(Drop)]
pub struct Action {
    pub preamble: Option<Preamble>,
    pub params: List<Param>,
}

#[derive(Drop)]
pub struct Param {
    pub id: u32,
    pub name: Text,
    pub bitwidth: i32,
}

#[derive(Drop)]
pub struct ActionProfile {
    pub preamble: Option<Preamble>,
    pub table_ids: List<u32>,
    pub with_selector: bool,
    pub size: i64,
    pub max_group_size: i32,
}

#[derive(Clone, Copy)]
pub struct CounterSpec {
    /// 1 BYTES, 2 PACKETS, 3 BOTH.
    pub unit: i32,
}

#[derive(Drop)]
pub struct Counter {
    pub preamble: Option<Preamble>,
    pub spec: Option<CounterSpec>,
    pub size: i64,
}

#[derive(Drop)]
pub struct DirectCounter {
    pub preamble: Option<Preamble>,
    pub spec: Option<CounterSpec>,
    pub direct_table_id: u32,
}

#[derive(Drop)]
pub struct ControllerPacketMetadata {
    pub preamble: Option<Preamble>,
    pub metadata: List<Metadata>,
}

/// A field of a controller's header.
#[derive(Drop)]
pub struct Metadata {
    pub id: u32,
    pub name: Text,
    pub bitwidth: i32,
}

#[derive(Drop)]
pub struct Digest {
    pub preamble: Option<Preamble>,
    /// The bytes of the message, which is carried unread.
    pub type_spec: Option<ByteList>,
}
