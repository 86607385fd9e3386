//! The messages of P4Runtime 1.3.0, with the names of their fields; `match` is `matches`, `type` is
//! `kind` and `data` is `content`. Enumerations keep their numbers, since a message may bear any number.
//! A message that may be absent is an `Option`; a choice is an enum of its members, with `None` where
//! none is given.
use list_types::{ByteList, List, Text};

/// A number of 128 bits, as an election id.
#[derive(Clone, Copy)]
pub struct Uint128 {
    pub high: u64,
    pub low: u64,
}

#[derive(Drop)]
pub struct WriteRequest {
    pub device_id: u64,
    pub role_id: u64,
    pub election_id: Uint128,
    pub updates: List<Update>,
    /// 0 CONTINUE_ON_ERROR, 1 ROLLBACK_ON_ERROR, 2 DATAPLANE_ATOMIC.
    pub atomicity: i32,
}

#[derive(Drop)]
pub struct Update {
    /// 1 INSERT, 2 MODIFY, 3 DELETE.
    pub kind: i32,
    pub entity: Option<Entity>,
}

#[derive(Drop)]
pub enum Entity {
    TableEntry(TableEntry),
    ActionProfileMember(ActionProfileMember),
    ActionProfileGroup(ActionProfileGroup),
    CounterEntry(CounterEntry),
    DirectCounterEntry(DirectCounterEntry),
    PacketReplicationEngineEntry(PacketReplicationEngineEntry),
    DigestEntry(DigestEntry),
    /// An entity that is not served, by the number of its field.
    Other(u32),
}

#[derive(Drop)]
pub struct TableEntry {
    pub table_id: u32,
    pub matches: List<FieldMatch>,
    /// Absent; or given, where the choice in it may have no member.
    pub action: Option<Option<TableAction>>,
    pub priority: i32,
    pub controller_metadata: u64,
    pub meter_config: bool,
    pub counter_data: Option<CounterData>,
    pub is_default_action: bool,
    /// In nanoseconds.
    pub idle_timeout_ns: i64,
    pub time_since_last_hit: bool,
}

#[derive(Drop)]
pub struct FieldMatch {
    pub field_id: u32,
    pub kind: Option<FieldMatchKind>,
}

/// Values and masks are big-endian.
#[derive(Drop)]
pub enum FieldMatchKind {
    Exact { value: ByteList },
    Ternary { value: ByteList, mask: ByteList },
    Lpm { value: ByteList, prefix_len: i32 },
    Range { low: ByteList, high: ByteList },
    Optional { value: ByteList },
}

#[derive(Drop)]
pub enum TableAction {
    Action(Action),
    ActionProfileMemberId(u32),
    ActionProfileGroupId(u32),
    ActionProfileActionSet(ActionProfileActionSet),
}

#[derive(Drop)]
pub struct Action {
    pub action_id: u32,
    pub params: List<Param>,
}

#[derive(Drop)]
pub struct Param {
    pub param_id: u32,
    pub value: ByteList,
}

#[derive(Drop)]
pub struct ActionProfileActionSet {
    pub action_profile_actions: List<ActionProfileAction>,
}

#[derive(Drop)]
pub struct ActionProfileAction {
    pub action: Option<Action>,
    pub weight: i32,
    pub watch: u32,
    pub watch_port: ByteList,
}

#[derive(Drop)]
pub struct ActionProfileMember {
    pub action_profile_id: u32,
    pub member_id: u32,
    pub action: Option<Action>,
}

#[derive(Drop)]
pub struct ActionProfileGroup {
    pub action_profile_id: u32,
    pub group_id: u32,
    pub members: List<Member>,
    pub max_size: i32,
}

/// A member of a group.
#[derive(Drop)]
pub struct Member {
    pub member_id: u32,
    pub weight: i32,
    pub watch: u32,
    pub watch_port: ByteList,
}

#[derive(Clone, Copy)]
pub struct CounterData {
    pub byte_count: i64,
    pub packet_count: i64,
}

#[derive(Clone, Copy)]
pub struct Index {
    pub index: i64,
}

#[derive(Drop)]
pub struct CounterEntry {
    pub counter_id: u32,
    pub index: Option<Index>,
    pub content: Option<CounterData>,
}

#[derive(Drop)]
pub struct DirectCounterEntry {
    pub table_entry: Option<TableEntry>,
    pub content: Option<CounterData>,
}

/// An entry of the packet replication engine. Another choice than a multicast group is passed over.
#[derive(Drop)]
pub struct PacketReplicationEngineEntry {
    pub multicast_group_entry: Option<MulticastGroupEntry>,
}

/// A group of ports to which a packet is copied.
#[derive(Drop)]
pub struct MulticastGroupEntry {
    pub multicast_group_id: u32,
    pub replicas: List<Replica>,
}

/// A copy of a packet: the port at which it leaves, and the number that tells it from other copies at that port.
#[derive(Clone, Copy)]
pub struct Replica {
    pub egress_port: u32,
    pub instance: u32,
}

#[derive(Clone, Copy)]
pub struct DigestConfig {
    /// In nanoseconds.
    pub max_timeout_ns: i64,
    pub max_list_size: i32,
    /// In nanoseconds.
    pub ack_timeout_ns: i64,
}

#[derive(Clone, Copy)]
pub struct DigestEntry {
    pub digest_id: u32,
    pub config: DigestConfig,
}

#[derive(Drop)]
pub struct ReadRequest {
    pub device_id: u64,
    pub entities: List<Option<Entity>>,
}

#[derive(Drop)]
pub struct SetForwardingPipelineConfigRequest {
    pub device_id: u64,
    pub role_id: u64,
    pub election_id: Uint128,
    /// 1 VERIFY, 2 VERIFY_AND_SAVE, 3 VERIFY_AND_COMMIT, 4 COMMIT, 5 RECONCILE_AND_COMMIT.
    pub action: i32,
    pub config: Option<ForwardingPipelineConfig>,
}

#[derive(Drop)]
pub struct ForwardingPipelineConfig {
    /// The bytes of a P4Info.
    pub p4info: Option<ByteList>,
    pub p4_device_config: ByteList,
    pub cookie: Option<Cookie>,
}

#[derive(Clone, Copy)]
pub struct Cookie {
    pub cookie: u64,
}

#[derive(Clone, Copy)]
pub struct GetForwardingPipelineConfigRequest {
    pub device_id: u64,
    /// 0 ALL, 1 COOKIE_ONLY, 2 P4INFO_AND_COOKIE, 3 DEVICE_CONFIG_AND_COOKIE.
    pub response_type: i32,
}

#[derive(Drop)]
pub enum StreamMessageRequest {
    Arbitration(MasterArbitrationUpdate),
    Packet(PacketOut),
    DigestAck(DigestListAck),
    Other(Any),
}

#[derive(Drop)]
pub struct MasterArbitrationUpdate {
    pub device_id: u64,
    pub role: Option<Role>,
    pub election_id: Uint128,
    pub status: Option<Status>,
}

/// `google.rpc.Status`.
#[derive(Drop)]
pub struct Status {
    pub code: i32,
    pub message: Text,
    pub details: List<Any>,
}

#[derive(Drop)]
pub struct Role {
    pub id: u64,
    pub config: Option<Any>,
}

#[derive(Drop)]
pub struct Any {
    pub type_url: Text,
    pub value: ByteList,
}

#[derive(Drop)]
pub struct PacketOut {
    pub payload: ByteList,
    pub metadata: List<PacketMetadata>,
}

#[derive(Drop)]
pub struct PacketMetadata {
    pub metadata_id: u32,
    pub value: ByteList,
}

#[derive(Clone, Copy)]
pub struct DigestListAck {
    pub digest_id: u32,
    pub list_id: u64,
}

#[derive(Drop)]
pub struct PacketIn {
    pub payload: ByteList,
    pub metadata: List<PacketMetadata>,
}

/// A bitstring, or a struct of bitstrings.
#[derive(Drop)]
pub enum P4Data {
    Bitstring(ByteList),
    Struct(List<ByteList>),
}

#[derive(Drop)]
pub struct DigestList {
    pub digest_id: u32,
    pub list_id: u64,
    pub content: List<P4Data>,
    /// In nanoseconds.
    pub timestamp: i64,
}

#[derive(Drop)]
pub struct IdleTimeoutNotification {
    pub table_entry: List<TableEntry>,
    /// In nanoseconds.
    pub timestamp: i64,
}

/// `p4.v1.Error`.
#[derive(Drop)]
pub struct Error {
    pub canonical_code: i32,
    pub message: Text,
    pub space: Text,
    pub code: i32,
    pub details: List<Any>,
}

#[derive(Drop)]
pub struct StreamError {
    pub canonical_code: i32,
    pub message: Text,
    pub space: Text,
    pub code: i32,
    pub details: Option<StreamErrorDetails>,
}

/// The message that a stream error speaks of.
#[derive(Drop)]
pub enum StreamErrorDetails {
    PacketOut(PacketOut),
    DigestListAck(DigestListAck),
    Other(Any),
}

#[derive(Drop)]
pub struct ReadResponse {
    pub entities: List<Entity>,
}

#[derive(Drop)]
pub struct GetForwardingPipelineConfigResponse {
    pub config: Option<ForwardingPipelineConfig>,
}

#[derive(Drop)]
pub struct CapabilitiesResponse {
    pub p4runtime_api_version: Text,
}

/// What a controller is told on its stream channel.
#[derive(Drop)]
pub enum StreamMessageResponse {
    Arbitration(MasterArbitrationUpdate),
    Packet(PacketIn),
    Digest(DigestList),
    IdleTimeoutNotification(IdleTimeoutNotification),
    Other(Any),
    Error(StreamError),
}
