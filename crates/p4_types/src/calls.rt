//! What controllers ask, and what they are answered.
use crate::code::Code;
use crate::ids::Ids;
use crate::messages::{
    GetForwardingPipelineConfigRequest, ReadRequest, SetForwardingPipelineConfigRequest,
    StreamMessageRequest, StreamMessageResponse, Uint128, WriteRequest,
};
use list_types::{ByteList, List};

/// A method of P4Runtime, of which the stream channel brings messages one by one. Its number on a tape is the
/// variant's value.
#[derive(Clone, Copy)]
pub enum Method {
    Write = 1,
    Read = 2,
    SetForwardingPipelineConfig = 3,
    GetForwardingPipelineConfig = 4,
    StreamChannel = 5,
    Capabilities = 6,
}

/// What an arbitration asks for, with its role's configuration read (P4Runtime 1.3.0, "Mastership Arbitration", "Role Config").
#[derive(Drop)]
pub struct ArbitrationUpdate {
    /// 0 where it names no role.
    pub role: u64,
    pub election_id: Uint128,
    /// The ids that the role may write, or `Some(None)` where it may write all; `None` where its configuration is not read.
    pub config: Option<Option<Ids>>,
}

/// How the updates of a Write stand together (P4Runtime 1.3.0, "Batching and Ordering of Updates").
#[derive(Clone, Copy)]
pub enum Atomicity {
    /// Each by itself.
    ContinueOnError,
    /// All or none.
    RollbackOnError,
    /// All or none, and no packet sees a part.
    DataplaneAtomic,
}

/// What a SetForwardingPipelineConfig does with a configuration (P4Runtime 1.3.0, "SetForwardingPipelineConfig RPC").
#[derive(Clone, Copy)]
pub enum PipelineAction {
    /// It is looked at, and nothing changes.
    Verify,
    /// An empty plane of it is staged.
    VerifyAndSave,
    /// An empty plane of it becomes the active one.
    VerifyAndCommit,
    /// The staged plane becomes the active one.
    Commit,
}

/// Which parts of a configuration a GetForwardingPipelineConfig is answered.
#[derive(Clone, Copy)]
pub enum ResponseType {
    All,
    CookieOnly,
    P4InfoAndCookie,
    DeviceConfigAndCookie,
}

/// A call of a controller.
#[derive(Drop)]
pub enum Call {
    Write(WriteRequest),
    Read(ReadRequest),
    Set(SetForwardingPipelineConfigRequest),
    Get(GetForwardingPipelineConfigRequest),
    /// A message of the stream channel, which may have no member.
    Stream(Option<StreamMessageRequest>),
    Capabilities,
    /// A message that is not read.
    Unreadable(Method),
    /// The end of a controller's stream.
    Leave,
}

/// A message that a controller is sent unasked, or beside the caller.
#[derive(Drop)]
pub struct Notice {
    pub lane: u16,
    pub message: StreamMessageResponse,
}

/// The answer to a call. `messages` are protobuf messages, of a failing call its one
/// `google.rpc.Status`; `steps` is the number of steps through this call; `packet` enters at the CPU port.
#[derive(Drop)]
pub struct Reply {
    pub code: Code,
    pub messages: List<ByteList>,
    pub notices: List<Notice>,
    pub steps: u64,
    pub packet: Option<ByteList>,
}
