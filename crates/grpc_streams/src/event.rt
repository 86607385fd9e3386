//! What comes of gRPC.
use list_types::ByteList;
use p4_types::calls::Method;
use p4_types::code::Code;

/// Why a request, or what came on its stream, is refused.
#[derive(Clone, Copy)]
pub enum GrpcRefusal {
    /// It is no request of gRPC. It is answered by the status 415 of HTTP alone.
    NotGrpc,
    /// It is answered by this code.
    Status(Code),
}

/// What came on a stream.
#[derive(Drop)]
pub enum GrpcEvent {
    /// A message that makes a call: each whole one of the stream channel, and the one of another
    /// method, once the peer has ended the stream.
    Message {
        stream: u32,
        method: Method,
        bytes: ByteList,
    },
    /// The peer ended or reset the open stream channel.
    Closed {
        stream: u32,
    },
    /// Nothing more is read on the stream, and it is to be answered by the refusal.
    Refused {
        stream: u32,
        refusal: GrpcRefusal,
    },
}
