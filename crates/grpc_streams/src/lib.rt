//! gRPC over one HTTP/2 connection, the server's end: calls of P4Runtime from what the connection
//! gives, and answers through it (gRPC over HTTP/2; P4Runtime 1.3.0, "P4Runtime Service").
#![tactic(auto)]

mod answers;
mod calls;
mod event;
pub mod laws;
mod requests;
mod spelling;
mod splitting;
mod stream;
mod table;
mod taking;

pub use calls::Calls;
pub use event::{GrpcEvent, GrpcRefusal};
pub use stream::{CallStream, Received};
pub use table::{CallStreams, OpenCalls};
