//! What a request asks for.
ghost use Rattle.std.specs.Prelude.{◌≡◌};
ghost use Rattle.std.specs.Option.{option_copied};
ghost use Rattle.grpc_streams.specs.Requests.{header_of, is_post, is_grpc, method_of, method_in, allowed, judged};

use crate::event::GrpcRefusal;
use hpack_tables::Header;
use p4_types::calls::Method;
use p4_types::code::Code;

fn header_of<'a>(headers: &'a [Header], name: &[u8]) -> Option<&'a Header>
    ensures { option_copied result ≡ header_of name.now headers.now }
{
    headers.iter().find(|header| header.name.as_slice() == name)
}

fn is_post(method: Option<&Header>) -> bool
    ensures { result ≡ is_post (option_copied method.entry) }
{
    match method {
        None => false,
        Some(header) => header.value.as_slice() == b"POST".as_slice(),
    }
}

fn is_grpc(content_type: Option<&Header>) -> bool
    ensures { result ≡ is_grpc (option_copied content_type.entry) }
{
    match content_type {
        None => false,
        Some(header) => header.value.as_slice().starts_with(b"application/grpc"),
    }
}

#[tactic(auto, unfolding(crate::specs::Requests::method_of))]
fn method_of(path: &[u8]) -> Option<Method>
    ensures { result ≡ method_of path.now }
{
    if path == b"/p4.v1.P4Runtime/Write".as_slice() {
        Some(Method::Write)
    } else if path == b"/p4.v1.P4Runtime/Read".as_slice() {
        Some(Method::Read)
    } else if path == b"/p4.v1.P4Runtime/SetForwardingPipelineConfig".as_slice() {
        Some(Method::SetForwardingPipelineConfig)
    } else if path == b"/p4.v1.P4Runtime/GetForwardingPipelineConfig".as_slice() {
        Some(Method::GetForwardingPipelineConfig)
    } else if path == b"/p4.v1.P4Runtime/StreamChannel".as_slice() {
        Some(Method::StreamChannel)
    } else if path == b"/p4.v1.P4Runtime/Capabilities".as_slice() {
        Some(Method::Capabilities)
    } else {
        None
    }
}

fn method_in(path: Option<&Header>) -> Option<Method>
    ensures { result ≡ method_in (option_copied path.entry) }
{
    match path {
        None => None,
        Some(header) => method_of(header.value.as_slice()),
    }
}

fn allowed(channel: Option<u32>, method: Option<Method>) -> Result<Method, GrpcRefusal>
    ensures { result ≡ allowed channel method }
{
    match (channel, method) {
        (_, None) => Err(GrpcRefusal::Status(Code::Unimplemented)),
        (Some(_), Some(Method::StreamChannel)) => {
            Err(GrpcRefusal::Status(Code::FailedPrecondition))
        }
        (_, Some(method)) => Ok(method),
    }
}

/// The method that a request asks for, while this channel is open, or why it is refused.
pub(crate) fn judged(channel: Option<u32>, headers: &[Header]) -> Result<Method, GrpcRefusal>
    ensures { result ≡ judged channel headers.now }
{
    let is_post = is_post(header_of(headers, b":method"));
    let is_grpc = is_grpc(header_of(headers, b"content-type"));
    if !(is_post && is_grpc) {
        return Err(GrpcRefusal::NotGrpc);
    }
    allowed(channel, method_in(header_of(headers, b":path")))
}
