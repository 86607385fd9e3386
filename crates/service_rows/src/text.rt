//! Events as text.
use grpc_streams::{GrpcEvent, GrpcRefusal};
use std::alloc::{AllocError, Global};

/// Adds bytes in hex.
pub fn push_hex(alloc: Global, out: &mut String, bytes: &[u8]) -> Result<(), AllocError> {
    let told = hex::encode(alloc, bytes)?;
    out.push_str(told.as_str())
}

fn push_event(alloc: Global, out: &mut String, event: &GrpcEvent) -> Result<(), AllocError> {
    match event {
        GrpcEvent::Message {
            stream,
            method,
            bytes,
        } => {
            let method = *method as u8;
            write!(out, "message:{stream}:{method}:")?;
            push_hex(alloc, out, bytes.as_slice())?;
            out.push_str(" ")
        }
        GrpcEvent::Closed { stream } => write!(out, "closed:{stream} "),
        GrpcEvent::Refused {
            stream,
            refusal: GrpcRefusal::NotGrpc,
        } => write!(out, "refused:{stream}:415 "),
        GrpcEvent::Refused {
            stream,
            refusal: GrpcRefusal::Status(code),
        } => {
            let code = *code as u8;
            write!(out, "refused:{stream}:{code} ")
        }
    }
}

/// Adds events, one after another.
pub fn push_events(
    alloc: Global,
    out: &mut String,
    events: &[GrpcEvent],
) -> Result<(), AllocError> {
    for event in events {
        push_event(alloc, out, event)?;
    }
    Ok(())
}
