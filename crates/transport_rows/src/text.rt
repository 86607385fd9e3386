//! Events as text.
use h2_conn::H2Event;
use hpack_tables::Header;
use std::alloc::{AllocError, Global};

/// Adds bytes in hex behind a mark.
pub fn push_hex(
    alloc: Global,
    text: &mut String,
    mark: &str,
    bytes: &[u8],
) -> Result<(), AllocError> {
    let told = hex::encode(alloc, bytes)?;
    text.push_str(mark)?;
    text.push_str(told.as_str())
}

fn push_header(alloc: Global, text: &mut String, header: &Header) -> Result<(), AllocError> {
    push_hex(alloc, text, " ", header.name.as_slice())?;
    push_hex(alloc, text, "=", header.value.as_slice())
}

fn push_headers(alloc: Global, text: &mut String, headers: &[Header]) -> Result<(), AllocError> {
    for header in headers {
        push_header(alloc, text, header)?;
    }
    Ok(())
}

fn push_event(alloc: Global, text: &mut String, event: &H2Event) -> Result<(), AllocError> {
    match event {
        H2Event::Headers { stream, headers } => {
            push_number(alloc, text, " headers:", u64::from(*stream))?;
            push_headers(alloc, text, headers.as_slice())
        }
        H2Event::Data { stream, bytes } => {
            push_number(alloc, text, " data:", u64::from(*stream))?;
            push_hex(alloc, text, ":", bytes.as_slice())
        }
        H2Event::End { stream } => push_number(alloc, text, " end:", u64::from(*stream)),
        H2Event::Reset { stream } => push_number(alloc, text, " reset:", u64::from(*stream)),
    }
}

/// Adds a number behind its name.
pub fn push_number(
    alloc: Global,
    text: &mut String,
    name: &str,
    number: u64,
) -> Result<(), AllocError> {
    let told = format!(in alloc; "{name}{number}")?;
    text.push_str(told.as_str())
}

/// Adds events to a text, one after another.
pub fn push_events(alloc: Global, text: &mut String, events: &[H2Event]) -> Result<(), AllocError> {
    for event in events {
        push_event(alloc, text, event)?;
    }
    Ok(())
}
