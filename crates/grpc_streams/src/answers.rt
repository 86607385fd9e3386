//! The headers and trailers of answers.
ghost use Rattle.std.specs.Prelude.{◌≡◌, ◌==◌, ◌||◌, ◌++◌, ◌∷◌, [], OnOk, IfOk};
ghost use Rattle.wire_fields.specs.Field.{field_of};
ghost use Rattle.grpc_streams.specs.Answers.{response_headers, unsupported, status_header, fields_of, text_from, has_details, next_text, text_headers, details_headers, told, explained};

use base64::engine::general_purpose::STANDARD_NO_PAD;
use hpack_tables::Header;
use list_types::{ByteList, List, NoMemory};
use p4_types::code::Code;
use percent_encoding::{AsciiSet, CONTROLS, ascii_set, percent_encode};
use std::alloc::Global;
use wire_fields::{Field, Fields};

/// What of the bytes 0 to 7f (hex) is escaped in a text: `%`, and all but 20 to 7e.
pub const MESSAGE_SET: AsciiSet = ascii_set!(CONTROLS.add(b'%'));

// The numbers of fields of `google.rpc.Status`.
const MESSAGE: u32 = 2;

const DETAILS: u32 = 3;

fn copied(alloc: Global, bytes: &[u8]) -> Result<ByteList, NoMemory>
    ensures { IfOk result (λ list. list ≡ bytes.now) }
{
    let mut list = ByteList::new(alloc);
    list.extend_from_slice(bytes)?;
    Ok(list)
}

fn push_header(
    alloc: Global,
    headers: &mut List<Header>,
    name: &[u8],
    value: &[u8],
) -> Result<(), NoMemory>
    ensures { OnOk result (headers.new ≡ headers.old ++ record { name = name.now; value = value.now } ∷ []) }
{
    let name = copied(alloc, name)?;
    let value = copied(alloc, value)?;
    headers.push(Header { name, value })?;
    Ok(())
}

/// The headers of an answer.
pub(crate) fn response_headers(alloc: Global) -> Result<List<Header>, NoMemory>
    ensures { IfOk result (λ headers. headers ≡ response_headers) }
{
    let mut headers = List::new(alloc);
    push_header(alloc, &mut headers, b":status", b"200")?;
    push_header(alloc, &mut headers, b"content-type", b"application/grpc")?;
    Ok(headers)
}

/// The answer to what is no request of gRPC.
pub(crate) fn unsupported(alloc: Global) -> Result<List<Header>, NoMemory>
    ensures { IfOk result (λ headers. headers ≡ unsupported) }
{
    let mut headers = List::new(alloc);
    push_header(alloc, &mut headers, b":status", b"415")?;
    Ok(headers)
}

/// Adds the code of an answer.
pub(crate) fn push_status(
    alloc: Global,
    headers: &mut List<Header>,
    code: Code,
) -> Result<(), NoMemory>
    ensures { OnOk result (headers.new ≡ headers.old ++ status_header code ∷ []) }
{
    let number = code.number();
    let mut text = String::new(alloc);
    write!(text, "{number}")?;
    push_header(alloc, headers, b"grpc-status", text.as_bytes())
}

fn push_text(alloc: Global, headers: &mut List<Header>, text: &[u8]) -> Result<(), NoMemory>
    ensures { OnOk result (headers.new ≡ headers.old ++ text_headers text.now) }
{
    if text.is_empty() {
        return Ok(());
    }
    let mut escaped = String::new(alloc);
    percent_encode(text, MESSAGE_SET).append_to(&mut escaped)?;
    push_header(alloc, headers, b"grpc-message", escaped.as_bytes())
}

fn push_details(
    alloc: Global,
    headers: &mut List<Header>,
    status: &[u8],
    details: bool,
) -> Result<(), NoMemory>
    ensures { OnOk result (headers.new ≡ headers.old ++ details_headers status.now details) }
{
    if !details {
        return Ok(());
    }
    let text = STANDARD_NO_PAD.encode(alloc, status)?;
    push_header(alloc, headers, b"grpc-status-details-bin", text.as_bytes())
}

fn number_of(field: Field) -> u32
    ensures { result ≡ (field_of field.entry).number }
{
    match field {
        Field::Varint { number, .. }
        | Field::Fixed64 { number, .. }
        | Field::Bytes { number, .. }
        | Field::Fixed32 { number, .. } => number,
    }
}

// The text of a Status, where this field comes behind those that gave that text.
fn next_text<'a>(text: &'a [u8], field: Field<'a>) -> &'a [u8]
    ensures { result.now ≡ next_text text.now (field_of field.entry).number (field_of field.entry).payload }
{
    match field {
        Field::Bytes {
            number: MESSAGE,
            bytes,
        } => bytes,
        _ => text,
    }
}

fn is_detailed(details: bool, field: Field) -> bool
    ensures { result ≡ (details || (field_of field.entry).number == 3) }
{
    details || number_of(field) == DETAILS
}

// The text of a Status, and whether it has details.
fn read_status(status: &[u8]) -> (&[u8], bool)
    ensures text { result.0.now ≡ text_from [] (fields_of status.now) }
    ensures details { result.1 ≡ has_details (fields_of status.now) }
{
    let mut text: &[u8] = &[];
    let mut details = false;
    let mut fields = Fields::new(status);
    for _ in 0..status.len() {
        match fields.next() {
            Ok(Some(field)) => {
                details = is_detailed(details, field);
                text = next_text(text, field);
            }
            Ok(None) => return (text, details),
            Err(_) => return (text, details),
        }
    }
    (text, details)
}

#[tactic(auto, unfolding(crate::specs::Answers::told))]
fn push_told(alloc: Global, headers: &mut List<Header>, status: &[u8]) -> Result<(), NoMemory>
    ensures { OnOk result (headers.new ≡ headers.old ++ told status.now) }
{
    let (text, details) = read_status(status);
    push_text(alloc, headers, text)?;
    push_details(alloc, headers, status, details)
}

/// Adds what the messages of a failing call say beside its code.
pub(crate) fn push_explained(
    alloc: Global,
    headers: &mut List<Header>,
    messages: &[ByteList],
) -> Result<(), NoMemory>
    ensures { OnOk result (headers.new ≡ headers.old ++ explained messages.now) }
{
    match messages {
        [] => Ok(()),
        [status, ..] => push_told(alloc, headers, status.as_slice()),
    }
}
