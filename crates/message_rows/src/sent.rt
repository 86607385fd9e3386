//! Messages of the switch, as they are spelled.
use list_types::{ByteList, List, Text};
use p4_types::messages::{
    Any, CapabilitiesResponse, Cookie, CounterData, DirectCounterEntry, Entity, Error, FieldMatch,
    FieldMatchKind, ForwardingPipelineConfig, GetForwardingPipelineConfigResponse,
    MasterArbitrationUpdate, P4Data, PacketOut, ReadResponse, Status, StreamError,
    StreamErrorDetails, StreamMessageResponse, TableEntry, Uint128,
};
use p4v1_wire::{Writable, write_message};
use row_lines::{NoAnswer, bytes, tell_hex};
use std::alloc::Global;

fn text(alloc: Global, text: &str) -> Result<Text, NoAnswer> {
    Ok(Text::from_string(String::from_str(alloc, text)?))
}

fn no_text(alloc: Global) -> Text {
    Text::from_string(String::new(alloc))
}

fn byte_list(alloc: Global, hex: &str) -> Result<ByteList, NoAnswer> {
    Ok(List::from_vec(bytes(alloc, hex)?))
}

// The bytes of a message, which is let go of.
fn spelled<M: Writable + Drop>(alloc: Global, message: M) -> Result<ByteList, NoAnswer> {
    Ok(write_message(alloc, &message)?)
}

fn only<T: Drop>(alloc: Global, item: T) -> Result<List<T>, NoAnswer> {
    let mut list = List::new(alloc);
    list.push(item)?;
    Ok(list)
}

// A notice of an arbitration: the election id of the primary, and the code.
fn notice(alloc: Global, low: &str, code: &str) -> Result<ByteList, NoAnswer> {
    let low = low.parse::<u64>()?;
    let code = code.parse::<i32>()?;
    let status = Status {
        code,
        message: no_text(alloc),
        details: List::new(alloc),
    };
    let update = MasterArbitrationUpdate {
        device_id: 1,
        role: None,
        election_id: Uint128 { high: 0, low },
        status: Some(status),
    };
    spelled(alloc, StreamMessageResponse::Arbitration(update))
}

// A refused packet: the code, the rule that it breaks, and its bytes.
fn refused_packet(
    alloc: Global,
    code: &str,
    rule: &str,
    payload: &str,
) -> Result<ByteList, NoAnswer> {
    let canonical_code = code.parse::<i32>()?;
    let code = rule.parse::<i32>()?;
    let space = text(alloc, "p4switch")?;
    let packet = PacketOut {
        payload: byte_list(alloc, payload)?,
        metadata: List::new(alloc),
    };
    let error = StreamError {
        canonical_code,
        message: no_text(alloc),
        space,
        code,
        details: Some(StreamErrorDetails::PacketOut(packet)),
    };
    spelled(alloc, StreamMessageResponse::Error(error))
}

// The error of an update: `code space rule`, or the code alone.
fn error(alloc: Global, part: &str) -> Result<ByteList, NoAnswer> {
    let mut words = part.split_whitespace();
    let canonical_code = words.next().unwrap_or("").parse::<i32>()?;
    let space = words.next().unwrap_or("");
    let code = words.next().unwrap_or("0").parse::<i32>()?;
    let error = Error {
        canonical_code,
        message: no_text(alloc),
        space: text(alloc, space)?,
        code,
        details: List::new(alloc),
    };
    spelled(alloc, error)
}

fn detail(alloc: Global, part: &str) -> Result<Any, NoAnswer> {
    let value = error(alloc, part)?;
    let type_url = text(alloc, "type.googleapis.com/p4.v1.Error")?;
    Ok(Any { type_url, value })
}

// A status: the code, the message, and the errors of updates behind it.
fn status(alloc: Global, code: &str, message: &str, errors: &[&str]) -> Result<ByteList, NoAnswer> {
    let code = code.parse::<i32>()?;
    let mut details = List::new(alloc);
    for part in errors {
        details.push(detail(alloc, part)?)?;
    }
    let message = text(alloc, message)?;
    let status = Status {
        code,
        message,
        details,
    };
    spelled(alloc, status)
}

fn cookie(alloc: Global, cookie: &str) -> Result<ByteList, NoAnswer> {
    let cookie = cookie.parse::<u64>()?;
    let config = ForwardingPipelineConfig {
        p4info: None,
        p4_device_config: List::new(alloc),
        cookie: Some(Cookie { cookie }),
    };
    let response = GetForwardingPipelineConfigResponse {
        config: Some(config),
    };
    spelled(alloc, response)
}

fn capabilities(alloc: Global, version: &str) -> Result<ByteList, NoAnswer> {
    let p4runtime_api_version = text(alloc, version)?;
    let response = CapabilitiesResponse {
        p4runtime_api_version,
    };
    spelled(alloc, response)
}

// An entry with this match alone.
fn counted(alloc: Global, table_id: u32, route: FieldMatch) -> Result<TableEntry, NoAnswer> {
    let matches = only(alloc, route)?;
    Ok(TableEntry {
        table_id,
        matches,
        action: None,
        priority: 0,
        controller_metadata: 0,
        meter_config: false,
        counter_data: None,
        is_default_action: false,
        idle_timeout_ns: 0,
        time_since_last_hit: false,
    })
}

// A direct counter: the table, the prefix of field 1 and its length, the packets and the bytes.
fn counter(alloc: Global, asked: [&str; 5]) -> Result<ByteList, NoAnswer> {
    let [table, prefix, length, packets, bytes] = asked;
    let table = table.parse::<u32>()?;
    let prefix_len = length.parse::<i32>()?;
    let content = CounterData {
        byte_count: bytes.parse::<i64>()?,
        packet_count: packets.parse::<i64>()?,
    };
    let value = byte_list(alloc, prefix)?;
    let route = FieldMatch {
        field_id: 1,
        kind: Some(FieldMatchKind::Lpm { value, prefix_len }),
    };
    let entity = Entity::DirectCounterEntry(DirectCounterEntry {
        table_entry: Some(counted(alloc, table, route)?),
        content: Some(content),
    });
    let entities = only(alloc, entity)?;
    spelled(alloc, ReadResponse { entities })
}

// A ternary match of field 1: the value and the mask.
fn ternary(alloc: Global, value: &str, mask: &str) -> Result<ByteList, NoAnswer> {
    let value = byte_list(alloc, value)?;
    let mask = byte_list(alloc, mask)?;
    let message = FieldMatch {
        field_id: 1,
        kind: Some(FieldMatchKind::Ternary { value, mask }),
    };
    spelled(alloc, message)
}

// A digest's sample of fields.
fn sample(alloc: Global, fields: &[&str]) -> Result<ByteList, NoAnswer> {
    let mut members = List::new(alloc);
    for field in fields {
        members.push(byte_list(alloc, field)?)?;
    }
    spelled(alloc, P4Data::Struct(members))
}

// The bytes of a message of a kind, of what stands in it.
fn message(alloc: Global, kind: &str, asked: &[&str]) -> Result<ByteList, NoAnswer> {
    match (kind, asked) {
        ("notice", [low, code]) => notice(alloc, low, code),
        ("refused packet", [code, rule, payload]) => refused_packet(alloc, code, rule, payload),
        ("error", [part]) => error(alloc, part),
        ("status", [code, message, errors @ ..]) => status(alloc, code, message, errors),
        ("cookie", [number]) => cookie(alloc, number),
        ("version", [version]) => capabilities(alloc, version),
        ("direct counter", [table, prefix, length, packets, bytes]) => {
            counter(alloc, [table, prefix, length, packets, bytes])
        }
        ("ternary match", [value, mask]) => ternary(alloc, value, mask),
        ("sample", fields) => sample(alloc, fields),
        _ => Err(NoAnswer),
    }
}

/// Of a message's kind and what stands in it: its bytes.
pub fn sent(alloc: Global, kind: &str, asked: &[&str], told: &mut String) -> Result<(), NoAnswer> {
    let message = message(alloc, kind, asked)?;
    tell_hex(alloc, told, message.as_slice());
    Ok(())
}
