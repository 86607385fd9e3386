//! Messages of servers, and the answers that they are.
use crate::calls::{method_of, tell_arbitration, tell_config};
use crate::shown::{tell_entity, tell_entry};
use list_types::Refusal;
use p4_types::messages::{
    DigestList, P4Data, PacketIn, Status, StreamError, StreamErrorDetails, StreamMessageResponse,
};
use p4v1_answers::{Answer, errors_of, read_answer, read_status};
use row_lines::{NoAnswer, bytes, say, tell, tell_hex};
use std::alloc::Global;

fn tell_status(told: &mut String, status: &Status) {
    say(told, "status");
    tell(told, status.code);
    tell(told, status.message.as_str());
    tell(told, status.details.len());
}

fn tell_packet(alloc: Global, told: &mut String, packet: &PacketIn) {
    say(told, "packet");
    tell_hex(alloc, told, packet.payload.as_slice());
    for metadata in packet.metadata.as_slice() {
        tell(told, metadata.metadata_id);
        tell_hex(alloc, told, metadata.value.as_slice());
    }
}

fn tell_data(alloc: Global, told: &mut String, data: &P4Data) {
    match data {
        P4Data::Bitstring(bits) => {
            say(told, "bits");
            tell_hex(alloc, told, bits.as_slice());
        }
        P4Data::Struct(members) => {
            say(told, "struct");
            for member in members.as_slice() {
                tell_hex(alloc, told, member.as_slice());
            }
        }
    }
}

fn tell_digest(alloc: Global, told: &mut String, list: &DigestList) {
    say(told, "digest");
    tell(told, list.digest_id);
    tell(told, list.list_id);
    tell(told, list.timestamp);
    for data in list.content.as_slice() {
        tell_data(alloc, told, data);
    }
}

fn tell_error(alloc: Global, told: &mut String, error: &StreamError) {
    say(told, "error");
    tell(told, error.canonical_code);
    tell(told, error.message.as_str());
    tell(told, error.space.as_str());
    tell(told, error.code);
    match &error.details {
        None => say(told, "no details"),
        Some(StreamErrorDetails::PacketOut(packet)) => {
            say(told, "packet out");
            tell_hex(alloc, told, packet.payload.as_slice());
            tell(told, packet.metadata.len());
        }
        Some(StreamErrorDetails::DigestListAck(ack)) => {
            say(told, "digest ack");
            tell(told, ack.digest_id);
            tell(told, ack.list_id);
        }
        Some(StreamErrorDetails::Other(other)) => {
            say(told, "other");
            tell(told, other.type_url.as_str());
            tell_hex(alloc, told, other.value.as_slice());
        }
    }
}

fn tell_stream(alloc: Global, told: &mut String, message: &StreamMessageResponse) {
    match message {
        StreamMessageResponse::Arbitration(update) => {
            tell_arbitration(told, update);
            match &update.status {
                None => say(told, "no status"),
                Some(status) => tell_status(told, status),
            }
        }
        StreamMessageResponse::Packet(packet) => tell_packet(alloc, told, packet),
        StreamMessageResponse::Digest(list) => tell_digest(alloc, told, list),
        StreamMessageResponse::IdleTimeoutNotification(notification) => {
            say(told, "idle");
            tell(told, notification.timestamp);
            for entry in notification.table_entry.as_slice() {
                tell_entry(alloc, told, entry);
            }
        }
        StreamMessageResponse::Other(other) => {
            say(told, "other");
            tell(told, other.type_url.as_str());
            tell_hex(alloc, told, other.value.as_slice());
        }
        StreamMessageResponse::Error(error) => tell_error(alloc, told, error),
    }
}

fn tell_answer(alloc: Global, told: &mut String, answer: &Answer) {
    match answer {
        Answer::Write => say(told, "write"),
        Answer::Read(entities) => {
            say(told, "read");
            for entity in entities.as_slice() {
                tell_entity(alloc, told, entity);
            }
        }
        Answer::SetForwardingPipelineConfig => say(told, "set"),
        Answer::GetForwardingPipelineConfig(response) => {
            say(told, "get");
            tell_config(alloc, told, &response.config);
        }
        Answer::StreamChannel(None) => say(told, "stream message of no kind"),
        Answer::StreamChannel(Some(message)) => tell_stream(alloc, told, message),
        Answer::Capabilities(response) => {
            say(told, "capabilities");
            tell(told, response.p4runtime_api_version.as_str());
        }
    }
}

/// Of a method and a message of a server: what is read of it.
pub fn answer(alloc: Global, asked: &[&str], told: &mut String) -> Result<(), NoAnswer> {
    let [method, hex] = asked else {
        return Err(NoAnswer);
    };
    let method = method_of(method.parse::<u8>()?)?;
    match read_answer(alloc, method, &bytes(alloc, hex)?) {
        Ok(answer) => tell_answer(alloc, told, &answer),
        Err(Refusal::For(_)) => say(told, "unreadable"),
        Err(Refusal::NoMemory) => return Err(NoAnswer),
    }
    Ok(())
}

fn tell_errors(alloc: Global, told: &mut String, status: &Status) -> Result<(), NoAnswer> {
    match errors_of(alloc, status) {
        Ok(errors) => {
            for error in errors.as_slice() {
                say(told, "error");
                tell(told, error.canonical_code);
                tell(told, error.message.as_str());
                tell(told, error.space.as_str());
                tell(told, error.code);
                tell(told, error.details.len());
            }
        }
        Err(Refusal::For(_)) => say(told, "errors unreadable"),
        Err(Refusal::NoMemory) => return Err(NoAnswer),
    }
    Ok(())
}

/// Of the status of a Write that failed: what is read of it and of its errors.
pub fn failure(alloc: Global, asked: &[&str], told: &mut String) -> Result<(), NoAnswer> {
    let [hex] = asked else {
        return Err(NoAnswer);
    };
    match read_status(alloc, &bytes(alloc, hex)?) {
        Ok(status) => {
            tell_status(told, &status);
            tell_errors(alloc, told, &status)
        }
        Err(Refusal::For(_)) => {
            say(told, "unreadable");
            Ok(())
        }
        Err(Refusal::NoMemory) => Err(NoAnswer),
    }
}
