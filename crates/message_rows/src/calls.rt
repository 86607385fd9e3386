//! Messages of controllers, and the calls that they are.
use crate::shown::tell_entity;
use p4_types::calls::{Call, Method};
use p4_types::messages::{
    ForwardingPipelineConfig, MasterArbitrationUpdate, SetForwardingPipelineConfigRequest,
    StreamMessageRequest, Uint128, WriteRequest,
};
use p4v1_read::read_call;
use row_lines::{NoAnswer, bytes, say, tell, tell_hex};
use std::alloc::Global;

fn tell_id(told: &mut String, id: Uint128) {
    tell(told, id.high);
    tell(told, id.low);
}

fn tell_write(alloc: Global, told: &mut String, request: &WriteRequest) {
    say(told, "write");
    tell(told, request.device_id);
    tell(told, request.role_id);
    tell_id(told, request.election_id);
    tell(told, request.atomicity);
    tell(told, request.updates.len());
    for update in request.updates.as_slice() {
        say(told, "update");
        tell(told, update.kind);
        tell_entity(alloc, told, &update.entity);
    }
}

/// Adds a configuration, whose P4Info is told as bytes.
pub fn tell_config(alloc: Global, told: &mut String, config: &Option<ForwardingPipelineConfig>) {
    let Some(config) = config else {
        say(told, "no config");
        return;
    };
    match &config.p4info {
        None => say(told, "no p4info"),
        Some(info) => tell_hex(alloc, told, info.as_slice()),
    }
    tell_hex(alloc, told, config.p4_device_config.as_slice());
    tell(told, config.cookie.map(|cookie| cookie.cookie));
}

fn tell_set(alloc: Global, told: &mut String, request: &SetForwardingPipelineConfigRequest) {
    say(told, "set");
    tell(told, request.device_id);
    tell(told, request.role_id);
    tell_id(told, request.election_id);
    tell(told, request.action);
    tell_config(alloc, told, &request.config);
}

/// Adds an arbitration without its status.
pub fn tell_arbitration(told: &mut String, update: &MasterArbitrationUpdate) {
    say(told, "arbitration");
    tell(told, update.device_id);
    tell_id(told, update.election_id);
    match &update.role {
        None => say(told, "no role"),
        Some(role) => {
            tell(told, role.id);
            tell(told, role.config.is_some());
        }
    }
}

fn tell_stream(alloc: Global, told: &mut String, message: &StreamMessageRequest) {
    match message {
        StreamMessageRequest::Arbitration(update) => tell_arbitration(told, update),
        StreamMessageRequest::Packet(packet) => {
            say(told, "packet");
            tell_hex(alloc, told, packet.payload.as_slice());
            tell(told, packet.metadata.len());
        }
        StreamMessageRequest::DigestAck(ack) => {
            say(told, "digest ack");
            tell(told, ack.digest_id);
            tell(told, ack.list_id);
        }
        StreamMessageRequest::Other(other) => {
            say(told, "other");
            say(told, other.type_url.as_str());
        }
    }
}

fn tell_call(alloc: Global, told: &mut String, call: &Call) {
    match call {
        Call::Write(request) => tell_write(alloc, told, request),
        Call::Read(request) => {
            say(told, "read");
            tell(told, request.device_id);
            for entity in request.entities.as_slice() {
                tell_entity(alloc, told, entity);
            }
        }
        Call::Set(request) => tell_set(alloc, told, request),
        Call::Get(request) => {
            say(told, "get");
            tell(told, request.device_id);
            tell(told, request.response_type);
        }
        Call::Stream(None) => say(told, "stream message of no kind"),
        Call::Stream(Some(message)) => tell_stream(alloc, told, message),
        Call::Capabilities => say(told, "capabilities"),
        Call::Unreadable(method) => {
            say(told, "unreadable");
            tell(told, *method as u8);
        }
        Call::Leave => say(told, "leave"),
    }
}

/// The method of a number, 1 to 6.
pub fn method_of(number: u8) -> Result<Method, NoAnswer> {
    match number {
        1 => Ok(Method::Write),
        2 => Ok(Method::Read),
        3 => Ok(Method::SetForwardingPipelineConfig),
        4 => Ok(Method::GetForwardingPipelineConfig),
        5 => Ok(Method::StreamChannel),
        6 => Ok(Method::Capabilities),
        _ => Err(NoAnswer),
    }
}

/// Of a method and a message: what is read of it.
pub fn call(alloc: Global, asked: &[&str], told: &mut String) -> Result<(), NoAnswer> {
    let [method, hex] = asked else {
        return Err(NoAnswer);
    };
    let method = method_of(method.parse::<u8>()?)?;
    let call = read_call(alloc, method, &bytes(alloc, hex)?)?;
    tell_call(alloc, told, &call);
    Ok(())
}
