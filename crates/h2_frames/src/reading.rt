//! Reading the payload of a frame by its head.
ghost use Rattle.std.specs.Prelude.{◌≡◌, ◌==◌, ◌||◌, Err, ◌+◌, ◌*◌, ◌/◌, ◌%◌, ◌^◌, ◌<◌, ◌≤◌, ◌∷◌, length, take, drop, if◌then◌else◌, true, false, Ok, IfOk};
ghost use Rattle.std.specs.List.{list_any};
ghost use Rattle.list_types.specs.Results.{Gives, GivesExactly};
ghost use Rattle.h2_frames.specs.Reading.{has, number_at, low_31_at, unpadded, priority_at, is_padded_data, setting_at, settings_in, unknown_at, breaks_protocol, breaks_flow_control, checked, data_at, headers_at, priority_frame_at, rst_stream_at, settings_at, push_promise_at, ping_at, goaway_at, window_update_at, continuation_at, frame_at, asks_memory};
ghost use Rattle.h2_frames.specs.Codes.{ack_flag, padded_flag, end_headers_flag};
ghost use Rattle.h2_frames.specs.Layout.{payload_of};
ghost use Rattle.h2_frames.specs.Laws.{NumbersFit};

use crate::codes::H2Code;
use crate::fragment::Fragment;
use crate::frame::{Frame, Setting, StreamPriority};
use crate::head::Head;
use list_types::{ByteList, List, Refusal};
use std::alloc::Global;

const END_STREAM: u8 = 0x1;

const ACK: u8 = 0x1;

const END_HEADERS: u8 = 0x4;

const PADDED: u8 = 0x8;

const PRIORITY: u8 = 0x20;

const SIZE: Refusal<H2Code> = Refusal::For(H2Code::FrameSizeError);

const PROTOCOL: Refusal<H2Code> = Refusal::For(H2Code::ProtocolError);

fn has(flags: u8, flag: u8) -> bool
    ensures { result ≡ has flags flag }
{
    flags & flag != 0
}

fn number_at(bytes: &[u8], place: usize) -> u32
    requires { place + 4 ≤ length bytes.now }
    ensures { result ≡ number_at place bytes.now }
{
    let (four, _) = bytes[place..].split_at(4);
    u32::from_be_bytes([four[0], four[1], four[2], four[3]])
}

fn low_31_at(bytes: &[u8], place: usize) -> u32
    requires { place + 4 ≤ length bytes.now }
    ensures { result ≡ low_31_at place bytes.now }
{
    number_at(bytes, place) % 0x8000_0000
}

fn copied(alloc: Global, bytes: &[u8]) -> Result<ByteList, Refusal<H2Code>>
    ensures { Gives (λ x. x) result (Ok bytes.now) }
{
    let mut list = ByteList::new(alloc);
    list.extend_from_slice(bytes)?;
    Ok(list)
}

#[tactic(auto, unfolding(crate::specs::Reading::unpadded))]
fn unpadded(bytes: &[u8], flags: u8, fixed: usize) -> Result<&[u8], H2Code>
    requires { fixed ≤ 8 }
    ensures exact { GivesExactly (λ x. x.now) result (unpadded fixed flags bytes.now) }
    ensures long { IfOk result (λ x. fixed ≤ length x.now) }
    ensures place { IfOk result (λ x. x.now ≡ take (length x.now) (drop (if has flags padded_flag then 1 else 0) bytes.now)) }
    ensures within { IfOk result (λ x. (if has flags padded_flag then 1 else 0) + length x.now ≤ length bytes.now) }
{
    if !has(flags, PADDED) {
        if bytes.len() < fixed {
            return Err(H2Code::FrameSizeError);
        }
        return Ok(bytes);
    }
    if bytes.len() < fixed + 1 {
        return Err(H2Code::FrameSizeError);
    }
    let padding = bytes[0] as usize;
    if bytes.len() < fixed + 1 + padding {
        return Err(H2Code::ProtocolError);
    }
    let rest = &bytes[1..];
    let (body, _) = rest.split_at(bytes.len() - 1 - padding);
    Ok(body)
}

fn priority_at(bytes: &[u8]) -> StreamPriority
    requires { 5 ≤ length bytes.now }
    ensures { result ≡ priority_at bytes.now }
{
    StreamPriority {
        exclusive: number_at(bytes, 0) >= 0x8000_0000,
        stream_dependency: low_31_at(bytes, 0),
        weight: bytes[4],
    }
}

#[tactic(auto, unfolding(crate::specs::Reading::data_at))]
fn data(alloc: Global, head: &Head, bytes: &[u8]) -> Result<Frame, Refusal<H2Code>>
    ensures exact { Gives (λ x. x) result (data_at head.now bytes.now) }
    ensures broken { (code : H2Code) → data_at head.now bytes.now ≡ Err code → result ≡ Err (Refusal.For code) }
{
    let body = unpadded(bytes, head.flags, 0)?;
    if head.stream == 0 {
        return Err(PROTOCOL);
    }
    Ok(Frame::Data {
        stream: head.stream,
        end_stream: has(head.flags, END_STREAM),
        data: copied(alloc, body)?,
    })
}

// How many bytes tell how long the padding is.
fn before_body(flags: u8) -> usize
    ensures { result ≡ (if has flags padded_flag then 1 else 0) }
{
    if has(flags, PADDED) { 1 } else { 0 }
}

// A payload without its padding, which stays in its buffer.
fn body(bytes: ByteList, flags: u8, fixed: usize) -> Result<Fragment, H2Code>
    requires { fixed ≤ 8 }
    ensures exact { GivesExactly (λ x. x) result (unpadded fixed flags bytes) }
    ensures long { IfOk result (λ x. fixed ≤ length x) }
{
    let count = unpadded(bytes.as_slice(), flags, fixed)?.len();
    let mut body = Fragment::whole(bytes);
    body.advance(before_body(flags));
    Ok(body.truncated(count))
}

#[tactic(auto, unfolding(crate::specs::Reading::headers_at))]
fn headers(head: &Head, bytes: ByteList) -> Result<Frame, H2Code>
    ensures { GivesExactly (λ x. x) result (headers_at head.now bytes) }
{
    let has_priority = has(head.flags, PRIORITY);
    let mut body = body(bytes, head.flags, if has_priority { 5 } else { 0 })?;
    if head.stream == 0 {
        return Err(H2Code::ProtocolError);
    }
    let end_stream = has(head.flags, END_STREAM);
    let end_headers = has(head.flags, END_HEADERS);
    if has_priority {
        let priority = priority_at(body.as_slice());
        body.advance(5);
        return Ok(Frame::Headers {
            stream: head.stream,
            end_stream,
            end_headers,
            priority: Some(priority),
            field_block_fragment: body,
        });
    }
    Ok(Frame::Headers {
        stream: head.stream,
        end_stream,
        end_headers,
        priority: None,
        field_block_fragment: body,
    })
}

#[tactic(auto, unfolding(crate::specs::Reading::priority_frame_at))]
fn priority(head: &Head, bytes: &[u8]) -> Result<Frame, H2Code>
    ensures { GivesExactly (λ x. x) result (priority_frame_at head.now bytes.now) }
{
    if bytes.len() != 5 {
        return Err(H2Code::FrameSizeError);
    }
    if head.stream == 0 {
        return Err(H2Code::ProtocolError);
    }
    Ok(Frame::Priority {
        stream: head.stream,
        priority: priority_at(bytes),
    })
}

#[tactic(auto, unfolding(crate::specs::Reading::rst_stream_at))]
fn rst_stream(head: &Head, bytes: &[u8]) -> Result<Frame, H2Code>
    ensures { GivesExactly (λ x. x) result (rst_stream_at head.now bytes.now) }
{
    if bytes.len() != 4 {
        return Err(H2Code::FrameSizeError);
    }
    if head.stream == 0 {
        return Err(H2Code::ProtocolError);
    }
    Ok(Frame::RstStream {
        stream: head.stream,
        error_code: number_at(bytes, 0),
    })
}

fn setting(bytes: &[u8]) -> Setting
    requires { length bytes.now ≡ 6 }
    ensures { result ≡ setting_at bytes.now }
{
    Setting {
        identifier: u16::from_be_bytes([bytes[0], bytes[1]]),
        value: number_at(bytes, 2),
    }
}

fn settings_in(alloc: Global, bytes: &[u8]) -> Result<List<Setting>, Refusal<H2Code>>
    requires { length bytes.now % 6 ≡ 0 }
    ensures exact { Gives (λ x. x) result (Ok (settings_in (length bytes.now / 6) bytes.now)) }
    ensures memory { result ≡ Err Refusal.NoMemory → 0 < length bytes.now }
{
    let mut settings = List::new(alloc);
    let mut rest = bytes;
    for _ in 0..bytes.len() / 6 {
        let (front, after) = rest.split_at(6);
        settings.push(setting(front))?;
        rest = after;
    }
    Ok(settings)
}

fn breaks_protocol(setting: &Setting) -> bool
    ensures { result ≡ breaks_protocol setting.now }
{
    (setting.identifier == Setting::ENABLE_PUSH && setting.value > 1)
        || (setting.identifier == Setting::MAX_FRAME_SIZE
            && (setting.value < 16_384 || setting.value > 16_777_215))
}

fn breaks_flow_control(setting: &Setting) -> bool
    ensures { result ≡ breaks_flow_control setting.now }
{
    setting.identifier == Setting::INITIAL_WINDOW_SIZE && setting.value > 0x7fff_ffff
}

fn any_breaks_protocol(settings: &[Setting]) -> bool
    ensures { result ≡ list_any breaks_protocol settings.now }
{
    settings.iter().any(|setting| breaks_protocol(setting))
}

fn any_breaks_flow_control(settings: &[Setting]) -> bool
    ensures { result ≡ list_any breaks_flow_control settings.now }
{
    settings.iter().any(|setting| breaks_flow_control(setting))
}

#[tactic(auto, unfolding(crate::specs::Reading::checked))]
fn checked(settings: &[Setting]) -> Result<(), H2Code>
    ensures { GivesExactly (λ _. settings.now) result (checked settings.now) }
{
    if any_breaks_protocol(settings) {
        return Err(H2Code::ProtocolError);
    }
    if any_breaks_flow_control(settings) {
        return Err(H2Code::FlowControlError);
    }
    Ok(())
}

#[tactic(auto, unfolding(crate::specs::Reading::settings_at))]
fn settings(alloc: Global, head: &Head, bytes: &[u8]) -> Result<Frame, Refusal<H2Code>>
    ensures exact { Gives (λ x. x) result (settings_at head.now bytes.now) }
    ensures memory { result ≡ Err Refusal.NoMemory → (head.now.stream ≡ 0) × (length bytes.now % 6 ≡ 0) }
    ensures listed { result ≡ Err Refusal.NoMemory → (has head.now.flags ack_flag ≡ false) × (0 < length bytes.now) }
{
    let ack = has(head.flags, ACK);
    if bytes.len() % 6 != 0 || (ack && !bytes.is_empty()) {
        return Err(SIZE);
    }
    if head.stream != 0 {
        return Err(PROTOCOL);
    }
    let settings = settings_in(alloc, bytes)?;
    checked(settings.as_slice())?;
    Ok(Frame::Settings { ack, settings })
}

#[tactic(auto, unfolding(crate::specs::Reading::push_promise_at))]
fn push_promise(head: &Head, bytes: ByteList) -> Result<Frame, H2Code>
    ensures { GivesExactly (λ x. x) result (push_promise_at head.now bytes) }
{
    let mut body = body(bytes, head.flags, 4)?;
    if head.stream == 0 {
        return Err(H2Code::ProtocolError);
    }
    let promised_stream = low_31_at(body.as_slice(), 0);
    body.advance(4);
    Ok(Frame::PushPromise {
        stream: head.stream,
        end_headers: has(head.flags, END_HEADERS),
        promised_stream,
        field_block_fragment: body,
    })
}

#[tactic(auto, unfolding(crate::specs::Reading::ping_at))]
fn ping(head: &Head, bytes: &[u8]) -> Result<Frame, H2Code>
    ensures { GivesExactly (λ x. x) result (ping_at head.now bytes.now) }
{
    if bytes.len() != 8 {
        return Err(H2Code::FrameSizeError);
    }
    if head.stream != 0 {
        return Err(H2Code::ProtocolError);
    }
    Ok(Frame::Ping {
        ack: has(head.flags, ACK),
        opaque_data: u64::from_be_bytes([
            bytes[0], bytes[1], bytes[2], bytes[3], bytes[4], bytes[5], bytes[6], bytes[7],
        ]),
    })
}

#[tactic(auto, unfolding(crate::specs::Reading::goaway_at))]
fn goaway(head: &Head, bytes: ByteList) -> Result<Frame, H2Code>
    ensures { GivesExactly (λ x. x) result (goaway_at head.now bytes) }
{
    if bytes.len() < 8 {
        return Err(H2Code::FrameSizeError);
    }
    if head.stream != 0 {
        return Err(H2Code::ProtocolError);
    }
    let mut behind = Fragment::whole(bytes);
    let last_stream = low_31_at(behind.as_slice(), 0);
    let error_code = number_at(behind.as_slice(), 4);
    behind.advance(8);
    Ok(Frame::GoAway {
        last_stream,
        error_code,
        debug_data: behind,
    })
}

#[tactic(auto, unfolding(crate::specs::Reading::window_update_at))]
fn window_update(head: &Head, bytes: &[u8]) -> Result<Frame, H2Code>
    ensures { GivesExactly (λ x. x) result (window_update_at head.now bytes.now) }
{
    if bytes.len() != 4 {
        return Err(H2Code::FrameSizeError);
    }
    let window_size_increment = low_31_at(bytes, 0);
    if window_size_increment == 0 {
        return Err(H2Code::ProtocolError);
    }
    Ok(Frame::WindowUpdate {
        stream: head.stream,
        window_size_increment,
    })
}

#[tactic(auto, unfolding(crate::specs::Reading::continuation_at))]
fn continuation(head: &Head, bytes: ByteList) -> Result<Frame, H2Code>
    ensures { GivesExactly (λ x. x) result (continuation_at head.now bytes) }
{
    if head.stream == 0 {
        return Err(H2Code::ProtocolError);
    }
    Ok(Frame::Continuation {
        stream: head.stream,
        end_headers: has(head.flags, END_HEADERS),
        field_block_fragment: Fragment::whole(bytes),
    })
}

fn unknown(head: &Head, bytes: ByteList) -> Frame
    ensures { result ≡ unknown_at head.now bytes }
{
    Frame::Unknown {
        kind: head.kind,
        flags: head.flags,
        stream: head.stream,
        payload: bytes,
    }
}

#[tactic(auto, unfolding(crate::specs::Reading::frame_at))]
fn frame(alloc: Global, head: &Head, bytes: &[u8]) -> Result<Frame, Refusal<H2Code>>
    ensures exact { Gives (λ x. x) result (frame_at head.now bytes.now) }
    ensures memory { result ≡ Err Refusal.NoMemory → asks_memory head.now ≡ true }
    ensures settings { head.now.kind ≡ 4 → result ≡ Err Refusal.NoMemory → (head.now.stream ≡ 0) × (length bytes.now % 6 ≡ 0) }
    ensures listed { head.now.kind ≡ 4 → result ≡ Err Refusal.NoMemory → (has head.now.flags ack_flag ≡ false) × (0 < length bytes.now) }
    ensures data { (code : H2Code) → head.now.kind ≡ 0 → data_at head.now bytes.now ≡ Err code → result ≡ Err (Refusal.For code) }
{
    match head.kind {
        0 => data(alloc, head, bytes),
        1 => Ok(headers(head, copied(alloc, bytes)?)?),
        2 => Ok(priority(head, bytes)?),
        3 => Ok(rst_stream(head, bytes)?),
        4 => settings(alloc, head, bytes),
        5 => Ok(push_promise(head, copied(alloc, bytes)?)?),
        6 => Ok(ping(head, bytes)?),
        7 => Ok(goaway(head, copied(alloc, bytes)?)?),
        8 => Ok(window_update(head, bytes)?),
        9 => Ok(continuation(head, copied(alloc, bytes)?)?),
        _ => Ok(unknown(head, copied(alloc, bytes)?)),
    }
}

/// The frame of a head and its payload, without its padding. A frame that breaks a rule by itself is
/// refused with the rule's code: FRAME_SIZE_ERROR before PROTOCOL_ERROR before FLOW_CONTROL_ERROR
/// (RFC 9113, section 6). How long the payload may be is for the caller. What is read can be
/// written again.
pub fn read_payload(alloc: Global, head: &Head, bytes: &[u8]) -> Result<Frame, Refusal<H2Code>>
    requires whole { length bytes.now ≡ head.now.length }
    ensures exact { Gives (λ x. x) result (frame_at head.now bytes.now) }
    ensures memory { result ≡ Err Refusal.NoMemory → asks_memory head.now ≡ true }
    ensures settings { head.now.kind ≡ 4 → result ≡ Err Refusal.NoMemory → (head.now.stream ≡ 0) × (length bytes.now % 6 ≡ 0) }
    ensures listed { head.now.kind ≡ 4 → result ≡ Err Refusal.NoMemory → (has head.now.flags ack_flag ≡ false) × (0 < length bytes.now) }
    ensures data { (code : H2Code) → head.now.kind ≡ 0 → data_at head.now bytes.now ≡ Err code → result ≡ Err (Refusal.For code) }
    ensures fits { head.now.stream < 2 ^ 31 → IfOk result NumbersFit }
    ensures short { head.now.stream < 2 ^ 31 → IfOk result (λ frame. length (payload_of frame) ≤ length bytes.now) }
{
    frame(alloc, head, bytes)
}

// DATA without padding, whose payload is its data.
#[tactic(auto, unfolding(crate::specs::Reading::data_at, crate::specs::Reading::unpadded))]
fn gathered_data(head: &Head, bytes: ByteList) -> Result<Frame, H2Code>
    requires { has head.now.flags padded_flag ≡ false }
    ensures { GivesExactly (λ x. x) result (data_at head.now bytes) }
{
    if head.stream == 0 {
        return Err(H2Code::ProtocolError);
    }
    Ok(Frame::Data {
        stream: head.stream,
        end_stream: has(head.flags, END_STREAM),
        data: bytes,
    })
}

/// The same of a payload that its caller gives away. It is not copied, but for DATA with padding, which `read_padded_data`
/// takes in two parts, and for the numbers of SETTINGS.
#[tactic(auto, unfolding(crate::specs::Reading::frame_at))]
pub fn read_gathered(alloc: Global, head: &Head, bytes: ByteList) -> Result<Frame, Refusal<H2Code>>
    requires whole { length bytes ≡ head.now.length }
    ensures exact { Gives (λ x. x) result (frame_at head.now bytes) }
    ensures memory { result ≡ Err Refusal.NoMemory → (head.now.kind == 4 || is_padded_data head.now) ≡ true }
    ensures settings { head.now.kind ≡ 4 → result ≡ Err Refusal.NoMemory → (head.now.stream ≡ 0) × (length bytes % 6 ≡ 0) }
    ensures listed { head.now.kind ≡ 4 → result ≡ Err Refusal.NoMemory → (has head.now.flags ack_flag ≡ false) × (0 < length bytes) }
    ensures data { (code : H2Code) → head.now.kind ≡ 0 → data_at head.now bytes ≡ Err code → result ≡ Err (Refusal.For code) }
{
    match head.kind {
        0 if !has(head.flags, PADDED) => Ok(gathered_data(head, bytes)?),
        1 => Ok(headers(head, bytes)?),
        5 => Ok(push_promise(head, bytes)?),
        7 => Ok(goaway(head, bytes)?),
        9 => Ok(continuation(head, bytes)?),
        0 | 2 | 3 | 4 | 6 | 8 => frame(alloc, head, bytes.as_slice()),
        _ => Ok(unknown(head, bytes)),
    }
}

/// A header block ends with the frame of this head, if it is of HEADERS or CONTINUATION.
pub fn ends_headers(head: &Head) -> bool
    ensures { result ≡ has head.now.flags end_headers_flag }
{
    has(head.flags, END_HEADERS)
}

/// The head is of DATA with padding.
pub fn is_padded_data(head: &Head) -> bool
    ensures { result ≡ is_padded_data head.now }
{
    head.kind == 0 && has(head.flags, PADDED)
}

/// DATA with padding, whose payload its caller gives away in two parts: the byte that tells how long the
/// padding is, and what is behind it. The data is not copied.
#[tactic(auto, unfolding(crate::specs::Reading::frame_at, crate::specs::Reading::data_at, crate::specs::Reading::unpadded))]
pub fn read_padded_data(head: &Head, padding: u8, rest: ByteList) -> Result<Frame, H2Code>
    requires { is_padded_data head.now ≡ true }
    ensures { GivesExactly (λ x. x) result (frame_at head.now (padding ∷ rest)) }
{
    let padding = padding as usize;
    let count = rest.len();
    if count < padding || head.stream == 0 {
        return Err(H2Code::ProtocolError);
    }
    let mut data = rest.into_vec();
    data.truncate(count - padding);
    Ok(Frame::Data {
        stream: head.stream,
        end_stream: has(head.flags, END_STREAM),
        data: ByteList::from_vec(data),
    })
}
