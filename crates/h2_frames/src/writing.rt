//! Writing a frame.
ghost use Rattle.std.specs.Prelude.{◌≡◌, ◌+◌, ◌^◌, ◌<◌, ◌≤◌, [], ◌++◌, length, take, OnOk, OnErr};
ghost use Rattle.std.specs.List.{flat_map};
ghost use Rattle.std.specs.Int.{w32, to_be_bytes};
ghost use Rattle.h2_frames.specs.Layout.{kind_of, flags_of, stream_of, flag_if, priority_bytes, priority_part, setting_bytes, payload_of, head_bytes, spelling};
ghost use Rattle.h2_frames.specs.Laws.{PriorityFits, NumbersFit};
ghost use Rattle.h2_frames.specs.declared.frame.Frame.TheVariants as frames;

use crate::frame::{Frame, Setting, StreamPriority};
use list_types::{ByteList, NoMemory};
use std::alloc::Global;

fn flag_if(is_set: bool, flag: u8) -> u8
    ensures { result ≡ flag_if is_set flag }
{
    if is_set { flag } else { 0 }
}

/// The Type field.
fn kind_of(frame: &Frame) -> u8
    ensures { result ≡ kind_of frame.now }
{
    match frame {
        Frame::Data { .. } => 0,
        Frame::Headers { .. } => 1,
        Frame::Priority { .. } => 2,
        Frame::RstStream { .. } => 3,
        Frame::Settings { .. } => 4,
        Frame::PushPromise { .. } => 5,
        Frame::Ping { .. } => 6,
        Frame::GoAway { .. } => 7,
        Frame::WindowUpdate { .. } => 8,
        Frame::Continuation { .. } => 9,
        Frame::Unknown { kind, .. } => *kind,
    }
}

/// The Flags field.
fn flags_of(frame: &Frame) -> u8
    ensures { result ≡ flags_of frame.now }
{
    match frame {
        Frame::Data { end_stream, .. } => flag_if(*end_stream, 0x1),
        Frame::Headers {
            end_stream,
            end_headers,
            priority,
            ..
        } => {
            let end = flag_if(*end_stream, 0x1) + flag_if(*end_headers, 0x4);
            match priority {
                Some(_) => end + 0x20,
                None => end,
            }
        }
        Frame::Settings { ack, .. } => flag_if(*ack, 0x1),
        Frame::PushPromise { end_headers, .. } => flag_if(*end_headers, 0x4),
        Frame::Ping { ack, .. } => flag_if(*ack, 0x1),
        Frame::Continuation { end_headers, .. } => flag_if(*end_headers, 0x4),
        Frame::Unknown { flags, .. } => *flags,
        Frame::Priority { .. }
        | Frame::RstStream { .. }
        | Frame::GoAway { .. }
        | Frame::WindowUpdate { .. } => 0,
    }
}

/// The Stream Identifier field.
fn stream_of(frame: &Frame) -> u32
    ensures { result ≡ stream_of frame.now }
{
    match frame {
        Frame::Data { stream, .. } => *stream,
        Frame::Headers { stream, .. } => *stream,
        Frame::Priority { stream, .. } => *stream,
        Frame::RstStream { stream, .. } => *stream,
        Frame::PushPromise { stream, .. } => *stream,
        Frame::WindowUpdate { stream, .. } => *stream,
        Frame::Continuation { stream, .. } => *stream,
        Frame::Unknown { stream, .. } => *stream,
        Frame::Settings { .. } | Frame::Ping { .. } | Frame::GoAway { .. } => 0,
    }
}

#[tactic(auto, using(crate::proofs::Settings::settings_length))]
fn settings_length(settings: &[Setting]) -> usize
    requires { length (flat_map setting_bytes settings.now) < 2 ^ 24 }
    ensures { result ≡ length (flat_map setting_bytes settings.now) }
{
    6 * settings.len()
}

fn length_of(frame: &Frame) -> usize
    requires { length (payload_of frame.now) < 2 ^ 24 }
    ensures { result ≡ length (payload_of frame.now) }
{
    match frame {
        Frame::Data { data, .. } => data.len(),
        Frame::Headers {
            priority,
            field_block_fragment,
            ..
        } => match priority {
            Some(_) => 5 + field_block_fragment.len(),
            None => field_block_fragment.len(),
        },
        Frame::Priority { .. } => 5,
        Frame::RstStream { .. } => 4,
        Frame::Settings { settings, .. } => settings_length(settings.as_slice()),
        Frame::PushPromise {
            field_block_fragment,
            ..
        } => 4 + field_block_fragment.len(),
        Frame::Ping { .. } => 8,
        Frame::GoAway { debug_data, .. } => 8 + debug_data.len(),
        Frame::WindowUpdate { .. } => 4,
        Frame::Continuation {
            field_block_fragment,
            ..
        } => field_block_fragment.len(),
        Frame::Unknown { payload, .. } => payload.len(),
    }
}

fn push_priority(bytes: &mut Vec<u8>, priority: &StreamPriority) -> Result<(), NoMemory>
    requires { priority.now.stream_dependency < 2 ^ 31 }
    ensures ok { OnOk result (bytes.new.items ≡ bytes.old.items ++ priority_bytes priority.now) }
    ensures kept { take (length bytes.old.items) bytes.new.items ≡ bytes.old.items }
{
    let exclusive: u32 = if priority.exclusive { 0x8000_0000 } else { 0 };
    bytes.extend_from_slice(&(exclusive + priority.stream_dependency).to_be_bytes())?;
    bytes.push(priority.weight)?;
    Ok(())
}

fn push_setting(bytes: &mut Vec<u8>, setting: &Setting) -> Result<(), NoMemory>
    ensures ok { OnOk result (bytes.new.items ≡ bytes.old.items ++ setting_bytes setting.now) }
    ensures kept { take (length bytes.old.items) bytes.new.items ≡ bytes.old.items }
{
    bytes.extend_from_slice(&setting.identifier.to_be_bytes())?;
    bytes.extend_from_slice(&setting.value.to_be_bytes())?;
    Ok(())
}

fn push_settings(bytes: &mut Vec<u8>, settings: &[Setting]) -> Result<(), NoMemory>
    ensures ok { OnOk result (bytes.new.items ≡ bytes.old.items ++ flat_map setting_bytes settings.now) }
    ensures kept { take (length bytes.old.items) bytes.new.items ≡ bytes.old.items }
{
    for setting in settings {
        push_setting(bytes, setting)?;
    }
    Ok(())
}

fn push_number(bytes: &mut Vec<u8>, number: u32, rest: &[u8]) -> Result<(), NoMemory>
    ensures ok { OnOk result (bytes.new.items ≡ bytes.old.items ++ to_be_bytes w32 number ++ rest.now) }
    ensures kept { take (length bytes.old.items) bytes.new.items ≡ bytes.old.items }
{
    bytes.extend_from_slice(&number.to_be_bytes())?;
    bytes.extend_from_slice(rest)?;
    Ok(())
}

fn push_headers(
    bytes: &mut Vec<u8>,
    priority: &Option<StreamPriority>,
    fragment: &[u8],
) -> Result<(), NoMemory>
    requires { PriorityFits priority.now }
    ensures ok { OnOk result (bytes.new.items ≡ bytes.old.items ++ priority_part priority.now ++ fragment.now) }
    ensures kept { take (length bytes.old.items) bytes.new.items ≡ bytes.old.items }
{
    if let Some(priority) = priority {
        push_priority(bytes, priority)?;
    }
    bytes.extend_from_slice(fragment)?;
    Ok(())
}

fn push_goaway(
    bytes: &mut Vec<u8>,
    last_stream: u32,
    error_code: u32,
    debug_data: &[u8],
) -> Result<(), NoMemory>
    ensures ok { OnOk result (bytes.new.items ≡ bytes.old.items ++ to_be_bytes w32 last_stream ++ to_be_bytes w32 error_code ++ debug_data.now) }
    ensures kept { take (length bytes.old.items) bytes.new.items ≡ bytes.old.items }
{
    bytes.extend_from_slice(&last_stream.to_be_bytes())?;
    push_number(bytes, error_code, debug_data)
}

fn push_payload(bytes: &mut Vec<u8>, frame: &Frame) -> Result<(), NoMemory>
    requires { NumbersFit frame.now }
    ensures ok { OnOk result (bytes.new.items ≡ bytes.old.items ++ payload_of frame.now) }
    ensures kept { take (length bytes.old.items) bytes.new.items ≡ bytes.old.items }
{
    match frame {
        Frame::Data { data, .. } => Ok(bytes.extend_from_slice(data.as_slice())?),
        Frame::Headers {
            priority,
            field_block_fragment,
            ..
        } => push_headers(bytes, priority, field_block_fragment.as_slice()),
        Frame::Priority { priority, .. } => push_priority(bytes, priority),
        Frame::RstStream { error_code, .. } => push_number(bytes, *error_code, &[]),
        Frame::Settings { settings, .. } => push_settings(bytes, settings.as_slice()),
        Frame::PushPromise {
            promised_stream,
            field_block_fragment,
            ..
        } => push_number(bytes, *promised_stream, field_block_fragment.as_slice()),
        Frame::Ping { opaque_data, .. } => {
            Ok(bytes.extend_from_slice(&opaque_data.to_be_bytes())?)
        }
        Frame::GoAway {
            last_stream,
            error_code,
            debug_data,
        } => push_goaway(bytes, *last_stream, *error_code, debug_data.as_slice()),
        Frame::WindowUpdate {
            window_size_increment,
            ..
        } => push_number(bytes, *window_size_increment, &[]),
        Frame::Continuation {
            field_block_fragment,
            ..
        } => Ok(bytes.extend_from_slice(field_block_fragment.as_slice())?),
        Frame::Unknown { payload, .. } => Ok(bytes.extend_from_slice(payload.as_slice())?),
    }
}

fn push_head(
    bytes: &mut Vec<u8>,
    size: u32,
    kind: u8,
    flags: u8,
    stream: u32,
) -> Result<(), NoMemory>
    ensures ok { OnOk result (bytes.new.items ≡ bytes.old.items ++ head_bytes size kind flags stream) }
    ensures kept { take (length bytes.old.items) bytes.new.items ≡ bytes.old.items }
{
    let [_, high, middle, low] = size.to_be_bytes();
    bytes.extend_from_slice(&[high, middle, low, kind, flags])?;
    bytes.extend_from_slice(&stream.to_be_bytes())?;
    Ok(())
}

fn push_frame(bytes: &mut Vec<u8>, frame: &Frame) -> Result<(), NoMemory>
    requires short { length (payload_of frame.now) < 2 ^ 24 }
    requires fits { NumbersFit frame.now }
    ensures ok { OnOk result (bytes.new.items ≡ bytes.old.items ++ spelling frame.now) }
    ensures kept { take (length bytes.old.items) bytes.new.items ≡ bytes.old.items }
{
    let size = length_of(frame) as u32;
    push_head(
        bytes,
        size,
        kind_of(frame),
        flags_of(frame),
        stream_of(frame),
    )?;
    push_payload(bytes, frame)
}

/// Adds a frame to bytes, without padding and with a clear reserved bit (RFC 9113, sections 4.1
/// and 6). Without memory for all of it the bytes are as before. The allocator serves no bytes of
/// its own.
pub fn write_frame(alloc: Global, frame: &Frame, out: &mut ByteList) -> Result<(), NoMemory>
    requires short { length (payload_of frame.now) < 2 ^ 24 }
    requires fits { NumbersFit frame.now }
    ensures ok { OnOk result (out.new ≡ out.old ++ spelling frame.now) }
    ensures err { OnErr result (out.new ≡ out.old) }
{
    let mut bytes = std::mem::replace(out, ByteList::new(alloc)).into_vec();
    let start = bytes.len();
    let written = push_frame(&mut bytes, frame);
    if written.is_err() {
        bytes.truncate(start);
    }
    *out = ByteList::from_vec(bytes);
    written
}

fn push_parts(
    bytes: &mut Vec<u8>,
    kind: u8,
    flags: u8,
    stream: u32,
    payload: &[u8],
) -> Result<(), NoMemory>
    requires { length payload.now < 2 ^ 24 }
    ensures ok { OnOk result (bytes.new.items ≡ bytes.old.items ++ (head_bytes (length payload.now) kind flags stream ++ payload.now)) }
    ensures kept { take (length bytes.old.items) bytes.new.items ≡ bytes.old.items }
{
    push_head(bytes, payload.len() as u32, kind, flags, stream)?;
    bytes.extend_from_slice(payload)?;
    Ok(())
}

// A head and its payload at the end of bytes, or the bytes as before.
fn write_parts(
    alloc: Global,
    kind: u8,
    flags: u8,
    stream: u32,
    payload: &[u8],
    out: &mut ByteList,
) -> Result<(), NoMemory>
    requires { length payload.now < 2 ^ 24 }
    ensures ok { OnOk result (out.new ≡ out.old ++ (head_bytes (length payload.now) kind flags stream ++ payload.now)) }
    ensures err { OnErr result (out.new ≡ out.old) }
{
    let mut bytes = std::mem::replace(out, ByteList::new(alloc)).into_vec();
    let start = bytes.len();
    let written = push_parts(&mut bytes, kind, flags, stream, payload);
    if written.is_err() {
        bytes.truncate(start);
    }
    *out = ByteList::from_vec(bytes);
    written
}

/// Adds a DATA frame of these bytes, which are copied once. Without memory `out` is as before.
pub fn write_data(
    alloc: Global,
    stream: u32,
    end_stream: bool,
    payload: &[u8],
    out: &mut ByteList,
) -> Result<(), NoMemory>
    requires { length payload.now < 2 ^ 24 }
    ensures ok { OnOk result (out.new ≡ out.old ++ spelling (frames.Data stream end_stream payload.now)) }
    ensures err { OnErr result (out.new ≡ out.old) }
{
    write_parts(alloc, 0, flag_if(end_stream, 0x1), stream, payload, out)
}

/// Adds a HEADERS frame without a priority, of this fragment of a header block. Without memory
/// `out` is as before.
pub fn write_headers(
    alloc: Global,
    stream: u32,
    end_stream: bool,
    end_headers: bool,
    fragment: &[u8],
    out: &mut ByteList,
) -> Result<(), NoMemory>
    requires { length fragment.now < 2 ^ 24 }
    ensures ok { OnOk result (out.new ≡ out.old ++ spelling (frames.Headers stream end_stream end_headers None fragment.now)) }
    ensures err { OnErr result (out.new ≡ out.old) }
{
    let flags = flag_if(end_stream, 0x1) + flag_if(end_headers, 0x4);
    write_parts(alloc, 1, flags, stream, fragment, out)
}

/// Adds a CONTINUATION frame of this fragment of a header block. Without memory `out` is as before.
pub fn write_continuation(
    alloc: Global,
    stream: u32,
    end_headers: bool,
    fragment: &[u8],
    out: &mut ByteList,
) -> Result<(), NoMemory>
    requires { length fragment.now < 2 ^ 24 }
    ensures ok { OnOk result (out.new ≡ out.old ++ spelling (frames.Continuation stream end_headers fragment.now)) }
    ensures err { OnErr result (out.new ≡ out.old) }
{
    write_parts(alloc, 9, flag_if(end_headers, 0x4), stream, fragment, out)
}

/// Adds a RST_STREAM frame. Without memory `out` is as before.
pub fn write_rst_stream(
    alloc: Global,
    stream: u32,
    error_code: u32,
    out: &mut ByteList,
) -> Result<(), NoMemory>
    ensures ok { OnOk result (out.new ≡ out.old ++ spelling (frames.RstStream stream error_code)) }
    ensures err { OnErr result (out.new ≡ out.old) }
{
    write_parts(alloc, 3, 0, stream, &error_code.to_be_bytes(), out)
}

/// Adds a WINDOW_UPDATE frame. Without memory `out` is as before.
pub fn write_window_update(
    alloc: Global,
    stream: u32,
    window_size_increment: u32,
    out: &mut ByteList,
) -> Result<(), NoMemory>
    ensures ok { OnOk result (out.new ≡ out.old ++ spelling (frames.WindowUpdate stream window_size_increment)) }
    ensures err { OnErr result (out.new ≡ out.old) }
{
    write_parts(
        alloc,
        8,
        0,
        stream,
        &window_size_increment.to_be_bytes(),
        out,
    )
}

/// Adds a GOAWAY frame without debug data. Without memory `out` is as before.
pub fn write_goaway(
    alloc: Global,
    last_stream: u32,
    error_code: u32,
    out: &mut ByteList,
) -> Result<(), NoMemory>
    ensures ok { OnOk result (out.new ≡ out.old ++ spelling (frames.GoAway last_stream error_code [])) }
    ensures err { OnErr result (out.new ≡ out.old) }
{
    let [a, b, c, d] = last_stream.to_be_bytes();
    let [e, f, g, h] = error_code.to_be_bytes();
    write_parts(alloc, 7, 0, 0, &[a, b, c, d, e, f, g, h], out)
}
