//! Frames, read and written again.
use h2_frames::{Frame, H2Code, StreamPriority, read_head, read_payload, write_frame};
use list_types::{ByteList, Refusal};
use row_lines::{NoAnswer, bytes, say, tell, tell_hex};
use std::alloc::Global;

fn tell_priority(told: &mut String, priority: &StreamPriority) {
    say(told, "priority");
    tell(told, priority.exclusive);
    tell(told, priority.stream_dependency);
    tell(told, priority.weight);
}

// Adds a frame that stands on the connection, or on it and on streams, or of a kind without a name.
fn tell_frame(alloc: Global, told: &mut String, frame: &Frame) {
    match frame {
        Frame::Settings { ack, settings } => {
            say(told, "SETTINGS");
            tell(told, *ack);
            for setting in settings.as_slice() {
                tell(told, setting.identifier);
                tell(told, setting.value);
            }
        }
        Frame::Ping { ack, opaque_data } => {
            say(told, "PING");
            tell(told, *ack);
            tell(told, *opaque_data);
        }
        Frame::GoAway {
            last_stream,
            error_code,
            debug_data,
        } => {
            say(told, "GOAWAY");
            tell(told, *last_stream);
            tell(told, *error_code);
            tell_hex(alloc, told, debug_data.as_slice());
        }
        Frame::WindowUpdate {
            stream,
            window_size_increment,
        } => {
            say(told, "WINDOW_UPDATE");
            tell(told, *stream);
            tell(told, *window_size_increment);
        }
        Frame::Unknown {
            kind,
            flags,
            stream,
            payload,
        } => {
            say(told, "unknown");
            tell(told, *kind);
            tell(told, *flags);
            tell(told, *stream);
            tell_hex(alloc, told, payload.as_slice());
        }
        _ => tell_stream_frame(alloc, told, frame),
    }
}

// Adds a frame that stands on a stream alone.
fn tell_stream_frame(alloc: Global, told: &mut String, frame: &Frame) {
    match frame {
        Frame::Data {
            stream,
            end_stream,
            data,
        } => {
            say(told, "DATA");
            tell(told, *stream);
            tell(told, *end_stream);
            tell_hex(alloc, told, data.as_slice());
        }
        Frame::Headers {
            stream,
            end_stream,
            end_headers,
            priority,
            field_block_fragment,
        } => {
            say(told, "HEADERS");
            tell(told, *stream);
            tell(told, *end_stream);
            tell(told, *end_headers);
            if let Some(priority) = priority {
                tell_priority(told, priority);
            }
            tell_hex(alloc, told, field_block_fragment.as_slice());
        }
        Frame::Priority { stream, priority } => {
            say(told, "PRIORITY");
            tell(told, *stream);
            tell_priority(told, priority);
        }
        Frame::RstStream { stream, error_code } => {
            say(told, "RST_STREAM");
            tell(told, *stream);
            tell(told, *error_code);
        }
        Frame::PushPromise {
            stream,
            end_headers,
            promised_stream,
            field_block_fragment,
        } => {
            say(told, "PUSH_PROMISE");
            tell(told, *stream);
            tell(told, *end_headers);
            tell(told, *promised_stream);
            tell_hex(alloc, told, field_block_fragment.as_slice());
        }
        Frame::Continuation {
            stream,
            end_headers,
            field_block_fragment,
        } => {
            say(told, "CONTINUATION");
            tell(told, *stream);
            tell(told, *end_headers);
            tell_hex(alloc, told, field_block_fragment.as_slice());
        }
        _ => {}
    }
}

fn tell_code(told: &mut String, code: H2Code) {
    say(told, "code");
    tell(told, code.number());
}

/// Of the bytes of a frame: what the frame is and its bytes as they are written,
/// or the code of the rule that it breaks.
pub fn frame(alloc: Global, hex: &str, told: &mut String) -> Result<(), NoAnswer> {
    let input = bytes(alloc, hex)?;
    let [a, b, c, d, e, f, g, h, i, payload @ ..] = input.as_slice() else {
        return Err(NoAnswer);
    };
    let head = read_head(&[*a, *b, *c, *d, *e, *f, *g, *h, *i]);
    if payload.len() != head.length as usize {
        return Err(NoAnswer);
    }
    match read_payload(alloc, &head, payload) {
        Ok(frame) => {
            tell_frame(alloc, told, &frame);
            let mut written = ByteList::new(alloc);
            write_frame(alloc, &frame, &mut written)?;
            say(told, "written");
            tell_hex(alloc, told, written.as_slice());
        }
        Err(Refusal::For(code)) => tell_code(told, code),
        Err(Refusal::NoMemory) => return Err(NoAnswer),
    }
    Ok(())
}
