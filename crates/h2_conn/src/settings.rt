//! SETTINGS, WINDOW_UPDATE and PING.
ghost use Rattle.std.specs.Prelude.{◌≡◌, ◌+◌, ◌<◌, ◌^◌, [], ◌∷◌, OnOk, IfErr, Ok, Err, true};
ghost use Rattle.h2_frames.specs.declared.frame.Frame.TheVariants as frames;
ghost use Rattle.h2_streams.specs.Streams.{stream_at};
ghost use Rattle.h2_conn.specs.Frames.{Takes, answering, flushing, setting_taken, settings_in_order, settings_taken, connection_granted, stream_granted, ping_taken};

use crate::event::{Given, nothing};
use crate::state::State;
use h2_frames::{Frame, H2Code, Setting};
use list_types::{List, NoMemory, Refusal};
use std::alloc::Global;

const FLOW_CONTROL: Refusal<H2Code> = Refusal::For(H2Code::FlowControlError);

/// What waits goes out as far as the windows allow.
pub(crate) fn flush(alloc: Global, conn: &mut State) -> Result<(), NoMemory>
    ensures { OnOk result (conn.new ≡ flushing conn.old) }
{
    conn.streams.flush(alloc, &mut conn.outgoing)?;
    conn.streams.sweep();
    Ok(())
}

#[tactic(auto, unfolding(crate::specs::Frames::setting_taken))]
fn take_setting(conn: &mut State, setting: &Setting) -> Result<(), H2Code>
    ensures ok { OnOk result (setting_taken setting.now conn.old ≡ Ok conn.new) }
    ensures err { IfErr result (λ code. setting_taken setting.now conn.old ≡ Err code) }
    ensures output { conn.new.outgoing.output ≡ conn.old.outgoing.output }
{
    match setting.identifier {
        Setting::HEADER_TABLE_SIZE => conn.outgoing.set_table_size(setting.value),
        Setting::INITIAL_WINDOW_SIZE => {
            if conn.streams.any_too_wide(setting.value) {
                return Err(H2Code::FlowControlError);
            }
            conn.outgoing.set_initial_window(setting.value);
        }
        Setting::MAX_FRAME_SIZE => {
            if setting.value < 16_384 || setting.value > 16_777_215 {
                return Err(H2Code::ProtocolError);
            }
            conn.outgoing.set_max_frame(setting.value);
        }
        _ => (),
    }
    Ok(())
}

fn take_settings(conn: &mut State, settings: &[Setting]) -> Result<(), H2Code>
    ensures ok { OnOk result (settings_in_order settings.now conn.old ≡ Ok conn.new) }
    ensures err { IfErr result (λ code. settings_in_order settings.now conn.old ≡ Err code) }
    ensures output { conn.new.outgoing.output ≡ conn.old.outgoing.output }
{
    for setting in settings {
        take_setting(conn, setting)?;
    }
    Ok(())
}

fn answer(alloc: Global, conn: &mut State) -> Result<(), NoMemory>
    ensures { OnOk result (conn.new ≡ flushing (answering (frames.Settings true [] ∷ []) conn.old)) }
{
    let ack = Frame::Settings {
        ack: true,
        settings: List::new(alloc),
    };
    conn.outgoing.send_frame(alloc, &ack)?;
    flush(alloc, conn)
}

#[tactic(auto, unfolding(crate::specs::Frames::settings_taken))]
pub(crate) fn settings(
    alloc: Global,
    conn: &mut State,
    ack: bool,
    settings: &[Setting],
) -> Result<Given, Refusal<H2Code>>
    ensures { Takes result conn.old conn.new (settings_taken ack settings.now conn.old) }
{
    conn.settled = true;
    if ack {
        return Ok(nothing());
    }
    if let Err(code) = take_settings(conn, settings) {
        return Err(Refusal::For(code));
    }
    answer(alloc, conn)?;
    Ok(nothing())
}

#[tactic(auto, unfolding(crate::specs::Frames::connection_granted))]
pub(crate) fn grant_connection(
    alloc: Global,
    conn: &mut State,
    count: u32,
) -> Result<Given, Refusal<H2Code>>
    ensures { Takes result conn.old conn.new (connection_granted count conn.old) }
{
    if let Err(code) = conn.outgoing.grant(count) {
        return Err(Refusal::For(code));
    }
    flush(alloc, conn)?;
    Ok(nothing())
}

#[tactic(auto, unfolding(crate::specs::Frames::stream_granted))]
pub(crate) fn grant_stream(
    alloc: Global,
    conn: &mut State,
    number: u32,
    count: u32,
) -> Result<Given, Refusal<H2Code>>
    ensures { Takes result conn.old conn.new (stream_granted number count conn.old (stream_at number conn.old.streams)) }
{
    let initial = conn.outgoing.initial_window();
    let Some(stream) = conn.streams.get(number) else {
        return Ok(nothing());
    };
    if stream.ended {
        return Ok(nothing());
    }
    if stream.is_too_wide_with(initial, count) {
        return Err(FLOW_CONTROL);
    }
    conn.streams.grant(number, initial, count);
    flush(alloc, conn)?;
    Ok(nothing())
}

pub(crate) fn ping(
    alloc: Global,
    conn: &mut State,
    ack: bool,
    opaque_data: u64,
) -> Result<(), NoMemory>
    ensures { OnOk result (conn.new ≡ ping_taken ack opaque_data conn.old) }
{
    if ack {
        return Ok(());
    }
    let answer = Frame::Ping {
        ack: true,
        opaque_data,
    };
    conn.outgoing.send_frame(alloc, &answer)
}
