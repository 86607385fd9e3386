//! The calls and the connection of a lane, and what is sent on it.
ghost use Rattle.std.specs.Prelude.{◌≡◌, ◌++◌, fold, OnOk, IfOk};
ghost use Rattle.h2_conn.specs.Bytes.{code_of, output_of, without_output};
ghost use Rattle.grpc_streams.specs.Spelling.{reply_spelled, refusal_spelled, end_spelled};
ghost use Rattle.p4rt_service.specs.Serving.{spelled, delivered, noticed, replied, is_open};
ghost use Rattle.p4rt_service.specs.Turns.{opened};

use grpc_streams::{Calls, GrpcRefusal};
use h2_conn::Conn;
use h2_frames::H2Code;
use list_types::{ByteList, NoMemory};
use p4_types::calls::{Notice, Reply};
use p4_types::messages::StreamMessageResponse;
use p4v1_wire::write_message;
use std::alloc::Global;

/// A connection, with the calls on it and the lane that makes them.
#[derive(Drop)]
pub struct Link {
    pub lane: u16,
    pub calls: Calls,
    pub conn: Conn,
}

/// A link on which nothing has come.
pub(crate) fn open_link(alloc: Global, lane: u16) -> Result<Link, NoMemory>
    ensures { IfOk result (λ link. link ≡ opened lane) }
{
    let conn = Conn::new(alloc)?;
    Ok(Link {
        lane,
        calls: Calls::new(alloc),
        conn,
    })
}

/// The stream channel is open.
pub(crate) fn is_open(link: &Link) -> bool
    ensures { result ≡ is_open link.now }
{
    link.calls.channel().is_some()
}

#[tactic(auto, using(crate::proofs::Links::spelled_if_ok))]
fn spell_reply(alloc: Global, link: &mut Link, stream: u32, reply: &Reply) -> Result<(), NoMemory>
    ensures { OnOk result (link.new ≡ spelled (reply_spelled stream reply.now.code reply.now.messages) link.old) }
{
    link.calls.spell_reply(alloc, stream, reply, &mut link.conn)
}

/// Answers a refusal, or closes the channel by a code.
#[tactic(auto, using(crate::proofs::Links::spelled_if_ok))]
pub(crate) fn spell_refusal(
    alloc: Global,
    link: &mut Link,
    stream: u32,
    refusal: GrpcRefusal,
) -> Result<(), NoMemory>
    ensures { OnOk result (link.new ≡ spelled (refusal_spelled stream refusal) link.old) }
{
    link.calls
        .spell_refusal(alloc, stream, refusal, &mut link.conn)
}

/// Answers a channel that the client has ended.
#[tactic(auto, using(crate::proofs::Links::spelled_if_ok))]
pub(crate) fn spell_end(alloc: Global, link: &mut Link, stream: u32) -> Result<(), NoMemory>
    ensures { OnOk result (link.new ≡ spelled (end_spelled stream) link.old) }
{
    link.calls.spell_end(alloc, stream, &mut link.conn)
}

/// Sends a message on the open channel, if there is one.
#[tactic(auto, using(crate::proofs::Links::spelled_if_ok))]
pub(crate) fn deliver(
    alloc: Global,
    link: &mut Link,
    message: &StreamMessageResponse,
) -> Result<(), NoMemory>
    ensures { OnOk result (link.new ≡ delivered message.now link.old) }
{
    let bytes = write_message(alloc, message)?;
    link.calls.spell_message(alloc, bytes, &mut link.conn)
}

// Sends a notice, if it is to this lane.
fn send_notice(alloc: Global, link: &mut Link, notice: &Notice) -> Result<(), NoMemory>
    ensures { OnOk result (link.new ≡ noticed link.old notice.now) }
{
    if notice.lane == link.lane {
        return deliver(alloc, link, &notice.message);
    }
    Ok(())
}

fn send_notices(alloc: Global, link: &mut Link, notices: &[Notice]) -> Result<(), NoMemory>
    ensures { OnOk result (link.new ≡ fold noticed link.old notices.now) }
{
    for notice in notices {
        send_notice(alloc, link, notice)?;
    }
    Ok(())
}

/// Sends a reply on its stream, behind its notices to this lane.
pub(crate) fn send_reply(
    alloc: Global,
    link: &mut Link,
    stream: u32,
    reply: &Reply,
) -> Result<(), NoMemory>
    ensures { OnOk result (link.new ≡ replied stream reply.now link.old) }
{
    send_notices(alloc, link, reply.notices.as_slice())?;
    spell_reply(alloc, link, stream, reply)
}

/// Moves what is to be sent behind what was sent.
pub(crate) fn flush(alloc: Global, link: &mut Link, sent: &mut ByteList) -> Result<(), NoMemory>
    ensures link { link.new ≡ record link.old { conn = without_output link.old.conn } }
    ensures sent { OnOk result (sent.new ≡ sent.old ++ output_of link.old.conn) }
{
    let output = link.conn.take_output(alloc);
    sent.extend_from_slice(output.as_slice())?;
    Ok(())
}

/// The code of the breach that has ended the connection, if one has.
#[tactic(auto, unfolding(h2_conn::specs::Bytes::run))]
pub(crate) fn breach(alloc: Global, link: &mut Link) -> Result<Option<H2Code>, NoMemory>
    ensures link { OnOk result (link.new ≡ link.old) }
    ensures code { IfOk result (λ code. code ≡ code_of link.old.conn) }
{
    let (_, code) = link.conn.feed(alloc, &[])?;
    Ok(code)
}
