//! The service of a lane.
ghost use Rattle.std.specs.Prelude.{◌≡◌, IfOk};
ghost use Rattle.p4rt_service.specs.Dialogues.{Notes};
ghost use Rattle.h2_conn.specs.Bytes.{code_of};
ghost use Rattle.p4rt_service.specs.Turns.{Served, opened, overflowed, untold, message_served, turn_served, NotesSent, TakesLink, Serves, Delivers, sent_of, breach_of, is_to_leave};
ghost use Rattle.p4rt_service.specs.Turns.{Piece, Overflow};
ghost use Rattle.p4rt_service.specs.declared.link.Link as declared;
ghost use Rattle.p4rt_service.specs.declared.standing.Standing.TheVariants as standings;

use crate::answering::leave_where;
use crate::bytes::serve_piece;
use crate::desk::Desk;
use crate::link::{Link, breach, deliver, flush, is_open, open_link, spell_refusal};
use crate::standing::Standing;
use grpc_streams::GrpcRefusal;
use h2_frames::H2Code;
use list_types::{ByteList, NoMemory};
use p4_types::code::Code;
use p4_types::messages::StreamMessageResponse;
use std::alloc::Global;
use std::marker::Model;

// Closes the open channel, if there is one, by RESOURCE_EXHAUSTED.
fn close_for_room<D: Desk>(
    alloc: Global,
    link: &mut Link,
    desk: &D,
    pass: &mut D::Pass,
    due: &mut bool,
) -> Result<(), NoMemory>
    requires { D.is_of desk.now pass.old }
    ensures of { D.is_of desk.now pass.new }
    ensures held { Notes D.answers pass.old pass.new due.old due.new result (overflowed link.old) link.new }
{
    let code = breach(alloc, link)?;
    let (Some(stream), None) = (link.calls.channel(), code) else {
        return Ok(());
    };
    spell_refusal(
        alloc,
        link,
        stream,
        GrpcRefusal::Status(Code::ResourceExhausted),
    )?;
    leave_where(alloc, true, link, desk, pass, due);
    Ok(())
}

// A piece, what is sent, and the code of the breach that has ended the connection, if one has.
fn feed_link<D: Desk>(
    alloc: Global,
    piece: &[u8],
    link: &mut Link,
    desk: &D,
    pass: &mut D::Pass,
    due: &mut bool,
) -> Result<(ByteList, Option<H2Code>), NoMemory>
    requires { D.is_of desk.now pass.old }
    ensures of { D.is_of desk.now pass.new }
    ensures held { NotesSent D.answers pass.old pass.new due.old due.new (sent_of result) (turn_served (Piece piece.now) (untold link.old)) link.new }
    ensures code { IfOk result (λ x. x.1 ≡ code_of link.new.conn) }
{
    let mut sent = ByteList::new(alloc);
    serve_piece(alloc, piece, link, &mut sent, desk, pass, due)?;
    let code = breach(alloc, link)?;
    Ok((sent, code))
}

// More waits than may, and what is sent.
fn overflow_link<D: Desk>(
    alloc: Global,
    link: &mut Link,
    desk: &D,
    pass: &mut D::Pass,
    due: &mut bool,
) -> Result<ByteList, NoMemory>
    requires { D.is_of desk.now pass.old }
    ensures of { D.is_of desk.now pass.new }
    ensures held { NotesSent D.answers pass.old pass.new due.old due.new result (turn_served Overflow (untold link.old)) link.new }
{
    close_for_room(alloc, link, desk, pass, due)?;
    let mut sent = ByteList::new(alloc);
    flush(alloc, link, &mut sent)?;
    Ok(sent)
}

// A message for the channel, and what is sent.
fn deliver_on(
    alloc: Global,
    message: &StreamMessageResponse,
    link: &mut Link,
) -> Result<ByteList, NoMemory>
    ensures { IfOk result (λ sent. ◌≡◌ {A = Served} (record { link = link.new; sent = sent }) (message_served message.now (untold link.old))) }
{
    deliver(alloc, link, message)?;
    let mut sent = ByteList::new(alloc);
    flush(alloc, link, &mut sent)?;
    Ok(sent)
}

/// P4Runtime for the client of one lane, over its connection. A contract sees the link that it serves. Where there is no
/// memory for a call, the link is lost: each later call finds none either, and of the calls of a desk that it would have
/// made the first may have been made. Then too `has_channel` tells whether the controller is still to leave.
pub struct Service {
    standing: Standing,
}

impl Model for Service {
    ghost use Rattle.p4rt_service.specs.declared.standing.Standing.{Standing};

    ghost Value = { Standing };

    ghost view = { λ service. service.standing };
}

// Written out, so that those who let one go need not look into it.
impl Drop for Service {
    fn drop(self) {
        let Self {
            standing: _standing,
        } = self;
    }
}

impl Service {
    /// The service of a pass's lane of which nothing has come. The server's SETTINGS are what is sent first.
    pub fn open<D: Desk>(alloc: Global, desk: &D, pass: &D::Pass) -> Result<Service, NoMemory>
        ensures { IfOk result (λ service. service ≡ standings.Serving (opened (D.lane_of pass.now))) }
    {
        let link = open_link(alloc, desk.lane(pass))?;
        Ok(Service {
            standing: Standing::Serving(link),
        })
    }

    // The link, which is lost until it is put back.
    fn take(&mut self) -> Option<Link>
        ensures { TakesLink result self.old self.new }
    {
        match std::mem::replace(&mut self.standing, Standing::Lost { is_to_leave: false }) {
            Standing::Serving(link) => Some(link),
            Standing::Lost { is_to_leave } => {
                self.standing = Standing::Lost { is_to_leave };
                None
            }
        }
    }

    /// The next bytes of the client, however they are cut: what is to be sent by now, and the code of the breach that has
    /// ended the connection, if one has. Calls are made of the desk where the bytes that make them are whole, and each is
    /// answered before a later byte is read. No bytes give what is to be sent before any is read.
    #[tactic(auto, using(crate::proofs::Services::served_whole, crate::proofs::Services::served_short, crate::proofs::Services::served_none))]
    pub fn feed<D: Desk>(
        &mut self,
        alloc: Global,
        desk: &D,
        pass: &mut D::Pass,
        piece: &[u8],
    ) -> Result<(ByteList, Option<H2Code>), NoMemory>
        requires { D.is_of desk.now pass.old }
        ensures of { D.is_of desk.now pass.new }
        ensures served { Serves D.answers pass.old pass.new (sent_of result) self.old self.new (Piece piece.now) }
        ensures code { IfOk result (λ x. x.1 ≡ breach_of self.new) }
    {
        let Some(mut link) = self.take() else {
            return Err(NoMemory);
        };
        let mut due = is_open(&link);
        match feed_link(alloc, piece, &mut link, desk, pass, &mut due) {
            Ok(served) => {
                self.standing = Standing::Serving(link);
                Ok(served)
            }
            Err(NoMemory) => {
                self.standing = Standing::Lost { is_to_leave: due };
                Err(NoMemory)
            }
        }
    }

    /// Sends a message on the stream channel: what is to be sent by now. Where no channel is open, or a breach has ended the
    /// connection, the message is not sent.
    #[tactic(auto, using(crate::proofs::Services::delivered_whole, crate::proofs::Services::delivered_short, crate::proofs::Services::delivered_none))]
    pub fn deliver(
        &mut self,
        alloc: Global,
        message: &StreamMessageResponse,
    ) -> Result<ByteList, NoMemory>
        ensures { Delivers result self.old self.new message.now }
    {
        let Some(mut link) = self.take() else {
            return Err(NoMemory);
        };
        let due = is_open(&link);
        match deliver_on(alloc, message, &mut link) {
            Ok(sent) => {
                self.standing = Standing::Serving(link);
                Ok(sent)
            }
            Err(NoMemory) => {
                self.standing = Standing::Lost { is_to_leave: due };
                Err(NoMemory)
            }
        }
    }

    /// More waits for the client than may: an open channel is closed by RESOURCE_EXHAUSTED, and the controller leaves.
    /// What is to be sent by now. Where no channel is open, or a breach has ended the connection, nothing is done.
    #[tactic(auto, using(crate::proofs::Services::served_whole, crate::proofs::Services::served_short, crate::proofs::Services::served_none))]
    pub fn overflow<D: Desk>(
        &mut self,
        alloc: Global,
        desk: &D,
        pass: &mut D::Pass,
    ) -> Result<ByteList, NoMemory>
        requires { D.is_of desk.now pass.old }
        ensures of { D.is_of desk.now pass.new }
        ensures served { Serves D.answers pass.old pass.new result self.old self.new Overflow }
    {
        let Some(mut link) = self.take() else {
            return Err(NoMemory);
        };
        let mut due = is_open(&link);
        match overflow_link(alloc, &mut link, desk, pass, &mut due) {
            Ok(sent) => {
                self.standing = Standing::Serving(link);
                Ok(sent)
            }
            Err(NoMemory) => {
                self.standing = Standing::Lost { is_to_leave: due };
                Err(NoMemory)
            }
        }
    }

    /// The controller is still to leave once the client's bytes have ended: the stream channel is open, or was where memory
    /// was missing.
    pub fn has_channel(&self) -> bool
        ensures { result ≡ is_to_leave self.now }
    {
        match &self.standing {
            Standing::Lost { is_to_leave } => *is_to_leave,
            Standing::Serving(link) => is_open(link),
        }
    }
}
