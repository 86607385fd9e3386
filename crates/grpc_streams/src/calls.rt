//! The calls on a connection.
ghost use Rattle.std.specs.Prelude.{◌≡◌, Some};
ghost use Rattle.grpc_streams.specs.Taking.{no_calls, Gives};
ghost use Rattle.grpc_streams.specs.Spelling.{reply_spelled, refusal_spelled, end_spelled, message_spelled, channel_of, Spells};

use crate::event::{GrpcEvent, GrpcRefusal};
use crate::spelling::{spell_end, spell_message, spell_refusal, spell_reply};
use crate::table::{CallStreams, OpenCalls};
use crate::taking::take_event;
use h2_conn::{Conn, H2Event};
use list_types::{ByteList, List, NoMemory};
use p4_types::calls::Reply;
use std::alloc::Global;
use std::marker::Model;

/// The calls on a connection. A contract sees those that are open. Where there is no memory for a
/// call, they are lost: each later call finds none either, and of an answer a part may have been
/// sent.
///
/// These calls are given all events that the connection gives, in their order, and what is sent on
/// its streams is sent by them. An event is answered before the next one is given, but for the end
/// of the stream that comes with it. On a stream that was reset, or that this side has ended,
/// nothing is sent.
#[derive(Drop)]
pub struct Calls {
    state: Option<OpenCalls>,
}

impl Model for Calls {
    ghost use Rattle.std.specs.Prelude.{Option};
    ghost use Rattle.grpc_streams.specs.declared.table.OpenCalls.{OpenCalls};

    ghost Value = { Option OpenCalls };

    ghost view = { λ calls. calls.state };
}

impl Calls {
    /// No call. It takes no memory.
    pub fn new(alloc: Global) -> Calls
        ensures { result ≡ Some no_calls }
    {
        Calls {
            state: Some(OpenCalls {
                greatest: 0,
                channel: None,
                streams: CallStreams::new(alloc),
            }),
        }
    }

    /// The stream of the open stream channel. It is not open any more once the peer has ended or
    /// reset it, or an answer has closed it.
    pub fn channel(&self) -> Option<u32>
        ensures { result ≡ channel_of self.now }
    {
        match &self.state {
            None => None,
            Some(calls) => calls.channel,
        }
    }

    /// The next event of the connection: what it gives.
    ///
    /// A request that is no POST of a content type that begins with `application/grpc` is refused
    /// as no request of gRPC; a path that is none of P4Runtime's by UNIMPLEMENTED; a stream channel
    /// beside an open one by FAILED_PRECONDITION. A compressed message is refused by UNIMPLEMENTED
    /// and any other flag by INVALID_ARGUMENT, once the flag has come; one above 8 MiB by
    /// RESOURCE_EXHAUSTED, once its length has. The end of a stream with another number of messages
    /// than one, or inside one, is refused by INVALID_ARGUMENT, but for the channel's, whose last
    /// message is dropped if it is cut off.
    pub fn event(&mut self, alloc: Global, event: H2Event) -> Result<List<GrpcEvent>, NoMemory>
        ensures { Gives result self.old self.new event }
    {
        let Some(mut calls) = self.state.take() else {
            return Err(NoMemory);
        };
        let events = take_event(alloc, &mut calls, event)?;
        self.state = Some(calls);
        Ok(events)
    }

    /// Answers a message on its stream with the code and the messages of a reply. The answer to a
    /// method is headers, a DATA frame a message and trailers, or the headers and trailers of a
    /// failure alone. A reply of OK to a message of the channel sends its messages; any other code
    /// closes the channel. The text of a Status is percent-encoded as `grpc-message`, and a Status
    /// with details stands as `grpc-status-details-bin` in base64 without padding. Of a message's
    /// length the low 32 bits are sent.
    pub fn spell_reply(
        &mut self,
        alloc: Global,
        stream: u32,
        reply: &Reply,
        conn: &mut Conn,
    ) -> Result<(), NoMemory>
        ensures { Spells result self.old conn.old self.new conn.new (reply_spelled stream reply.now.code reply.now.messages) }
    {
        let Some(mut calls) = self.state.take() else {
            return Err(NoMemory);
        };
        spell_reply(
            alloc,
            &mut calls,
            stream,
            reply.code,
            reply.messages.as_slice(),
            conn,
        )?;
        self.state = Some(calls);
        Ok(())
    }

    /// Answers a refusal, or closes the channel by a code: headers and trailers in one, or trailers
    /// alone where a message was sent before; status 415 for what is no request of gRPC.
    pub fn spell_refusal(
        &mut self,
        alloc: Global,
        stream: u32,
        refusal: GrpcRefusal,
        conn: &mut Conn,
    ) -> Result<(), NoMemory>
        ensures { Spells result self.old conn.old self.new conn.new (refusal_spelled stream refusal) }
    {
        let Some(mut calls) = self.state.take() else {
            return Err(NoMemory);
        };
        spell_refusal(alloc, &mut calls, stream, refusal, conn)?;
        self.state = Some(calls);
        Ok(())
    }

    /// Answers a channel that the peer has ended: headers, where no message was sent on it, and the
    /// trailers of OK.
    pub fn spell_end(&mut self, alloc: Global, stream: u32, conn: &mut Conn) -> Result<(), NoMemory>
        ensures { Spells result self.old conn.old self.new conn.new (end_spelled stream) }
    {
        let Some(mut calls) = self.state.take() else {
            return Err(NoMemory);
        };
        spell_end(alloc, &mut calls, stream, conn)?;
        self.state = Some(calls);
        Ok(())
    }

    /// Sends a message on the open channel, with the headers of its answer before the first. Where
    /// no channel is open, nothing is sent.
    pub fn spell_message(
        &mut self,
        alloc: Global,
        message: ByteList,
        conn: &mut Conn,
    ) -> Result<(), NoMemory>
        ensures { Spells result self.old conn.old self.new conn.new (message_spelled message) }
    {
        let Some(mut calls) = self.state.take() else {
            return Err(NoMemory);
        };
        spell_message(alloc, &mut calls, message, conn)?;
        self.state = Some(calls);
        Ok(())
    }
}
