//! A connection with the bytes of a frame that is not whole.
ghost use Rattle.std.specs.Prelude.{◌≡◌, ◌≤◌, ◌<◌, ◌++◌, [], length, take, drop, MatchOption, OnOk, IfOk, Some, None};
ghost use Rattle.h2_frames.specs.Reading.{head_at};
ghost use Rattle.h2_streams.specs.Streams.{stream_at};
ghost use Rattle.h2_conn.specs.Bytes.{bytes_taken, IsTurn, Settles};
ghost use Rattle.h2_conn.specs.Continuations.{payload_of, with_continuation, GoesOn, IsInOrder};
ghost use Rattle.h2_conn.specs.Sends.{queued_on};

use crate::breach::Breach;
use crate::bytes::{MAX_LENGTH, take_alone, take_kept};
use crate::event::{Given, nothing};
use crate::headers::take_fragment;
use crate::placing::breaks_block;
use crate::sending::queue;
use crate::state::{HeaderBlock, State};
use crate::unread::Unread;
use h2_frames::{Head, ends_headers};
use h2_streams::Waiting;
use list_types::{ByteList, NoMemory, Refusal};
use std::alloc::Global;
use std::marker::Model;

/// A CONTINUATION frame that is not whole. What has come of its payload stands behind the header block
/// that it goes on with, in the buffer of the block.
#[derive(Drop)]
pub struct PartialContinuation {
    pub head: Head,
    /// The header block, and the payload behind it.
    pub block: HeaderBlock,
    /// How many bytes the header block has without it.
    pub before: usize,
}

// The unread bytes are the head of CONTINUATION that goes on with the header block: the connection lends
// the block.
fn begin(conn: &mut State) -> Option<PartialContinuation>
    ensures same { with_continuation result conn.new ≡ conn.old }
    ensures begins { IsInOrder result conn.new }
{
    let Some(head) = conn.unread.head() else {
        return None;
    };
    if !conn.greeted || !conn.settled || conn.unread.len() != 9 {
        return None;
    }
    if head.kind != 9 || head.stream == 0 || head.length == 0 || head.length > MAX_LENGTH {
        return None;
    }
    if breaks_block(&head, &conn.block) {
        return None;
    }
    let Some(block) = conn.block.take() else {
        return None;
    };
    let before = block.fragment.len();
    Some(PartialContinuation {
        head,
        block,
        before,
    })
}

fn payload_len(continuation: &PartialContinuation) -> usize
    requires { continuation.now.before ≤ length continuation.now.block.fragment }
    ensures { result ≡ length (payload_of continuation.now) }
{
    continuation.block.fragment.len() - continuation.before
}

// A CONTINUATION frame that is whole.
fn take_continuation(
    alloc: Global,
    conn: &mut State,
    continuation: PartialContinuation,
) -> Result<Given, Refusal<Breach>>
    requires goes_on { GoesOn continuation conn.old }
    requires whole { length (payload_of continuation) ≡ continuation.head.length }
    ensures { Settles result (with_continuation (Some continuation) conn.old) conn.new (bytes_taken (with_continuation (Some continuation) conn.old).unread (with_continuation (Some continuation) conn.old)) }
{
    let PartialContinuation { head, block, .. } = continuation;
    let last_stream = conn.greatest;
    conn.unread = Unread::new(alloc);
    match take_fragment(alloc, conn, ends_headers(&head), block) {
        Ok(given) => Ok(given),
        Err(Refusal::NoMemory) => Err(Refusal::NoMemory),
        Err(Refusal::For(code)) => Err(Refusal::For(Breach { code, last_stream })),
    }
}

/// A connection that no breach has ended. While CONTINUATION comes in pieces, its header block is lent
/// to that frame, whose payload so is not copied once more; a contract sees these bytes among the unread
/// ones.
#[derive(Drop)]
pub struct Receiver {
    state: State,
    continuation: Option<PartialContinuation>,
}

impl Model for Receiver {
    ghost use Rattle.h2_conn.specs.declared.state.State.{State};
    ghost use Rattle.h2_conn.specs.Continuations.{with_continuation, IsInOrder};

    ghost Value = { State };

    ghost view = { λ receiver. with_continuation receiver.continuation receiver.state };

    ghost invariant = { λ receiver. IsInOrder receiver.continuation receiver.state };
}

impl Receiver {
    /// A receiver that goes on from a state, with nothing read of the next frame.
    pub fn new(state: State) -> Receiver
        ensures { result ≡ state }
    {
        Receiver {
            state,
            continuation: None,
        }
    }

    /// The preface is whole.
    pub fn greeted(&self) -> bool
        ensures { result ≡ self.now.greeted }
    {
        self.state.greeted
    }

    /// The head of the frame that is not whole, if it has come.
    pub fn head(&self) -> Option<Head>
        ensures { MatchOption result (length self.now.unread < 9) (λ head. (9 ≤ length self.now.unread) × (head ≡ head_at (take 9 self.now.unread))) }
    {
        match &self.continuation {
            Some(continuation) => Some(continuation.head),
            None => self.state.unread.head(),
        }
    }

    /// How many bytes are unread.
    pub fn unread_len(&self) -> usize
        ensures { result ≡ length self.now.unread }
    {
        match &self.continuation {
            Some(continuation) => {
                9 + (continuation.block.fragment.as_slice().len() - continuation.before)
            }
            None => self.state.unread.len(),
        }
    }

    // More bytes of the frame that is not whole.
    fn take_more(&mut self, alloc: Global, front: &[u8]) -> Result<Given, Refusal<Breach>>
        requires { IsTurn self.old.greeted (self.old.unread ++ front.now) (length front.now) }
        ensures { Settles result self.old self.new (bytes_taken (self.old.unread ++ front.now) self.old) }
    {
        let Some(mut continuation) = self.continuation.take() else {
            self.state.unread.extend_from_slice(front)?;
            return take_kept(alloc, &mut self.state);
        };
        continuation.block.fragment.extend_from_slice(front)?;
        if payload_len(&continuation) < continuation.head.length as usize {
            self.continuation = Some(continuation);
            return Ok(nothing());
        }
        take_continuation(alloc, &mut self.state, continuation)
    }

    // Gathers what comes of a CONTINUATION frame behind its header block from now on.
    fn lend_block(&mut self)
        ensures { self.new ≡ self.old }
    {
        if self.continuation.is_none() {
            self.continuation = begin(&mut self.state);
        }
    }

    /// The front of a piece; a frame that is whole in it is not kept.
    pub(crate) fn take_front(
        &mut self,
        alloc: Global,
        front: &[u8],
    ) -> Result<Given, Refusal<Breach>>
        requires { IsTurn self.old.greeted (self.old.unread ++ front.now) (length front.now) }
        ensures { Settles result self.old self.new (bytes_taken (self.old.unread ++ front.now) self.old) }
    {
        if self.continuation.is_none() && self.state.greeted && self.state.unread.is_empty() {
            return take_alone(alloc, &mut self.state, front);
        }
        self.lend_block();
        self.take_more(alloc, front)
    }

    /// This goes out on a stream as far as the windows allow, behind what waits there.
    pub fn queue(
        self,
        alloc: Global,
        number: u32,
        waiting: Waiting,
        end_stream: bool,
    ) -> Result<Receiver, NoMemory>
        ensures { IfOk result (λ next. next ≡ queued_on (stream_at number self.streams) number waiting end_stream self) }
    {
        let Receiver {
            state,
            continuation,
        } = self;
        let state = queue(alloc, state, number, waiting, end_stream)?;
        Ok(Receiver {
            state,
            continuation,
        })
    }

    /// Takes the bytes that are to be sent.
    pub fn take_output(&mut self, alloc: Global) -> ByteList
        ensures taken { result ≡ self.old.outgoing.output }
        ensures left { self.new ≡ record self.old { outgoing = record self.old.outgoing { output = [] } } }
    {
        self.state.outgoing.take_output(alloc)
    }
}
