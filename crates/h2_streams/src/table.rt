//! The streams that are kept, by rising numbers.
ghost use Rattle.std.specs.Prelude.{◌≡◌, ◌==◌, ◌&&◌, ◌||◌, ◌<◌, ◌≤◌, ◌++◌, [], ◌∷◌, ℕ, not, true, false, length, Some, None, MatchOption, OnOk, count_by, filter};
ghost use Rattle.std.specs.Option.{option_copied};
ghost use Rattle.std.specs.List.{list_any};
ghost use Rattle.h2_streams.specs.declared.stream.Stream.{Stream};
ghost use Rattle.h2_streams.specs.Streams.{is_too_wide, granted, received, ended_by_peer, reset, queued, is_over, stream_at, changed, IsPlace, open_count, swept, any_too_wide};
ghost use Rattle.h2_streams.specs.Sending.{flushed};

use crate::draining::flush;
use crate::outgoing::Outgoing;
use crate::stream::{Stream, Waiting};
use list_types::NoMemory;
use std::alloc::Global;
use std::marker::Model;

// Where the stream of a number stands, if it is kept.
fn place_of(streams: &[Stream], number: u32) -> Option<usize>
    ensures { MatchOption result (stream_at number streams.now ≡ None) (λ place. IsPlace number streams.now place) }
{
    for place in 0..streams.len() {
        if streams[place].number == number {
            return Some(place);
        }
    }
    None
}

fn sweep(streams: &mut Vec<Stream>)
    ensures { streams.new.items ≡ swept streams.old.items }
{
    streams.retain(|stream| !(stream.peer_ended && stream.ended));
}

fn open_count(streams: &[Stream]) -> usize
    ensures { result ≡ open_count streams.now }
{
    streams.iter().filter(|stream| !stream.ended).count()
}

fn any_too_wide(streams: &[Stream], initial: u32) -> bool
    ensures { result ≡ any_too_wide initial streams.now }
{
    streams
        .iter()
        .any(|stream| !stream.ended && stream.is_too_wide(initial))
}

/// The streams that are kept, by rising numbers; a contract sees the list. A call that names a
/// stream that is not kept changes nothing.
#[derive(Drop)]
pub struct Streams {
    items: Vec<Stream>,
}

impl Model for Streams {
    ghost use Rattle.std.specs.Prelude as spec;
    ghost use Rattle.h2_streams.specs.declared.stream.Stream.{Stream};

    ghost Value = { spec.List Stream };

    ghost view = { λ streams. streams.items.items };
}

impl Streams {
    /// No stream. It takes no memory.
    pub fn new(alloc: Global) -> Streams
        ensures { result ≡ [] }
    {
        Streams {
            items: Vec::new(alloc),
        }
    }

    /// How many are kept.
    pub fn len(&self) -> usize
        ensures { result ≡ length self.now }
    {
        self.items.len()
    }

    /// On how many this side can still send.
    pub fn open_count(&self) -> usize
        ensures { result ≡ open_count self.now }
    {
        open_count(self.items.as_slice())
    }

    /// With this initial size, in bytes, the window of an open stream is above 2^31 - 1.
    pub fn any_too_wide(&self, initial: u32) -> bool
        ensures { result ≡ any_too_wide initial self.now }
    {
        any_too_wide(self.items.as_slice(), initial)
    }

    /// The stream of a number.
    pub fn get(&self, number: u32) -> Option<&Stream>
        ensures { option_copied result ≡ stream_at number self.now }
    {
        let place = place_of(self.items.as_slice(), number)?;
        Some(&self.items[place])
    }

    /// Adds a stream at the end.
    pub fn push(&mut self, stream: Stream) -> Result<(), NoMemory>
        ensures { OnOk result (self.new ≡ self.old ++ stream ∷ []) }
    {
        self.items.push(stream)?;
        Ok(())
    }

    /// A DATA frame of so many bytes came on a stream.
    pub fn receive(&mut self, number: u32, count: u32, end_stream: bool)
        ensures { self.new ≡ changed number (received count end_stream) self.old }
    {
        let Some(place) = place_of(self.items.as_slice(), number) else {
            return;
        };
        let stream = &mut self.items[place];
        stream.receive(count, end_stream);
    }

    /// The peer ends a stream where the flag says so.
    pub fn end_by_peer(&mut self, number: u32, end_stream: bool)
        ensures { self.new ≡ changed number (ended_by_peer end_stream) self.old }
    {
        let Some(place) = place_of(self.items.as_slice(), number) else {
            return;
        };
        let stream = &mut self.items[place];
        stream.end_by_peer(end_stream);
    }

    /// Both sides end a stream.
    pub fn reset(&mut self, number: u32)
        ensures { self.new ≡ changed number reset self.old }
    {
        let Some(place) = place_of(self.items.as_slice(), number) else {
            return;
        };
        let stream = &mut self.items[place];
        stream.reset();
    }

    /// The peer gives a stream so many bytes more.
    pub fn grant(&mut self, number: u32, initial: u32, count: u32)
        requires { (stream : Stream) → stream_at number self.old ≡ Some stream → is_too_wide initial (granted count stream) ≡ false }
        ensures { self.new ≡ changed number (granted count) self.old }
    {
        let Some(place) = place_of(self.items.as_slice(), number) else {
            return;
        };
        let stream = &mut self.items[place];
        stream.grant(initial, count);
    }

    /// This waits on a stream from now on; this side ends the stream with it where the flag says so.
    pub fn queue(&mut self, number: u32, waiting: Waiting, end_stream: bool) -> Result<(), NoMemory>
        ensures { OnOk result (self.new ≡ changed number (queued waiting end_stream) self.old) }
    {
        let Some(place) = place_of(self.items.as_slice(), number) else {
            return Ok(());
        };
        let stream = &mut self.items[place];
        stream.queue(waiting, end_stream)
    }

    /// Lets go of the streams that both sides have ended.
    pub fn sweep(&mut self)
        ensures { self.new ≡ swept self.old }
    {
        sweep(&mut self.items);
    }

    /// Sends what waits, by rising numbers, as far as the windows allow.
    pub fn flush(&mut self, alloc: Global, outgoing: &mut Outgoing) -> Result<(), NoMemory>
        ensures { OnOk result ((outgoing.new, self.new) ≡ flushed outgoing.old self.old) }
    {
        flush(alloc, outgoing, &mut self.items)
    }
}
