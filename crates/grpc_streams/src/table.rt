//! The calls that are open on a connection.
ghost use Rattle.std.specs.Prelude.{◌≡◌, ◌++◌, ◌∷◌, [], OnOk, MatchOption, None};
ghost use Rattle.std.specs.Option.{option_copied};
ghost use Rattle.grpc_streams.specs.Taking.{stream_at, without, IsPlace, TakesOut};

use crate::stream::CallStream;
use list_types::NoMemory;
use std::alloc::Global;
use std::marker::Model;

// Where the stream of a number stands, if a call is open on it.
fn place_of(streams: &[CallStream], number: u32) -> Option<usize>
    ensures { MatchOption result (stream_at number streams.now ≡ None) (λ place. IsPlace number streams.now place) }
{
    for place in 0..streams.len() {
        if streams[place].number == number {
            return Some(place);
        }
    }
    None
}

/// The streams of the calls that are neither answered nor reset; a contract sees the list.
#[derive(Drop)]
pub struct CallStreams {
    items: Vec<CallStream>,
}

impl Model for CallStreams {
    ghost use Rattle.std.specs.Prelude as spec;
    ghost use Rattle.grpc_streams.specs.declared.stream.CallStream.{CallStream};

    ghost Value = { spec.List CallStream };

    ghost view = { λ streams. streams.items.items };
}

impl CallStreams {
    /// No stream. It takes no memory.
    pub fn new(alloc: Global) -> CallStreams
        ensures { result ≡ [] }
    {
        CallStreams {
            items: Vec::new(alloc),
        }
    }

    /// The stream of a number.
    pub fn get(&self, number: u32) -> Option<&CallStream>
        ensures { option_copied result ≡ stream_at number self.now }
    {
        let place = place_of(self.items.as_slice(), number)?;
        Some(&self.items[place])
    }

    /// Takes the stream of a number out.
    pub fn take(&mut self, number: u32) -> Option<CallStream>
        ensures taken { TakesOut number result self.old self.new }
        ensures others { self.new ≡ without number self.old }
    {
        let place = place_of(self.items.as_slice(), number)?;
        Some(self.items.remove(place))
    }

    /// Adds a stream.
    pub fn push(&mut self, stream: CallStream) -> Result<(), NoMemory>
        ensures { OnOk result (self.new ≡ self.old ++ stream ∷ []) }
    {
        self.items.push(stream)?;
        Ok(())
    }
}

/// The calls that are open on a connection.
#[derive(Drop)]
pub struct OpenCalls {
    /// The greatest stream that had headers, or 0.
    pub greatest: u32,
    /// The stream of the open stream channel, of which there is one at most.
    pub channel: Option<u32>,
    pub streams: CallStreams,
}
