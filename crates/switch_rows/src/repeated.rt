//! A row of the whole program over a tape that is made while it is read, so that a long one need not be stored: words between blanks, a
//! front and a record in hex, how often the record comes, and a back in hex. It is answered as a run of the whole program is.
ghost use Rattle.std.specs.Prelude.{◌≡◌, ◌<◌, None, length};
ghost use Rattle.sw_edge.specs.Answers.{Fits, Takes};
ghost use Rattle.sw_edge.specs.Counts.{HasCause, StaysUnless};

use crate::runs::{sink_of, tell_run};
use crate::words::words_of;
use row_lines::{NoAnswer, bytes};
use std::alloc::Global;
use std::sync::Wait;
use std::thread::Threads;
use sw_edge::{Got, Source};

/// A front, a record so often, and a back. A read gives bytes of one of these alone.
#[derive(Drop)]
pub struct RepeatedSource {
    front: Vec<u8>,
    record: Vec<u8>,
    back: Vec<u8>,
    /// How many bytes the records have together.
    repeated: usize,
    /// How many bytes were given.
    given: usize,
    ends: u64,
}

impl RepeatedSource {
    /// A front and a record in hex, how often the record comes, and a back in hex.
    pub fn of(alloc: Global, parts: &[&str]) -> Result<RepeatedSource, NoAnswer> {
        let [front, record, count, back] = parts else {
            return Err(NoAnswer);
        };
        let count = count.parse::<usize>()?;
        let record = bytes(alloc, record)?;
        let Some(repeated) = record.len().checked_mul(count) else {
            return Err(NoAnswer);
        };
        Ok(RepeatedSource {
            front: bytes(alloc, front)?,
            record,
            back: bytes(alloc, back)?,
            repeated,
            given: 0,
            ends: 0,
        })
    }

    // What is left of the part that is being read; nothing at the end.
    fn left(&self) -> &[u8] {
        let front = self.front.len();
        if self.given < front {
            return rest_of(&self.front, self.given);
        }
        let behind = self.given - front;
        if behind < self.repeated {
            let place = behind.checked_rem(self.record.len()).unwrap_or(0);
            return rest_of(&self.record, place);
        }
        rest_of(&self.back, behind - self.repeated)
    }
}

// The bytes from this place on.
fn rest_of(bytes: &[u8], place: usize) -> &[u8] {
    if place < bytes.len() {
        &bytes[place..]
    } else {
        &[]
    }
}

impl Source for RepeatedSource {
    // It does not tell what is left.
    ghost left = { λ _. None };

    ghost faults = { λ _. 0 };

    ghost ends = { λ s. s.ends };

    fn read(&mut self, buf: &mut [u8]) -> Got
        requires { 0 < length buf.old }
        ensures fits { Fits result buf.new }
        ensures takes { Takes None None result buf.new }
        ensures failed { HasCause 0 0 (result ≡ Got.Failed) }
        ensures no_fault { StaysUnless 0 0 (result ≡ Got.Failed) }
        ensures end { HasCause self.old.ends self.new.ends (result ≡ Got.End) }
        ensures no_end { StaysUnless self.old.ends self.new.ends (result ≡ Got.End) }
    {
        let left = self.left();
        let count = left.len().min(buf.len());
        if count == 0 {
            self.ends = self.ends.saturating_add(1);
            return Got::End;
        }
        buf[..count].copy_from_slice(&left[..count]);
        self.given = self.given.saturating_add(count);
        Got::Bytes(count)
    }
}

/// Answers a row.
pub fn answer<T: Threads + Wait + Sync>(
    rt: &T,
    alloc: Global,
    asked: &[&str],
    told: &mut String,
) -> Result<(), NoAnswer> {
    let [words, parts @ ..] = asked else {
        return Err(NoAnswer);
    };
    let words = words_of(alloc, words)?;
    let mut source = RepeatedSource::of(alloc, parts)?;
    let mut out = sink_of(alloc, 65_536, "")?;
    tell_run(rt, alloc, &words, &mut source, &mut out, told)?;
    Ok(())
}
