//! Links that end or fail at a place.
ghost use Rattle.std.specs.Prelude.{◌≡◌, ◌<◌, ◌≤◌, None, length};
ghost use Rattle.sw_edge.specs.Answers.{PullFits, Pulls, Sends};
ghost use Rattle.sw_edge.specs.Counts.{HasCause, StaysUnless};
ghost use Rattle.sw_edge.specs.Told.{Keeps};

use crate::stage::Stage;
use link_loop::LinkEnd;
use row_lines::{NoAnswer, bytes, say};
use std::alloc::Global;
use sw_edge::{Link, Pulled, Sent};

// How a link goes: it ends behind so many bytes, or fails there, or it gives all of its bytes one by one and fails at this push, from 0.
#[derive(Clone, Copy)]
enum Way {
    End(usize),
    Fault(usize),
    Push(u64),
}

/// A link that gives bytes and takes what is pushed.
#[derive(Drop)]
pub struct CutLink {
    bytes: Vec<u8>,
    way: Way,
    /// How many bytes were given.
    given: usize,
    pushes: u64,
    faults: u64,
    ends: u64,
}

impl CutLink {
    fn new(bytes: Vec<u8>, way: Way) -> CutLink {
        CutLink {
            bytes,
            way,
            given: 0,
            pushes: 0,
            faults: 0,
            ends: 0,
        }
    }

    // The bytes that it gives next; none behind the last.
    fn coming(&self) -> &[u8] {
        let (last, piece) = match self.way {
            Way::End(last) | Way::Fault(last) => (last, usize::MAX),
            Way::Push(_) => (usize::MAX, 1),
        };
        let last = last.min(self.bytes.len());
        if self.given >= last {
            return &[];
        }
        let count = piece.min(last - self.given);
        &self.bytes[self.given..self.given + count]
    }

    fn fails_behind(&self) -> bool {
        matches!(self.way, Way::Fault(_))
    }

    fn next_push_fails(&self) -> bool {
        match self.way {
            Way::Push(failing) => failing == self.pushes,
            Way::End(_) | Way::Fault(_) => false,
        }
    }
}

impl Link for CutLink {
    // It tells neither what is left nor what was pushed.
    ghost left = { λ _. None };

    ghost sent = { λ _. None };

    ghost faults = { λ l. l.faults };

    ghost quiets = { λ _. 0 };

    ghost ends = { λ l. l.ends };

    fn pull(&mut self, buf: &mut [u8]) -> Pulled {
        let coming = self.coming();
        let count = coming.len().min(buf.len());
        if count > 0 {
            buf[..count].copy_from_slice(&coming[..count]);
            self.given = self.given.saturating_add(count);
            return Pulled::Bytes(count);
        }
        if self.fails_behind() {
            self.faults = self.faults.saturating_add(1);
            return Pulled::Failed;
        }
        self.ends = self.ends.saturating_add(1);
        Pulled::End
    }

    fn push(&mut self, _bytes: &[u8]) -> Sent {
        let fails = self.next_push_fails();
        self.pushes = self.pushes.saturating_add(1);
        if fails {
            self.faults = self.faults.saturating_add(1);
            return Sent::Failed;
        }
        Sent::All
    }
}

fn way_of(words: &[&str]) -> Result<Way, NoAnswer> {
    match words {
        [] => Ok(Way::End(usize::MAX)),
        ["end", count] => Ok(Way::End(count.parse::<usize>()?)),
        ["fault", count] => Ok(Way::Fault(count.parse::<usize>()?)),
        ["push", count] => Ok(Way::Push(count.parse::<u64>()?)),
        _ => Err(NoAnswer),
    }
}

fn end_in_words(end: LinkEnd) -> &'static str {
    match end {
        LinkEnd::Closed => "closed",
        LinkEnd::Fault => "fault",
        LinkEnd::Refused(_) => "refused",
        LinkEnd::Memory => "memory",
        LinkEnd::Quiet => "quiet",
    }
}

/// A lane's link to its end, which is told.
pub fn link<S: Stage>(
    alloc: Global,
    stage: &mut S,
    words: &[&str],
    told: &mut String,
) -> Result<(), NoAnswer> {
    let [lane, word, way @ ..] = words else {
        return Err(NoAnswer);
    };
    let way = way_of(way)?;
    let mut link = CutLink::new(bytes(alloc, word)?, way);
    let Some(end) = stage.serve(alloc, lane.parse::<usize>()?, &mut link) else {
        return Err(NoAnswer);
    };
    say(told, end_in_words(end));
    Ok(())
}
