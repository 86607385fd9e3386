// Links that wait for one another.
ghost use Rattle.std.specs.Prelude.{◌≡◌, ◌<◌, ◌≤◌, None, length};
ghost use Rattle.sw_edge.specs.Answers.{PullFits};
ghost use Rattle.sw_edge.specs.Counts.{HasCause, StaysUnless};

use crate::counts::raise;
use crate::stage::{PATIENCE, Place, Stage};
use std::sync::Wait;
use std::thread::yield_now;
use sw_edge::{Link, Pulled, Sent};

/// What a link gives, once at least so many bytes were sent at the other place; it ends once at least so many were, and once so many
/// links were let go.
#[derive(Clone, Copy)]
pub struct Script<'a> {
    pub bytes: &'a [u8],
    pub before: usize,
    pub until: usize,
    pub gone: u64,
}

/// A link that waits for what is sent at another place.
pub struct WaitingLink<'a, W> {
    rt: &'a W,
    stage: &'a Stage,
    own: &'a Place,
    other: &'a Place,
    script: Script<'a>,
    faults: u64,
    quiets: u64,
    ends: u64,
}

// It notes that it is let go.
impl<'a, W> Drop for WaitingLink<'a, W> {
    fn drop(self) {
        self.stage.let_go();
        let Self {
            rt: _,
            stage: _,
            own: _,
            other: _,
            script: _,
            faults: _,
            quiets: _,
            ends: _,
        } = self;
    }
}

impl<'a, W> WaitingLink<'a, W> {
    /// A link that waits on the stage for its own place, and lets the other go on.
    pub fn new(
        rt: &'a W,
        stage: &'a Stage,
        own: &'a Place,
        other: &'a Place,
        script: Script<'a>,
    ) -> WaitingLink<'a, W> {
        WaitingLink {
            rt,
            stage,
            own,
            other,
            script,
            faults: 0,
            quiets: 0,
            ends: 0,
        }
    }

    fn waits(&self) -> bool {
        let (length, gone) = if self.script.bytes.is_empty() {
            (self.script.until, self.script.gone)
        } else {
            (self.script.before, 0)
        };
        if self.other.length() >= length && self.stage.gone() >= gone {
            return false;
        }
        if self.quiets < PATIENCE {
            return true;
        }
        self.stage.give_up();
        false
    }

    // Moves bytes into the front of the buffer, and says how many.
    fn give(&mut self, buf: &mut [u8]) -> usize
        requires { 0 < length buf.old }
        ensures fits { result ≤ length buf.new }
        ensures length { length buf.new ≡ length buf.old }
        ensures faults { self.new.faults ≡ self.old.faults }
        ensures quiets { self.new.quiets ≡ self.old.quiets }
        ensures ends { self.new.ends ≡ self.old.ends }
    {
        let count = self.script.bytes.len().min(buf.len());
        let (front, rest) = self.script.bytes.split_at(count);
        buf[..count].copy_from_slice(front);
        self.script.bytes = rest;
        count
    }
}

impl<'a, W: Wait> Link for WaitingLink<'a, W> {
    ghost left = { λ _. None };

    ghost sent = { λ _. None };

    ghost faults = { λ l. l.faults };

    ghost quiets = { λ l. l.quiets };

    ghost ends = { λ l. l.ends };

    fn pull(&mut self, buf: &mut [u8]) -> Pulled {
        if self.waits() {
            yield_now();
            raise(&mut self.quiets);
            return Pulled::Quiet;
        }
        match self.give(buf) {
            0 => {
                raise(&mut self.ends);
                Pulled::End
            }
            count => Pulled::Bytes(count),
        }
    }

    fn push(&mut self, bytes: &[u8]) -> Sent {
        match self.own.note(self.rt, bytes) {
            Ok(()) => Sent::All,
            Err(_) => {
                raise(&mut self.faults);
                Sent::Failed
            }
        }
    }
}
