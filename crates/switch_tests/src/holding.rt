// A gate that holds turns until others were asked.
use p4_types::tape::Who;
use replay_run::Gate;
use std::sync::atomic::{AtomicBool, Ordering};
use std::thread::{sleep, yield_now};
use std::time::{Clock, Duration};

// How often it is looked whether a turn was asked: so many times at once, and then again after a pause.
const LOOKS: u32 = 100;

const PAUSES: u32 = 100_000;

/// The turn of this number of a lane, from 1.
#[derive(Clone, Copy)]
pub(crate) struct Turn {
    pub(crate) who: Who,
    pub(crate) number: u64,
}

fn is_same(one: Who, other: Who) -> bool {
    match (one, other) {
        (Who::Controller(a), Who::Controller(b)) => a == b,
        (Who::Worker(a), Who::Worker(b)) => a == b,
        _ => false,
    }
}

// A turn that is held until another was asked.
#[derive(Drop)]
struct Hold {
    turn: Turn,
    until: Turn,
    asked: AtomicBool,
}

impl Hold {
    fn new(turn: Turn, until: Turn) -> Hold {
        Hold {
            turn,
            until,
            asked: AtomicBool::new(false),
        }
    }

    fn note(&self, who: Who, number: u64) {
        if number == self.until.number && is_same(who, self.until.who) {
            self.asked.store(true, Ordering::SeqCst);
        }
    }

    fn is_asked(&self) -> bool {
        for _ in 0..LOOKS {
            if self.asked.load(Ordering::SeqCst) {
                return true;
            }
            yield_now();
        }
        false
    }

    // Whether the turn may go on: it is another, or what it is held for was asked.
    fn admits<R: Clock>(&self, rt: &R, who: Who, number: u64) -> bool {
        if number != self.turn.number || !is_same(who, self.turn.who) {
            return true;
        }
        for _ in 0..PAUSES {
            if self.is_asked() {
                return true;
            }
            sleep(rt, Duration::from_micros(1));
        }
        false
    }
}

/// A gate that holds two turns, each until another was asked. After 10,000,000 looks it lets them go.
pub(crate) struct Holding<'a, R: Clock> {
    rt: &'a R,
    first: Hold,
    second: Hold,
    let_go: AtomicBool,
}

// Written out, so that those who let one go need not look into it.
impl<'a, R: Clock> Drop for Holding<'a, R> {
    fn drop(self) {
        let Self {
            rt: _,
            first: _first,
            second: _second,
            let_go: _let_go,
        } = self;
    }
}

impl<'a, R: Clock> Holding<'a, R> {
    pub(crate) fn new(rt: &'a R, first: (Turn, Turn), second: (Turn, Turn)) -> Holding<'a, R> {
        Holding {
            rt,
            first: Hold::new(first.0, first.1),
            second: Hold::new(second.0, second.1),
            let_go: AtomicBool::new(false),
        }
    }

    /// Whether it let a turn go that was to be held.
    pub(crate) fn has_let_go(&self) -> bool {
        self.let_go.load(Ordering::SeqCst)
    }
}

impl<R: Clock> Gate for Holding<'_, R> {
    fn turn(&self, who: Who, number: u64) {
        self.first.note(who, number);
        self.second.note(who, number);
        if !self.first.admits(self.rt, who, number) || !self.second.admits(self.rt, who, number) {
            self.let_go.store(true, Ordering::SeqCst);
        }
    }

    fn holds(&self) -> bool {
        true
    }
}
