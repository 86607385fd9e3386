//! A run whose lanes may bring bytes: what speaks in it.
ghost use Rattle.std.specs.Prelude.{◌≡◌, ◌<◌, false, true, OnOk, IfOk};
ghost use Rattle.run_spec.specs.Play.{begun, played_report};
ghost use Rattle.run_spec.specs.Tape.{IsRecord};
ghost use Rattle.lockstep_run.specs.Session.{played_of, with_sent};
ghost use Rattle.lockstep_run.specs.Speaking.{SpeaksOrNot, GivesNone, MayGoOn, GoesOn, Takes, Feeds};

use crate::session::Session;
use byte_lanes::ByteLane;
use list_types::{ByteList, List, NoMemory};
use p4_types::calls::{Call, Reply};
use p4_types::code::Code;
use p4_types::events::Start;
use p4_types::journal::{Entry, Report};
use p4_types::tape::TapeRecord;
use p4rt_service::{Desk, Next};
use std::alloc::Global;
use std::marker::Model;

/// The run so far, and the lane whose bytes are read.
#[derive(Drop)]
pub struct Speaker {
    session: Session,
    lane: u16,
    is_short: bool,
}

impl Model for Speaker {
    ghost use Rattle.lockstep_run.specs.Speaking.{Speaking};
    ghost use Rattle.bm_expr.specs.TreeCode.{number_code, truth_code};
    ghost use Rattle.std.specs.Coded.{codes};

    ghost coded = { Prim.hlevel (codes, number_code, truth_code) };

    ghost Value = { Speaking };

    ghost view = { λ s. record { session = s.session; lane = s.lane; is_short = s.is_short } };
}

/// What answers the calls that lanes' bytes make, each in its turn.
#[derive(Clone, Copy)]
pub struct TurnDesk;

// The reply to a call for which there is no memory.
fn unavailable(alloc: Global) -> Reply {
    Reply {
        code: Code::Unavailable,
        messages: List::new(alloc),
        notices: List::new(alloc),
        steps: 0,
        packet: None,
    }
}

impl Desk for TurnDesk {
    type Pass = Speaker;

    ghost lane_of = { λ s. s.lane };

    ghost is_of = { λ desk s. MayGoOn s };

    ghost answers = { SpeaksOrNot };

    ghost gives = { GivesNone };

    fn lane(&self, pass: &Speaker) -> u16 {
        pass.lane
    }

    fn ask(&self, alloc: Global, pass: &mut Speaker, call: &Call) -> Reply {
        pass.answer(alloc, call)
    }

    fn next(&self, _alloc: Global, _pass: &mut Speaker, _now: u64) -> Option<Next> {
        None
    }
}

impl Speaker {
    /// A run of which nothing was played.
    pub fn open(alloc: Global, start: Start) -> Result<Speaker, NoMemory>
        ensures played { IfOk result (λ s. played_of s.session ≡ begun start) }
        ensures goes_on { IfOk result GoesOn }
        ensures quiet { IfOk result (λ s. s.is_short ≡ false) }
    {
        Ok(Speaker {
            session: Session::open(alloc, start)?,
            lane: 0,
            is_short: false,
        })
    }

    // Answers a call of the lane whose bytes are read.
    fn answer(&mut self, alloc: Global, call: &Call) -> Reply
        requires { MayGoOn self.old }
        ensures of { MayGoOn self.new }
        ensures answered { SpeaksOrNot self.old call.now result self.new }
        ensures lane { self.new.lane ≡ self.old.lane }
    {
        if self.is_short || !self.session.has_room() {
            self.is_short = true;
            return unavailable(alloc);
        }
        match self.session.ask(alloc, self.lane, call) {
            Ok(reply) => reply,
            Err(NoMemory) => {
                self.is_short = true;
                unavailable(alloc)
            }
        }
    }

    /// The lane whose bytes are read from now on.
    pub fn set_lane(&mut self, lane: u16)
        ensures { self.new ≡ record self.old { lane = lane } }
    {
        self.lane = lane;
    }

    /// Takes a record.
    pub fn take(&mut self, alloc: Global, item: &TapeRecord) -> Result<(), NoMemory>
        requires item { IsRecord item.now }
        requires goes_on { GoesOn self.old }
        requires quiet { self.old.is_short ≡ false }
        ensures { OnOk result (Takes item.now self.old self.new) }
    {
        if !self.session.has_room() {
            return Err(NoMemory);
        }
        self.session.take(alloc, item)
    }

    /// Reads bytes of a lane, and makes the calls that they make, one after the other.
    pub fn feed(
        &mut self,
        alloc: Global,
        link: &mut ByteLane,
        lane: u16,
        piece: &[u8],
    ) -> Result<(), NoMemory>
        requires of_controller { lane < 32 }
        requires goes_on { GoesOn self.old }
        requires quiet { self.old.is_short ≡ false }
        ensures { OnOk result (Feeds lane piece.now link.old link.new self.old self.new) }
    {
        self.lane = lane;
        link.feed(alloc, &TurnDesk, self, piece)?;
        if self.is_short {
            return Err(NoMemory);
        }
        Ok(())
    }

    /// The journal so far.
    pub fn journal(&self) -> &[Entry]
        ensures { result.now ≡ self.now.session.journal }
    {
        self.session.journal()
    }

    /// What the report shows of the run, whose journal and records it takes, beside what lanes of bytes were sent.
    pub fn finish(&mut self, alloc: Global, sent: List<(u16, ByteList)>) -> Result<Report, NoMemory>
        ensures { IfOk result (λ report. report ≡ with_sent sent (played_report (played_of self.old.session))) }
    {
        self.session.finish(alloc, sent)
    }
}
