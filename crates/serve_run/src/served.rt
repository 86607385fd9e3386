//! A desk as connections ask it.
ghost use Rattle.std.specs.Prelude.{⊤};
ghost use Rattle.live_desk.specs.Mailing.{IsAsked};
ghost use Rattle.live_desk.specs.Passing.{IsGiven};

use crate::link_pass::LinkPass;
use live_desk::{LiveDesk, Naming};
use p4_types::calls::{Call, Reply};
use p4rt_service::{Desk, Next};
use std::alloc::Global;
use std::sync::Wait;

/// A desk that serves, as the connections of its passes' controllers ask it. It takes the memory of calls by itself.
#[derive(Drop)]
pub struct ServedDesk<'a, J: Naming, R: Wait + Drop> {
    desk: &'a LiveDesk<J, R>,
}

impl<'a, J: Naming, R: Wait + Drop> ServedDesk<'a, J, R> {
    /// The desk.
    pub fn new(desk: &'a LiveDesk<J, R>) -> ServedDesk<'a, J, R> {
        ServedDesk { desk }
    }
}

impl<'a, J: Naming, R: Wait + Drop> Desk for ServedDesk<'a, J, R> {
    type Pass = LinkPass<J>;

    ghost lane_of = { λ link. link.pass.lane };

    ghost is_of = { λ desk link. ⊤ };

    ghost answers = { λ old call reply new. IsAsked J.start.cpu call reply old.pass new.pass };

    ghost gives = { λ old now next new. IsGiven old.pass.waiting next old.pass new.pass };

    fn lane(&self, link: &LinkPass<J>) -> u16 {
        link.pass.lane()
    }

    fn ask(&self, _alloc: Global, link: &mut LinkPass<J>, call: &Call) -> Reply {
        self.desk.ask(&mut link.pass, call, &mut link.verdict)
    }

    fn next(&self, _alloc: Global, link: &mut LinkPass<J>, now: u64) -> Option<Next> {
        self.desk.next(&mut link.pass, now)
    }
}
