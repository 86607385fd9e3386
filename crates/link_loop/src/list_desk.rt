//! A desk that answers from lists.
ghost use Rattle.std.specs.Prelude.{◌≡◌, length};
ghost use Rattle.link_loop.specs.Lists.{HeldPass, Answers, Gives};

use list_types::List;
use p4_types::calls::{Call, Reply};
use p4_types::code::Code;
use p4rt_service::{Desk, Next};
use std::alloc::Global;
use std::collections::VecDeque;
use std::marker::Model;

/// A desk whose passes hold the replies and the messages that are still to come.
#[derive(Clone, Copy)]
pub struct ListDesk;

/// What is still to come for a lane.
#[derive(Drop)]
pub struct ListPass {
    lane: u16,
    replies: VecDeque<Reply>,
    nexts: VecDeque<Next>,
}

impl Model for ListPass {
    ghost Value = { HeldPass };

    ghost view = { λ pass. record { lane = pass.lane; replies = pass.replies.items; nexts = pass.nexts.items } };
}

impl ListPass {
    /// A pass of this lane that gives these answers and what waits, in order.
    pub fn new(lane: u16, replies: VecDeque<Reply>, nexts: VecDeque<Next>) -> ListPass
        ensures { result ≡ record { lane = lane; replies = replies.items; nexts = nexts.items } }
    {
        ListPass {
            lane,
            replies,
            nexts,
        }
    }

    /// How many replies are still to come.
    pub fn replies_left(&self) -> usize
        ensures { result ≡ length self.now.replies }
    {
        self.replies.len()
    }

    /// How many messages, packets and overflows are still to come.
    pub fn nexts_left(&self) -> usize
        ensures { result ≡ length self.now.nexts }
    {
        self.nexts.len()
    }
}

/// Each call is answered the next reply, and once there is none left, OK with nothing. What waits is the next of the
/// list, at whatever moment.
impl Desk for ListDesk {
    type Pass = ListPass;

    ghost lane_of = { λ pass. pass.lane };

    ghost is_of = { λ desk pass. Unit {0} };

    ghost answers = { Answers };

    ghost gives = { Gives };

    fn lane(&self, pass: &ListPass) -> u16 {
        pass.lane
    }

    fn ask(&self, alloc: Global, pass: &mut ListPass, _call: &Call) -> Reply {
        match pass.replies.pop_front() {
            Some(reply) => reply,
            None => Reply {
                code: Code::Ok,
                messages: List::new(alloc),
                notices: List::new(alloc),
                steps: 0,
                packet: None,
            },
        }
    }

    fn next(&self, _alloc: Global, pass: &mut ListPass, _now: u64) -> Option<Next> {
        pass.nexts.pop_front()
    }
}
