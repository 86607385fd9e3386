// A desk whose passes note the calls that were made.
use list_types::List;
use p4_types::calls::{Call, Reply};
use p4_types::code::Code;
use p4rt_service::{Desk, Next};
use std::alloc::Global;
use std::collections::VecDeque;

/// The desk of tests.
pub(crate) struct NotingDesk;

/// What the desk still gives, and how many calls and how many Leaves there were.
pub(crate) struct NotingPass {
    pub gifts: VecDeque<Option<Next>>,
    pub calls: u64,
    pub leaves: u64,
}

// Written out, so that the tests need not look into it.
impl Drop for NotingPass {
    fn drop(self) {
        let Self {
            gifts: _gifts,
            calls: _,
            leaves: _,
        } = self;
    }
}

impl NotingPass {
    pub(crate) fn new(gifts: VecDeque<Option<Next>>) -> NotingPass {
        NotingPass {
            gifts,
            calls: 0,
            leaves: 0,
        }
    }
}

impl Desk for NotingDesk {
    type Pass = NotingPass;

    ghost lane_of = { λ pass. 3 };

    ghost is_of = { λ desk pass. Unit {0} };

    ghost answers = { λ old call reply new. Unit {0} };

    ghost gives = { λ old now next new. Unit {0} };

    fn lane(&self, _pass: &NotingPass) -> u16 {
        3
    }

    fn ask(&self, alloc: Global, pass: &mut NotingPass, call: &Call) -> Reply {
        pass.calls = pass.calls.saturating_add(1);
        if let Call::Leave = call {
            pass.leaves = pass.leaves.saturating_add(1);
        }
        Reply {
            code: Code::Ok,
            messages: List::new(alloc),
            notices: List::new(alloc),
            steps: 0,
            packet: None,
        }
    }

    fn next(&self, _alloc: Global, pass: &mut NotingPass, _now: u64) -> Option<Next> {
        pass.gifts.pop_front().flatten()
    }
}
