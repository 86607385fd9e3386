//! A desk that answers what a row says.
use list_types::List;
use p4_types::calls::{Call, Reply};
use p4_types::code::Code;
use p4rt_service::{Desk, Next};
use row_lines::say;
use std::alloc::Global;
use std::collections::VecDeque;

/// The lane of each pass.
pub const LANE: u16 = 3;

/// The desk of rows.
pub struct RowDesk;

/// The replies that are still to come, and the calls that were made, in words.
#[derive(Drop)]
pub struct RowPass {
    pub replies: VecDeque<Reply>,
    pub told: String,
}

fn word_of(call: &Call) -> &'static str {
    match call {
        Call::Write(_) => "write",
        Call::Read(_) => "read",
        Call::Set(_) => "set",
        Call::Get(_) => "get",
        Call::Stream(_) => "stream",
        Call::Capabilities => "capabilities",
        Call::Unreadable(_) => "unreadable",
        Call::Leave => "leave",
    }
}

impl Desk for RowDesk {
    type Pass = RowPass;

    ghost lane_of = { λ pass. 3 };

    ghost is_of = { λ desk pass. Unit {0} };

    ghost answers = { λ old call reply new. Unit {0} };

    ghost gives = { λ old now next new. Unit {0} };

    fn lane(&self, _pass: &RowPass) -> u16 {
        LANE
    }

    fn ask(&self, alloc: Global, pass: &mut RowPass, call: &Call) -> Reply {
        say(&mut pass.told, word_of(call));
        match pass.replies.pop_front() {
            Some(reply) => reply,
            None => Reply {
                code: Code::Ok,
                messages: List::new(alloc),
                notices: List::new(alloc),
                steps: 0,
                packet: None,
            },
        }
    }

    fn next(&self, _alloc: Global, _pass: &mut RowPass, _now: u64) -> Option<Next> {
        None
    }
}
