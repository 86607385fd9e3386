//! What the lanes of a run see by and count by.
ghost use Rattle.std.specs.Prelude.{◌≡◌, ◌<◌, ◌≤◌, length, IfOk};
ghost use Rattle.std.specs.List.{AllByRecursion};
ghost use Rattle.counter_bank.specs.Account.{first_seat};
ghost use Rattle.replay_run.specs.Opening.{IsPost, SeesRun, without_parts};

use counter_bank::{Bank, Seat};
use ctl_lock::Naming;
use list_types::NoMemory;
use pub_snap::Viewer;
use std::alloc::Global;

/// What one lane sees by, and what it counts by.
#[derive(Drop)]
pub struct Post {
    pub viewer: Viewer,
    pub seat: Seat,
}

/// A post for each viewer, with a part of the counters of its own.
pub fn open_posts<J: Naming>(
    alloc: Global,
    bank: &Bank,
    rest: &mut Seat,
    viewers: Vec<Viewer>,
) -> Result<Vec<Post>, NoMemory>
    requires bank { bank.now.id ≡ J.bank }
    requires rest { rest.old ≡ first_seat J.bank }
    requires few { length viewers.items ≤ 64 }
    requires viewers { AllByRecursion (SeesRun J.list J.start) viewers.items }
    ensures posts { IfOk result (λ posts. AllByRecursion (IsPost J.list J.start J.bank) posts.items) }
    ensures many { IfOk result (λ posts. length posts.items ≡ length viewers.items) }
    ensures rest { IfOk result (λ posts. rest.new ≡ without_parts (length viewers.items) (first_seat J.bank)) }
{
    let mut posts = Vec::with_capacity(alloc, viewers.len())?;
    for viewer in viewers {
        let seat = bank.split(rest);
        posts.push_reserved(Post { viewer, seat });
    }
    Ok(posts)
}
