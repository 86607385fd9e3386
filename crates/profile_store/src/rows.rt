//! Members, groups and one-shot sets, with how often each is named.
ghost use Rattle.std.specs.Prelude.{◌≡◌, ◌+◌, ◌^◌, ◌≤◌, IfOk, IfErr};

use list_types::NoMemory;
use p4_types::profiles::{Group, Member};

/// A member, and how often entries and groups name it.
#[derive(Drop)]
pub struct MemberRow {
    pub member: Member,
    pub uses: u64,
}

/// A group, and how often entries name it.
#[derive(Drop)]
pub struct GroupRow {
    pub group: Group,
    pub uses: u64,
}

/// How many actions the one-shot sets of a profile have together.
#[derive(Clone, Copy)]
pub struct SetCount {
    pub profile: u32,
    pub actions: u64,
}

/// A count that is so much greater; refused only where it has no place, since no memory holds so many.
pub(crate) fn raised(count: u64, more: u64) -> Result<u64, NoMemory>
    ensures sum { IfOk result (λ sum. sum ≡ count + more) }
    ensures refused { IfErr result (λ _. 2 ^ 64 ≤ count + more) }
{
    count.checked_add(more).ok_or(NoMemory)
}
