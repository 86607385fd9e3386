//! Groups of action profiles as messages.
ghost use Rattle.std.specs.Prelude.{◌≡◌, map, IfOk};
ghost use Rattle.plane_spec.specs.Shown.{shown_share, shown_group};

use crate::weights::weight_number;
use list_types::{ByteList, List, NoMemory};
use p4_types::messages;
use p4_types::messages::ActionProfileGroup;
use p4_types::profiles::{Group, Share};
use std::alloc::Global;

fn shown_share(alloc: Global, share: Share) -> messages::Member
    ensures { result ≡ shown_share share }
{
    messages::Member {
        member_id: share.member,
        weight: weight_number(share.weight),
        watch: 0,
        watch_port: ByteList::new(alloc),
    }
}

// The members of a group as they are answered, in the order in which they were given.
fn shown_shares(alloc: Global, shares: &[Share]) -> Result<List<messages::Member>, NoMemory>
    ensures { IfOk result (λ members. members ≡ map shown_share shares.now) }
{
    let mut members = List::new(alloc);
    for share in shares {
        members.push(shown_share(alloc, *share))?;
    }
    Ok(members)
}

/// A group as a message (ActionProfileGroup): its members in the order in which they were given. Its greatest size is not kept, and is told as 0.
/// Without memory there is none.
pub fn shown_group(alloc: Global, group: &Group) -> Result<ActionProfileGroup, NoMemory>
    ensures { IfOk result (λ shown. shown ≡ shown_group group.now) }
{
    let members = shown_shares(alloc, group.shares.get().as_slice())?;
    Ok(ActionProfileGroup {
        action_profile_id: group.profile,
        group_id: group.id,
        members,
        max_size: 0,
    })
}
