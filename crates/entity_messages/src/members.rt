//! Members of action profiles as messages.
ghost use Rattle.std.specs.Prelude.{◌≡◌, IfOk};
ghost use Rattle.plane_spec.specs.Shown.{shown_member};

use crate::entries::shown_action;
use list_types::NoMemory;
use p4_types::messages::ActionProfileMember;
use p4_types::profiles::Member;
use p4info_model::P4Info;
use std::alloc::Global;

/// A member as a message (ActionProfileMember), with its action. Without memory there is none.
pub fn shown_member(
    alloc: Global,
    info: &P4Info,
    member: &Member,
) -> Result<ActionProfileMember, NoMemory>
    ensures { IfOk result (λ shown. shown ≡ shown_member info.now member.now) }
{
    let call = shown_action(alloc, info, &member.call)?;
    Ok(ActionProfileMember {
        action_profile_id: member.profile,
        member_id: member.id,
        action: Some(call),
    })
}
