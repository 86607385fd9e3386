//! The rules of a member, and what its updates change (P4Runtime 1.3.0, "ActionProfileMember & ActionProfileGroup").
ghost use Rattle.std.specs.Prelude.{◌≡◌, Some};
ghost use Rattle.std.specs.Option.{option_map};
ghost use Rattle.plane_spec.specs.ProfileRules.{member_flaw, member_cause, member_by, member_change, member_resolution};

use crate::{actions, rules, sets};
use p4_types::code::{Cause, Code, Rule};
use p4_types::info::ActionProfile;
use p4_types::messages::ActionProfileMember;
use p4_types::profiles::{Member, ProfileChange};
use p4_types::table::{Change, UpdateKind};
use p4info_model::P4Info;

fn member_flaw(
    info: &P4Info,
    profile: &ActionProfile,
    kind: UpdateKind,
    member: &ActionProfileMember,
) -> Option<Code>
    ensures { result ≡ member_flaw info.now (Some profile.now) kind member.now }
{
    if rules::brings(kind) {
        sets::profile_call_flaw(info, profile, &member.action)
    } else {
        None
    }
}

// The first rule of U4 to U9 that an update of a member of this profile breaks.
#[tactic(auto, unfolding(plane_spec::specs::ProfileRules::member_cause))]
fn member_cause(
    info: &P4Info,
    scope: Option<&[u32]>,
    kind: UpdateKind,
    member: &ActionProfileMember,
    profile: &ActionProfile,
) -> Option<Cause>
    ensures { result ≡ member_cause info.now (option_map (λ ids. ids.now) scope.entry) kind member.now (Some profile.now) }
{
    if rules::is_foreign(scope, member.action_profile_id) {
        return rules::refused(Rule::U4, Code::PermissionDenied);
    }
    if member.member_id == 0 {
        return rules::refused(Rule::U6, Code::InvalidArgument);
    }
    rules::refused_by(Rule::U9, member_flaw(info, profile, kind, member))
}

fn member_by(info: &P4Info, member: &ActionProfileMember) -> Member
    ensures { result ≡ member_by info.now member.now }
{
    Member {
        profile: member.action_profile_id,
        id: member.member_id,
        call: actions::call_by(info, &member.action),
    }
}

fn member_change(info: &P4Info, kind: UpdateKind, member: &ActionProfileMember) -> ProfileChange
    ensures { result ≡ member_change info.now kind member.now }
{
    match kind {
        UpdateKind::Insert => ProfileChange::InsertMember(member_by(info, member)),
        UpdateKind::Modify => ProfileChange::ModifyMember(member_by(info, member)),
        UpdateKind::Delete => ProfileChange::DeleteMember {
            profile: member.action_profile_id,
            id: member.member_id,
        },
    }
}

/// What an update of a member changes, or the first rule of U3 to U9 that it breaks.
#[tactic(auto, unfolding(plane_spec::specs::ProfileRules::member_cause))]
pub(crate) fn resolve(
    info: &P4Info,
    scope: Option<&[u32]>,
    kind: UpdateKind,
    member: &ActionProfileMember,
) -> Result<Change, Cause>
    ensures { result ≡ member_resolution info.now (option_map (λ ids. ids.now) scope.entry) kind member.now }
{
    let Some(profile) = info.action_profile(member.action_profile_id) else {
        return Err(Cause {
            rule: Rule::U3,
            code: Code::NotFound,
        });
    };
    match member_cause(info, scope, kind, member, profile) {
        Some(cause) => Err(cause),
        None => Ok(Change::Profile(member_change(info, kind, member))),
    }
}
