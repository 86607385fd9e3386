//! The rules of a group, and what its updates change (P4Runtime 1.3.0, "ActionProfileMember & ActionProfileGroup").
ghost use Rattle.std.specs.Prelude.{◌≡◌, ◌==◌, map, Some, IfOk};
ghost use Rattle.std.specs.List.{list_all, list_any};
ghost use Rattle.std.specs.Option.{option_map};
ghost use Rattle.plane_spec.specs.ProfileRules.{is_unserved_group, has_zero, is_right_group, group_flaw, group_cause, share_by, group_by, group_change, group_resolution};
ghost use Rattle.plane_spec.specs.UpdateRules.{repeats, is_watched, is_weight};

use crate::{rules, sets};
use list_types::NoMemory;
use p4_types::code::{Cause, Code, Rule};
use p4_types::info::ActionProfile;
use p4_types::messages::{ActionProfileGroup, Member};
use p4_types::profiles::{Group, ProfileChange, Share};
use p4_types::shared::Shared;
use p4_types::table::{Change, UpdateKind};
use p4_types::weights::WeightedList;
use p4info_model::P4Info;
use std::alloc::Global;

fn any_watched(members: &[Member]) -> bool
    ensures { result ≡ list_any (λ member. is_watched member.watch member.watch_port) members.now }
{
    for member in members {
        if sets::is_watched(member.watch, member.watch_port.as_slice()) {
            return true;
        }
    }
    false
}

// U2.
fn is_unserved(kind: UpdateKind, group: &ActionProfileGroup) -> bool
    ensures { result ≡ is_unserved_group kind group.now }
{
    rules::brings(kind) && any_watched(group.members.as_slice())
}

// Whether a member is named.
fn names(members: &[Member], id: u32) -> bool
    ensures { result ≡ list_any (λ named. named == id) (map (λ member. member.member_id) members.now) }
{
    for member in members {
        if member.member_id == id {
            return true;
        }
    }
    false
}

fn any_zero(members: &[Member]) -> bool
    ensures { result ≡ list_any (λ member. member.member_id == 0) members.now }
{
    for member in members {
        if member.member_id == 0 {
            return true;
        }
    }
    false
}

// U6.
fn has_zero(group: &ActionProfileGroup) -> bool
    ensures { result ≡ has_zero group.now }
{
    group.group_id == 0 || any_zero(group.members.as_slice())
}

fn names_twice(members: &[Member]) -> bool
    ensures { result ≡ repeats (map (λ member. member.member_id) members.now) }
{
    match members {
        [] => false,
        [first, others @ ..] => names(others, first.member_id) || names_twice(others),
    }
}

fn all_weighted(members: &[Member]) -> bool
    ensures { result ≡ list_all (λ member. is_weight member.weight) members.now }
{
    for member in members {
        if !sets::is_weight(member.weight) {
            return false;
        }
    }
    true
}

fn is_right(profile: &ActionProfile, group: &ActionProfileGroup) -> bool
    ensures { result ≡ is_right_group profile.now group.now }
{
    let members = group.members.as_slice();
    profile.with_selector && members.len() <= 256 && !names_twice(members) && all_weighted(members)
}

fn group_flaw(profile: &ActionProfile, kind: UpdateKind, group: &ActionProfileGroup) -> Option<Code>
    ensures { result ≡ group_flaw (Some profile.now) kind group.now }
{
    if rules::brings(kind) && !is_right(profile, group) {
        Some(Code::InvalidArgument)
    } else {
        None
    }
}

// The first rule of U2 to U9 that an update of a group breaks.
#[tactic(auto, unfolding(plane_spec::specs::ProfileRules::group_cause))]
fn group_cause(
    scope: Option<&[u32]>,
    kind: UpdateKind,
    group: &ActionProfileGroup,
    profile: Option<&ActionProfile>,
) -> Option<Cause>
    ensures { result ≡ group_cause (option_map (λ ids. ids.now) scope.entry) kind group.now (option_map (λ p. p.now) profile.entry) }
{
    if is_unserved(kind, group) {
        return rules::refused(Rule::U2, Code::Unimplemented);
    }
    let Some(profile) = profile else {
        return rules::refused(Rule::U3, Code::NotFound);
    };
    if rules::is_foreign(scope, group.action_profile_id) {
        return rules::refused(Rule::U4, Code::PermissionDenied);
    }
    if has_zero(group) {
        return rules::refused(Rule::U6, Code::InvalidArgument);
    }
    rules::refused_by(Rule::U9, group_flaw(profile, kind, group))
}

fn share_by(member: &Member) -> Share
    ensures { result ≡ share_by member.now }
{
    Share {
        member: member.member_id,
        weight: sets::natural(member.weight),
    }
}

fn shares_by(alloc: Global, members: &[Member]) -> Result<WeightedList<Share>, NoMemory>
    ensures { IfOk result (λ shares. shares ≡ map share_by members.now) }
{
    let mut shares = WeightedList::new(alloc);
    for member in members {
        shares.push(share_by(member))?;
    }
    Ok(shares)
}

fn group_by(alloc: Global, group: &ActionProfileGroup) -> Result<Group, NoMemory>
    ensures { IfOk result (λ made. made ≡ group_by group.now) }
{
    let shares = shares_by(alloc, group.members.as_slice())?;
    Ok(Group {
        profile: group.action_profile_id,
        id: group.group_id,
        shares: Shared::new(alloc, shares)?,
    })
}

fn group_change(
    alloc: Global,
    kind: UpdateKind,
    group: &ActionProfileGroup,
) -> Result<ProfileChange, NoMemory>
    ensures { IfOk result (λ change. change ≡ group_change kind group.now) }
{
    match kind {
        UpdateKind::Insert => Ok(ProfileChange::InsertGroup(group_by(alloc, group)?)),
        UpdateKind::Modify => Ok(ProfileChange::ModifyGroup(group_by(alloc, group)?)),
        UpdateKind::Delete => Ok(ProfileChange::DeleteGroup {
            profile: group.action_profile_id,
            id: group.group_id,
        }),
    }
}

/// What an update of a group changes, or the first rule of U2 to U9 that it breaks.
pub(crate) fn resolve(
    alloc: Global,
    info: &P4Info,
    scope: Option<&[u32]>,
    kind: UpdateKind,
    group: &ActionProfileGroup,
) -> Result<Result<Change, Cause>, NoMemory>
    ensures { IfOk result (λ r. r ≡ group_resolution info.now (option_map (λ ids. ids.now) scope.entry) kind group.now) }
{
    let profile = info.action_profile(group.action_profile_id);
    if let Some(cause) = group_cause(scope, kind, group, profile) {
        return Ok(Err(cause));
    }
    Ok(Ok(Change::Profile(group_change(alloc, kind, group)?)))
}
