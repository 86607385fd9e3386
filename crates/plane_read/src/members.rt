//! The members of action profiles that a Read selects.
ghost use Rattle.std.specs.Prelude.{◌≡◌, ◌++◌, ◌&&◌, ◌∷◌, [], filter, map, IfOk, OnOk};
ghost use Rattle.p4_types.specs.declared.messages.Entity.TheVariants as entities;
ghost use Rattle.plane_read.specs.Answered.{selects_member, answered_members};
ghost use Rattle.switch_spec.specs.Reading.{is_asked_id, selected_members};

use entity_messages::shown_member;
use list_types::{List, NoMemory};
use p4_types::messages::{ActionProfileMember, Entity};
use p4_types::profiles::Member;
use p4info_model::P4Info;
use plane_state::Plane;
use profile_store::MemberRow;
use std::alloc::Global;

/// Whether an object of an id is asked for: by its id, or by 0, which asks for any.
pub(crate) fn is_asked_id(asked: u32, id: u32) -> bool
    ensures { result ≡ is_asked_id asked id }
{
    asked == 0 || id == asked
}

fn selects_member(asked: &ActionProfileMember, member: &Member) -> bool
    ensures { result ≡ selects_member asked.now member.now }
{
    is_asked_id(asked.action_profile_id, member.profile) && is_asked_id(asked.member_id, member.id)
}

fn push_member(
    alloc: Global,
    info: &P4Info,
    member: &Member,
    answer: &mut List<Entity>,
) -> Result<(), NoMemory>
    ensures { OnOk result (answer.new ≡ answer.old ++ answered_members info.now (member.now ∷ [])) }
{
    let shown = shown_member(alloc, info, member)?;
    answer.push(Entity::ActionProfileMember(shown))?;
    Ok(())
}

fn push_rows(
    alloc: Global,
    info: &P4Info,
    asked: &ActionProfileMember,
    rows: &[MemberRow],
    answer: &mut List<Entity>,
) -> Result<(), NoMemory>
    ensures { OnOk result (answer.new ≡ answer.old ++ answered_members info.now (filter (selects_member asked.now) (map (λ row. row.member) rows.now))) }
{
    for row in rows {
        if selects_member(asked, &row.member) {
            push_member(alloc, info, &row.member, answer)?;
        }
    }
    Ok(())
}

/// Adds the members that are asked for, by rising profile and id.
pub(crate) fn push_members(
    alloc: Global,
    plane: &Plane,
    asked: &ActionProfileMember,
    answer: &mut List<Entity>,
) -> Result<(), NoMemory>
    ensures { OnOk result (answer.new ≡ answer.old ++ map entities.ActionProfileMember (selected_members plane.now.now asked.now)) }
{
    let rows = plane.profiles().members();
    push_rows(alloc, plane.config().info(), asked, rows, answer)
}
