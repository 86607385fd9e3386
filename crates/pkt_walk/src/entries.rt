//! Which action an entry runs.
ghost use Rattle.std.specs.Prelude.{◌≡◌, All};
ghost use Rattle.std.specs.Option.{option_map};
ghost use Rattle.packet_spec.specs.Choosing as spec;
ghost use Rattle.pkt_codec.specs.Room.{IsInStore};
ghost use Rattle.plane_spec.specs.Profiles.{member_of, group_of};

use crate::hashing::hash_of;
use crate::weights::chosen;
use bm_expr::Store;
use bm_pipeline::headers::FieldRef;
use p4_types::table::{ActionCall, EntryAction, WeightedCall};
use p4_types::weights::WeightedList;
use plane_state::Plane;

fn member_call(plane: &Plane, profile: u32, id: u32) -> Option<&ActionCall>
    ensures { option_map (λ call. call.now) result ≡ spec.call_of (member_of profile id plane.now.now.members) }
{
    let member = plane.profiles().member(profile, id)?;
    Some(&member.call)
}

// The action of the member whose share of a group a hash chooses.
fn group_call(plane: &Plane, profile: u32, id: u32, hash: u32) -> Option<&ActionCall>
    ensures { option_map (λ call. call.now) result ≡ spec.group_call plane.now.now hash (group_of profile id plane.now.now.groups) }
{
    let group = plane.profiles().group(profile, id)?;
    let share = chosen(group.shares.get(), hash)?;
    member_call(plane, group.profile, share.member)
}

// The action that a hash chooses of a one-shot set.
fn set_call(calls: &WeightedList<WeightedCall>, hash: u32) -> Option<&ActionCall>
    ensures { option_map (λ call. call.now) result ≡ spec.weighted_call (spec.chosen (λ action. action.weight) hash calls.now) }
{
    let action = chosen(calls, hash)?;
    Some(&action.call)
}

/// The action that an entry of a table with this selector runs: its own, its member's, or the one that the hash of the
/// selector's fields chooses of its group or set.
pub(crate) fn entry_call<'a>(
    plane: &'a Plane,
    selector: &[FieldRef],
    action: &'a EntryAction,
    store: &Store,
) -> Option<&'a ActionCall>
    requires in_store { All (IsInStore store.now) selector.now }
    ensures { option_map (λ call. call.now) result ≡ spec.entry_call plane.now.now (spec.fnv (spec.selector_bytes store.now selector.now)) action.now }
{
    match action {
        EntryAction::Call(call) => Some(call),
        EntryAction::Member { profile, id } => member_call(plane, *profile, *id),
        EntryAction::Group { profile, id } => {
            group_call(plane, *profile, *id, hash_of(selector, store))
        }
        EntryAction::Set { calls, .. } => { set_call(calls.get(), hash_of(selector, store)) }
    }
}
