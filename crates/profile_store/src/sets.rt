//! How many actions the one-shot sets of profiles have, by rising profile.
ghost use Rattle.std.specs.Prelude.{◌≡◌, ◌+◌, ◌≤◌, ◌==◌, ℕ, if◌then◌else◌, nat_lt, IfOk, IfErr, OnOk};
ghost use Rattle.profile_store.specs.Order.{AreInOrder, StandsAt, WouldStandAt, set_key};
ghost use Rattle.profile_store.specs.Rows.{set_count, count_of};

use crate::rows::{SetCount, raised};
use list_types::NoMemory;
use undo_vec::UndoVec;

// Where the count of a profile stands, or where it would stand.
fn place_of(sets: &[SetCount], profile: u32) -> Result<usize, usize>
    requires { AreInOrder nat_lt set_key sets.now }
    ensures found { IfOk result (StandsAt set_key sets.now profile) }
    ensures absent { IfErr result (WouldStandAt nat_lt set_key sets.now profile) }
{
    sets.binary_search_by_key(&profile, |set| set.profile)
}

/// How many actions the one-shot sets of a profile have together.
pub(crate) fn actions(sets: &[SetCount], profile: u32) -> u64
    requires { AreInOrder nat_lt set_key sets.now }
    ensures { result ≡ count_of (set_count profile sets.now) }
{
    match place_of(sets, profile) {
        Ok(place) => sets[place].actions,
        Err(_) => 0,
    }
}

/// A one-shot set of a profile is there, with so many actions.
pub(crate) fn take(sets: &mut UndoVec<SetCount>, profile: u32, size: u64) -> Result<(), NoMemory>
    requires { AreInOrder nat_lt set_key sets.old.items }
    ensures actions { OnOk result ((p : ℕ) → count_of (set_count p sets.new.items) ≡ count_of (set_count p sets.old.items) + (if profile == p then size else 0)) }
    ensures order { AreInOrder nat_lt set_key sets.new.items }
    ensures before { sets.new.before ≡ sets.old.before }
{
    let place = place_of(sets.as_slice(), profile);
    match place {
        Ok(place) => {
            let former = sets.as_slice()[place].actions;
            let actions = raised(former, size)?;
            sets.replace(place, SetCount { profile, actions })
        }
        Err(place) => {
            let actions = size;
            sets.insert(place, SetCount { profile, actions })
        }
    }
}

/// A one-shot set of a profile, with so many actions, is gone.
pub(crate) fn give_back(
    sets: &mut UndoVec<SetCount>,
    profile: u32,
    size: u64,
) -> Result<(), NoMemory>
    requires order { AreInOrder nat_lt set_key sets.old.items }
    requires named { size ≤ count_of (set_count profile sets.old.items) }
    ensures actions { OnOk result ((p : ℕ) → count_of (set_count p sets.new.items) + (if profile == p then size else 0) ≡ count_of (set_count p sets.old.items)) }
    ensures order { AreInOrder nat_lt set_key sets.new.items }
    ensures before { sets.new.before ≡ sets.old.before }
{
    let place = place_of(sets.as_slice(), profile);
    if let Ok(place) = place {
        let actions = sets.as_slice()[place].actions - size;
        sets.replace(place, SetCount { profile, actions })?;
    }
    Ok(())
}
