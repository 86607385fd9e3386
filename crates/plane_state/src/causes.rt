//! Why a change is refused for what entries, members and groups name, and for what their profile may have.
ghost use Rattle.std.specs.Prelude.{◌≡◌, ◌==◌, ◌&&◌, not, nat_lt, option_copied};
ghost use Rattle.plane_spec.specs.Objects.{action_profile_of, table_of};
ghost use Rattle.plane_spec.specs.Planes.{or_cause, if_in_use, if_full, lacks_use, lacks_member, set_exceeds};
ghost use Rattle.plane_spec.specs.Profiles.{profile_size, is_overweight, weight_of, set_weight, set_size, group_rows};
ghost use Rattle.plane_state.specs.Refusals.{insert_use_cause, weight_limit};
ghost use Rattle.plane_state.specs.Versions.{IsCounted};

use crate::parts::Parts;
use p4_types::code::{Cause, Code, Rule};
use p4_types::info::ActionProfile;
use p4_types::profiles::{Group, Share};
use p4_types::table::{Entry, EntryAction, EntryChange, WeightedCall};
use p4_types::weights::WeightedList;

/// The table is none of the program's.
pub(crate) const UNKNOWN: Cause = Cause {
    rule: Rule::U3,
    code: Code::NotFound,
};

pub(crate) const PRESENT: Cause = Cause {
    rule: Rule::U10,
    code: Code::AlreadyExists,
};

pub(crate) const ABSENT: Cause = Cause {
    rule: Rule::U10,
    code: Code::NotFound,
};

pub(crate) const IN_USE: Cause = Cause {
    rule: Rule::U11,
    code: Code::FailedPrecondition,
};

pub(crate) const FULL: Cause = Cause {
    rule: Rule::U12,
    code: Code::ResourceExhausted,
};

/// How many members and actions of one-shot sets a profile may have.
pub(crate) fn profile_size(profile: Option<&ActionProfile>) -> u64
    ensures { result ≡ profile_size (option_copied profile.entry) }
{
    match profile {
        None => 0,
        Some(profile) => {
            if profile.size == 0 {
                1024
            } else {
                profile.size
            }
        }
    }
}

// How much the weights of a group or a one-shot set of a profile may be together; 0 is no limit.
fn weight_limit(profile: Option<&ActionProfile>) -> u32
    ensures { result ≡ weight_limit (option_copied profile.entry) }
{
    match profile {
        None => 0,
        Some(profile) => profile.max_group_size,
    }
}

fn is_over(limit: u32, weight: u64) -> bool
    ensures { result ≡ (not (limit == 0) && nat_lt limit weight) }
{
    limit != 0 && u64::from(limit) < weight
}

/// Whether the weights of a group are more than its profile allows together.
pub(crate) fn is_group_overweight(
    profile: Option<&ActionProfile>,
    shares: &WeightedList<Share>,
) -> bool
    ensures { result ≡ is_overweight (option_copied profile.entry) (weight_of shares.now) }
{
    is_over(weight_limit(profile), shares.total())
}

fn is_set_overweight(profile: Option<&ActionProfile>, calls: &WeightedList<WeightedCall>) -> bool
    ensures { result ≡ is_overweight (option_copied profile.entry) (set_weight calls.now) }
{
    is_over(weight_limit(profile), calls.total())
}

// How many actions of a one-shot set of a profile an action is.
fn set_size(profile: u32, action: &EntryAction) -> u64
    ensures { result ≡ set_size profile action.now }
{
    match action {
        EntryAction::Set {
            profile: own,
            calls,
        } => {
            if *own == profile {
                calls.get().as_slice().len() as u64
            } else {
                0
            }
        }
        _ => 0,
    }
}

/// How many rows a group takes.
pub(crate) fn group_rows(group: &Group) -> u64
    ensures { result ≡ group_rows group.now }
{
    group.shares.get().as_slice().len() as u64 + 1
}

impl Parts {
    pub(crate) fn profile(&self, id: u32) -> Option<&ActionProfile>
        ensures { option_copied result ≡ action_profile_of id self.now.now.plane.config.info }
    {
        self.config.get().info().action_profile(id)
    }

    /// Whether the members that a group names are not all there (U11).
    pub(crate) fn lacks_member(&self, profile: u32, shares: &[Share]) -> bool
        ensures { result ≡ lacks_member profile self.now.now.plane.members shares.now }
    {
        shares.iter().any(|share| self.profiles.member(profile, share.member).is_none())
    }

    // Whether what an entry names is absent, or what stands in its set's profile forbids it (U11).
    fn lacks_use(&self, action: &EntryAction) -> bool
        ensures { result ≡ lacks_use self.now.now.plane action.now }
    {
        match action {
            EntryAction::Call(_) => false,
            EntryAction::Member { profile, id } => self.profiles.member(*profile, *id).is_none(),
            EntryAction::Group { profile, id } => self.profiles.group(*profile, *id).is_none(),
            EntryAction::Set { profile, .. } => {
                self.profiles.members_in(*profile) != 0 || self.profiles.groups_in(*profile) != 0
            }
        }
    }

    // Whether a one-shot set, in the place of what an entry had, is more than its profile may have (U12).
    fn set_exceeds(&self, former: Option<&Entry>, action: &EntryAction) -> bool
        requires counted { IsCounted self.now.now }
        ensures { result ≡ set_exceeds self.now.now.plane (option_copied former.entry) action.now }
    {
        let EntryAction::Set { profile: id, calls } = action else {
            return false;
        };
        let profile = self.profile(*id);
        let calls = calls.get();
        let freed = match former {
            Some(entry) => set_size(*id, &entry.action),
            None => 0,
        };
        let allowed = u128::from(profile_size(profile)) + u128::from(freed);
        let needed = u128::from(self.profiles.set_actions(*id)) + calls.len() as u128;
        allowed < needed || is_set_overweight(profile, calls)
    }

    /// Why an entry may not have an action in the place of what it had, for what it names (U11), or for what its set needs
    /// (U12).
    pub(crate) fn use_cause(&self, former: Option<&Entry>, action: &EntryAction) -> Option<Cause>
        requires counted { IsCounted self.now.now }
        ensures { result ≡ or_cause (if_in_use (lacks_use self.now.now.plane action.now)) (if_full (set_exceeds self.now.now.plane (option_copied former.entry) action.now)) }
    {
        if self.lacks_use(action) {
            return Some(IN_USE);
        }
        if self.set_exceeds(former, action) {
            return Some(FULL);
        }
        None
    }

    /// Why an INSERT into a table that there is is refused for what its action names or needs, or because the entry is there,
    /// which comes before; none where its action is not to blame.
    pub(crate) fn insert_use_cause(&self, change: &EntryChange) -> Option<Cause>
        requires counted { IsCounted self.now.now }
        ensures { result ≡ insert_use_cause (table_of change.now.name.table self.now.now.plane.config.info) self.now.now.plane change.now }
    {
        let _ = self.config.get().info().table(change.name.table)?;
        let cause = self.use_cause(None, &change.action)?;
        match self.store.find(&change.name) {
            Some(_) => Some(PRESENT),
            None => Some(cause),
        }
    }
}
