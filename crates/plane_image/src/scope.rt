//! What the primary of a role may write.
ghost use Rattle.std.specs.Prelude.{◌≡◌};
ghost use Rattle.std.specs.Option.{option_map, option_copied};
ghost use Rattle.plane_spec.specs.Planes.{scope_in};

use p4_types::ids::Ids;
use role_arbiter::Session;

/// A role, with the ids that its primary may write, or `None` where it may write all.
#[derive(Drop)]
pub struct Scope {
    pub role: u64,
    pub ids: Option<Ids>,
}

impl Scope {
    /// Of a role with this primary, or with none.
    pub fn of(role: u64, primary: Option<&Session>) -> Scope
        ensures role { result.role ≡ role }
        ensures ids { result.ids ≡ scope_in (option_copied primary.entry) }
    {
        let ids = match primary {
            None => None,
            Some(primary) => match &primary.config {
                None => None,
                Some(ids) => Some(ids.copy()),
            },
        };
        Scope { role, ids }
    }

    pub(crate) fn as_slice(&self) -> Option<&[u32]>
        ensures { option_map (λ ids. ids.now) result ≡ self.now.ids }
    {
        match &self.ids {
            None => None,
            Some(ids) => Some(ids.as_slice()),
        }
    }
}
