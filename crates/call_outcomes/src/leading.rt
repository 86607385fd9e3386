//! Who may write, and who may set pipelines.
ghost use Rattle.std.specs.Prelude.{◌≡◌};
ghost use Rattle.std.specs.Option.{option_copied};
ghost use Rattle.plane_spec.specs.Planes.{is_of_primary};
ghost use Rattle.switch_spec.specs.Pipelines.{may_set};

use p4_types::messages::Uint128;
use role_arbiter::{Session, election_number};

/// Whether an election id is that of the role's primary, and not 0.
pub fn is_of_primary(primary: Option<&Session>, id: Uint128) -> bool
    ensures { result ≡ is_of_primary (option_copied primary.entry) id }
{
    match primary {
        None => false,
        Some(primary) => {
            election_number(primary.election_id) == election_number(id) && election_number(id) != 0
        }
    }
}

/// Whether a role's primary, which bears this election id, may set pipelines.
pub fn may_set(primary: Option<&Session>, id: Uint128) -> bool
    ensures { result ≡ may_set (option_copied primary.entry) id }
{
    match primary {
        None => false,
        Some(session) => is_of_primary(primary, id) && session.config.is_none(),
    }
}
