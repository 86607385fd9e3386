//! The configuration of a role.
ghost use Rattle.std.specs.Prelude.{◌≡◌};
ghost use Rattle.wire_messages.specs.Answers.{Reads};
ghost use Rattle.p4v1_read.specs.RoleConfigs.{ids_in, ids_of, role_config_of, role_of, read_update};
ghost use Rattle.wire_messages.specs.Numbers.{as_uint32};

use p4_types::calls::ArbitrationUpdate;
use p4_types::ids::Ids;
use p4_types::messages::{Any, MasterArbitrationUpdate, Role};
use wire_fields::varint;
use wire_messages::Unreadable;

const TYPE_URL: &str = "p4switch/ids";

fn uint32(value: u64) -> Option<u32>
    ensures { result ≡ as_uint32 value }
{
    if value < 1 << 32 {
        Some(value as u32)
    } else {
        None
    }
}

fn ids_in(value: &[u8]) -> Result<Ids, Unreadable>
    ensures { Reads (λ ids. ids) result (ids_in value.now) }
{
    let mut ids = Ids::new();
    let mut left = value;
    while !left.is_empty() {
        let Ok((number, rest)) = varint(left) else {
            return Err(Unreadable);
        };
        let Some(id) = uint32(number) else {
            return Err(Unreadable);
        };
        if ids.is_full() {
            return Err(Unreadable);
        }
        ids.push(id);
        left = rest;
    }
    Ok(ids)
}

fn ids_of(config: &Any) -> Result<Ids, Unreadable>
    ensures { Reads (λ ids. ids) result (ids_of config.now) }
{
    if config.type_url.as_str() == TYPE_URL {
        ids_in(config.value.as_slice())
    } else {
        Err(Unreadable)
    }
}

/// The ids of the configuration that an update gives its role, as packed `uint32` numbers of the type
/// `p4switch/ids`, at most 128; none where it gives none. Role 0 may have no configuration, and another type is not
/// read (P4Runtime 1.3.0, "Role Config").
pub fn role_config_of(role: &Option<Role>) -> Result<Option<Ids>, Unreadable>
    ensures { Reads (λ config. config) result (role_config_of role.now) }
{
    let Some(role) = role else {
        return Ok(None);
    };
    let Some(config) = &role.config else {
        return Ok(None);
    };
    if role.id == 0 {
        return Err(Unreadable);
    }
    Ok(Some(ids_of(config)?))
}

fn role_of(role: &Option<Role>) -> u64
    ensures { result ≡ role_of role.now }
{
    match role {
        None => 0,
        Some(role) => role.id,
    }
}

/// What an update asks for, with its role's configuration read.
pub fn arbitration_update(update: &MasterArbitrationUpdate) -> ArbitrationUpdate
    ensures { result ≡ read_update update.now }
{
    ArbitrationUpdate {
        role: role_of(&update.role),
        election_id: update.election_id,
        config: match role_config_of(&update.role) {
            Ok(config) => Some(config),
            Err(Unreadable) => None,
        },
    }
}
