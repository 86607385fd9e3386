//! Arbitrations and ends of sessions.
use list_types::{ByteList, Text};
use p4_types::calls::ArbitrationUpdate;
use p4_types::code::{ArbitrationRule, Code};
use p4_types::messages::{Any, MasterArbitrationUpdate, Role, Uint128};
use p4v1_read::arbitration_update;
use role_arbiter::{Lanes, Roles};
use row_lines::{NoAnswer, Step, bytes, say, steps, tell};
use std::alloc::Global;

fn number(code: Option<Code>) -> u8 {
    match code {
        None => 16,
        Some(code) => code.number(),
    }
}

// An update of election id 1.
fn update(role: Role) -> MasterArbitrationUpdate {
    MasterArbitrationUpdate {
        device_id: 1,
        role: Some(role),
        election_id: Uint128 { high: 0, low: 1 },
        status: None,
    }
}

fn plain(role: u64, high: u64, low: u64) -> ArbitrationUpdate {
    ArbitrationUpdate {
        role,
        election_id: Uint128 { high, low },
        config: Some(None),
    }
}

fn tell_lanes(told: &mut String, roles: &Roles, lanes: &Lanes) {
    for lane in lanes.as_slice() {
        tell(told, *lane);
        tell(told, number(roles.status(*lane)));
    }
    say(told, ".");
}

fn tell_rule(told: &mut String, rule: ArbitrationRule) {
    say(told, "rule");
    tell(
        told,
        match rule {
            ArbitrationRule::A1 => 1u8,
            ArbitrationRule::A2 => 2,
            ArbitrationRule::A3 => 3,
            ArbitrationRule::A4 => 4,
            ArbitrationRule::A5 => 5,
        },
    );
}

fn step_of(told: &mut String, roles: &mut Roles, step: Step<'_>) -> Result<(), NoAnswer> {
    let [lane, role, low, high] = step.numbers;
    let caller = u16::try_from(lane).unwrap_or(u16::MAX);
    match step.verb {
        "leave" => {
            let lanes = roles.told_at_leave(caller);
            if roles.leave(caller) {
                tell_lanes(told, roles, &lanes);
            } else {
                say(told, "none");
            }
        }
        "arbitrate" => match roles.check(caller, plain(role, high, low)) {
            Ok(new) => {
                let lanes = roles.enter(new);
                tell_lanes(told, roles, &lanes);
            }
            Err(rule) => tell_rule(told, rule),
        },
        _ => return Err(NoAnswer),
    }
    tell(told, roles.primary(role));
    Ok(())
}

/// Of `arbitrate` with a lane, a role, and the low and the high half of an election id, and `leave` with a lane and a
/// role: the lanes that are told of it, each with its status, or the rule that it breaks, and the primary of the role.
pub fn roles(alloc: Global, asked: &[&str], told: &mut String) -> Result<(), NoAnswer> {
    let [part] = asked else {
        return Err(NoAnswer);
    };
    let mut roles = Roles::open(alloc)?;
    for step in steps(alloc, part)? {
        step_of(told, &mut roles, step)?;
    }
    Ok(())
}

fn configured(alloc: Global, type_url: &str, value: &str) -> Result<Role, NoAnswer> {
    let value = ByteList::from_vec(bytes(alloc, value)?);
    let type_url = Text::from_string(String::from_str(alloc, type_url)?);
    let config = Any { type_url, value };
    Ok(Role {
        id: 7,
        config: Some(config),
    })
}

/// Of a configuration's type and value: how many ids it has, with the first of them, or the rule that it breaks.
pub fn configuration(alloc: Global, asked: &[&str], told: &mut String) -> Result<(), NoAnswer> {
    let [type_url, value] = asked else {
        return Err(NoAnswer);
    };
    let role = configured(alloc, type_url, value)?;
    let mut roles = Roles::open(alloc)?;
    if let Err(rule) = roles.arbitrate(0, arbitration_update(&update(role))) {
        tell_rule(told, rule);
        return Ok(());
    }
    if let Some(session) = roles.session(0) {
        if let Some(ids) = &session.config {
            tell(told, ids.as_slice().len());
            tell(told, ids.as_slice().first().copied());
        }
    }
    Ok(())
}
