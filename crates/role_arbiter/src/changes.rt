//! Changes of the sessions and of the roles, and who is told of them.
ghost use Rattle.std.specs.Prelude.{◌≡◌, ◌==◌, ◌<◌, ◌≤◌, nat_lt, false, filter, length, not, vec_len, vec_capacity, position};
ghost use Rattle.std.specs.List.{position_or_len};
ghost use Rattle.role_arbiter.specs.Arbitration.{id_is_taken, lacks_session, lacks_role, inserted, replaced, with_session, greater, received};
ghost use Rattle.role_arbiter.specs.Placing.{place_of, place_of_role, lacks};
ghost use Rattle.role_arbiter.specs.State.{greatest_in};
ghost use Rattle.role_arbiter.specs.Undo.{session_back, named_back, with_greatest};
ghost use Rattle.role_arbiter.specs.Telling.{with_others, others_of};

use crate::numbers::{Lanes, SESSION_LIMIT};
use crate::sessions::{NamedRole, Session, election_number};
use p4_types::messages::Uint128;

/// The most roles that are ever named.
pub const ROLE_LIMIT: usize = 64;

pub(crate) fn id_is_taken(sessions: &[Session], caller: u16, role: u64, id: Uint128) -> bool
    ensures { result ≡ id_is_taken sessions.now caller role id }
{
    let id = election_number(id);
    sessions.iter().any(|session| {
        session.caller != caller
            && session.role == role
            && election_number(session.election_id) != 0
            && election_number(session.election_id) == id
    })
}

/// Whether there would be a 33rd live session, where the caller has none yet.
pub(crate) fn lacks_session(sessions: &[Session], place: Option<usize>) -> bool
    ensures { result ≡ lacks 32 place sessions.now }
{
    place.is_none() && sessions.len() >= SESSION_LIMIT
}

/// Whether there would be a 65th role, where it was not named yet.
pub(crate) fn lacks_role(named: &[NamedRole], known: Option<usize>) -> bool
    ensures { result ≡ lacks 64 known named.now }
{
    known.is_none() && named.len() >= ROLE_LIMIT
}

/// Where a caller's session stands, if it has one.
pub(crate) fn place_of(sessions: &[Session], caller: u16) -> Option<usize>
    ensures { result ≡ place_of sessions.now caller }
{
    sessions.iter().position(|session| session.caller == caller)
}

fn first_greater(sessions: &[Session], caller: u16) -> Option<usize>
    ensures { result ≡ position (λ session. nat_lt caller session.caller) sessions.now }
{
    sessions.iter().position(|session| caller < session.caller)
}

#[tactic(auto, using(crate::proofs::Places::first_greater_some))]
fn place_before_greater(sessions: &[Session], caller: u16) -> usize
    ensures { result ≡ position_or_len (λ session. nat_lt caller session.caller) sessions.now }
{
    match first_greater(sessions, caller) {
        Some(place) => place,
        None => sessions.len(),
    }
}

/// Where a role stands among those that were named, if it was.
pub(crate) fn place_of_role(named: &[NamedRole], role: u64) -> Option<usize>
    ensures { result ≡ place_of_role named.now role }
{
    named.iter().position(|known| known.role == role)
}

/// Adds a session before those of greater callers.
pub(crate) fn insert(sessions: &mut Vec<Session>, session: Session)
    requires few { vec_len sessions.old < 32 }
    requires room { 32 ≤ vec_capacity sessions.old }
    ensures items { sessions.new.items ≡ inserted sessions.old.items session }
    ensures few { vec_len sessions.new ≤ 32 }
    ensures room { 32 ≤ vec_capacity sessions.new }
{
    let place = place_before_greater(sessions, session.caller);
    sessions.insert(place, session).unwrap();
}

/// Puts a session into its place, or, where its caller has none, before those of greater callers.
#[tactic(auto, using(crate::proofs::Places::put_at))]
pub(crate) fn put(sessions: &mut Vec<Session>, place: Option<usize>, session: Session)
    requires few { vec_len sessions.old ≤ 32 }
    requires room { 32 ≤ vec_capacity sessions.old }
    requires placed { place ≡ place_of sessions.old.items session.caller }
    requires served { lacks_session sessions.old.items session.caller ≡ false }
    ensures items { sessions.new.items ≡ with_session sessions.old.items session }
    ensures few { vec_len sessions.new ≤ 32 }
    ensures room { 32 ≤ vec_capacity sessions.new }
{
    match place {
        Some(place) => sessions[place] = session,
        None => insert(sessions, session),
    }
}

fn greater(a: Uint128, b: Uint128) -> Uint128
    ensures { result ≡ greater a b }
{
    if election_number(a) < election_number(b) {
        b
    } else {
        a
    }
}

/// Gives a role, at its place or at the end, the election id that it received; the greatest that it has received then.
#[tactic(auto, using(crate::proofs::Places::receive_at))]
pub(crate) fn receive(
    named: &mut Vec<NamedRole>,
    known: Option<usize>,
    role: u64,
    id: Uint128,
) -> Uint128
    requires room { 64 ≤ vec_capacity named.old }
    requires placed { known ≡ place_of_role named.old.items role }
    requires served { lacks_role named.old.items role ≡ false }
    ensures items { named.new.items ≡ received named.old.items role id }
    ensures room { 64 ≤ vec_capacity named.new }
    ensures greatest { result ≡ greatest_in (received named.old.items role id) role }
{
    match known {
        Some(place) => {
            let known = named[place];
            let greatest = greater(known.greatest, id);
            named[place] = NamedRole {
                role: known.role,
                greatest,
            };
            greatest
        }
        None => {
            named.push_reserved(NamedRole { role, greatest: id });
            id
        }
    }
}

pub(crate) fn remove(sessions: &mut Vec<Session>, caller: u16)
    ensures items { sessions.new.items ≡ filter (λ session. not (session.caller == caller)) sessions.old.items }
    ensures room { vec_capacity sessions.new ≡ vec_capacity sessions.old }
{
    sessions.retain(|session| session.caller != caller);
}

/// Puts the session back that a caller had, or takes away the one that it has.
pub(crate) fn session_back(sessions: &mut Vec<Session>, caller: u16, former: Option<Session>)
    ensures items { sessions.new.items ≡ session_back caller former sessions.old.items }
    ensures room { vec_capacity sessions.new ≡ vec_capacity sessions.old }
{
    match former {
        None => remove(sessions, caller),
        Some(former) => replace(sessions, former),
    }
}

// Puts a session in the place of its caller's, if there is one.
#[tactic(auto, using(crate::proofs::Places::replaced_where))]
fn replace(sessions: &mut Vec<Session>, session: Session)
    ensures items { sessions.new.items ≡ replaced sessions.old.items session }
    ensures room { vec_capacity sessions.new ≡ vec_capacity sessions.old }
{
    if let Some(place) = place_of(sessions, session.caller) {
        sessions[place] = session;
    }
}

/// Gives a role the greatest election id again that it had, or takes the last one away.
pub(crate) fn named_back(named: &mut Vec<NamedRole>, role: u64, former: Option<Uint128>)
    ensures items { named.new.items ≡ named_back role former named.old.items }
    ensures room { vec_capacity named.new ≡ vec_capacity named.old }
{
    match former {
        None => {
            named.pop();
        }
        Some(greatest) => set_greatest(named, role, greatest),
    }
}

#[tactic(auto, using(crate::proofs::Places::greatest_where))]
fn set_greatest(named: &mut Vec<NamedRole>, role: u64, greatest: Uint128)
    ensures items { named.new.items ≡ with_greatest named.old.items role greatest }
    ensures room { vec_capacity named.new ≡ vec_capacity named.old }
{
    if let Some(place) = place_of_role(named, role) {
        let known = named[place];
        named[place] = NamedRole {
            role: known.role,
            greatest,
        };
    }
}

pub(crate) fn with_others(others: bool, new: &Session, sessions: &[Session]) -> Lanes
    requires { length sessions.now ≤ 32 }
    ensures { result ≡ with_others others new.now sessions.now }
{
    let mut told = Lanes::new();
    for session in sessions {
        if session.caller == new.caller || others && session.role == new.role {
            told.push(session.caller);
        }
    }
    told
}

pub(crate) fn others_of(caller: u16, role: u64, sessions: &[Session]) -> Lanes
    requires { length sessions.now ≤ 32 }
    ensures { result ≡ others_of caller role sessions.now }
{
    let mut told = Lanes::new();
    for session in sessions {
        if session.caller != caller && session.role == role {
            told.push(session.caller);
        }
    }
    told
}
