//! Live sessions, and the roles that were named.
ghost use Rattle.std.specs.Prelude.{◌≡◌, ◌==◌};
ghost use Rattle.std.specs.List.{find};
ghost use Rattle.std.specs.Option.{option_copied};
ghost use Rattle.role_arbiter.specs.Election.{election_number};
ghost use Rattle.role_arbiter.specs.State.{session_in, greatest_or_zero, greatest_in, primary_with, primary_in, status_by};
ghost use Rattle.role_arbiter.specs.Placing.{placed_at, has_role_beside};
ghost use Rattle.role_arbiter.specs.Telling.{same_config, differs};

use p4_types::code::Code;
use p4_types::ids::Ids;
use p4_types::messages::Uint128;

/// A controller's live session: its lane, its role, and the election id and the configuration that
/// it last gave.
#[derive(Drop)]
pub struct Session {
    pub caller: u16,
    pub role: u64,
    pub election_id: Uint128,
    /// The ids that the role may write, or `None` where it may write all.
    pub config: Option<Ids>,
}

/// A session that an arbitration makes or changes, with where the roles have what it takes the place of.
#[derive(Drop)]
pub struct Placed {
    pub session: Session,
    /// Where the caller's session stands among the live ones, if it has one.
    pub(crate) place: Option<usize>,
    /// Where its role stands among those that were named, if it was.
    pub(crate) known: Option<usize>,
}

/// A role that was named in an accepted arbitration, and the greatest election id that it ever
/// received, from sessions that ended too.
#[derive(Clone, Copy)]
pub struct NamedRole {
    pub role: u64,
    pub greatest: Uint128,
}

/// An election id as the number by which ids are compared.
pub fn election_number(id: Uint128) -> u128
    ensures { result ≡ election_number id }
{
    u128::from(id.high) * (1 << 64) + u128::from(id.low)
}

pub(crate) fn session_in(sessions: &[Session], caller: u16) -> Option<&Session>
    ensures { option_copied result ≡ session_in sessions.now caller }
{
    sessions.iter().find(|session| session.caller == caller)
}

/// The session at a place, if there is one.
pub(crate) fn session_at(sessions: &[Session], place: Option<usize>) -> Option<&Session>
    ensures { option_copied result ≡ placed_at place sessions.now }
{
    match place {
        None => None,
        Some(place) => sessions.get(place),
    }
}

/// The role at a place, if there is one.
pub(crate) fn known_at(named: &[NamedRole], place: Option<usize>) -> Option<&NamedRole>
    ensures { option_copied result ≡ placed_at place named.now }
{
    match place {
        None => None,
        Some(place) => named.get(place),
    }
}

/// The greatest election id that a named role received, 0 for a role that was not named.
pub(crate) fn greatest_of(known: Option<&NamedRole>) -> Uint128
    ensures { result ≡ greatest_or_zero (option_copied known.entry) }
{
    match known {
        Some(known) => known.greatest,
        None => Uint128 { high: 0, low: 0 },
    }
}

/// There is a session, and its role is another.
pub(crate) fn has_role_beside(session: Option<&Session>, role: u64) -> bool
    ensures { result ≡ has_role_beside role (option_copied session.entry) }
{
    match session {
        Some(session) => session.role != role,
        None => false,
    }
}

fn known_in(named: &[NamedRole], role: u64) -> Option<&NamedRole>
    ensures { option_copied result ≡ find (λ known. known.role == role) named.now }
{
    named.iter().find(|known| known.role == role)
}

pub(crate) fn greatest_in(named: &[NamedRole], role: u64) -> Uint128
    ensures { result ≡ greatest_in named.now role }
{
    greatest_of(known_in(named, role))
}

pub(crate) fn primary_in<'a>(
    sessions: &'a [Session],
    named: &[NamedRole],
    role: u64,
) -> Option<&'a Session>
    ensures { option_copied result ≡ primary_in sessions.now named.now role }
{
    primary_with(sessions, role, greatest_in(named, role))
}

/// The live session of a role that bears this election id, if it is not 0.
pub(crate) fn primary_with(sessions: &[Session], role: u64, greatest: Uint128) -> Option<&Session>
    ensures { option_copied result ≡ primary_with sessions.now role greatest }
{
    let greatest = election_number(greatest);
    sessions.iter().find(|session| {
        session.role == role
            && election_number(session.election_id) != 0
            && election_number(session.election_id) == greatest
    })
}

fn same_config(a: &Option<Ids>, b: &Option<Ids>) -> bool
    ensures { result ≡ same_config a.now b.now }
{
    match (a, b) {
        (None, None) => true,
        (Some(a), Some(b)) => a.as_slice() == b.as_slice(),
        _ => false,
    }
}

pub(crate) fn differs(before: Option<&Session>, after: Option<&Session>) -> bool
    ensures { result ≡ differs (option_copied before.entry) (option_copied after.entry) }
{
    match (before, after) {
        (None, None) => false,
        (Some(before), Some(after)) => {
            before.caller != after.caller
                || election_number(before.election_id) != election_number(after.election_id)
                || !same_config(&before.config, &after.config)
        }
        _ => true,
    }
}

pub(crate) fn copied(session: &Session) -> Session
    ensures { result ≡ session.now }
{
    let config = match &session.config {
        None => None,
        Some(ids) => Some(ids.copy()),
    };
    Session {
        caller: session.caller,
        role: session.role,
        election_id: session.election_id,
        config,
    }
}

pub(crate) fn copied_of(session: Option<&Session>) -> Option<Session>
    ensures { result ≡ option_copied session.entry }
{
    match session {
        None => None,
        Some(session) => Some(copied(session)),
    }
}

/// What a session is told: whether it is the primary of its role, or there is another one, or none.
pub fn status_by(primary: Option<&Session>, caller: u16) -> Code
    ensures { result ≡ status_by (option_copied primary.entry) caller }
{
    match primary {
        None => Code::NotFound,
        Some(primary) => {
            if primary.caller == caller {
                Code::Ok
            } else {
                Code::AlreadyExists
            }
        }
    }
}
