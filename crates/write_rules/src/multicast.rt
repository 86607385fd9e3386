//! The rules of a multicast group, and what its updates change (P4Runtime 1.3.0, "MulticastGroupEntry").
ghost use Rattle.std.specs.Prelude.{◌≡◌, ◌≤◌, length, true};
ghost use Rattle.std.specs.List.{list_all, list_any};
ghost use Rattle.std.specs.Option.{option_map};
ghost use Rattle.plane_spec.specs.Multicast.{is_multicast_id, is_replica, same_replica, repeats_replica, are_replicas, multicast_flaw, multicast_cause, multicast_by, multicast_change, multicast_resolution, replication_resolution};
ghost use Rattle.plane_spec.specs.UpdateRules.{brings};

use crate::rules;
use p4_types::code::{Cause, Code, Rule};
use p4_types::messages::{MulticastGroupEntry, PacketReplicationEngineEntry, Replica};
use p4_types::multicast::{MulticastChange, MulticastGroup, REPLICA_LIMIT, Replicas};
use p4_types::table::{Change, UpdateKind};

fn is_multicast_id(id: u32) -> bool
    ensures { result ≡ is_multicast_id id }
{
    id != 0 && id <= 65535
}

fn is_replica(replica: Replica) -> bool
    ensures { result ≡ is_replica replica }
{
    replica.egress_port <= 510 && replica.instance <= 65535
}

fn same_replica(one: Replica, other: Replica) -> bool
    ensures { result ≡ same_replica one other }
{
    one.egress_port == other.egress_port && one.instance == other.instance
}

fn all_in_range(replicas: &[Replica]) -> bool
    ensures { result ≡ list_all is_replica replicas.now }
{
    for replica in replicas {
        if !is_replica(*replica) {
            return false;
        }
    }
    true
}

// Whether a replica stands there.
fn has_replica(replicas: &[Replica], replica: Replica) -> bool
    ensures { result ≡ list_any (same_replica replica) replicas.now }
{
    for other in replicas {
        if same_replica(replica, *other) {
            return true;
        }
    }
    false
}

fn repeats_replica(replicas: &[Replica]) -> bool
    ensures { result ≡ repeats_replica replicas.now }
{
    match replicas {
        [] => false,
        [first, others @ ..] => has_replica(others, *first) || repeats_replica(others),
    }
}

// U9.
fn are_replicas(replicas: &[Replica]) -> bool
    ensures { result ≡ are_replicas replicas.now }
{
    replicas.len() <= REPLICA_LIMIT && all_in_range(replicas) && !repeats_replica(replicas)
}

fn multicast_flaw(kind: UpdateKind, entry: &MulticastGroupEntry) -> Option<Code>
    ensures { result ≡ multicast_flaw kind entry.now }
{
    if rules::brings(kind) && !are_replicas(entry.replicas.as_slice()) {
        Some(Code::InvalidArgument)
    } else {
        None
    }
}

// The first rule of U4 to U9 that an update of a multicast group breaks.
#[tactic(auto, unfolding(plane_spec::specs::Multicast::multicast_cause))]
fn multicast_cause(
    scope: Option<&[u32]>,
    kind: UpdateKind,
    entry: &MulticastGroupEntry,
) -> Option<Cause>
    ensures { result ≡ multicast_cause (option_map (λ ids. ids.now) scope.entry) kind entry.now }
{
    if scope.is_some() {
        return rules::refused(Rule::U4, Code::PermissionDenied);
    }
    if !is_multicast_id(entry.multicast_group_id) {
        return rules::refused(Rule::U6, Code::InvalidArgument);
    }
    rules::refused_by(Rule::U9, multicast_flaw(kind, entry))
}

fn replicas_by(replicas: &[Replica]) -> Replicas
    requires { length replicas.now ≤ 32 }
    ensures { result ≡ replicas.now }
{
    let mut kept = Replicas::new();
    for replica in replicas {
        kept.push(*replica);
    }
    kept
}

fn multicast_by(entry: &MulticastGroupEntry) -> MulticastGroup
    requires { length entry.now.replicas ≤ 32 }
    ensures { result ≡ multicast_by entry.now }
{
    MulticastGroup {
        id: entry.multicast_group_id,
        replicas: replicas_by(entry.replicas.as_slice()),
    }
}

fn multicast_change(kind: UpdateKind, entry: &MulticastGroupEntry) -> MulticastChange
    requires { brings kind ≡ true → length entry.now.replicas ≤ 32 }
    ensures { result ≡ multicast_change kind entry.now }
{
    match kind {
        UpdateKind::Insert => MulticastChange::Insert(multicast_by(entry)),
        UpdateKind::Modify => MulticastChange::Modify(multicast_by(entry)),
        UpdateKind::Delete => MulticastChange::Delete(entry.multicast_group_id),
    }
}

fn multicast(
    scope: Option<&[u32]>,
    kind: UpdateKind,
    entry: &MulticastGroupEntry,
) -> Result<Change, Cause>
    ensures { result ≡ multicast_resolution (option_map (λ ids. ids.now) scope.entry) kind entry.now }
{
    match multicast_cause(scope, kind, entry) {
        Some(cause) => Err(cause),
        None => Ok(Change::Multicast(multicast_change(kind, entry))),
    }
}

/// What an update of a replication entry changes, or the first rule of U2 to U9 that it breaks.
pub(crate) fn resolve(
    scope: Option<&[u32]>,
    kind: UpdateKind,
    entry: &PacketReplicationEngineEntry,
) -> Result<Change, Cause>
    ensures { result ≡ replication_resolution (option_map (λ ids. ids.now) scope.entry) kind entry.now.multicast_group_entry }
{
    match &entry.multicast_group_entry {
        None => Err(Cause {
            rule: Rule::U2,
            code: Code::Unimplemented,
        }),
        Some(group) => multicast(scope, kind, group),
    }
}
