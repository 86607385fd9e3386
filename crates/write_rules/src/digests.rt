//! The rules of a digest entry, and what its updates change (P4Runtime 1.3.0, "DigestEntry").
ghost use Rattle.std.specs.Prelude.{◌≡◌};
ghost use Rattle.std.specs.Option.{option_map};
ghost use Rattle.plane_spec.specs.ProfileRules.{is_right_digest, digest_flaw, digest_cause, digest_change, digest_resolution};

use crate::rules;
use p4_types::code::{Cause, Code, Rule};
use p4_types::messages::{DigestConfig, DigestEntry};
use p4_types::table::{Change, DigestChange, UpdateKind};
use p4info_model::P4Info;

fn is_right(config: DigestConfig) -> bool
    ensures { result ≡ is_right_digest config }
{
    config.max_timeout_ns >= 0
        && config.ack_timeout_ns >= 0
        && config.max_list_size >= 0
        && config.max_list_size <= 256
}

fn digest_flaw(kind: UpdateKind, entry: DigestEntry) -> Option<Code>
    ensures { result ≡ digest_flaw kind entry }
{
    if rules::brings(kind) && !is_right(entry.config) {
        Some(Code::InvalidArgument)
    } else {
        None
    }
}

// The first rule of U3 to U9 that an update of a digest entry breaks.
#[tactic(auto, unfolding(plane_spec::specs::ProfileRules::digest_cause))]
fn digest_cause(
    info: &P4Info,
    scope: Option<&[u32]>,
    kind: UpdateKind,
    entry: DigestEntry,
) -> Option<Cause>
    ensures { result ≡ digest_cause info.now (option_map (λ ids. ids.now) scope.entry) kind entry }
{
    if info.digest(entry.digest_id).is_none() {
        return rules::refused(Rule::U3, Code::NotFound);
    }
    if rules::is_foreign(scope, entry.digest_id) {
        return rules::refused(Rule::U4, Code::PermissionDenied);
    }
    rules::refused_by(Rule::U9, digest_flaw(kind, entry))
}

fn digest_change(kind: UpdateKind, entry: DigestEntry) -> DigestChange
    ensures { result ≡ digest_change kind entry }
{
    match kind {
        UpdateKind::Insert => DigestChange::Insert(entry),
        UpdateKind::Modify => DigestChange::Modify(entry),
        UpdateKind::Delete => DigestChange::Delete(entry.digest_id),
    }
}

/// What an update of a digest entry changes, or the first rule of U3 to U9 that it breaks.
pub(crate) fn resolve(
    info: &P4Info,
    scope: Option<&[u32]>,
    kind: UpdateKind,
    entry: DigestEntry,
) -> Result<Change, Cause>
    ensures { result ≡ digest_resolution info.now (option_map (λ ids. ids.now) scope.entry) kind entry }
{
    match digest_cause(info, scope, kind, entry) {
        Some(cause) => Err(cause),
        None => Ok(Change::Digest(digest_change(kind, entry))),
    }
}
