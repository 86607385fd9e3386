//! The rules L4 to L15, and the first one that a program breaks.
ghost use Rattle.std.specs.Prelude.{◌≡◌, IfOk};
ghost use Rattle.bm_rules.specs.Flaw.{flaw, later_flaw};

use crate::scope::Scope;
use crate::{agreement, edges, keys, names, operations, references, twice};
use bm_records::raw::RawProgram;
use list_types::NoMemory;
use name_index::Index;
use p4_types::info::Info;
use std::alloc::Global;

// The first of L8 to L15.
fn later_flaw(alloc: Global, scope: &Scope, info: &Info) -> Result<Option<u8>, NoMemory>
    ensures { IfOk result (λ rule. rule ≡ later_flaw scope.now.raw.now info.now) }
{
    let raw = scope.raw;
    if operations::operations_unknown(raw) {
        return Ok(Some(8));
    }
    if !operations::expressions_typed(raw) {
        return Ok(Some(9));
    }
    if !agreement::tables_agree(scope, info) {
        return Ok(Some(10));
    }
    if !agreement::references_agree(alloc, raw, info)? {
        return Ok(Some(11));
    }
    if !agreement::profiles_agree(scope, info) {
        return Ok(Some(12));
    }
    if !agreement::counters_agree(scope, info) {
        return Ok(Some(13));
    }
    if !agreement::digests_agree(scope, info) {
        return Ok(Some(14));
    }
    if !agreement::has_egress_spec(scope) {
        return Ok(Some(15));
    }
    Ok(None)
}

#[tactic(auto, unfolding(crate::specs::Flaw::flaw))]
fn flaw_in(alloc: Global, scope: &Scope, info: &Info) -> Result<Option<u8>, NoMemory>
    ensures { IfOk result (λ rule. rule ≡ flaw scope.now.raw.now info.now) }
{
    let raw = scope.raw;
    if twice::names_clash(alloc, raw)? {
        return Ok(Some(4));
    }
    if !references::references_known(alloc, scope)? {
        return Ok(Some(5));
    }
    if keys::keys_exceed(scope) {
        return Ok(Some(1));
    }
    if edges::states_loop(alloc, &raw.parser)? {
        return Ok(Some(6));
    }
    if edges::nodes_loop(alloc, &raw.pipelines)? {
        return Ok(Some(7));
    }
    later_flaw(alloc, scope, info)
}

/// The first of the rules L4 to L15 that a program breaks under a P4Info, by its number; 1 where the key of a transition is
/// too wide. None where it breaks none.
pub fn flaw(alloc: Global, raw: &RawProgram, info: &Info) -> Result<Option<u8>, NoMemory>
    ensures { IfOk result (λ rule. rule ≡ flaw raw.now info.now) }
{
    let types = Index::of(alloc, raw.header_types.as_slice())?;
    let scope = Scope { raw, types };
    flaw_in(alloc, &scope, info)
}
