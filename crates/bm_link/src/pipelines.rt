//! A pipeline of a device configuration.
ghost use Rattle.std.specs.Prelude.{◌≡◌, None, IfOk};
ghost use Rattle.bm_json.specs.Program as json;
ghost use Rattle.bm_json.specs.Sound.{IsSound};
ghost use Rattle.bm_rules.specs.Flaw as rules;
ghost use Rattle.link_spec.specs.Linked.{program_of};
ghost use Rattle.bm_link.specs.Links.{refusal_of, LinksRaw, Links};

use crate::fault::LinkFault;
use crate::programs::program;
use bm_json::{JsonFault, read_json};
use bm_pipeline::Pipeline;
use bm_records::raw::RawProgram;
use list_types::{NoMemory, Refusal};
use p4info_model::P4Info;
use std::alloc::Global;

fn pipeline_of(alloc: Global, raw: &RawProgram, info: &P4Info) -> Result<Pipeline, NoMemory>
    requires sound { IsSound raw.now }
    requires within { json.flaw_of raw.now ≡ None }
    requires agrees { rules.flaw raw.now info.now ≡ None }
    ensures { IfOk result (λ pipeline. pipeline ≡ program_of raw.now info.now) }
{
    let program = program(alloc, raw, info)?;
    Ok(Pipeline::new(program))
}

fn link_raw(alloc: Global, raw: &RawProgram, info: &P4Info) -> Result<Pipeline, Refusal<LinkFault>>
    requires sound { IsSound raw.now }
    requires within { json.flaw_of raw.now ≡ None }
    ensures { LinksRaw raw.now info.now result }
{
    match bm_rules::flaw(alloc, raw, info.info())? {
        Some(rule) => Err(Refusal::For(LinkFault { rule })),
        None => {
            let pipeline = pipeline_of(alloc, raw, info)?;
            Ok(pipeline)
        }
    }
}

fn refusal_of(refusal: Refusal<JsonFault>) -> Refusal<LinkFault>
    ensures { result ≡ refusal_of refusal }
{
    match refusal {
        Refusal::NoMemory => Refusal::NoMemory,
        Refusal::For(fault) => Refusal::For(LinkFault { rule: fault.rule }),
    }
}

/// The pipeline of a device configuration beside its P4Info, or the first rule that is broken.
pub fn link(alloc: Global, info: &P4Info, json: &[u8]) -> Result<Pipeline, Refusal<LinkFault>>
    ensures { Links info.now json.now result }
{
    let mut place = None;
    match read_json(alloc, json, &mut place) {
        Ok(raw) => link_raw(alloc, &raw, info),
        Err(refusal) => Err(refusal_of(refusal)),
    }
}
