//! What a configuration means, or the first rule that it breaks.
ghost use Rattle.std.specs.Prelude.{◌≡◌, IfOk};
ghost use Rattle.p4v1_read.specs.Nested.{read};
ghost use Rattle.p4v1_read.specs.P4Infos.{p4info_of};
ghost use Rattle.link_spec.specs.Configured.{program_meant, cookie_of, config_with, meant_under, config_meant};
ghost use Rattle.config_rules.specs.Answers.{Means, MeansProgram};
ghost use Rattle.config_rules.specs.Flaw.{rule_of, flaw_of, config_flaw};

use bm_link::link;
use bm_pipeline::Pipeline;
use list_types::{ByteList, List, NoMemory, Refusal};
use p4_types::code::ConfigRule;
use p4_types::messages::{Cookie, ForwardingPipelineConfig};
use p4info_model::{P4Info, read_info};
use p4v1_read::read_config;
use plane_state::Config;
use std::alloc::Global;

fn copied(alloc: Global, bytes: &[u8]) -> Result<ByteList, NoMemory>
    ensures { IfOk result (λ copy. copy ≡ bytes.now) }
{
    let mut copy = List::new(alloc);
    copy.extend_from_slice(bytes)?;
    Ok(copy)
}

fn cookie_of(cookie: Option<Cookie>) -> u64
    ensures { result ≡ cookie_of cookie }
{
    match cookie {
        None => 0,
        Some(cookie) => cookie.cookie,
    }
}

// The pipeline that a device configuration means under a P4Info, or the rule of L1 to L15 that it breaks first.
fn pipeline_of(
    alloc: Global,
    info: &P4Info,
    program: &[u8],
) -> Result<Pipeline, Refusal<ConfigRule>>
    ensures { MeansProgram result (program_meant info.now program.now) }
{
    match link(alloc, info, program) {
        Ok(pipeline) => Ok(pipeline),
        Err(Refusal::For(fault)) => Err(Refusal::For(ConfigRule::Program(fault.rule))),
        Err(Refusal::NoMemory) => Err(Refusal::NoMemory),
    }
}

// The configuration of these objects and what its program means under them.
fn config_with(
    alloc: Global,
    config: &ForwardingPipelineConfig,
    p4info: &[u8],
    info: P4Info,
) -> Result<Config, Refusal<ConfigRule>>
    ensures { Means result (config_with config.now p4info.now info (program_meant info config.now.p4_device_config)) }
{
    let pipeline = pipeline_of(alloc, &info, config.p4_device_config.as_slice())?;
    let device_config = copied(alloc, config.p4_device_config.as_slice())?;
    let p4info = copied(alloc, p4info)?;
    let config = Config::new(
        alloc,
        p4info,
        device_config,
        cookie_of(config.cookie),
        info,
        pipeline,
    )?;
    Ok(config)
}

// What a configuration means with the bytes of its P4Info.
fn meant_under(
    alloc: Global,
    config: &ForwardingPipelineConfig,
    p4info: &[u8],
) -> Result<Config, Refusal<ConfigRule>>
    ensures { Means result (meant_under (read p4info_of p4info.now) config.now p4info.now) }
{
    match read_info(alloc, p4info) {
        Ok(info) => config_with(alloc, config, p4info, info),
        Err(Refusal::NoMemory) => Err(Refusal::NoMemory),
        Err(Refusal::For(fault)) => Err(Refusal::For(ConfigRule::Info(fault.rule))),
    }
}

/// What a ForwardingPipelineConfig means, or the first rule that it breaks: I1 where it has no P4Info, else of its
/// P4Info, else of its program under it.
#[tactic(auto, unfolding(link_spec::specs::Configured::config_meant))]
pub fn configuration(
    alloc: Global,
    config: &ForwardingPipelineConfig,
) -> Result<Config, Refusal<ConfigRule>>
    ensures { Means result (config_meant config.now) }
{
    match &config.p4info {
        None => Err(Refusal::For(ConfigRule::Info(1))),
        Some(p4info) => meant_under(alloc, config, p4info.as_slice()),
    }
}

// The first rule that a configuration breaks, if it breaks one.
fn rule_of(alloc: Global, config: &ForwardingPipelineConfig) -> Result<Option<ConfigRule>, NoMemory>
    ensures { IfOk result (λ rule. rule ≡ rule_of (config_meant config.now)) }
{
    match configuration(alloc, config) {
        Ok(_) => Ok(None),
        Err(Refusal::For(rule)) => Ok(Some(rule)),
        Err(Refusal::NoMemory) => Err(NoMemory),
    }
}

fn flaw_of(
    alloc: Global,
    config: &Option<ForwardingPipelineConfig>,
) -> Result<Option<ConfigRule>, NoMemory>
    ensures { IfOk result (λ rule. rule ≡ flaw_of config.now) }
{
    match config {
        None => Ok(Some(ConfigRule::Info(1))),
        Some(config) => rule_of(alloc, config),
    }
}

/// The first rule that the bytes of a ForwardingPipelineConfig break: I1 where they are none.
#[tactic(auto, unfolding(crate::specs::Flaw::config_flaw))]
pub fn config_flaw(alloc: Global, bytes: &[u8]) -> Result<Option<ConfigRule>, NoMemory>
    ensures { IfOk result (λ rule. rule ≡ config_flaw bytes.now) }
{
    let config = read_config(alloc, bytes)?;
    flaw_of(alloc, &config)
}
