//! Forwarding pipeline configurations.
ghost use Rattle.std.specs.Prelude.{◌≡◌, ◌++◌, [], ◌∷◌, IfOk, OnOk};
ghost use Rattle.std.specs.List.{filter_map};
ghost use Rattle.plane_spec.specs.Config.{own_default, own_defaults};

use bm_pipeline::Pipeline;
use bm_pipeline::program::Program;
use bm_pipeline::tables::Table;
use list_types::{ByteList, List, NoMemory};
use p4_types::table::{ActionCall, DefaultAction};
use p4info_model::P4Info;
use std::alloc::Global;
use std::marker::Model;

/// A forwarding pipeline configuration (P4Runtime 1.3.0, "ForwardingPipelineConfig"): its bytes as they were given, and
/// what they mean.
pub struct Config {
    p4info: ByteList,
    device_config: ByteList,
    cookie: u64,
    info: P4Info,
    pipeline: Pipeline,
    defaults: List<DefaultAction>,
}

impl Model for Config {
    ghost use Rattle.plane_spec.specs.Config.{Config, own_defaults};
    ghost use Rattle.std.specs.Prelude.{◌≡◌};
    ghost use Rattle.bm_expr.specs.TreeCode.{number_code, truth_code};
    ghost use Rattle.std.specs.Coded.{codes};

    ghost coded = { Prim.hlevel (codes, number_code, truth_code) };

    ghost Value = { Config };

    ghost view = { λ c. record { p4info = c.p4info; device_config = c.device_config; cookie = c.cookie; info = c.info; program = c.pipeline } };

    ghost invariant = { λ c. c.defaults ≡ own_defaults c.pipeline };
}

// Written out, so that those who let a configuration go need not look into it.
impl Drop for Config {
    fn drop(self) {
        let Self {
            p4info: _p4info,
            device_config: _device_config,
            cookie: _,
            info: _info,
            pipeline: _pipeline,
            defaults: _defaults,
        } = self;
    }
}

// The default action that a table has by itself, as the P4Info names it.
fn own_default(table: &Table) -> Option<DefaultAction>
    ensures { result ≡ own_default table.now }
{
    let entry = table.default_entry.as_ref()?;
    match (table.id, entry.action.reference) {
        (Some(table), Some(action)) => Some(DefaultAction {
            table,
            action: ActionCall {
                action,
                arguments: entry.action_data.copy(),
            },
        }),
        _ => None,
    }
}

// The default actions that a program gives its tables, as the P4Info names them.
fn own_defaults(alloc: Global, program: &Program) -> Result<List<DefaultAction>, NoMemory>
    ensures { IfOk result (λ defaults. defaults ≡ own_defaults program.now) }
{
    let mut defaults = List::new(alloc);
    for table in program.tables.as_slice() {
        push_own(&mut defaults, table)?;
    }
    Ok(defaults)
}

fn push_own(defaults: &mut List<DefaultAction>, table: &Table) -> Result<(), NoMemory>
    ensures { OnOk result (defaults.new ≡ defaults.old ++ filter_map own_default (table.now ∷ [])) }
{
    if let Some(default) = own_default(table) {
        defaults.push(default)?;
    }
    Ok(())
}

impl Config {
    /// A configuration of these bytes, which mean these objects and this pipeline.
    pub fn new(
        alloc: Global,
        p4info: ByteList,
        device_config: ByteList,
        cookie: u64,
        info: P4Info,
        pipeline: Pipeline,
    ) -> Result<Config, NoMemory>
        ensures { IfOk result (λ config. config ≡ record { p4info = p4info; device_config = device_config; cookie = cookie; info = info; program = pipeline }) }
    {
        let defaults = own_defaults(alloc, pipeline.program())?;
        Ok(Config {
            p4info,
            device_config,
            cookie,
            info,
            pipeline,
            defaults,
        })
    }

    /// The bytes of its P4Info as they were given.
    pub fn p4info(&self) -> &[u8]
        ensures { result.now ≡ self.now.p4info }
    {
        self.p4info.as_slice()
    }

    /// The bytes of its device configuration as they were given.
    pub fn device_config(&self) -> &[u8]
        ensures { result.now ≡ self.now.device_config }
    {
        self.device_config.as_slice()
    }

    /// The cookie of the configuration; 0 where none was given.
    pub fn cookie(&self) -> u64
        ensures { result ≡ self.now.cookie }
    {
        self.cookie
    }

    /// The objects of the program.
    pub fn info(&self) -> &P4Info
        ensures { result.now ≡ self.now.info }
    {
        &self.info
    }

    /// The program that packets run through.
    pub fn pipeline(&self) -> &Pipeline
        ensures { result.now ≡ self.now.program }
    {
        &self.pipeline
    }

    /// The default actions that the program gives its tables, as the P4Info names them.
    pub fn defaults(&self) -> &[DefaultAction]
        ensures { result.now ≡ own_defaults self.now.program }
    {
        self.defaults.as_slice()
    }
}
