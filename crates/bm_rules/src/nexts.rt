//! Names of nodes and of calculations that stand for nothing.
ghost use Rattle.std.specs.Prelude.{◌≡◌, map, not, is_some, IfOk};
ghost use Rattle.std.specs.List.{list_any};
ghost use Rattle.bm_rules.specs.Names.{named, name_nothing};
ghost use Rattle.bm_rules.specs.References.{optional_name, node_names, table_nexts, conditional_nexts, nexts, list_names_nothing};

use crate::nodes::{self, Nodes};
use bm_records::raw::{Calculation, Checksum, Conditional, NextTable, Pipeline, RawProgram, Table};
use list_types::NoMemory;
use name_index::{Index, Name};
use std::alloc::Global;

fn optional_lacks(nodes: &Nodes, name: &Option<Name>) -> bool
    ensures { result ≡ name_nothing (node_names nodes.now.pipeline.now) (optional_name name.now) }
{
    match name {
        None => false,
        Some(name) => !nodes::is_node(nodes, name),
    }
}

fn any_next_lacks(nodes: &Nodes, nexts: &[NextTable]) -> bool
    ensures { result ≡ list_any (λ next. name_nothing (node_names nodes.now.pipeline.now) (optional_name next.node)) nexts.now }
{
    nexts.iter().any(|next| optional_lacks(nodes, &next.node))
}

#[tactic(auto, using(crate::proofs::Nothing::of_table))]
fn table_lacks(nodes: &Nodes, table: &Table) -> bool
    ensures { result ≡ name_nothing (node_names nodes.now.pipeline.now) (table_nexts table.now) }
{
    any_next_lacks(nodes, table.next_tables.as_slice())
        || optional_lacks(nodes, &table.base_default_next)
}

fn any_table_lacks(nodes: &Nodes, tables: &[Table]) -> bool
    ensures { result ≡ list_any (λ table. name_nothing (node_names nodes.now.pipeline.now) (table_nexts table)) tables.now }
{
    tables.iter().any(|table| table_lacks(nodes, table))
}

#[tactic(auto, using(crate::proofs::Nothing::of_both))]
fn conditional_lacks(nodes: &Nodes, conditional: &Conditional) -> bool
    ensures { result ≡ name_nothing (node_names nodes.now.pipeline.now) (conditional_nexts conditional.now) }
{
    optional_lacks(nodes, &conditional.true_next) || optional_lacks(nodes, &conditional.false_next)
}

fn any_conditional_lacks(nodes: &Nodes, conditionals: &[Conditional]) -> bool
    ensures { result ≡ list_any (λ x. name_nothing (node_names nodes.now.pipeline.now) (conditional_nexts x)) conditionals.now }
{
    conditionals
        .iter()
        .any(|conditional| conditional_lacks(nodes, conditional))
}

// Whether one of all names of nodes in a pipeline is that of none.
#[tactic(auto, using(crate::proofs::Nothing::of_pipeline))]
fn pipeline_lacks(nodes: &Nodes) -> bool
    ensures { result ≡ name_nothing (node_names nodes.now.pipeline.now) (nexts nodes.now.pipeline.now) }
{
    let pipeline = nodes.pipeline;
    optional_lacks(nodes, &pipeline.init_table)
        || any_table_lacks(nodes, pipeline.tables.as_slice())
        || any_conditional_lacks(nodes, pipeline.conditionals.as_slice())
}

fn node_names_nothing(alloc: Global, pipeline: &Pipeline) -> Result<bool, NoMemory>
    ensures { IfOk result (λ answer. answer ≡ name_nothing (node_names pipeline.now) (nexts pipeline.now)) }
{
    let nodes = Nodes::of(alloc, pipeline)?;
    Ok(pipeline_lacks(&nodes))
}

fn is_calculation(calculations: &Index<Calculation>, name: &Name) -> bool
    ensures { result ≡ is_some (named (λ x. x.name) name.now calculations.now) }
{
    calculations.named(name).is_some()
}

fn any_checksum_lacks(calculations: &Index<Calculation>, checksums: &[Checksum]) -> bool
    ensures { result ≡ list_any (λ x. not (is_some (named (λ c. c.name) x.calculation calculations.now))) checksums.now }
{
    checksums.iter().any(|checksum| !is_calculation(calculations, &checksum.calculation))
}

#[tactic(auto, using(crate::proofs::Nothing::of_named))]
fn calculation_names_nothing(alloc: Global, raw: &RawProgram) -> Result<bool, NoMemory>
    ensures { IfOk result (λ answer. answer ≡ name_nothing (map (λ x. x.name) raw.now.calculations) (map (λ x. x.calculation) raw.now.checksums)) }
{
    let calculations = Index::of(alloc, raw.calculations.as_slice())?;
    Ok(any_checksum_lacks(&calculations, raw.checksums.as_slice()))
}

/// Whether a name of a calculation or of a node stands for nothing.
pub(crate) fn list_names_nothing(alloc: Global, raw: &RawProgram) -> Result<bool, NoMemory>
    ensures { IfOk result (λ answer. answer ≡ list_names_nothing raw.now) }
{
    Ok(
        calculation_names_nothing(alloc, raw)?
            || node_names_nothing(alloc, &raw.pipelines.ingress)?
            || node_names_nothing(alloc, &raw.pipelines.egress)?,
    )
}
