//! The graphs of the parser and of a pipeline's nodes: L6 and L7.
ghost use Rattle.std.specs.Prelude.{◌≡◌, ◌++◌, map, IfOk, OnOk};
ghost use Rattle.std.specs.List.{flat_map};
ghost use Rattle.bm_rules.specs.Graphs.{has_loop, as_places, next_state, state_edges, optional_node, table_edges, conditional_edges, node_edges};
ghost use Rattle.bm_rules.specs.Flaw.{nodes_loop};

use crate::nodes::{self, Nodes};
use crate::{graphs, names};
use bm_records::raw::{
    Conditional, NextTable, ParseState, Parser, Pipeline, Pipelines, Table, Transition,
};
use list_types::{List, NoMemory};
use name_index::Name;
use std::alloc::Global;

fn push_place(edges: &mut List<usize>, place: Option<usize>) -> Result<(), NoMemory>
    ensures { OnOk result (edges.new ≡ edges.old ++ as_places place) }
{
    if let Some(place) = place {
        edges.push(place)?;
    }
    Ok(())
}

fn next_state(states: &[ParseState], name: &Option<Name>) -> Option<usize>
    ensures { result ≡ next_state states.now name.now }
{
    match name {
        None => None,
        Some(name) => names::place_of(states, name.as_str()),
    }
}

fn edges_of_state(
    alloc: Global,
    states: &[ParseState],
    transitions: &[Transition],
) -> Result<List<usize>, NoMemory>
    ensures { IfOk result (λ edges. edges ≡ flat_map (λ x. as_places (next_state states.now x.next_state)) transitions.now) }
{
    let mut edges = List::new(alloc);
    for transition in transitions {
        push_place(&mut edges, next_state(states, &transition.next_state))?;
    }
    Ok(edges)
}

fn state_edges(alloc: Global, states: &[ParseState]) -> Result<List<List<usize>>, NoMemory>
    ensures { IfOk result (λ edges. edges ≡ state_edges states.now) }
{
    let mut all = List::new(alloc);
    for state in states {
        let edges = edges_of_state(alloc, states, state.transitions.as_slice())?;
        all.push(edges)?;
    }
    Ok(all)
}

/// Whether the parser has a loop.
#[tactic(auto, using(crate::proofs::Inside::states_inside))]
pub(crate) fn states_loop(alloc: Global, parser: &Parser) -> Result<bool, NoMemory>
    ensures { IfOk result (λ answer. answer ≡ has_loop (state_edges parser.now.parse_states)) }
{
    let edges = state_edges(alloc, parser.parse_states.as_slice())?;
    graphs::has_loop(alloc, edges.as_slice())
}

fn push_nexts(edges: &mut List<usize>, nodes: &Nodes, nexts: &[NextTable]) -> Result<(), NoMemory>
    ensures { OnOk result (edges.new ≡ edges.old ++ flat_map (λ next. as_places (optional_node nodes.now.pipeline.now next.node)) nexts.now) }
{
    for next in nexts {
        push_place(edges, nodes::optional_node(nodes, &next.node))?;
    }
    Ok(())
}

fn table_edges(alloc: Global, nodes: &Nodes, table: &Table) -> Result<List<usize>, NoMemory>
    ensures { IfOk result (λ edges. edges ≡ table_edges nodes.now.pipeline.now table.now) }
{
    let mut edges = List::new(alloc);
    push_nexts(&mut edges, nodes, table.next_tables.as_slice())?;
    push_place(
        &mut edges,
        nodes::optional_node(nodes, &table.base_default_next),
    )?;
    Ok(edges)
}

fn conditional_edges(
    alloc: Global,
    nodes: &Nodes,
    conditional: &Conditional,
) -> Result<List<usize>, NoMemory>
    ensures { IfOk result (λ edges. edges ≡ conditional_edges nodes.now.pipeline.now conditional.now) }
{
    let mut edges = List::new(alloc);
    push_place(
        &mut edges,
        nodes::optional_node(nodes, &conditional.true_next),
    )?;
    push_place(
        &mut edges,
        nodes::optional_node(nodes, &conditional.false_next),
    )?;
    Ok(edges)
}

fn push_tables(
    alloc: Global,
    all: &mut List<List<usize>>,
    nodes: &Nodes,
    tables: &[Table],
) -> Result<(), NoMemory>
    ensures { OnOk result (all.new ≡ all.old ++ map (table_edges nodes.now.pipeline.now) tables.now) }
{
    for table in tables {
        let edges = table_edges(alloc, nodes, table)?;
        all.push(edges)?;
    }
    Ok(())
}

fn push_conditionals(
    alloc: Global,
    all: &mut List<List<usize>>,
    nodes: &Nodes,
    conditionals: &[Conditional],
) -> Result<(), NoMemory>
    ensures { OnOk result (all.new ≡ all.old ++ map (conditional_edges nodes.now.pipeline.now) conditionals.now) }
{
    for conditional in conditionals {
        let edges = conditional_edges(alloc, nodes, conditional)?;
        all.push(edges)?;
    }
    Ok(())
}

// The edges of each node of a pipeline.
fn edges_of(alloc: Global, nodes: &Nodes) -> Result<List<List<usize>>, NoMemory>
    ensures { IfOk result (λ edges. edges ≡ node_edges nodes.now.pipeline.now) }
{
    let pipeline = nodes.pipeline;
    let mut all = List::new(alloc);
    push_tables(alloc, &mut all, nodes, pipeline.tables.as_slice())?;
    push_conditionals(alloc, &mut all, nodes, pipeline.conditionals.as_slice())?;
    Ok(all)
}

fn node_edges(alloc: Global, pipeline: &Pipeline) -> Result<List<List<usize>>, NoMemory>
    ensures { IfOk result (λ edges. edges ≡ node_edges pipeline.now) }
{
    let nodes = Nodes::of(alloc, pipeline)?;
    edges_of(alloc, &nodes)
}

#[tactic(auto, using(crate::proofs::Inside::nodes_inside))]
fn pipeline_loops(alloc: Global, pipeline: &Pipeline) -> Result<bool, NoMemory>
    ensures { IfOk result (λ answer. answer ≡ has_loop (node_edges pipeline.now)) }
{
    let edges = node_edges(alloc, pipeline)?;
    graphs::has_loop(alloc, edges.as_slice())
}

/// Whether the tables and conditionals of a pipeline lead back to where they came from.
#[tactic(auto, unfolding(crate::specs::Flaw::nodes_loop))]
pub(crate) fn nodes_loop(alloc: Global, pipelines: &Pipelines) -> Result<bool, NoMemory>
    ensures { IfOk result (λ answer. answer ≡ nodes_loop pipelines.now) }
{
    Ok(pipeline_loops(alloc, &pipelines.ingress)? || pipeline_loops(alloc, &pipelines.egress)?)
}
