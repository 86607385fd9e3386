//! The nodes of a pipeline, found by their names.
ghost use Rattle.std.specs.Prelude.{◌≡◌, ◌+◌, ◌<◌, ◌^◌, ◌||◌, length, is_some, IfOk};
ghost use Rattle.bm_rules.specs.Names.{named};
ghost use Rattle.bm_rules.specs.Graphs.{node_place, optional_node};

use bm_records::raw::{Conditional, Pipeline, Table};
use list_types::NoMemory;
use name_index::{Index, Name};
use std::alloc::Global;

/// A pipeline, with its nodes found by their names.
#[derive(Drop)]
pub(crate) struct Nodes<'p, 'a> {
    pub pipeline: &'p Pipeline<'a>,
    tables: Index<'p, Table<'a>>,
    conditionals: Index<'p, Conditional<'a>>,
    ghost of_tables: { tables ≡ pipeline.now.tables },
    ghost of_conditionals: { conditionals ≡ pipeline.now.conditionals },
    ghost room: { length pipeline.now.tables + length pipeline.now.conditionals < 2 ^ 64 },
}

impl<'p, 'a> Nodes<'p, 'a> {
    pub(crate) fn of(alloc: Global, pipeline: &'p Pipeline<'a>) -> Result<Nodes<'p, 'a>, NoMemory>
        ensures { IfOk result (λ nodes. nodes.pipeline.now ≡ pipeline.now) }
    {
        Ok(Nodes {
            pipeline,
            tables: Index::of(alloc, pipeline.tables.as_slice())?,
            conditionals: Index::of(alloc, pipeline.conditionals.as_slice())?,
        })
    }
}

pub(crate) fn node_place(nodes: &Nodes, name: &Name) -> Option<usize>
    ensures { result ≡ node_place nodes.now.pipeline.now name.now }
{
    if let Some(place) = nodes.tables.place(name) {
        return Some(place);
    }
    match nodes.conditionals.place(name) {
        Some(place) => Some(nodes.pipeline.tables.len() + place),
        None => None,
    }
}

pub(crate) fn optional_node(nodes: &Nodes, name: &Option<Name>) -> Option<usize>
    ensures { result ≡ optional_node nodes.now.pipeline.now name.now }
{
    match name {
        None => None,
        Some(name) => node_place(nodes, name),
    }
}

/// Whether a name is that of a node.
pub(crate) fn is_node(nodes: &Nodes, name: &Name) -> bool
    ensures { result ≡ (is_some (named (λ x. x.name) name.now nodes.now.pipeline.now.tables) || is_some (named (λ x. x.name) name.now nodes.now.pipeline.now.conditionals)) }
{
    nodes.tables.named(name).is_some() || nodes.conditionals.named(name).is_some()
}
