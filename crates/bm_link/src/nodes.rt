//! The nodes of a pipeline by their places.
ghost use Rattle.std.specs.Prelude.{◌≡◌};
ghost use Rattle.bm_rules.specs.Names.{named};
ghost use Rattle.link_spec.specs.Tables.{node_named, node_of, next_to, next_by};
ghost use Rattle.bm_link.specs.Sides.{side_of};

use crate::sides::Side;
use bm_pipeline::tables::{Next, Node};
use bm_records::raw::NextTable;
use name_index::{Index, Name};

fn node_named(side: &Side, name: &Name) -> Option<Node>
    ensures { result ≡ node_named (side_of side.now) name.now }
{
    if let Some(place) = side.tables.place(name) {
        return Some(Node::Table(side.tables_before + place));
    }
    match side.conditionals.place(name) {
        Some(place) => Some(Node::Conditional(side.conditionals_before + place)),
        None => None,
    }
}

/// The node of a name, where one is given.
pub(crate) fn node_of(side: &Side, name: &Option<Name>) -> Option<Node>
    ensures { result ≡ node_of (side_of side.now) name.now }
{
    match name {
        Some(name) => node_named(side, name),
        None => None,
    }
}

fn next_to(node: Option<Node>) -> Next
    ensures { result ≡ next_to node }
{
    match node {
        Some(node) => Next::Node(node),
        None => Next::End,
    }
}

/// What follows on an outcome.
pub(crate) fn next_on(side: &Side, nexts: &Index<NextTable>, outcome: &str) -> Next
    ensures { result ≡ next_by (side_of side.now) (named (λ next. next.outcome) outcome.now nexts.now) }
{
    match nexts.named_at(outcome) {
        Some(next) => next_to(node_of(side, &next.node)),
        None => Next::NotNamed,
    }
}
