//! What a node does to a packet.
ghost use Rattle.std.specs.Prelude.{◌≡◌, [], List, IfSome, Some, slice_get};
ghost use Rattle.std.specs.Option.{option_map};
ghost use Rattle.act_exec.specs.Marks.{effects};
ghost use Rattle.bm_pipeline.specs.Validity.{IsNode, IsConditional};
ghost use Rattle.bm_pipeline.specs.declared.tables.Node.TheVariants as nodes;
ghost use Rattle.p4_types.specs.declared.records.HitMark.{HitMark};
ghost use Rattle.packet_spec.specs.Walking as spec;
ghost use Rattle.pkt_codec.specs.Room.{HasRoom, AreAsLarge};
ghost use Rattle.pkt_walk.specs.Calls.{called_of, TakesCall};
ghost use Rattle.pkt_walk.specs.Turns.{walk_at, walk_behind};

use crate::choosing::{self, Call};
use act_exec::{Marks, run_action};
use bm_expr::{Store, truth};
use bm_pipeline::tables::{Conditional, Next, Node, Table};
use p4_types::table::Entry;
use plane_state::Plane;

/// What a node did: the entry that its table took, if it took one, and the next node; none where the walk ends.
#[derive(Clone, Copy)]
pub struct Turn<'a> {
    pub entry: Option<&'a Entry>,
    pub next: Option<Node>,
}

fn named_or(next: Next, other: Option<Node>) -> Option<Node>
    ensures { result ≡ spec.named_or next other }
{
    match next {
        Next::NotNamed => other,
        Next::End => None,
        Next::Node(node) => Some(node),
    }
}

fn next_of_call(call: Option<Call>) -> Next
    ensures { result ≡ spec.next_of_call (called_of call.entry) }
{
    match call {
        None => Next::NotNamed,
        Some(call) => call.action.next,
    }
}

fn next_of_outcome(table: &Table, entry: Option<&Entry>) -> Next
    ensures { result ≡ spec.next_of_outcome table.now (option_map (λ e. e.now) entry.entry) }
{
    match entry {
        None => table.miss,
        Some(_) => table.hit,
    }
}

fn next_of_table(table: &Table, entry: Option<&Entry>, call: Option<Call>) -> Option<Node>
    ensures { result ≡ spec.next_of_table table.now (option_map (λ e. e.now) entry.entry) (called_of call.entry) }
{
    let otherwise = named_or(next_of_call(call), table.base_default_next);
    named_or(next_of_outcome(table, entry), otherwise)
}

// Runs what a table calls.
fn run(plane: &Plane, call: Option<Call>, store: &mut Store, marks: &mut Marks)
    requires taken { IfSome call (TakesCall plane.now.now) }
    requires room { HasRoom plane.now.now.config.program store.old }
    requires counted { marks.old.counted ≡ [] }
    ensures ran { effects store.new marks.new ≡ spec.ran plane.now.now (called_of call.entry) (effects store.old marks.old) }
    ensures as_large { AreAsLarge store.old store.new }
{
    if let Some(call) = call {
        let pipeline = plane.config().pipeline();
        run_action(pipeline, call.action.action, call.args, store, marks);
    }
}

// A table: it takes an entry, runs an action and leads on.
fn table<'a>(plane: &'a Plane, place: usize, store: &mut Store, marks: &mut Marks) -> Turn<'a>
    requires node { IsNode plane.now.now.config.program (nodes.Table place) }
    requires room { HasRoom plane.now.now.config.program store.old }
    ensures turned { (hits : List HitMark) → spec.node_done plane.now.now (nodes.Table place) (walk_at store.old marks.old hits)
        ≡ record { walk = walk_behind plane.now.now store.new marks.new (option_map (λ e. e.now) result.entry) hits; next = result.next } }
    ensures as_large { AreAsLarge store.old store.new }
{
    let table = &plane.config().pipeline().program().tables.as_slice()[place];
    let entry = choosing::found(plane, table, store);
    let call = choosing::acts(plane, table, entry, store);
    marks.forget_counts();
    run(plane, call, store, marks);
    Turn {
        entry,
        next: next_of_table(table, entry, call),
    }
}

fn conditional_at(plane: &Plane, place: usize) -> &Conditional
    requires node { IsNode plane.now.now.config.program (nodes.Conditional place) }
    ensures there { slice_get plane.now.now.config.program.conditionals place ≡ Some result.now }
    ensures valid { IsConditional plane.now.now.config.program result.now }
{
    &plane.config().pipeline().program().conditionals.as_slice()[place]
}

// A conditional: it leads on by what holds.
#[tactic(auto, using(crate::proofs::Conditionals::asked_in, crate::proofs::Conditionals::leads_on))]
fn conditional<'a>(plane: &'a Plane, place: usize, store: &Store, marks: &mut Marks) -> Turn<'a>
    requires node { IsNode plane.now.now.config.program (nodes.Conditional place) }
    requires room { HasRoom plane.now.now.config.program store.now }
    ensures turned { (hits : List HitMark) → spec.node_done plane.now.now (nodes.Conditional place) (walk_at store.now marks.old hits)
        ≡ record { walk = walk_behind plane.now.now store.now marks.new (option_map (λ e. e.now) result.entry) hits; next = result.next } }
{
    let conditional = conditional_at(plane, place);
    marks.forget_counts();
    let next = if truth(&conditional.expression, store, &[]) {
        conditional.true_next
    } else {
        conditional.false_next
    };
    Turn { entry: None, next }
}

/// Does a node: a table takes an entry, runs an action and leads on, a conditional leads on. The marks keep the digest
/// list that was named last, and what this node counted. It takes no memory.
pub fn run_node<'a>(plane: &'a Plane, node: Node, store: &mut Store, marks: &mut Marks) -> Turn<'a>
    requires node { IsNode plane.now.now.config.program node }
    requires room { HasRoom plane.now.now.config.program store.old }
    ensures turned { (hits : List HitMark) → spec.node_done plane.now.now node (walk_at store.old marks.old hits)
        ≡ record { walk = walk_behind plane.now.now store.new marks.new (option_map (λ e. e.now) result.entry) hits; next = result.next } }
    ensures as_large { AreAsLarge store.old store.new }
{
    match node {
        Node::Table(place) => table(plane, place, store, marks),
        Node::Conditional(place) => conditional(plane, place, store, marks),
    }
}
