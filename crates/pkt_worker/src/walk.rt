//! The walk of a packet through the nodes of a plane.
ghost use Rattle.std.specs.Prelude.{◌≡◌, ℕ, suc, ◌+◌, ◌<◌, ◌≤◌, ◌++◌, [], ◌∷◌, length, Some, IfSome};
ghost use Rattle.std.specs.Option.{option_map, option_to_list};
ghost use Rattle.std.specs.List.{flat_map, sum_by};
ghost use Rattle.act_exec.specs.Marks.{Marked};
ghost use Rattle.bm_pipeline.specs.Places.{node_count};
ghost use Rattle.bm_pipeline.specs.Validity.{IsNode, IsValid};
ghost use Rattle.packet_spec.specs.Walking as spec;
ghost use Rattle.pkt_codec.specs.Room.{HasRoom, AreAsLarge};
ghost use Rattle.pkt_walk.specs.Turns.{walk_at, walk_behind};
ghost use Rattle.plane_spec.specs.Entries.{slot_numbers};
ghost use Rattle.pkt_worker.specs.Hits.{counted_by, hits_behind};
ghost use Rattle.pkt_worker.specs.Slots.{HasSlots};
ghost use Rattle.pkt_worker.specs.Verdicts.{hits_room, walk_room};

use crate::single::Single;
use act_exec::{Count, Marks};
use bm_expr::Store;
use bm_pipeline::tables::Node;
use p4_types::info::Counter;
use p4_types::records::HitMark;
use p4_types::table::Entry;
use pkt_walk::run_node;
use plane_state::Plane;

// How many cells these counters have.
fn cells_of(counters: &[Counter]) -> u64
    requires few { sum_by (λ counter. counter.size) counters.now ≤ slot_numbers }
    ensures { result ≡ sum_by (λ counter. counter.size) counters.now }
{
    let mut cells = 0;
    for counter in counters {
        cells += counter.size;
    }
    cells
}

// The cell that a count hits, if its counter has it.
fn cell_of(plane: &Plane, count: Count) -> Option<HitMark>
    requires slots { HasSlots plane.now.now }
    ensures { option_to_list result ≡ spec.cell_hit plane.now.now (counted_by count) }
{
    let counters = plane.config().info().info().counters.as_slice();
    let counter = counters.get(count.counter)?;
    if count.index >= u128::from(counter.size) {
        return None;
    }
    let before = cells_of(&counters[..count.counter]);
    let slot = u64::from(plane.cells()) + before + count.index as u64;
    Some(HitMark::Cell { slot: slot as u32 })
}

// Adds the entry that a table took, if it took one.
fn hit_entry(entry: Option<&Entry>, out: &mut Single)
    requires room { length out.old.hits + length (spec.entry_hit (option_map (λ e. e.now) entry)) ≤ hits_room }
    ensures { out.new ≡ record out.old { hits = out.old.hits ++ spec.entry_hit (option_map (λ e. e.now) entry.entry) } }
{
    if let Some(entry) = entry {
        out.hit(HitMark::Entry {
            table: entry.name.table,
            seq: entry.seq,
            slot: entry.slot,
        });
    }
}

// Adds the cell that a count hits, if its counter has it.
fn hit_cell(plane: &Plane, count: Count, out: &mut Single)
    requires slots { HasSlots plane.now.now }
    requires room { length out.old.hits + length (spec.cell_hit plane.now.now (counted_by count)) ≤ hits_room }
    ensures { out.new ≡ record out.old { hits = out.old.hits ++ spec.cell_hit plane.now.now (counted_by count) } }
{
    if let Some(mark) = cell_of(plane, count) {
        out.hit(mark);
    }
}

// Adds what counts hit.
fn hit_cells(plane: &Plane, counts: &[Count], out: &mut Single)
    requires slots { HasSlots plane.now.now }
    requires room { length out.old.hits + length (flat_map (λ count. spec.cell_hit plane.now.now (counted_by count)) counts.now) ≤ hits_room }
    ensures { out.new ≡ record out.old { hits = out.old.hits ++ flat_map (λ count. spec.cell_hit plane.now.now (counted_by count)) counts.now } }
{
    for count in counts {
        hit_cell(plane, *count, out);
    }
}

// Adds the cells of what marks counted.
fn hit_counts(plane: &Plane, marks: &Marks, out: &mut Single)
    requires slots { HasSlots plane.now.now }
    requires room { length out.old.hits + length (flat_map (spec.cell_hit plane.now.now) marks.now.counted) ≤ hits_room }
    ensures { out.new ≡ record out.old { hits = out.old.hits ++ flat_map (spec.cell_hit plane.now.now) marks.now.counted } }
{
    hit_cells(plane, marks.counts(), out);
}

// Adds what a node hit: the entry that its table took, and the cells of what it counted.
fn hit_all(plane: &Plane, entry: Option<&Entry>, marks: &Marks, out: &mut Single)
    requires slots { HasSlots plane.now.now }
    requires room { length (hits_behind plane.now.now (option_map (λ e. e.now) entry) marks.now out.old.hits) ≤ hits_room }
    ensures { out.new ≡ record out.old { hits = hits_behind plane.now.now (option_map (λ e. e.now) entry.entry) marks.now out.old.hits } }
{
    hit_entry(entry, out);
    hit_counts(plane, marks, out);
}

// Does a node, and adds what it hit. It answers the next node.
fn step(
    plane: &Plane,
    node: Node,
    store: &mut Store,
    marks: &mut Marks,
    out: &mut Single,
) -> Option<Node>
    requires node { IsNode plane.now.now.config.program node }
    requires room { HasRoom plane.now.now.config.program store.old }
    requires slots { HasSlots plane.now.now }
    requires hits { length (spec.node_done plane.now.now node (walk_at store.old marks.old out.old.hits)).walk.hits ≤ hits_room }
    ensures done { spec.node_done plane.now.now node (walk_at store.old marks.old out.old.hits) ≡ record { walk = walk_at store.new marks.new out.new.hits; next = result } }
    ensures others { out.new ≡ record out.old { hits = out.new.hits } }
    ensures as_large { AreAsLarge store.old store.new }
{
    let turn = run_node(plane, node, store, marks);
    hit_all(plane, turn.entry, marks, out);
    turn.next
}

// How many nodes a walk comes to at most, and one more.
fn node_bound(plane: &Plane) -> usize
    ensures bound { result ≡ suc (node_count plane.now.now.config.program) }
    ensures valid { IsValid plane.now.now.config.program }
{
    let program = plane.config().pipeline().program();
    program.tables.as_slice().len() + program.conditionals.as_slice().len() + 1
}

/// Walks from a node on, if there is one, to the end. It takes no memory.
pub(crate) fn walk(
    plane: &Plane,
    start: Option<Node>,
    store: &mut Store,
    marks: &mut Marks,
    out: &mut Single,
)
    requires start { IfSome start (IsNode plane.now.now.config.program) }
    requires room { HasRoom plane.now.now.config.program store.old }
    requires slots { HasSlots plane.now.now }
    requires hits { length out.old.hits + walk_room ≤ hits_room }
    ensures walked { walk_at store.new marks.new out.new.hits ≡ spec.walk_from plane.now.now (suc (node_count plane.now.now.config.program)) start (walk_at store.old marks.old out.old.hits) }
    ensures hits { length out.new.hits ≤ length out.old.hits + walk_room }
    ensures others { out.new ≡ record out.old { hits = out.new.hits } }
    ensures as_large { AreAsLarge store.old store.new }
{
    let mut next = start;
    for _ in 0..node_bound(plane) {
        let Some(node) = next else {
            return;
        };
        next = step(plane, node, store, marks, out);
    }
}
