//! Whether a graph has a loop: nodes that lead to peeled nodes alone are peeled, until none can be.
ghost use Rattle.std.specs.Prelude.{◌≡◌, ◌<◌, ℕ, suc, length, replicate, true, false, IfOk, OnOk};
ghost use Rattle.std.specs.List.{list_all};
ghost use Rattle.bm_rules.specs.Graphs.{leads, has_loop};
ghost use Rattle.bm_rules.specs.Peeling.{is_peeled, peeled_count, NoLong, IsStuck, IsInside};

use list_types::{List, NoMemory};
use std::alloc::Global;

fn is_peeled(peeled: &[bool], node: usize) -> bool
    ensures { result ≡ is_peeled peeled.now node }
{
    match peeled.get(node) {
        Some(answer) => *answer,
        None => false,
    }
}

fn are_peeled(peeled: &[bool], nodes: &[usize]) -> bool
    ensures { result ≡ list_all (is_peeled peeled.now) nodes.now }
{
    nodes.iter().all(|node| is_peeled(peeled, *node))
}

fn leads<'a>(edges: &'a [List<usize>], node: usize) -> &'a [usize]
    ensures { result.now ≡ leads edges.now node }
{
    match edges.get(node) {
        Some(nodes) => nodes.as_slice(),
        None => &[],
    }
}

// Peels a node that leads to peeled nodes alone, and says whether it did.
#[tactic(auto, using(crate::proofs::Peeled::peels, crate::proofs::Peeled::counted))]
fn peel(edges: &[List<usize>], peeled: &mut [bool], node: usize) -> bool
    ensures no_long { NoLong edges.now peeled.old → NoLong edges.now peeled.new }
    ensures more { result ≡ true → peeled_count peeled.new ≡ suc (peeled_count peeled.old) }
    ensures same { result ≡ false → peeled.new ≡ peeled.old }
    ensures stuck { result ≡ false → IsStuck edges.now peeled.new node }
{
    if node >= peeled.len() {
        return false;
    }
    if is_peeled(peeled, node) {
        return false;
    }
    if !are_peeled(peeled, leads(edges, node)) {
        return false;
    }
    peeled[node] = true;
    true
}

// Tries each node once, and says whether one was peeled.
fn peel_each(edges: &[List<usize>], peeled: &mut [bool]) -> bool
    ensures no_long { NoLong edges.now peeled.old → NoLong edges.now peeled.new }
    ensures more { result ≡ true → peeled_count peeled.old < peeled_count peeled.new }
    ensures stuck { result ≡ false → (i : ℕ) → IsStuck edges.now peeled.new i }
{
    let mut progress = false;
    for node in 0..peeled.len() {
        if peel(edges, peeled, node) {
            progress = true;
        }
    }
    progress
}

fn peel_all(edges: &[List<usize>], peeled: &mut [bool])
    ensures no_long { NoLong edges.now peeled.old → NoLong edges.now peeled.new }
    ensures stuck { (i : ℕ) → IsStuck edges.now peeled.new i }
{
    'rounds: loop {
        if !peel_each(edges, peeled) {
            return;
        }
    }
}

// What waits for what: of each node, how many of the nodes that it leads to are known to be peeled, the first node that
// waits for it, and the next that waits for the same. A place beyond all nodes stands for none.
#[derive(Drop)]
struct Waits {
    known: Vec<usize>,
    first: Vec<usize>,
    next: Vec<usize>,
}

fn at(places: &[usize], node: usize) -> usize {
    match places.get(node) {
        Some(place) => *place,
        None => usize::MAX,
    }
}

fn put(places: &mut [usize], node: usize, place: usize) {
    if node < places.len() {
        places[node] = place;
    }
}

// How many of these nodes, from a place on, are peeled one behind the other.
fn peeled_up_to(peeled: &[bool], nodes: &[usize], from: usize) -> usize {
    for place in from..nodes.len() {
        if !is_peeled(peeled, nodes[place]) {
            return place;
        }
    }
    nodes.len()
}

// Makes those ready that wait for a node.
fn wake(waits: &Waits, ready: &mut Vec<usize>, node: usize, count: usize) -> Result<(), NoMemory> {
    let mut waiting = at(waits.first.as_slice(), node);
    for _ in 0..count {
        if waiting >= count {
            break;
        }
        ready.push(waiting)?;
        waiting = at(waits.next.as_slice(), waiting);
    }
    Ok(())
}

// Peels a node, or lets it wait for the first one that it leads to and that is not peeled.
fn settle(
    edges: &[List<usize>],
    peeled: &mut [bool],
    waits: &mut Waits,
    ready: &mut Vec<usize>,
    node: usize,
) -> Result<(), NoMemory>
    ensures { OnOk result (NoLong edges.now peeled.old → NoLong edges.now peeled.new) }
{
    let nodes = leads(edges, node);
    let place = peeled_up_to(peeled, nodes, at(waits.known.as_slice(), node));
    put(waits.known.as_mut_slice(), node, place);
    if place < nodes.len() {
        let wanted = nodes[place];
        let before = at(waits.first.as_slice(), wanted);
        put(waits.next.as_mut_slice(), node, before);
        put(waits.first.as_mut_slice(), wanted, node);
        return Ok(());
    }
    if peel(edges, peeled, node) {
        wake(waits, ready, node, edges.len())?;
    }
    Ok(())
}

fn edge_count(edges: &[List<usize>]) -> usize {
    let mut count = 0usize;
    for nodes in edges {
        count = count.saturating_add(nodes.len());
    }
    count
}

fn all_places(alloc: Global, count: usize) -> Result<Vec<usize>, NoMemory> {
    let mut places = Vec::new(alloc);
    for place in 0..count {
        places.push(place)?;
    }
    Ok(places)
}

// Peels all that can be peeled, in time linear in the edges: each node waits for one other at a time.
fn settle_all(alloc: Global, edges: &[List<usize>], peeled: &mut [bool]) -> Result<(), NoMemory>
    ensures { OnOk result (NoLong edges.now peeled.old → NoLong edges.now peeled.new) }
{
    let count = edges.len();
    let mut waits = Waits {
        known: Vec::from_elem(alloc, 0, count)?,
        first: Vec::from_elem(alloc, usize::MAX, count)?,
        next: Vec::from_elem(alloc, usize::MAX, count)?,
    };
    let mut ready = all_places(alloc, count)?;
    'tries: for _ in 0..count.saturating_add(edge_count(edges)) {
        match ready.pop() {
            Some(node) => settle(edges, peeled, &mut waits, &mut ready, node)?,
            None => break,
        }
    }
    Ok(())
}

fn are_all(peeled: &[bool]) -> bool
    ensures { result ≡ list_all (λ x. x) peeled.now }
{
    for node in peeled {
        if !*node {
            return false;
        }
    }
    true
}

// The answer of a graph of which no node is peeled yet.
fn loops(alloc: Global, edges: &[List<usize>], peeled: &mut [bool]) -> Result<bool, NoMemory>
    requires inside { IsInside edges.now }
    requires as_many { length peeled.old ≡ length edges.now }
    requires begins { NoLong edges.now peeled.old }
    ensures { IfOk result (λ answer. answer ≡ has_loop edges.now) }
{
    settle_all(alloc, edges, peeled)?;
    peel_all(edges, peeled);
    Ok(!are_all(peeled))
}

fn none_peeled(alloc: Global, count: usize) -> Result<Vec<bool>, NoMemory>
    ensures { IfOk result (λ peeled. peeled.items ≡ replicate count false) }
{
    Ok(Vec::from_elem(alloc, false, count)?)
}

/// Whether a graph has a loop, by the nodes that each node leads to.
pub(crate) fn has_loop(alloc: Global, edges: &[List<usize>]) -> Result<bool, NoMemory>
    requires { IsInside edges.now }
    ensures { IfOk result (λ answer. answer ≡ has_loop edges.now) }
{
    let mut peeled = none_peeled(alloc, edges.len())?;
    loops(alloc, edges, peeled.as_mut_slice())
}
