//! One packet through a plane.
ghost use Rattle.std.specs.Prelude.{◌≡◌, ℕ, ◌+◌, ◌*◌, ◌≤◌, [], drop, length, Some, None, Option, IfSome, IfOk};
ghost use Rattle.std.specs.Option.{option_map};
ghost use Rattle.canon_bytes.specs.Bits.{bits};
ghost use Rattle.bm_expr.specs.Store.{Contents, cleared};
ghost use Rattle.bm_pipeline.specs.Validity.{IsLearnList, IsNode};
ghost use Rattle.packet_spec.specs.Meaning as spec;
ghost use Rattle.program_spec.specs.Parsing as parsing;
ghost use Rattle.program_spec.specs.Parsing.{Parsed};
ghost use Rattle.program_spec.specs.Stores.{entering};
ghost use Rattle.pkt_codec.specs.Room.{HasRoom, AreAsLarge, IsOfSize};
ghost use Rattle.pkt_walk.specs.Turns.{walk_at};
ghost use Rattle.plane_spec.specs.Multicast.{multicast_of, replicas_in};
ghost use Rattle.pkt_worker.specs.Copies.{no_copies, with_last, copies_room};
ghost use Rattle.pkt_worker.specs.Slots.{HasSlots};
ghost use Rattle.pkt_worker.specs.Verdicts.{hits_room, walk_room};

use crate::copies::Copies;
use crate::single::Single;
use crate::verdict::Verdict;
use crate::walk::walk;
use act_exec::Marks;
use bm_expr::Store;
use bm_pipeline::Pipeline;
use bm_pipeline::actions::LearnList;
use bm_pipeline::tables::Node;
use list_types::NoMemory;
use p4_types::messages::Replica;
use p4_types::records::DropReason;
use pkt_codec::{enter, parse, update_sums, verify_sums};
use plane_state::Plane;
use std::alloc::Global;
use std::marker::Model;

/// The port from which nothing leaves.
const DROP_PORT: u16 = 511;

/// What a worker needs while a packet runs, with room for every program.
#[derive(Drop)]
pub struct Scratch {
    store: Store,
    /// The store of a copy; that of the packet stays as ingress left it.
    copy: Store,
    marks: Marks,
}

impl Model for Scratch {
    ghost use Rattle.pkt_worker.specs.Scratches.{Kept};

    ghost Value = { Kept };

    ghost view = { λ scratch. record { store = scratch.store; copy = scratch.copy; marks = scratch.marks } };
}

impl Scratch {
    /// Takes all the memory that packets need. Its store has no field and no header yet, and nothing is marked.
    pub fn open(alloc: Global) -> Result<Scratch, NoMemory>
        ensures { IfOk result (λ scratch. scratch ≡ record { store = cleared 0 0; copy = cleared 0 0; marks = record { counted = []; learned = None } }) }
    {
        Ok(Scratch {
            store: Store::open(alloc, 0, 0)?,
            copy: Store::open(alloc, 0, 0)?,
            marks: Marks::open(alloc)?,
        })
    }
}

// The port at which a packet is to leave.
fn egress_spec(plane: &Plane, store: &Store) -> u16
    requires room { HasRoom plane.now.now.config.program store.now }
    ensures { result ≡ spec.egress_spec plane.now.now store.now }
{
    let program = plane.config().pipeline().program();
    (store.field(program.standard_metadata.egress_spec) % 512) as u16
}

// The first node of ingress.
fn ingress_of(plane: &Plane) -> Option<Node>
    ensures start { result ≡ plane.now.now.config.program.ingress }
    ensures node { IfSome result (IsNode plane.now.now.config.program) }
{
    plane.config().pipeline().program().ingress
}

// The first node of egress.
fn egress_of(plane: &Plane) -> Option<Node>
    ensures start { result ≡ plane.now.now.config.program.egress }
    ensures node { IfSome result (IsNode plane.now.now.config.program) }
{
    plane.config().pipeline().program().egress
}

// A packet behind egress, whose port was chosen before: one that egress drops is dropped, another is sent.
fn leave(plane: &Plane, cpu: u16, port: u16, rest: &[u8], store: &mut Store, out: &mut Single)
    requires room { HasRoom plane.now.now.config.program store.old }
    ensures left { (learned : Option ℕ) → out.new ≡ spec.left plane.now.now cpu port (bits rest.now) out.old.sample (record { store = store.old; learned = learned; hits = out.old.hits }) }
    ensures as_large { AreAsLarge store.old store.new }
{
    if egress_spec(plane, store) == DROP_PORT {
        out.drop_for(DropReason::ByPipeline);
        return;
    }
    update_sums(plane.config().pipeline(), store);
    out.send(plane, cpu, port, store, rest);
}

// The store that egress begins with.
fn enter_egress(plane: &Plane, port: u16, store: &mut Store)
    requires room { HasRoom plane.now.now.config.program store.old }
    requires port { port ≡ spec.egress_spec plane.now.now store.old }
    ensures entered { store.new ≡ spec.before_egress plane.now.now store.old }
    ensures as_large { AreAsLarge store.old store.new }
{
    let program = plane.config().pipeline().program();
    if let Some(place) = program.standard_metadata.egress_port {
        store.assign(place, u128::from(port));
    }
}

// A packet that goes through egress, to the port that was chosen before.
fn through_egress(
    plane: &Plane,
    cpu: u16,
    rest: &[u8],
    store: &mut Store,
    marks: &mut Marks,
    out: &mut Single,
)
    requires room { HasRoom plane.now.now.config.program store.old }
    requires slots { HasSlots plane.now.now }
    requires hits { length out.old.hits + walk_room ≤ hits_room }
    ensures left { out.new ≡ spec.through_egress plane.now.now cpu (bits rest.now) out.old.sample store.old out.old.hits }
    ensures hits { length out.new.hits ≤ length out.old.hits + walk_room }
    ensures as_large { AreAsLarge store.old store.new }
{
    let port = egress_spec(plane, store);
    enter_egress(plane, port, store);
    marks.clear();
    walk(plane, egress_of(plane), store, marks, out);
    leave(plane, cpu, port, rest, store, out);
}

// A packet behind ingress that goes to one port: one that ingress drops is dropped.
fn choose_port(
    plane: &Plane,
    cpu: u16,
    rest: &[u8],
    store: &mut Store,
    marks: &mut Marks,
    out: &mut Single,
)
    requires room { HasRoom plane.now.now.config.program store.old }
    requires slots { HasSlots plane.now.now }
    requires hits { length out.old.hits ≤ walk_room }
    ensures { out.new ≡ spec.chosen_port plane.now.now cpu (bits rest.now) out.old.sample (walk_at store.old marks.old out.old.hits) }
{
    if egress_spec(plane, store) == DROP_PORT {
        out.drop_for(DropReason::ByPipeline);
        return;
    }
    through_egress(plane, cpu, rest, store, marks, out);
}

// Makes the store of a copy of what ingress left.
fn copy_store(plane: &Plane, store: &Store, replica: Replica, copy: &mut Store)
    requires size { IsOfSize plane.now.now.config.program store.now }
    requires as_large { AreAsLarge store.now copy.old }
    ensures copied { copy.new ≡ spec.copy_store plane.now.now store.now replica }
    ensures as_large { AreAsLarge store.now copy.new }
{
    copy.copy_from(store);
    let fields = plane.config().pipeline().program().standard_metadata;
    copy.assign(fields.egress_spec, u128::from(replica.egress_port));
    if let Some(place) = fields.egress_rid {
        copy.assign(place, u128::from(replica.instance));
    }
}

// One copy of a packet, from the store as ingress left it.
fn leave_copy(
    plane: &Plane,
    cpu: u16,
    rest: &[u8],
    replica: Replica,
    store: &Store,
    copy: &mut Store,
    marks: &mut Marks,
    out: &mut Single,
)
    requires size { IsOfSize plane.now.now.config.program store.now }
    requires as_large { AreAsLarge store.now copy.old }
    requires slots { HasSlots plane.now.now }
    requires hits { length out.old.hits + walk_room ≤ hits_room }
    ensures left { out.new ≡ spec.through_egress plane.now.now cpu (bits rest.now) out.old.sample (spec.copy_store plane.now.now store.now replica) out.old.hits }
    ensures hits { length out.new.hits ≤ length out.old.hits + walk_room }
    ensures as_large { AreAsLarge store.now copy.new }
{
    copy_store(plane, store, replica, copy);
    through_egress(plane, cpu, rest, copy, marks, out);
}

// The copies of a packet behind the first, which was made.
fn leave_others(
    plane: &Plane,
    cpu: u16,
    rest: &[u8],
    replicas: &[Replica],
    store: &Store,
    copy: &mut Store,
    marks: &mut Marks,
    copies: &mut Copies,
    out: &mut Single,
)
    requires size { IsOfSize plane.now.now.config.program store.now }
    requires as_large { AreAsLarge store.now copy.old }
    requires slots { HasSlots plane.now.now }
    requires few { length replicas.now ≤ copies_room }
    requires first { copies.old ≡ no_copies }
    requires hits { length out.old.hits ≤ 2 * walk_room }
    ensures { with_last copies.new out.new ≡ spec.joined out.old (spec.copies_left plane.now.now cpu (bits rest.now) out.old.sample store.now replicas.now out.old.hits) }
{
    for replica in replicas {
        copies.push(out);
        leave_copy(plane, cpu, rest, *replica, store, copy, marks, out);
    }
}

// A packet behind ingress that is copied, once for each of these replicas.
fn leave_copies(
    plane: &Plane,
    cpu: u16,
    rest: &[u8],
    replicas: &[Replica],
    store: &Store,
    copy: &mut Store,
    marks: &mut Marks,
    copies: &mut Copies,
    out: &mut Single,
)
    requires size { IsOfSize plane.now.now.config.program store.now }
    requires slots { HasSlots plane.now.now }
    requires few { length replicas.now ≤ 32 }
    requires first { copies.old ≡ no_copies }
    requires hits { length out.old.hits ≤ walk_room }
    ensures { with_last copies.new out.new ≡ spec.copies_left plane.now.now cpu (bits rest.now) out.old.sample store.now replicas.now out.old.hits }
{
    let [first, others @ ..] = replicas else {
        out.drop_for(DropReason::ByPipeline);
        return;
    };
    fit(plane.config().pipeline(), copy);
    leave_copy(plane, cpu, rest, *first, store, copy, marks, out);
    leave_others(plane, cpu, rest, others, store, copy, marks, copies, out);
}

// The id of the multicast group that was chosen, and 0 where none was.
fn mcast_grp(plane: &Plane, store: &Store) -> u128
    requires room { HasRoom plane.now.now.config.program store.now }
    ensures { result ≡ spec.mcast_grp plane.now.now store.now }
{
    match plane
        .config()
        .pipeline()
        .program()
        .standard_metadata
        .mcast_grp
    {
        None => 0,
        Some(place) => store.field(place),
    }
}

// The replicas of a multicast group; one that is absent has none.
fn replicas_of(plane: &Plane, group: u128) -> &[Replica]
    ensures replicas { result.now ≡ replicas_in (multicast_of group plane.now.now.multicast) }
    ensures few { length result.now ≤ 32 }
{
    match plane.multicast(group) {
        None => &[],
        Some(group) => group.replicas.as_slice(),
    }
}

// A packet behind ingress, with its sample: it is copied where a multicast group was chosen, else it goes to its port.
fn behind_sample(
    plane: &Plane,
    cpu: u16,
    rest: &[u8],
    store: &mut Store,
    copy: &mut Store,
    marks: &mut Marks,
    copies: &mut Copies,
    out: &mut Single,
)
    requires size { IsOfSize plane.now.now.config.program store.old }
    requires slots { HasSlots plane.now.now }
    requires first { copies.old ≡ no_copies }
    requires hits { length out.old.hits ≤ walk_room }
    ensures { with_last copies.new out.new ≡ spec.behind_sample plane.now.now cpu (bits rest.now) out.old.sample (walk_at store.old marks.old out.old.hits) }
{
    let group = mcast_grp(plane, store);
    if group == 0 {
        choose_port(plane, cpu, rest, store, marks, out);
        return;
    }
    let replicas = replicas_of(plane, group);
    leave_copies(plane, cpu, rest, replicas, store, copy, marks, copies, out);
}

// Whether a digest is told of: it has an entry.
fn is_told(plane: &Plane, digest: u32) -> bool
    ensures { result ≡ spec.is_told digest plane.now.now }
{
    plane.digest(digest).is_some()
}

fn learn_list_at(plane: &Plane, place: Option<usize>) -> Option<&LearnList>
    ensures named { (store : Contents) → spec.sample_of plane.now.now store place ≡ spec.sample_in plane.now.now store (option_map (λ l. l.now) result) }
    ensures valid { IfSome result (λ list. IsLearnList plane.now.now.config.program list.now) }
{
    let lists = plane.config().pipeline().program().learn_lists.as_slice();
    lists.get(place?)
}

// Gives a digest a sample of the fields of its list.
fn give_sample(plane: &Plane, digest: u32, list: &LearnList, store: &Store, out: &mut Single)
    requires list { IsLearnList plane.now.now.config.program list.now }
    requires room { HasRoom plane.now.now.config.program store.now }
    ensures { out.new ≡ record out.old { sample = Some (spec.sampled digest list.now store.now) } }
{
    let _ = plane;
    out.give(digest, list.elements.as_slice(), store);
}

// Takes the sample of the list that was named last, if its digest is told of.
fn take_sample(plane: &Plane, learned: Option<usize>, store: &Store, out: &mut Single)
    requires room { HasRoom plane.now.now.config.program store.now }
    requires none { out.old.sample ≡ None }
    ensures { out.new ≡ record out.old { sample = spec.sample_of plane.now.now store.now learned } }
{
    let Some(list) = learn_list_at(plane, learned) else {
        return;
    };
    match list.digest {
        Some(digest) if is_told(plane, digest) => {
            give_sample(plane, digest, list, store, out);
        }
        _ => {}
    }
}

// A packet behind ingress: the list that was named last gives a sample of the fields as they are.
fn behind_ingress(
    plane: &Plane,
    cpu: u16,
    rest: &[u8],
    store: &mut Store,
    copy: &mut Store,
    marks: &mut Marks,
    copies: &mut Copies,
    out: &mut Single,
)
    requires size { IsOfSize plane.now.now.config.program store.old }
    requires slots { HasSlots plane.now.now }
    requires first { copies.old ≡ no_copies }
    requires hits { length out.old.hits ≤ walk_room }
    requires none { out.old.sample ≡ None }
    ensures { with_last copies.new out.new ≡ spec.behind_ingress plane.now.now cpu (bits rest.now) (walk_at store.old marks.old out.old.hits) }
{
    take_sample(plane, marks.learned(), store, out);
    behind_sample(plane, cpu, rest, store, copy, marks, copies, out);
}

// A packet behind the parser: checksums are verified, and ingress is walked.
fn behind_parser(
    plane: &Plane,
    cpu: u16,
    rest: &[u8],
    store: &mut Store,
    copy: &mut Store,
    marks: &mut Marks,
    copies: &mut Copies,
    out: &mut Single,
)
    requires size { IsOfSize plane.now.now.config.program store.old }
    requires slots { HasSlots plane.now.now }
    requires first { copies.old ≡ no_copies }
    requires hits { out.old.hits ≡ [] }
    requires none { out.old.sample ≡ None }
    ensures { (parsed : Parsed) → store.old ≡ parsed.store → bits rest.now ≡ parsed.rest → with_last copies.new out.new ≡ spec.behind_parser plane.now.now cpu parsed }
{
    verify_sums(plane.config().pipeline(), store);
    marks.clear();
    walk(plane, ingress_of(plane), store, marks, out);
    behind_ingress(plane, cpu, rest, store, copy, marks, copies, out);
}

// Makes a store one of just the size of a program.
fn fit(pipeline: &Pipeline, store: &mut Store)
    ensures { IsOfSize pipeline.now store.new }
{
    let program = pipeline.program();
    store.fit(program.fields, program.headers.len());
}

// Parses a packet that enters at a port, and answers how many bytes were extracted.
fn parse_packet(pipeline: &Pipeline, port: u16, packet: &[u8], store: &mut Store) -> usize
    ensures store { store.new ≡ (parsing.parse pipeline.now (bits packet.now) (entering pipeline.now port (length packet.now))).store }
    ensures rest { bits (drop result packet.now) ≡ (parsing.parse pipeline.now (bits packet.now) (entering pipeline.now port (length packet.now))).rest }
    ensures used { result ≤ length packet.now }
    ensures size { IsOfSize pipeline.now store.new }
{
    fit(pipeline, store);
    enter(pipeline, port, packet.len(), store);
    parse(pipeline, packet, store).used
}

/// What becomes of a packet that enters a plane at a port, where a packet to a controller leaves at the port `cpu`;
/// without a plane it is dropped. It takes no memory.
#[tactic(auto, unfolding(packet_spec::specs::Meaning::meaning))]
pub fn run(
    plane: Option<&Plane>,
    cpu: u16,
    port: u16,
    packet: &[u8],
    scratch: &mut Scratch,
    out: &mut Verdict,
)
    requires slots { IfSome (option_map (λ p. p.now.now) plane) HasSlots }
    ensures { out.new ≡ spec.meaning (option_map (λ p. p.now.now) plane.entry) cpu port packet.now }
{
    let (copies, last) = (&mut out.copies, &mut out.last);
    copies.clear();
    last.clear();
    let Some(plane) = plane else {
        return;
    };
    let (store, copy, marks) = (&mut scratch.store, &mut scratch.copy, &mut scratch.marks);
    let used = parse_packet(plane.config().pipeline(), port, packet, store);
    behind_parser(
        plane,
        cpu,
        &packet[used..],
        store,
        copy,
        marks,
        copies,
        last,
    );
}
