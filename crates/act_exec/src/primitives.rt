//! One primitive of an action.
ghost use Rattle.std.specs.Prelude.{◌≡◌, ◌≢◌, ◌+◌, ◌<◌, ◌≤◌, length};
ghost use Rattle.bm_expr.specs.Store.{header_assigned};
ghost use Rattle.bm_pipeline.specs.Validity.{IsValid, IsPrimitive, AreOfOneType};
ghost use Rattle.program_spec.specs.Actions.{dropped, primitive_done};
ghost use Rattle.pkt_codec.specs.Room.{HasRoom, AreAsLarge};
ghost use Rattle.act_exec.specs.Marks.{effects, counts_room};

use crate::marks::Marks;
use bm_expr::{HeaderPlace, Store, value};
use bm_pipeline::actions::Primitive;
use bm_pipeline::program::Program;

/// The port from which nothing leaves.
const DROP_PORT: u128 = 511;

// Nothing leaves, also to no multicast group.
fn mark_to_drop(program: &Program, store: &mut Store)
    requires valid { IsValid program.now }
    requires room { HasRoom program.now store.old }
    ensures done { store.new ≡ dropped program.now store.old }
    ensures as_large { AreAsLarge store.old store.new }
{
    store.assign(program.standard_metadata.egress_spec, DROP_PORT);
    if let Some(place) = program.standard_metadata.mcast_grp {
        store.assign(place, 0);
    }
}

// Gives a header the fields and the validity of another one, or of itself.
fn assign_header(program: &Program, target: HeaderPlace, source: HeaderPlace, store: &mut Store)
    requires valid { IsValid program.now }
    requires one_type { AreOfOneType program.now target source }
    requires room { HasRoom program.now store.old }
    ensures done { store.new ≡ header_assigned store.old target source }
    ensures as_large { AreAsLarge store.old store.new }
{
    if target.header != source.header {
        store.assign_header(target, source);
    }
}

/// Does a primitive of an action with these data.
pub(crate) fn run_primitive(
    program: &Program,
    primitive: &Primitive,
    args: &[u128],
    store: &mut Store,
    marks: &mut Marks,
)
    requires valid { IsValid program.now }
    requires primitive { IsPrimitive program.now (length args.now) primitive.now }
    requires room { HasRoom program.now store.old }
    requires marks { length marks.old.counted < counts_room }
    ensures done { effects store.new marks.new ≡ primitive_done program.now args.now (effects store.old marks.old) primitive.now }
    ensures as_large { AreAsLarge store.old store.new }
    ensures counted { length marks.new.counted ≤ length marks.old.counted + 1 }
{
    match primitive {
        Primitive::Assign {
            target,
            value: number,
        } => {
            let assigned = value(number, store, args);
            store.assign(*target, assigned);
        }
        Primitive::AddHeader(place) => store.add_header(*place),
        Primitive::RemoveHeader(header) => store.set_valid(*header, false),
        Primitive::AssignHeader { target, source } => {
            assign_header(program, *target, *source, store);
        }
        Primitive::MarkToDrop => mark_to_drop(program, store),
        Primitive::Count { counter, index } => {
            let index = value(index, store, args);
            if let Some(counter) = counter {
                marks.count(*counter, index);
            }
        }
        Primitive::GenerateDigest(list) => marks.learn(*list),
        Primitive::NoOp => {}
    }
}
