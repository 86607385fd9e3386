//! An action.
ghost use Rattle.std.specs.Prelude.{◌≡◌, ◌+◌, ◌≤◌, length, slice_get};
ghost use Rattle.bm_pipeline.specs.Validity.{IsValid, IsAction};
ghost use Rattle.program_spec.specs.Actions.{action_done};
ghost use Rattle.pkt_codec.specs.Room.{HasRoom, AreAsLarge};
ghost use Rattle.act_exec.specs.Marks.{effects, TakesData, done_at, counts_room, most_primitives};

use crate::marks::Marks;
use crate::primitives::run_primitive;
use bm_expr::Store;
use bm_pipeline::Pipeline;
use bm_pipeline::actions::Action;
use bm_pipeline::program::Program;

// Does an action's primitives in order.
fn run_primitives(
    program: &Program,
    action: &Action,
    args: &[u128],
    store: &mut Store,
    marks: &mut Marks,
)
    requires valid { IsValid program.now }
    requires action { IsAction program.now action.now }
    requires data_taken { length action.now.runtime_data ≡ length args.now }
    requires room { HasRoom program.now store.old }
    requires marks { length marks.old.counted + most_primitives ≤ counts_room }
    ensures done { effects store.new marks.new ≡ action_done program.now action.now args.now (effects store.old marks.old) }
    ensures as_large { AreAsLarge store.old store.new }
    ensures counted { length marks.new.counted ≤ length marks.old.counted + most_primitives }
{
    for primitive in action.primitives.as_slice() {
        run_primitive(program, primitive, args, store, marks);
    }
}

/// Runs the action with this place among the actions, with its data. It takes no memory; an action has at most 64
/// primitives, for each of which the marks have room.
pub fn run_action(
    pipeline: &Pipeline,
    action: usize,
    args: &[u128],
    store: &mut Store,
    marks: &mut Marks,
)
    requires data_taken { TakesData pipeline.now action args.now }
    requires room { HasRoom pipeline.now store.old }
    requires marks { length marks.old.counted + most_primitives ≤ counts_room }
    ensures done { effects store.new marks.new ≡ done_at pipeline.now (slice_get pipeline.now.actions action) args.now (effects store.old marks.old) }
    ensures as_large { AreAsLarge store.old store.new }
    ensures counted { length marks.new.counted ≤ length marks.old.counted + most_primitives }
{
    let program = pipeline.program();
    let chosen = &program.actions.as_slice()[action];
    run_primitives(program, chosen, args, store, marks);
}
