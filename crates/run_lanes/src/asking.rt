//! A controller's lane makes all its calls.
ghost use Rattle.std.specs.Prelude.{◌≡◌, [], false};

use crate::gate::Gate;
use ctl_lock::{Asked, CallPass, Naming, TapeDesk};
use p4_types::tape::Who;
use std::sync::Wait;

/// Makes all calls of a controller's lane, one after another, unless it finds no memory. The gate is asked before each call.
pub fn ask_all<J: Naming, R: Wait + Drop, W: Wait, G: Gate>(
    rt: &W,
    desk: &TapeDesk<J, R>,
    gate: &G,
    pass: CallPass<J>,
) -> CallPass<J>
    ensures lane { result.lane ≡ pass.lane }
    ensures ended { result.failed ≡ false → result.todo ≡ [] }
{
    let mut pass = pass;
    let mut number = 1u64;
    'calls: while pass.left() > 0 {
        gate.turn(Who::Controller(pass.lane()), number);
        number = number.saturating_add(1);
        let (next, asked) = desk.ask_next(rt, pass);
        pass = next;
        if !matches!(asked, Asked::Made) {
            return pass;
        }
    }
    pass
}
