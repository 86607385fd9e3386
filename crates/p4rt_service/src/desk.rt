//! What answers the calls of a lane.
ghost use Rattle.std.specs.Prelude as spec;
ghost use Rattle.std.specs.Prelude.{◌≡◌};
ghost use Rattle.p4_types.specs.declared.calls.Call as call;
ghost use Rattle.p4_types.specs.declared.calls.Reply as reply;
ghost use Rattle.mail_room.specs.declared.next.Next as next;

use mail_room::Next;
use p4_types::calls::{Call, Reply};
use std::alloc::Global;

/// What answers the calls of lanes, of which each has a pass. Many lanes may ask at once; a desk may wait, and owns what
/// waiting needs.
pub trait Desk {
    /// What a lane asks with, and the desk keeps of it.
    type Pass;

    /// The lane of a pass, which no call changes.
    ghost lane_of: { Self.Pass → spec.ℕ };

    /// The pass is of this desk.
    ghost is_of: { Self → Self.Pass → Type 0 };

    /// How a call and its reply may change a pass. A desk whose passes tell what was asked has it here.
    ghost answers: { Self.Pass → call.Call → reply.Reply → Self.Pass → Type 0 };

    /// How what waits at a moment, once it is given, may change a pass.
    ghost gives: { Self.Pass → spec.ℕ → spec.Option next.Next → Self.Pass → Type 0 };

    /// The lane of a pass.
    fn lane(&self, pass: &Self::Pass) -> u16
        ensures { result ≡ lane_of pass.now };

    /// Answers the next call of the lane. A call for which there is no memory is answered UNAVAILABLE.
    fn ask(&self, alloc: Global, pass: &mut Self::Pass, call: &Call) -> Reply
        requires { is_of self.now pass.old }
        ensures of { is_of self.now pass.new }
        ensures answered { answers pass.old call.now result pass.new }
        ensures lane { lane_of pass.new ≡ lane_of pass.old };

    /// Gives the oldest of what waits for the lane at a moment, in nanoseconds, or nothing.
    fn next(&self, alloc: Global, pass: &mut Self::Pass, now: u64) -> Option<Next>
        requires { is_of self.now pass.old }
        ensures of { is_of self.now pass.new }
        ensures given { gives pass.old now result pass.new }
        ensures lane { lane_of pass.new ≡ lane_of pass.old };
}
