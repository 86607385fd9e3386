//! What makes the calls of a controller's lane.
ghost use Rattle.std.specs.Prelude.{◌≡◌, ◌<◌, [], true, false, length, IfSome, IfNone};
ghost use Rattle.ctl_lock.specs.Passing.{IsOwn, IsPass};
ghost use Rattle.lane_work.specs.Work.{new_work};
ghost use Rattle.p4_types.specs.declared.tape.Who.TheVariants.{Controller};

use crate::naming::Naming;
use crate::signed::Signed;
use lane_table::LaneSeat;
use lane_work::LaneWork;
use std::collections::VecDeque;
use std::marker::{Model, PhantomData};
use switch_spec::calls::LaneCall;

/// Makes the calls of one controller's lane, one after another, and runs the packets that they make enter, by the lane's own
/// worker. It goes from thread to thread.
#[derive(Drop)]
pub struct CallPass<J: Naming> {
    pub(crate) lane: u16,
    // the port at which packets of controllers enter
    pub(crate) cpu: u16,
    pub(crate) seat: LaneSeat<Signed>,
    pub(crate) todo: VecDeque<LaneCall>,
    pub(crate) work: LaneWork,
    pub(crate) failed: bool,
    pub(crate) of: PhantomData<J>,
}

impl<J: Naming> Model for CallPass<J> {
    ghost use Rattle.std.specs.Prelude.{◌≡◌, ◌<◌};
    ghost use Rattle.ctl_lock.specs.Passing.{Passing, Passes};
    ghost use Rattle.bm_expr.specs.TreeCode.{number_code, truth_code};
    ghost use Rattle.std.specs.Coded.{codes};

    ghost coded = { Prim.hlevel (codes, number_code, truth_code) };

    ghost Value = { Passing };

    ghost view = { λ p. record { lane = p.lane; made = p.seat.entries; todo = p.todo.items; work = p.work; failed = p.failed } };

    ghost invariant = { λ p.
        (p.seat.table ≡ J.table)
        × (p.seat.number ≡ p.lane)
        × (p.lane < 32)
        × (p.cpu ≡ J.start.cpu)
        × Passes p.failed J.list J.start J.bank p.lane (J.calls p.lane) p.seat.entries p.todo.items p.work };
}

impl<J: Naming> CallPass<J> {
    /// The pass of a lane that has made no call.
    pub fn new(
        lane: u16,
        cpu: u16,
        seat: LaneSeat<Signed>,
        calls: Vec<LaneCall>,
        work: LaneWork,
    ) -> CallPass<J>
        requires table { seat.table ≡ J.table }
        requires number { seat.number ≡ lane }
        requires lane { lane < 32 }
        requires nothing { seat.entries ≡ [] }
        requires cpu { cpu ≡ J.start.cpu }
        requires calls { calls.items ≡ J.calls lane }
        requires own { IsOwn J.list J.start J.bank (Controller lane) work }
        requires fresh { work ≡ new_work work.who work.told work.refusals work.seat }
        requires added { work.seat.added ≡ [] }
        ensures { result ≡ record { lane = lane; made = []; todo = J.calls lane; work = work; failed = false } }
    {
        CallPass {
            lane,
            cpu,
            seat,
            todo: VecDeque::from_vec(calls),
            work,
            failed: false,
            of: PhantomData,
        }
    }

    /// The controller's lane, 0 to 31.
    pub fn lane(&self) -> u16
        ensures lane { result ≡ self.now.lane }
        ensures range { result < 32 }
    {
        self.lane
    }

    /// How many calls it still has to make.
    pub fn left(&self) -> usize
        ensures { result ≡ length self.now.todo }
    {
        self.todo.len()
    }

    /// What the lane has done, or none where it found no memory for a call or for the record of a packet.
    pub fn into_work(self) -> Option<LaneWork>
        ensures work { IfSome result (λ work. work ≡ self.work) }
        ensures whole { IfSome result (λ work. IsPass J.list J.start J.bank self.lane (J.calls self.lane) self.made self.todo work) }
        ensures some { IfSome result (λ work. self.failed ≡ false) }
        ensures none { IfNone result (self.failed ≡ true) }
    {
        if self.failed {
            return None;
        }
        Some(self.work)
    }
}
