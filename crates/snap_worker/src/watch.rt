//! The snapshots that a worker enters, and what it saw last.
ghost use Rattle.std.specs.Prelude.{◌≡◌, ◌⊎◌, ◌≤◌, All, IfOk, OnOk, OnErr, None};
ghost use Rattle.pub_snap.specs.Beginnings.{Begins};
ghost use Rattle.pub_snap.specs.Snapshots.{steps_in};
ghost use Rattle.snap_worker.specs.Counting.{IsWithin};
ghost use Rattle.snap_worker.specs.Working.{one_more, sight_in, state_after, verdict_in};
ghost use Rattle.switch_spec.specs.Meaning.{receiver};

use crate::place::Place;
use crate::worker::NoEntry;
use pkt_worker::{Scratch, Verdict, run};
use pub_snap::{Told, View, Viewer};
use std::marker::Model;

/// A viewer, which is taken out while a packet is run, and what was seen last.
#[derive(Drop)]
pub(crate) struct Watch {
    place: Option<Place>,
    steps: u64,
    receiver: Option<u16>,
}

impl Model for Watch {
    ghost use Rattle.std.specs.Prelude.{◌≡◌, ◌≤◌, true, is_some};
    ghost use Rattle.pub_snap.specs.Snapshots.{steps_in};
    ghost use Rattle.snap_worker.specs.Working.{Watched, sight_of};
    ghost use Rattle.bm_expr.specs.TreeCode.{number_code, truth_code};
    ghost use Rattle.std.specs.Coded.{codes};

    ghost coded = { Prim.hlevel (codes, number_code, truth_code) };

    ghost Value = { Watched };

    ghost view = { λ w. record {
      told = (sight_of w.place).told;
      refusals = (sight_of w.place).refusals;
      steps = w.steps;
      receiver = w.receiver;
    } };

    ghost invariant = { λ w. (is_some w.place ≡ true) × (w.steps ≤ steps_in (sight_of w.place).told.events) };
}

// What was seen of an image: its steps, and who gets packets to a controller.
#[derive(Clone, Copy)]
struct Seen {
    steps: u64,
    receiver: Option<u16>,
}

// Runs a packet through the active plane of a snapshot.
#[tactic(auto, using(crate::proofs::Bounds::are_within))]
fn run_on(view: &View, port: u16, packet: &[u8], scratch: &mut Scratch, out: &mut Verdict) -> Seen
    ensures verdict { out.new ≡ verdict_in (state_after view.now.told) port packet.now }
    ensures slots { All (IsWithin view.now.told.start.slots) out.new.hits }
    ensures steps { result.steps ≡ steps_in view.now.told.events }
    ensures receiver { result.receiver ≡ receiver (state_after view.now.told) }
{
    let image = view.image();
    let _events = view.told().len();
    run(image.active(), image.cpu(), port, packet, scratch, out);
    Seen {
        steps: image.steps(),
        receiver: image.roles().primary(0),
    }
}

// Runs a packet on a snapshot, which is kept.
fn look(
    place: Place,
    port: u16,
    packet: &[u8],
    scratch: &mut Scratch,
    out: &mut Verdict,
) -> (Place, Result<Seen, NoEntry>)
    ensures begins { OnOk result.1 (Begins (sight_in place).told (sight_in result.0).told) }
    ensures refusals { OnOk result.1 ((sight_in result.0).refusals ≡ (sight_in place).refusals) }
    ensures verdict { OnOk result.1 (out.new ≡ verdict_in (state_after (sight_in result.0).told) port packet.now) }
    ensures slots { OnOk result.1 (All (IsWithin (sight_in result.0).told.start.slots) out.new.hits) }
    ensures steps { IfOk result.1 (λ seen. seen.steps ≡ steps_in (sight_in result.0).told.events) }
    ensures receiver { IfOk result.1 (λ seen. seen.receiver ≡ receiver (state_after (sight_in result.0).told)) }
    ensures refused { OnErr result.1 (sight_in result.0 ≡ record { told = (sight_in place).told; refusals = one_more (sight_in place).refusals }) }
    ensures kept { OnErr result.1 (out.new ≡ out.old) }
{
    let stay = match place.stay() {
        Ok(stay) => stay,
        Err(viewer) => return (Place::Out(viewer), Err(NoEntry)),
    };
    let seen = run_on(&stay.view, port, packet, scratch, out);
    (Place::At(stay), Ok(seen))
}

impl Watch {
    pub(crate) fn open(viewer: Viewer) -> Watch
        ensures { result ≡ record { told = viewer.told; refusals = viewer.refusals; steps = 0; receiver = None } }
    {
        Watch {
            place: Some(Place::Out(viewer)),
            steps: 0,
            receiver: None,
        }
    }

    pub(crate) fn told(&self) -> &Told
        ensures { result.now ≡ self.now.told }
    {
        match &self.place {
            Some(Place::Out(viewer)) => viewer.told(),
            Some(Place::At(stay)) => stay.view.told(),
            None => unreachable!(),
        }
    }

    pub(crate) fn refusals(&self) -> u64
        ensures { result ≡ self.now.refusals }
    {
        match &self.place {
            Some(Place::Out(viewer)) => viewer.refusals(),
            Some(Place::At(stay)) => stay.refusals,
            None => unreachable!(),
        }
    }

    /// How many steps the image that was seen last is after.
    pub(crate) fn steps(&self) -> u64
        ensures { result ≡ self.now.steps }
    {
        self.steps
    }

    /// Who got packets to a controller in that image.
    pub(crate) fn receiver(&self) -> Option<u16>
        ensures { result ≡ self.now.receiver }
    {
        self.receiver
    }

    pub(crate) fn learn(&mut self, told: &Told)
        requires { told.now.list ≡ self.old.told.list }
        ensures one { (self.new.told ≡ self.old.told) ⊎ (self.new.told ≡ told.now) }
        ensures own { Begins self.old.told self.new.told }
        ensures learnt { Begins told.now self.new.told }
        ensures others { self.new ≡ record self.old { told = self.new.told } }
    {
        let Some(place) = self.place.take() else {
            unreachable!()
        };
        let mut viewer = place.outside();
        viewer.learn(told);
        self.place = Some(Place::Out(viewer));
    }

    /// Leaves the snapshot that is kept.
    pub(crate) fn rest(&mut self)
        ensures { self.new ≡ self.old }
    {
        let Some(place) = self.place.take() else {
            unreachable!()
        };
        self.place = Some(Place::Out(place.outside()));
    }

    /// Runs a packet on a snapshot, which is kept for those that follow.
    pub(crate) fn run(
        &mut self,
        port: u16,
        packet: &[u8],
        scratch: &mut Scratch,
        out: &mut Verdict,
    ) -> Result<(), NoEntry>
        ensures begins { OnOk result (Begins self.old.told self.new.told) }
        ensures refusals { OnOk result (self.new.refusals ≡ self.old.refusals) }
        ensures verdict { OnOk result (out.new ≡ verdict_in (state_after self.new.told) port packet.now) }
        ensures slots { OnOk result (All (IsWithin self.new.told.start.slots) out.new.hits) }
        ensures steps { OnOk result (self.new.steps ≡ steps_in self.new.told.events) }
        ensures later { OnOk result (self.old.steps ≤ self.new.steps) }
        ensures receiver { OnOk result (self.new.receiver ≡ receiver (state_after self.new.told)) }
        ensures refused { OnErr result (self.new ≡ record self.old { refusals = one_more self.old.refusals }) }
        ensures kept { OnErr result (out.new ≡ out.old) }
    {
        let Some(place) = self.place.take() else {
            unreachable!()
        };
        let (place, seen) = look(place, port, packet, scratch, out);
        self.place = Some(place);
        let seen = seen?;
        self.steps = seen.steps;
        self.receiver = seen.receiver;
        Ok(())
    }

    pub(crate) fn finish(self) -> Viewer
        ensures { result ≡ record { told = self.told; refusals = self.refusals } }
    {
        match self.place {
            Some(place) => place.outside(),
            None => unreachable!(),
        }
    }
}
