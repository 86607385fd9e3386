//! Who lets the list grow.
ghost use Rattle.std.specs.Prelude.{◌≡◌, ◌+◌, ◌-◌, ◌^◌, ◌<◌, ◌≤◌, [], ◌∷◌, ◌++◌, length, drop, fold, Some, OnOk, OnErr, IfErr};
ghost use Rattle.left_right.specs.Sides.{view};
ghost use Rattle.plane_spec.specs.Legal.{May, Legal};
ghost use Rattle.plane_spec.specs.Planes.{opened, applied};
ghost use Rattle.pub_snap.specs.Beginnings.{with_events};
ghost use Rattle.pub_snap.specs.Room.{IsNotTaken};
ghost use Rattle.pub_snap.specs.Snapshots.{AreShowable, shifted, shifts, steps_in, all_of};

use crate::room::NoRoom;
use crate::ruling::{Sees, ShownWriter};
use crate::shown::Shifting;
use crate::told::{Log, Told};
use core::mem::replace_with;
use list_types::{List, Refusal};
use p4_types::events::Event;
use plane_image::Image;
use plane_state::Config;
use std::alloc::{AllocError, Global};
use std::collections::VecDeque;
use std::marker::Model;
use std::sync::Wait;
use std::thread::yield_now;

/// The one who lets the published list grow: what is pending, and what viewers see.
pub struct Publisher<R: Wait + Drop> {
    pub(crate) log: Log,
    pub(crate) told: Told,
    pub(crate) pending: VecDeque<Event<Config>>,
    pub(crate) writer: ShownWriter,
    pub(crate) alloc: Global,
    pub(crate) rt: R,
}

impl<R: Wait + Drop> Model for Publisher<R> {
    ghost use Rattle.std.specs.Prelude.{◌≡◌, [], drop};
    ghost use Rattle.pub_snap.specs.Snapshots.{Feed, IsAfter, IsFeed};
    ghost use Rattle.bm_expr.specs.TreeCode.{number_code, truth_code};
    ghost use Rattle.std.specs.Coded.{codes};

    ghost coded = { Prim.hlevel (codes, number_code, truth_code) };

    ghost Value = { Feed };

    ghost view = { λ p. record { told = p.told; pending = p.pending.items } };

    ghost invariant = { λ p.
        (p.log ≡ p.told.list)
        × (p.writer.desk.shown.value.told ≡ p.told)
        × IsAfter p.writer.desk.shown.value.image p.told
        × (drop p.writer.behind p.writer.log.items ≡ [])
        × IsFeed (record { told = p.told; pending = p.pending.items }) };
}

impl<R: Wait + Drop> Drop for Publisher<R> {
    fn drop(self) {
        let Self {
            log: _log,
            told: _told,
            pending: _pending,
            writer,
            alloc: _,
            rt,
        } = self;
        drop(writer.take(&rt));
    }
}

// Shows viewers what the writer has not shown yet, or nothing where there is no memory.
fn try_show<R: Wait>(rt: &R, writer: ShownWriter) -> (ShownWriter, Result<(), AllocError>)
    requires { AreShowable writer.desk.shown.value (drop writer.behind writer.log.items) }
    ensures shown { OnOk result.1 (result.0.desk.shown.value ≡ fold shifted writer.desk.shown.value (drop writer.behind writer.log.items)) }
    ensures done { OnOk result.1 (drop result.0.behind result.0.log.items ≡ []) }
    ensures seen { OnOk result.1 (view result.0.desk.place ≡ Some result.0.desk.shown.value.told) }
    ensures kept { OnErr result.1 (result.0.desk.shown.value ≡ writer.desk.shown.value) }
    ensures left { OnErr result.1 (drop result.0.behind result.0.log.items ≡ drop writer.behind writer.log.items) }
{
    writer.publish_as::<Sees, R>(rt)
}

// Shows viewers what the writer has not shown yet. It asks again where there is no memory.
pub(crate) fn show<R: Wait>(rt: &R, writer: ShownWriter) -> ShownWriter
    requires { AreShowable writer.desk.shown.value (drop writer.behind writer.log.items) }
    ensures shown { result.desk.shown.value ≡ fold shifted writer.desk.shown.value (drop writer.behind writer.log.items) }
    ensures done { drop result.behind result.log.items ≡ [] }
    ensures seen { view result.desk.place ≡ Some result.desk.shown.value.told }
{
    let mut writer = writer;
    for _ in rt.forever() {
        let (next, shown) = try_show(rt, writer);
        if shown.is_ok() {
            return next;
        }
        writer = next;
        yield_now();
    }
    unreachable!()
}

// The same in place.
fn show_here<R: Wait>(rt: &R, writer: &mut ShownWriter)
    requires { AreShowable writer.old.desk.shown.value (drop writer.old.behind writer.old.log.items) }
    ensures shown { writer.new.desk.shown.value ≡ fold shifted writer.old.desk.shown.value (drop writer.old.behind writer.old.log.items) }
    ensures done { drop writer.new.behind writer.new.log.items ≡ [] }
{
    replace_with(writer, rt, |writer, rt| (show(rt, writer), ()));
}

// Notes a shift, to be shown. It asks again where there is no memory.
fn note<R: Wait>(rt: &R, writer: &mut ShownWriter, shift: Shifting)
    ensures desk { writer.new.desk ≡ writer.old.desk }
    ensures noted { drop writer.new.behind writer.new.log.items ≡ drop writer.old.behind writer.old.log.items ++ shift ∷ [] }
{
    let mut shift = shift;
    for _ in rt.forever() {
        match writer.append(shift) {
            Ok(()) => return,
            Err(back) => shift = back,
        }
        yield_now();
    }
    unreachable!()
}

// Lets the list go on by an event, to be shown.
fn list<R: Wait>(
    rt: &R,
    alloc: Global,
    log: &Log,
    told: &mut Told,
    writer: &mut ShownWriter,
    event: Event<Config>,
)
    requires log { log.now ≡ told.old.list }
    requires room { length told.old.events < 2 ^ 64 - 2 }
    requires may { May (applied (opened told.old.start) told.old.events) event }
    ensures told { told.new ≡ with_events told.old (event ∷ []) }
    ensures desk { writer.new.desk ≡ writer.old.desk }
    ensures noted { drop writer.new.behind writer.new.log.items ≡ drop writer.old.behind writer.old.log.items ++ shifts told.old (event ∷ []) }
{
    let event = told.add(rt, log, event);
    let shift = Shifting {
        event,
        after: told.again(),
        alloc,
    };
    note(rt, writer, shift);
}

// Lets the list go on by what is pending, to be shown.
fn list_all<R: Wait>(
    rt: &R,
    alloc: Global,
    log: &Log,
    told: &mut Told,
    writer: &mut ShownWriter,
    pending: &mut VecDeque<Event<Config>>,
)
    requires log { log.now ≡ told.old.list }
    requires room { length told.old.events + length pending.old.items ≤ 2 ^ 64 - 2 }
    requires legal { Legal (applied (opened told.old.start) told.old.events) pending.old.items }
    requires shown { drop writer.old.behind writer.old.log.items ≡ [] }
    ensures told { told.new ≡ with_events told.old pending.old.items }
    ensures desk { writer.new.desk ≡ writer.old.desk }
    ensures noted { drop writer.new.behind writer.new.log.items ≡ shifts told.old pending.old.items }
    ensures pending { pending.new.items ≡ [] }
{
    'events: while let Some(event) = pending.pop_front() {
        list(rt, alloc, log, told, writer, event);
    }
}

// Adds all of the events, or gives them back where there is no memory.
fn append(
    pending: &mut VecDeque<Event<Config>>,
    events: List<Event<Config>>,
) -> Result<(), List<Event<Config>>>
    ensures added { OnOk result (pending.new.items ≡ pending.old.items ++ events) }
    ensures kept { OnErr result (pending.new.items ≡ pending.old.items) }
    ensures given_back { IfErr result (λ given_back. given_back ≡ events) }
{
    let mut events = VecDeque::from_vec(events.into_vec());
    match pending.append(&mut events) {
        Ok(()) => Ok(()),
        Err(_) => Err(List::from_vec(events.into_vec())),
    }
}

impl<R: Wait + Drop> Publisher<R> {
    /// Adds events to what is pending: all of them, or none where there is no memory or the list has no room for them. They
    /// are given back then.
    pub fn push(
        &mut self,
        events: List<Event<Config>>,
    ) -> Result<(), (List<Event<Config>>, Refusal<NoRoom>)>
        requires legal { Legal (applied (opened self.old.told.start) (all_of self.old)) events }
        ensures told { self.new.told ≡ self.old.told }
        ensures added { OnOk result (self.new.pending ≡ self.old.pending ++ events) }
        ensures kept { OnErr result (self.new.pending ≡ self.old.pending) }
        ensures given_back { IfErr result (λ refused. refused.0 ≡ events) }
        ensures refused { IfErr result (λ refused. IsNotTaken refused.1 self.old events) }
    {
        let room = u64::MAX - 1 - self.told.len() - self.pending.len() as u64;
        if events.len() as u64 > room {
            return Err((events, Refusal::For(NoRoom)));
        }
        if let Err(events) = append(&mut self.pending, events) {
            return Err((events, Refusal::NoMemory));
        }
        Ok(())
    }

    /// Publishes what is pending: the list goes on by it, and viewers see the image after it. Where there is no memory it asks
    /// again.
    pub fn publish(&mut self)
        ensures told { self.new.told ≡ with_events self.old.told self.old.pending }
        ensures pending { self.new.pending ≡ [] }
    {
        list_all(
            &self.rt,
            self.alloc,
            &self.log,
            &mut self.told,
            &mut self.writer,
            &mut self.pending,
        );
        show_here(&self.rt, &mut self.writer);
    }

    /// What is published. It can be learnt by the viewers that were opened with it.
    pub fn tell(&self) -> Told
        ensures { result ≡ self.now.told }
    {
        self.told.again()
    }

    /// The image that viewers see.
    pub fn image(&self) -> &Image
        ensures after { result.now.now ≡ applied (opened self.now.told.start) self.now.told.events }
        ensures steps { result.now.steps ≡ steps_in self.now.told.events }
    {
        &self.writer.published().image
    }
}
