//! The control of the switch: calls are answered, one after another.
ghost use Rattle.std.specs.Prelude.{◌≡◌, ◌<◌, ◌++◌, false, OnOk, OnErr, IfOk, replicate, slice_index, set};
ghost use Rattle.plane_spec.specs.Legal.{Legal};
ghost use Rattle.plane_spec.specs.Planes.{opened, applied};
ghost use Rattle.switch_spec.specs.Answer.{answer_to};
ghost use Rattle.switch_spec.specs.History.{is_unavailable};
ghost use Rattle.ctl_core.specs.Core.{Handled, IsSettled, without_memory, raised};
ghost use Rattle.call_outcomes.specs.Prepared.{answer_of};

use crate::calls;
use crate::press::Press;
use call_outcomes::Prepared;
use list_types::{List, NoMemory};
use p4_types::calls::{Call, Reply};
use p4_types::code::Code;
use p4_types::events::{Event, Start};
use plane_image::Image;
use plane_read::Counts;
use plane_state::Config;
use std::alloc::Global;
use std::marker::Model;

/// The control of the switch. A contract sees its control state, how many steps there were, and how many
/// calls each caller has made. Both counts stand still at 2^64 - 1.
pub struct Control {
    image: Image,
    calls: [u64; 32],
}

// Written out, so that those who let one go need not look into it.
impl Drop for Control {
    fn drop(self) {
        let Self {
            image: _image,
            calls: _,
        } = self;
    }
}

impl Model for Control {
    ghost use Rattle.ctl_core.specs.Core.{Core, IsSettled};
    ghost use Rattle.bm_expr.specs.TreeCode.{number_code, truth_code};
    ghost use Rattle.std.specs.Coded.{codes};

    ghost coded = { Prim.hlevel (codes, number_code, truth_code) };

    ghost Value = { Core };

    ghost view = { λ c. record { control = c.image.now; steps = c.image.steps; calls = c.calls } };

    ghost invariant = { λ c. IsSettled c.image };
}

// The reply to a call for which there was no memory.
fn without_memory(alloc: Global, steps: u64) -> Reply
    ensures { result ≡ without_memory steps }
{
    Reply {
        code: Code::Unavailable,
        messages: List::new(alloc),
        notices: List::new(alloc),
        steps,
        packet: None,
    }
}

// Undoes what a call changed for which there is no memory.
fn refused(alloc: Global, image: &mut Image) -> Reply
    ensures reply { result ≡ without_memory image.old.steps }
    ensures now { image.new.now ≡ image.old.before }
    ensures before { image.new.before ≡ image.old.before }
    ensures steps { image.new.steps ≡ image.old.steps }
{
    image.undo();
    without_memory(alloc, image.steps())
}

// Hands events on, if there are any.
fn hand_on<P: Press>(press: &mut P, events: List<Event<Config>>) -> Result<(), NoMemory>
    requires { Legal (applied (P.opening press.old) (P.given press.old)) events }
    ensures opening { P.opening press.new ≡ P.opening press.old }
    ensures added { OnOk result (P.given press.new ≡ P.given press.old ++ events) }
    ensures kept { OnErr result (P.given press.new ≡ P.given press.old) }
{
    if events.is_empty() {
        return Ok(());
    }
    match press.push(events) {
        Ok(()) => Ok(()),
        Err(_) => Err(NoMemory),
    }
}

// Hands the events of an answer on, and keeps what they changed.
fn complete<P: Press>(alloc: Global, image: &mut Image, prepared: Prepared, press: &mut P) -> Reply
    requires available { is_unavailable prepared.code ≡ false }
    requires made { image.old.now ≡ applied image.old.before prepared.events }
    requires may { Legal image.old.before prepared.events }
    requires alive { (applied image.old.before prepared.events).closed ≡ false }
    requires alive_before { image.old.before.closed ≡ false }
    requires state { applied (P.opening press.old) (P.given press.old) ≡ image.old.before }
    ensures handled { Handled image.old.before image.old.steps (P.given press.old) (answer_of prepared) result image.new.now (P.given press.new) }
    ensures steps { result.steps ≡ image.new.steps }
    ensures settled { IsSettled image.new }
    ensures opening { P.opening press.new ≡ P.opening press.old }
{
    let count = prepared.events.len() as u64;
    match hand_on(press, prepared.events) {
        Err(NoMemory) => refused(alloc, image),
        Ok(()) => {
            image.keep(count);
            Reply {
                code: prepared.code,
                messages: prepared.messages,
                notices: prepared.notices,
                steps: image.steps(),
                packet: prepared.packet,
            }
        }
    }
}

// Answers a call, and hands its events on.
fn respond<P: Press, C: Counts>(
    alloc: Global,
    image: &mut Image,
    caller: u16,
    number: u64,
    call: &Call,
    press: &mut P,
    counts: &C,
) -> Reply
    requires settled { IsSettled image.old }
    requires state { applied (P.opening press.old) (P.given press.old) ≡ image.old.now }
    ensures handled { Handled image.old.now image.old.steps (P.given press.old) (answer_to image.old.now (C.figures counts.now) caller number call.now) result image.new.now (P.given press.new) }
    ensures steps { result.steps ≡ image.new.steps }
    ensures settled { IsSettled image.new }
    ensures opening { P.opening press.new ≡ P.opening press.old }
{
    match calls::prepare(alloc, image, caller, number, call, counts) {
        Ok(prepared) => complete(alloc, image, prepared, press),
        Err(NoMemory) => refused(alloc, image),
    }
}

impl Control {
    /// The control of a switch that starts.
    pub fn open(alloc: Global, start: &Start) -> Result<Control, NoMemory>
        ensures control { IfOk result (λ c. c.control ≡ opened start.now) }
        ensures steps { IfOk result (λ c. c.steps ≡ 0) }
        ensures calls { IfOk result (λ c. c.calls ≡ replicate 32 0) }
    {
        let image = Image::open(alloc, start)?;
        Ok(Control {
            image,
            calls: [0; 32],
        })
    }

    /// Answers a call of a caller, a controller's lane below 32, and hands the events of its answer to the
    /// press; a Read of counters sees the counts. Where the reply has a packet, that packet is to enter at the CPU port
    /// directly after the call. A call for which there is no memory is answered UNAVAILABLE: it makes no step.
    pub fn handle<P: Press, C: Counts>(
        &mut self,
        alloc: Global,
        caller: u16,
        call: &Call,
        press: &mut P,
        counts: &C,
    ) -> Reply
        requires caller { caller < 32 }
        requires state { applied (P.opening press.old) (P.given press.old) ≡ self.old.control }
        ensures handled { Handled self.old.control self.old.steps (P.given press.old) (answer_to self.old.control (C.figures counts.now) caller (raised (slice_index self.old.calls caller) 1) call.now) result self.new.control (P.given press.new) }
        ensures steps { result.steps ≡ self.new.steps }
        ensures counted { self.new.calls ≡ set self.old.calls caller (raised (slice_index self.old.calls caller) 1) }
        ensures opening { P.opening press.new ≡ P.opening press.old }
    {
        let number = self.calls[caller as usize].saturating_add(1);
        self.calls[caller as usize] = number;
        respond(alloc, &mut self.image, caller, number, call, press, counts)
    }

    /// Answers UNAVAILABLE to a caller whose call could not be read for want of memory.
    pub fn decline(&mut self, alloc: Global, caller: u16) -> Reply
        requires caller { caller < 32 }
        ensures refused { result ≡ without_memory self.old.steps }
        ensures control { self.new.control ≡ self.old.control }
        ensures steps { self.new.steps ≡ self.old.steps }
        ensures counted { self.new.calls ≡ set self.old.calls caller (raised (slice_index self.old.calls caller) 1) }
    {
        self.calls[caller as usize] = self.calls[caller as usize].saturating_add(1);
        without_memory(alloc, self.image.steps())
    }

    /// How many calls a caller has made.
    pub fn calls_of(&self, caller: u16) -> u64
        requires { caller < 32 }
        ensures { result ≡ slice_index self.now.calls caller }
    {
        self.calls[caller as usize]
    }

    /// The control state.
    pub fn image(&self) -> &Image
        ensures control { result.now.now ≡ self.now.control }
        ensures steps { result.now.steps ≡ self.now.steps }
    {
        &self.image
    }
}
