//! A run in lockstep: calls are answered and packets carried, one after another.
ghost use Rattle.std.specs.Prelude.{◌≡◌, ◌<◌, ◌≤◌, ◌+◌, ◌++◌, [], ◌∷◌, length, map, true, OnOk, IfOk, IfSome};
ghost use Rattle.p4v1_read.specs.Calls.{call_of};
ghost use Rattle.switch_spec.specs.Meaning.{carried, record_of, receiver, to_lane};
ghost use Rattle.run_spec.specs.Play.{begun, played_report};
ghost use Rattle.run_spec.specs.Tape.{IsRecord};
ghost use Rattle.lockstep_run.specs.Session.{played_of, IsSession, IsHandled, IsEntered, IsCarried, IsOut, IsCompleted, TakesPacket, PlaysCall, Plays, HasRoom, IsAskedOf, with_sent};
ghost use Rattle.lockstep_run.specs.Tallies.{IsLane};
ghost use Rattle.switch_spec.specs.declared.calls.LaneCall.TheVariants.{Asks, Leaves};

use crate::journal::Packets;
use ctl_core::Control;
use list_types::{ByteList, List, NoMemory};
use p4_types::calls::{Call, Method, Reply};
use p4_types::events::Start;
use p4_types::journal::{Entry, Report};
use p4_types::messages::PacketIn;
use p4_types::records::{CpuMessage, Record};
use p4_types::tape::{TapeRecord, Who};
use p4v1_read::read_call;
use pkt_worker::{Scratch, Verdict};
use plane_image::Image;
use reply_copy::copied_reply;
use run_press::Published;
use slot_totals::Totals;
use std::alloc::Global;
use std::marker::Model;
use std::mem;

/// The run so far: the control of the switch, the events that it handed on, the calls and the packets.
#[derive(Drop)]
pub struct Session {
    control: Control,
    published: Published,
    journal: List<Entry>,
    packets: Packets,
    totals: Totals,
    scratch: Scratch,
    verdict: Verdict,
}

impl Model for Session {
    ghost use Rattle.lockstep_run.specs.Session.{State};
    ghost use Rattle.bm_expr.specs.TreeCode.{number_code, truth_code};
    ghost use Rattle.std.specs.Coded.{codes};

    ghost coded = { Prim.hlevel (codes, number_code, truth_code) };

    ghost Value = { State };

    ghost view = { λ s. record { core = s.control; start = s.published.start; events = s.published.events; journal = s.journal; records = s.packets; totals = s.totals } };
}

// Packets for a controller, which go to this lane or to none.
fn addressed(
    alloc: Global,
    lane: Option<u16>,
    packets: List<PacketIn>,
) -> Result<List<CpuMessage>, NoMemory>
    ensures { IfOk result (λ messages. messages ≡ map (to_lane lane) packets) }
{
    let mut messages = List::new(alloc);
    for packet in packets.into_vec() {
        messages.push(CpuMessage { lane, packet })?;
    }
    Ok(messages)
}

// Packets for a controller, which go to the primary of role 0, if there is one. Where there are none it is not asked for.
fn to_controller(
    alloc: Global,
    image: &Image,
    packets: List<PacketIn>,
) -> Result<List<CpuMessage>, NoMemory>
    ensures { IfOk result (λ messages. messages ≡ map (to_lane (receiver image.now.now)) packets) }
{
    if packets.is_empty() {
        return Ok(List::new(alloc));
    }
    addressed(alloc, image.roles().primary(0), packets)
}

// The record of what became of a lane's packet after the steps of an image.
fn recorded(
    alloc: Global,
    image: &Image,
    who: Who,
    index: u64,
    verdict: &Verdict,
) -> Result<Record, NoMemory>
    ensures record { IfOk result (λ r. r ≡ record_of who index image.now.steps (receiver image.now.now) verdict.now) }
    ensures few { IfOk result (λ r. length r.hits ≤ 274560) }
{
    Ok(Record {
        who,
        index,
        steps: image.steps(),
        fate: verdict.fate(),
        outputs: verdict.outputs(alloc)?,
        cpu: to_controller(alloc, image, verdict.packet_ins(alloc)?)?,
        digest: verdict.sample(alloc)?,
        hits: verdict.hit_list(alloc)?,
    })
}

// Carries a lane's packet through the active plane of an image.
#[allow(clippy::too_many_arguments)]
fn carry(
    alloc: Global,
    image: &Image,
    who: Who,
    index: u64,
    port: u16,
    packet: &[u8],
    scratch: &mut Scratch,
    verdict: &mut Verdict,
) -> Result<Record, NoMemory>
    ensures record { IfOk result (λ r. r ≡ carried who index image.now.steps image.now.now port packet.now) }
    ensures few { IfOk result (λ r. length r.hits ≤ 274560) }
{
    pkt_worker::run(image.active(), image.cpu(), port, packet, scratch, verdict);
    recorded(alloc, image, who, index, verdict)
}

impl Session {
    /// A session behind no record of a tape, with the scratch that its packets use; refused for memory alone.
    pub fn open(alloc: Global, start: Start) -> Result<Session, NoMemory>
        ensures played { IfOk result (λ s. played_of s ≡ begun start) }
        ensures session { IfOk result IsSession }
    {
        let scratch = Scratch::open(alloc)?;
        let verdict = Verdict::open(alloc)?;
        let control = Control::open(alloc, &start)?;
        Ok(Session {
            control,
            published: Published::open(alloc, start),
            journal: List::new(alloc),
            packets: Packets::open(alloc),
            totals: Totals::open(alloc),
            scratch,
            verdict,
        })
    }

    /// Whether no number of the run is at its end yet: calls and packets are numbered in 32 bits, and memory ends long before.
    pub fn has_room(&self) -> bool
        ensures { result ≡ true → HasRoom self.now }
    {
        self.control.image().steps() < 0x8000_0000_0000_0000
            && self.journal.len() < u32::MAX as usize
            && self.packets.len() < u32::MAX as usize
    }

    // The reply to a lane's next call, which was read.
    fn handle(&mut self, alloc: Global, lane: u16, call: &Call) -> Reply
        requires lane { lane < 32 }
        requires room { HasRoom self.old }
        requires session { IsSession self.old }
        ensures { IsHandled lane call.now result self.old self.new }
    {
        self.control
            .handle(alloc, lane, call, &mut self.published, &self.totals)
    }

    // The reply to a lane's next call, for which there is no memory.
    fn decline(&mut self, alloc: Global, lane: u16) -> Reply
        requires lane { lane < 32 }
        requires room { HasRoom self.old }
        requires session { IsSession self.old }
        ensures { (call : Call) → IsHandled lane call result self.old self.new }
    {
        self.control.decline(alloc, lane)
    }

    // The reply to a lane's next call.
    fn reply(&mut self, alloc: Global, lane: u16, method: Method, message: &[u8]) -> Reply
        requires lane { lane < 32 }
        requires room { HasRoom self.old }
        requires session { IsSession self.old }
        ensures { IsHandled lane (call_of method message.now) result self.old self.new }
    {
        let Ok(call) = read_call(alloc, method, message) else {
            return self.decline(alloc, lane);
        };
        self.handle(alloc, lane, &call)
    }

    // Adds the entry of a lane's latest call to the journal, with the steps of the events behind the first
    // so many.
    fn enter(
        &mut self,
        alloc: Global,
        lane: u16,
        before: usize,
        reply: Reply,
    ) -> Result<(), NoMemory>
        requires lane { lane < 32 }
        requires before { before ≤ length self.old.events }
        ensures { OnOk result (IsEntered lane before reply self.old self.new) }
    {
        let steps = self.published.steps_after(alloc, before)?;
        let call = self.control.calls_of(lane);
        self.journal.push(Entry {
            lane,
            call,
            steps,
            reply,
        })?;
        Ok(())
    }

    // Runs a lane's next packet through the state as it is, and counts it.
    fn carry(&mut self, alloc: Global, who: Who, port: u16, packet: &[u8]) -> Result<(), NoMemory>
        requires lane { IsLane who }
        requires size { length packet.now ≤ 9216 }
        requires takes { TakesPacket self.old }
        ensures { OnOk result (IsCarried who port packet.now self.old self.new) }
    {
        let index = u64::from(self.packets.count_of(who)) + 1;
        let outcome = carry(
            alloc,
            self.control.image(),
            who,
            index,
            port,
            packet,
            &mut self.scratch,
            &mut self.verdict,
        )?;
        self.totals.add(outcome.hits.as_slice(), packet.len())?;
        self.packets.push(outcome)?;
        Ok(())
    }

    // Runs the packet that a lane's call makes enter, if it makes one, at the CPU port.
    fn carry_out(
        &mut self,
        alloc: Global,
        lane: u16,
        packet: &Option<ByteList>,
    ) -> Result<(), NoMemory>
        requires lane { lane < 32 }
        requires size { IfSome packet.now (λ packet. length packet ≤ 9216) }
        requires takes { TakesPacket self.old }
        ensures { OnOk result (IsOut lane packet.now self.old self.new) }
    {
        match packet {
            None => Ok(()),
            Some(packet) => {
                let cpu = self.control.image().cpu();
                self.carry(alloc, Who::Controller(lane), cpu, packet.as_slice())
            }
        }
    }

    // Runs the packet that a lane's latest call makes enter, then adds the call's entry to the journal.
    fn complete(
        &mut self,
        alloc: Global,
        lane: u16,
        before: usize,
        reply: Reply,
    ) -> Result<(), NoMemory>
        requires lane { lane < 32 }
        requires before { before ≤ length self.old.events }
        requires size { IfSome reply.packet (λ packet. length packet ≤ 9216) }
        requires takes { TakesPacket self.old }
        ensures { OnOk result (IsCompleted lane before reply self.old self.new) }
    {
        self.carry_out(alloc, lane, &reply.packet)?;
        self.enter(alloc, lane, before, reply)
    }

    /// Answers a controller's next call, and runs the packet that it makes enter. Without memory for the journal the run
    /// cannot go on.
    pub fn call(
        &mut self,
        alloc: Global,
        lane: u16,
        method: Method,
        message: &[u8],
    ) -> Result<(), NoMemory>
        requires lane { lane < 32 }
        requires room { HasRoom self.old }
        requires session { IsSession self.old }
        ensures plays { OnOk result (PlaysCall (played_of self.old) lane (Asks method message.now) (played_of self.new)) }
        ensures session { OnOk result (IsSession self.new) }
    {
        let before = self.published.len();
        let reply = self.reply(alloc, lane, method, message);
        self.complete(alloc, lane, before, reply)
    }

    /// Ends a controller's stream, which is a call too.
    pub fn leave(&mut self, alloc: Global, lane: u16) -> Result<(), NoMemory>
        requires lane { lane < 32 }
        requires room { HasRoom self.old }
        requires session { IsSession self.old }
        ensures plays { OnOk result (PlaysCall (played_of self.old) lane Leaves (played_of self.new)) }
        ensures session { OnOk result (IsSession self.new) }
    {
        let before = self.published.len();
        let reply = self.handle(alloc, lane, &Call::Leave);
        self.complete(alloc, lane, before, reply)
    }

    /// Answers a controller's next call, which was read, runs the packet that it makes enter, and gives a copy of the reply. Without
    /// memory for it or for the journal the run cannot go on.
    pub fn ask(&mut self, alloc: Global, lane: u16, call: &Call) -> Result<Reply, NoMemory>
        requires lane { lane < 32 }
        requires room { HasRoom self.old }
        requires session { IsSession self.old }
        ensures asked { IfOk result (λ reply. IsAskedOf lane call.now reply self.old self.new) }
        ensures session { OnOk result (IsSession self.new) }
    {
        let before = self.published.len();
        let reply = self.handle(alloc, lane, call);
        let copy = copied_reply(alloc, &reply)?;
        self.complete(alloc, lane, before, reply)?;
        Ok(copy)
    }

    /// Runs a worker's next packet.
    pub fn packet(
        &mut self,
        alloc: Global,
        lane: u16,
        port: u16,
        packet: &[u8],
    ) -> Result<(), NoMemory>
        requires lane { lane < 16 }
        requires size { length packet.now ≤ 9216 }
        requires room { HasRoom self.old }
        requires session { IsSession self.old }
        ensures plays { OnOk result (Plays (played_of self.old) (TapeRecord.Packet lane port packet.now) (played_of self.new)) }
        ensures session { OnOk result (IsSession self.new) }
    {
        self.carry(alloc, Who::Worker(lane), port, packet)
    }

    /// Takes a record.
    #[tactic(auto, using(crate::proofs::SessionBounds::meet_plays))]
    pub fn take(&mut self, alloc: Global, item: &TapeRecord) -> Result<(), NoMemory>
        requires item { IsRecord item.now }
        requires room { HasRoom self.old }
        requires session { IsSession self.old }
        ensures plays { OnOk result (Plays (played_of self.old) item.now (played_of self.new)) }
        ensures session { OnOk result (IsSession self.new) }
    {
        match item {
            TapeRecord::Call {
                lane,
                method,
                message,
            } => self.call(alloc, *lane, *method, message.as_slice()),
            TapeRecord::Packet { lane, port, packet } => {
                self.packet(alloc, *lane, *port, packet.as_slice())
            }
            TapeRecord::Leave { lane } => self.leave(alloc, *lane),
            // its call was made before, since that stands before it on the tape
            TapeRecord::Meet { .. } => Ok(()),
        }
    }

    /// The journal so far.
    pub fn journal(&self) -> &[Entry]
        ensures { result.now ≡ self.now.journal }
    {
        self.journal.as_slice()
    }

    /// What the report shows of the run, whose journal and records it takes, beside what lanes of bytes were sent.
    pub fn finish(&mut self, alloc: Global, sent: List<(u16, ByteList)>) -> Result<Report, NoMemory>
        ensures { IfOk result (λ report. report ≡ with_sent sent (played_report (played_of self.old))) }
    {
        let plane = self.control.image().active();
        let counts = slot_totals::count_lines(alloc, plane, &self.totals)?;
        let cells = slot_totals::cell_lines(alloc, plane, &self.totals)?;
        let journal = mem::replace(&mut self.journal, List::new(alloc));
        let packets = mem::replace(&mut self.packets, Packets::open(alloc));
        Ok(Report {
            journal,
            sent,
            records: packets.into_list(),
            counts,
            cells,
        })
    }
}
