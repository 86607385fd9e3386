//! What stands behind the lock of a desk that serves: the control of the switch with its published list, and what waits for controllers.
ghost use Rattle.std.specs.Prelude.{◌≡◌, ◌≢◌, ◌⊎◌, ◌<◌, ◌≤◌, None, length, max, IfNone, IfSome};
ghost use Rattle.digest_lists.specs.Fold.{sent_at_tick};
ghost use Rattle.live_desk.specs.Locked.{Locking};
ghost use Rattle.live_desk.specs.Mailing.{IsAnswered, IsSampled, acknowledged_by, entries_of, is_left, live_lane, mail_lane, packets_given, reply_to, settled};
ghost use Rattle.mail_room.specs.AllMail.{Gives, IsLaneIfAny, missed, ticked};
ghost use Rattle.mail_room.specs.Boxes.{IsMail};
ghost use Rattle.snap_worker.specs.Working.{state_after};
ghost use Rattle.switch_spec.specs.Meaning.{receiver};

use crate::call_steps::CallSteps;
use crate::desk_told::DeskTold;
use crate::handed::Handed;
use crate::locked::Locked;
use crate::naming::Naming;
use crate::pass::Pass;
use counter_bank::Bank;
use lane_table::{JournalSeat, LaneTable};
use list_types::{List, NoMemory};
use mail_room::{LANE_LIMIT, Mail, Next};
use p4_types::calls::{Call, Reply};
use p4_types::code::Code;
use p4_types::messages::{PacketIn, StreamMessageRequest};
use p4_types::records::Sample;
use pub_snap::Told;
use std::marker::Model;
use std::sync::Wait;

/// What stands behind the lock: the control with its published list, and what waits for controllers.
pub struct Live<J: Naming, R: Wait + Drop> {
    locked: Locked<J, R>,
    mail: Mail<DeskTold<J>>,
    moment: u64,
}

// Written out, so that those who let one go need not look into it.
impl<J: Naming, R: Wait + Drop> Drop for Live<J, R> {
    fn drop(self) {
        let Self {
            locked: _locked,
            mail: _mail,
            moment: _,
        } = self;
    }
}

impl<J: Naming, R: Wait + Drop> Model for Live<J, R> {
    ghost use Rattle.live_desk.specs.Mailing.{Living};
    ghost use Rattle.bm_expr.specs.TreeCode.{number_code, truth_code};
    ghost use Rattle.std.specs.Coded.{codes};

    ghost coded = { Prim.hlevel (codes, number_code, truth_code) };

    ghost Value = { Living };

    ghost view = { λ l. record { locking = l.locked; mail = l.mail; moment = l.moment } };
}

// Whether a call with this code ended its caller's stream.
fn is_left(call: &Call, code: Code) -> bool
    ensures { result ≡ is_left call.now code }
{
    match (call, code) {
        (Call::Leave, Code::Unavailable) => false,
        (Call::Leave, _) => true,
        _ => false,
    }
}

// The list of a digest that a call with this code acknowledges, if it does.
fn acknowledged_by(call: &Call, code: Code) -> Option<(u32, u64)>
    ensures { result ≡ acknowledged_by call.now code }
{
    match (call, code) {
        (Call::Stream(Some(StreamMessageRequest::DigestAck(ack))), Code::Ok) => {
            Some((ack.digest_id, ack.list_id))
        }
        _ => None,
    }
}

impl<J: Naming, R: Wait + Drop> Live<J, R> {
    /// No moment was told yet.
    pub fn new(locked: Locked<J, R>, mail: Mail<DeskTold<J>>) -> Live<J, R>
        ensures { result ≡ record { locking = locked; mail = mail; moment = 0 } }
    {
        Live {
            locked,
            mail,
            moment: 0,
        }
    }

    // Gives what a call that was made has for other lanes, notes what it acknowledges, and shows its reply to its caller.
    fn settle(&mut self, lane: u16, call: &Call, told: &DeskTold<J>, reply: Reply) -> Reply
        requires lane { lane < 32 }
        ensures shown { result ≡ reply_to lane reply }
        ensures locking { self.new.locking ≡ self.old.locking }
        ensures mail { self.new.mail ≡ settled (entries_of (state_after self.old.locking.told).active) lane call.now reply told.now self.old.mail }
    {
        let Reply {
            code,
            messages,
            notices,
            steps,
            packet,
        } = reply;
        let notices = self.mail.post(lane, told, notices);
        if is_left(call, code) {
            self.mail.clear(lane);
        }
        if let Some((digest, list)) = acknowledged_by(call, code) {
            self.mail.acknowledge(digest, list);
        }
        self.mail.set_digests(self.locked.digests());
        Reply {
            code,
            messages,
            notices,
            steps,
            packet,
        }
    }

    /// Makes a pass's next call, and publishes what it did, unless what is published does not begin with all that the pass has seen
    /// or learnt. Its notices to other lanes wait there; the reply that is answered has those for the caller.
    pub fn call(
        &mut self,
        table: &LaneTable<CallSteps>,
        bank: &Bank,
        pass: &mut Pass<J>,
        call: &Call,
    ) -> Option<Reply>
        requires table { table.now ≡ J.table }
        requires bank { bank.now.id ≡ J.bank }
        requires slots { J.start.slots ≤ bank.now.slots }
        ensures answered { IfSome result (λ reply. IsAnswered call.now reply pass.old pass.new self.old.mail self.new.mail) }
        ensures size { IfSome result (λ reply. IfSome reply.packet (λ packet. length packet ≤ 9216)) }
        ensures kept { IfNone result (pass.new ≡ pass.old) }
    {
        let reply = self.locked.call(table, bank, pass, call)?;
        let told = pass.last_told();
        let lane = pass.lane();
        Some(self.settle(lane, call, &told, reply))
    }

    // The lane of the primary of role 0, if it has one that may have mail.
    fn primary(&self) -> Option<u16>
        ensures primary { result ≡ mail_lane (receiver (state_after self.now.locking.told)) }
        ensures lane { IsLaneIfAny result }
    {
        match self.locked.roles().primary(0) {
            Some(lane) if usize::from(lane) < LANE_LIMIT => Some(lane),
            _ => None,
        }
    }

    // The lane, where it has a session and may have mail.
    fn live_lane(&self, to: Option<u16>) -> Option<u16>
        ensures live { result ≡ live_lane (state_after self.now.locking.told) to }
        ensures lane { IsLaneIfAny result }
    {
        match to {
            Some(lane)
                if usize::from(lane) < LANE_LIMIT && self.locked.roles().session(lane).is_some() =>
                { Some(lane) }
            _ => None,
        }
    }

    // Gives packets to the controller of a lane, in their order. What found no memory is counted.
    fn deliver_packets(&mut self, to: Option<u16>, packets: Result<List<PacketIn>, NoMemory>)
        ensures { self.new ≡ record self.old { mail = packets_given (state_after self.old.locking.told) to packets self.old.mail } }
    {
        match packets {
            Ok(packets) => {
                if let Some(lane) = self.live_lane(to) {
                    self.mail.deliver_packets(lane, packets);
                }
            }
            Err(NoMemory) => self.mail.count_unstored(),
        }
    }

    // Gives a sample to the lists of its digest. What found no memory is counted.
    fn deliver_sample(&mut self, sample: Result<Option<Sample>, NoMemory>)
        ensures mail { IsSampled (state_after self.old.locking.told) sample self.old.moment self.old.mail self.new.mail }
        ensures others { self.new ≡ record self.old { mail = self.new.mail } }
    {
        match sample {
            Ok(None) => {}
            Ok(Some(Sample { digest, content })) => {
                let primary = self.primary();
                let _ = self
                    .mail
                    .deliver_sample(digest, content, primary, self.moment);
            }
            Err(NoMemory) => self.mail.count_unstored(),
        }
    }

    /// Hands on what a packet gives to controllers, at a moment in nanoseconds or later: packets to the lane, where that has a session,
    /// and a sample to the lists of its digest, of which one that is due goes to the primary of role 0.
    pub fn deliver(&mut self, to: Option<u16>, handed: Handed, now: u64)
        ensures mail { IsSampled (state_after self.old.locking.told) handed.sample self.new.moment (packets_given (state_after self.old.locking.told) to handed.packets self.old.mail) self.new.mail }
        ensures moment { self.new.moment ≡ max self.old.moment now }
        ensures locking { self.new.locking ≡ self.old.locking }
    {
        let Handed { packets, sample } = handed;
        self.moment = self.moment.max(now);
        self.deliver_packets(to, packets);
        self.deliver_sample(sample);
    }

    /// Gives what waits longest for a lane at a moment in nanoseconds, or later, with what its call has told if it is a notice. Lists of
    /// digests that are due go to the primary of role 0 before.
    pub fn next(&mut self, lane: u16, now: u64) -> Option<(Next, Option<DeskTold<J>>)>
        requires lane { lane < 32 }
        ensures given { Gives (ticked self.old.mail (mail_lane (receiver (state_after self.old.locking.told))) self.new.moment) lane result self.new.mail
            ⊎ ((sent_at_tick self.old.mail.lists self.new.moment ≢ None) × Gives (missed self.old.mail) lane result self.new.mail) }
        ensures mail { IfSome result (λ given. IsMail given.0) }
        ensures moment { self.new.moment ≡ max self.old.moment now }
        ensures locking { self.new.locking ≡ self.old.locking }
    {
        self.moment = self.moment.max(now);
        let primary = self.primary();
        self.mail.next(lane, primary, self.moment)
    }

    /// The control with its published list. What waits for controllers is dropped.
    pub fn into_locked(self) -> Locked<J, R>
        ensures { result ≡ self.locking }
    {
        let Self {
            locked,
            mail: _mail,
            moment: _,
        } = self;
        locked
    }
}
