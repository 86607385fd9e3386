//! What waits for all controllers.
ghost use Rattle.std.specs.Prelude.{◌≡◌, ◌≢◌, ◌⊎◌, None, false, IfOk, IfSome, All, replicate};
ghost use Rattle.std.specs.Option.{option_copied};
ghost use Rattle.digest_lists.specs.Fold.{HasRoom, IsTaken, set_digest, set_to, acknowledge, sent_at_tick};
ghost use Rattle.mail_room.specs.Boxes.{IsMail, empty_box};
ghost use Rattle.mail_room.specs.AllMail.{IsLane, IsLaneIfAny, no_mail, with_box, with_lists, missed, notified, posted, posted_one, own_notices, sent_to, packets_to, list_to, sampled, ticked, Gives, IsDoneOrMissed};

use crate::again::Again;
use crate::mailbox::Mailbox;
use crate::next::Next;
use digest_lists::Lists;
use list_types::{List, NoMemory};
use p4_types::calls::Notice;
use p4_types::messages::{
    DigestConfig, DigestEntry, DigestList, P4Data, PacketIn, StreamMessageResponse,
};
use std::alloc::Global;
use std::marker::Model;

/// So many lanes may have mail, numbered from 0.
pub const LANE_LIMIT: usize = 32;

/// What waits for the controller of each lane, and the digests that are set. With a notice waits a T, which is what its call has told.
pub struct Mail<T: Drop> {
    boxes: Vec<Mailbox<T>>,
    lists: Lists,
    unstored: u64,
}

impl<T: Drop> Model for Mail<T> {
    ghost use Rattle.std.specs.Prelude.{◌≡◌, vec_len};
    ghost use Rattle.mail_room.specs.declared.mail.TheConstants.{LANE_LIMIT};
    ghost use Rattle.mail_room.specs.AllMail.{MailState};

    ghost Value = { MailState T };

    ghost view = { λ m. record { boxes = m.boxes.items; lists = m.lists; unstored = m.unstored } };

    ghost invariant = { λ m. vec_len m.boxes ≡ LANE_LIMIT };
}

// Written out, so that those who let one go need not look into it.
impl<T: Drop> Drop for Mail<T> {
    fn drop(self) {
        let Self {
            boxes: _boxes,
            lists: _lists,
            unstored: _,
        } = self;
    }
}

fn open_boxes<T: Drop>(alloc: Global) -> Result<Vec<Mailbox<T>>, NoMemory>
    ensures { IfOk result (λ boxes. boxes.items ≡ replicate LANE_LIMIT empty_box) }
{
    let mut boxes = Vec::with_capacity(alloc, LANE_LIMIT)?;
    for _place in 0..LANE_LIMIT {
        let empty = Mailbox::open(alloc)?;
        boxes.push(empty)?;
    }
    Ok(boxes)
}

impl<T: Drop> Mail<T> {
    /// Nothing waits, and no digest is set. No other call is refused for memory.
    pub fn open(alloc: Global) -> Result<Mail<T>, NoMemory>
        ensures { IfOk result (λ mail. mail ≡ no_mail) }
    {
        let boxes = open_boxes(alloc)?;
        let lists = Lists::open(alloc)?;
        Ok(Mail {
            boxes,
            lists,
            unstored: 0,
        })
    }

    /// How often memory was missing for a sample, a digest list, or what `count_unstored` was told of: `deliver_sample` and `tick`
    /// say so each time, and `next` does not.
    pub fn unstored(&self) -> u64
        ensures { result ≡ self.now.unstored }
    {
        self.unstored
    }

    /// The digests that are set, of which the count and the ids are told: whether there is room for one more.
    pub fn digests(&self) -> &Lists
        ensures { result.now ≡ self.now.lists }
    {
        &self.lists
    }

    /// Sets a digest's configuration, or forgets all that is kept of the digest.
    pub fn set_digest(&mut self, digest: u32, config: Option<&DigestConfig>)
        requires { HasRoom self.old.lists digest (option_copied config) }
        ensures { self.new ≡ with_lists self.old (set_digest self.old.lists digest (option_copied config.entry)) }
    {
        self.lists.set(digest, config);
    }

    /// Sets the digests that entries name, with their configurations, as far as there is room, and forgets all that is kept of other digests.
    pub fn set_digests(&mut self, entries: &[DigestEntry])
        ensures { self.new ≡ with_lists self.old (set_to self.old.lists entries.now) }
    {
        self.lists.set_to(entries);
    }

    /// Acknowledges a list of a digest.
    pub fn acknowledge(&mut self, digest: u32, list: u64)
        ensures { self.new ≡ with_lists self.old (acknowledge self.old.lists digest list) }
    {
        self.lists.ack(digest, list);
    }

    /// Puts a notice behind what waits for a lane, with what its call has told. It is dropped where `NOTICE_LIMIT` messages wait, which `next` then
    /// says once, and until that is said.
    pub fn notice(&mut self, lane: u16, message: StreamMessageResponse, told: T)
        requires { IsLane lane }
        ensures { self.new ≡ notified self.old lane message told }
    {
        self.boxes[usize::from(lane)].put_notice(message, told);
    }

    // Puts a notice of a call to another lane behind what waits there, where the lane may have mail.
    fn post_one(&mut self, caller: u16, told: &T, notice: Notice)
    where
        T: Again,
        requires { notice.lane ≢ caller }
        ensures { self.new ≡ posted_one caller told.now self.old notice }
    {
        if usize::from(notice.lane) < LANE_LIMIT {
            self.notice(notice.lane, notice.message, told.again());
        }
    }

    /// Puts the notices of a call to other lanes behind what waits there, as `notice` does. Those for the caller are given back, in their order.
    pub fn post(&mut self, caller: u16, told: &T, notices: List<Notice>) -> List<Notice>
    where
        T: Again,
        ensures mail { self.new ≡ posted caller told.now self.old notices }
        ensures own { result ≡ own_notices caller notices }
    {
        let mut notices = notices.into_vec();
        let mut place = 0;
        'notices: while place < notices.len() {
            if notices[place].lane == caller {
                place += 1;
            } else {
                let notice = notices.remove(place);
                self.post_one(caller, told, notice);
            }
        }
        List::from_vec(notices)
    }

    fn send(&mut self, lane: u16, message: StreamMessageResponse)
        requires { IsLane lane }
        ensures { self.new ≡ sent_to self.old lane message }
    {
        self.boxes[usize::from(lane)].put_packet(message);
    }

    /// Puts packets behind what waits for a lane, one after another. Each is dropped where `PACKET_LIMIT` messages or more wait,
    /// or an overflow is due.
    pub fn deliver_packets(&mut self, lane: u16, packets: List<PacketIn>)
        requires { IsLane lane }
        ensures { self.new ≡ packets_to lane self.old packets }
    {
        for packet in packets.into_vec() {
            self.send(lane, StreamMessageResponse::Packet(packet));
        }
    }

    fn send_list(&mut self, primary: Option<u16>, list: Option<DigestList>)
        requires { IsLaneIfAny primary }
        ensures { self.new ≡ list_to self.old primary list }
    {
        if let (Some(lane), Some(list)) = (primary, list) {
            self.send(lane, StreamMessageResponse::Digest(list));
        }
    }

    /// Counts what was dropped for want of memory before it came here. The count stands still at 2^64 - 1.
    pub fn count_unstored(&mut self)
        ensures { self.new ≡ missed self.old }
    {
        self.unstored = self.unstored.saturating_add(1);
    }

    /// Takes a sample of a digest at a moment, in nanoseconds. A list that it makes due goes to the lane of the primary, or nowhere without one.
    /// Without memory the sample is lost and counted, and the answer is false. Where the digest is not set, and where the sample is passed over,
    /// no memory is asked for.
    pub fn deliver_sample(
        &mut self,
        digest: u32,
        sample: P4Data,
        primary: Option<u16>,
        now: u64,
    ) -> bool
        requires { IsLaneIfAny primary }
        ensures done { IsDoneOrMissed result self.old (sampled self.old primary digest sample now) self.new }
        ensures taken { result ≡ false → IsTaken self.old.lists digest sample now }
    {
        match self.lists.sample(digest, sample, now) {
            Ok(list) => {
                self.send_list(primary, list);
                true
            }
            Err(NoMemory) => {
                self.count_unstored();
                false
            }
        }
    }

    /// Sends the primary the list of the lowest digest that is due at a moment, in nanoseconds, or nobody without one. Without memory nothing is
    /// sent, which is counted, and the answer is false. Where no list is due, no memory is asked for.
    #[tactic(auto, using(crate::proofs::Ticks::nothing_set))]
    pub fn tick(&mut self, primary: Option<u16>, now: u64) -> bool
        requires { IsLaneIfAny primary }
        ensures done { IsDoneOrMissed result self.old (ticked self.old primary now) self.new }
        ensures due { result ≡ false → sent_at_tick self.old.lists now ≢ None }
    {
        if self.lists.is_empty() {
            return true;
        }
        match self.lists.tick(now) {
            Ok(list) => {
                self.send_list(primary, list);
                true
            }
            Err(NoMemory) => {
                self.count_unstored();
                false
            }
        }
    }

    /// Gives the lane's oldest message, with what its call has told if it is a notice; else once an overflow, where a notice found no room.
    pub fn take(&mut self, lane: u16) -> Option<(Next, Option<T>)>
        requires { IsLane lane }
        ensures given { Gives self.old lane result self.new }
        ensures mail { IfSome result (λ given. IsMail given.0) }
    {
        self.boxes[usize::from(lane)].next()
    }

    /// `tick`, and then `take`. Where no list is due, no memory is asked for.
    pub fn next(&mut self, lane: u16, primary: Option<u16>, now: u64) -> Option<(Next, Option<T>)>
        requires lane { IsLane lane }
        requires primary { IsLaneIfAny primary }
        ensures given { Gives (ticked self.old primary now) lane result self.new ⊎ ((sent_at_tick self.old.lists now ≢ None) × Gives (missed self.old) lane result self.new) }
        ensures mail { IfSome result (λ given. IsMail given.0) }
    {
        self.tick(primary, now);
        self.take(lane)
    }

    /// Drops what waits for a lane, and forgets that a notice found no room.
    pub fn clear(&mut self, lane: u16)
        requires { IsLane lane }
        ensures { self.new ≡ with_box self.old lane empty_box }
    {
        self.boxes[usize::from(lane)].clear();
    }
}
