//! What a link sees of its clock, and of the client's first bytes.
ghost use Rattle.std.specs.Prelude.{◌≡◌, fold, if◌then◌else◌};
ghost use Rattle.link_loop.specs.Watches.{byte_seen, fresh_opening, has_opened, is_late, is_quiet, is_unopened, piece_seen, told, unwatched};

use crate::{OPENING_WAIT, QUIET_WAIT};

// How many bytes the preface and the head of the first frame have.
const FIRST_BYTES: u32 = 33;

/// How many bytes of the client's preface and first frame have come, and the three bytes of the length that the frame's head tells.
#[derive(Clone, Copy)]
pub struct Opening {
    pub count: u32,
    pub high: u8,
    pub middle: u8,
    pub low: u8,
}

fn new_if(is_new: bool, new: u8, old: u8) -> u8
    ensures { result ≡ (if is_new then new else old) }
{
    if is_new { new } else { old }
}

impl Opening {
    // The preface and the first frame are whole.
    fn has_opened(&self) -> bool
        ensures { result ≡ has_opened self.now }
    {
        let length = u32::from(self.high) * 65536
            + u32::from(self.middle) * 256
            + u32::from(self.low);
        FIRST_BYTES + length <= self.count
    }

    #[tactic(auto, unfolding(crate::specs::Watches::byte_seen))]
    fn see_byte(&mut self, byte: u8)
        ensures { self.new ≡ byte_seen self.old byte }
    {
        if self.has_opened() {
            return;
        }
        self.high = new_if(self.count == 24, byte, self.high);
        self.middle = new_if(self.count == 25, byte, self.middle);
        self.low = new_if(self.count == 26, byte, self.low);
        self.count += 1;
    }

    #[tactic(auto, using(crate::proofs::WatchLaws::opened_stays))]
    fn see(&mut self, piece: &[u8])
        ensures { self.new ≡ fold byte_seen self.old piece.now }
    {
        if self.has_opened() {
            return;
        }
        for byte in piece {
            self.see_byte(*byte);
        }
    }
}

/// What a link has seen: the first moment that its clock told, the first one behind the last bytes, and the last one, in nanoseconds,
/// and how the client began.
#[derive(Clone, Copy)]
pub struct Watch {
    pub began: Option<u64>,
    pub since: Option<u64>,
    pub last: u64,
    pub opening: Opening,
}

// At least so long has passed since a moment, if there is one.
fn is_late(wait: u64, first: Option<u64>, now: u64) -> bool
    ensures { result ≡ is_late wait first now }
{
    match first {
        None => false,
        Some(first) => wait <= now.saturating_sub(first),
    }
}

impl Watch {
    /// Nothing has been seen.
    pub(crate) fn new() -> Watch
        ensures { result ≡ unwatched }
    {
        Watch {
            began: None,
            since: None,
            last: 0,
            opening: Opening {
                count: 0,
                high: 0,
                middle: 0,
                low: 0,
            },
        }
    }

    /// The clock told this moment.
    pub(crate) fn tell(&mut self, now: u64)
        ensures { self.new ≡ told now self.old }
    {
        self.began = Some(self.began.unwrap_or(now));
        self.since = Some(self.since.unwrap_or(now));
        self.last = now;
    }

    /// These bytes came.
    pub(crate) fn see(&mut self, piece: &[u8])
        ensures { self.new ≡ piece_seen piece.now self.old }
    {
        self.since = None;
        self.opening.see(piece);
    }

    /// The client has not said what it is to say first, though it had time enough.
    pub(crate) fn is_unopened(&self) -> bool
        ensures { result ≡ is_unopened self.now }
    {
        is_late(OPENING_WAIT, self.began, self.last) && !self.opening.has_opened()
    }

    /// Nothing has come for long.
    pub(crate) fn is_quiet(&self) -> bool
        ensures { result ≡ is_quiet self.now }
    {
        is_late(QUIET_WAIT, self.since, self.last)
    }
}
