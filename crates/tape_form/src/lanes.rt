// What the items of a tape so far say of its controllers' lanes.
ghost use Rattle.std.specs.Prelude.{◌≡◌, ◌+◌, ◌<◌, ◌≤◌, min, set, replicate, slice_index, false, true, IfOk};
ghost use Rattle.run_spec.specs.TapeReading.{some_called, called_at, last_call};
ghost use Rattle.tape_spec.specs.Items.{IsItem, lanes_behind};
ghost use Rattle.tape_spec.specs.Reading.{some_lane, low_at, lane_at};
ghost use Rattle.tape_form.specs.Calls.{lanes_of, these, AreAlike};
ghost use Rattle.tape_form.specs.Parsed.{item_of, Finds};

use crate::parse::{BadByte, Seen, number_at};

/// How many controllers' lanes there are.
const LANES: usize = 32;

/// What a lane is asked to take.
#[derive(Clone, Copy)]
pub enum Taking {
    Call,
    Bytes,
    Leave,
}

/// How many calls each controller's lane has made by records, and whether it has asked by records of calls, has brought bytes, and has
/// left.
#[derive(Clone, Copy)]
pub struct SeenLanes {
    calls: [u32; LANES],
    asks: [bool; LANES],
    brings: [bool; LANES],
    has_left: [bool; LANES],
}

impl SeenLanes {
    /// Before the first item.
    pub fn new() -> SeenLanes
        ensures calls { result.calls ≡ replicate 32 0 }
        ensures asks { result.asks ≡ replicate 32 false }
        ensures brings { result.brings ≡ replicate 32 false }
        ensures has_left { result.has_left ≡ replicate 32 false }
    {
        SeenLanes {
            calls: [0; LANES],
            asks: [false; LANES],
            brings: [false; LANES],
            has_left: [false; LANES],
        }
    }

    // Whether a lane takes this.
    fn takes(&self, taking: Taking, lane: usize) -> bool
        requires { lane < 32 }
        ensures { result ≡ these taking (lanes_of self.now) lane }
    {
        match taking {
            Taking::Call => !self.brings[lane],
            Taking::Bytes => !self.asks[lane] && !self.has_left[lane],
            Taking::Leave => !(self.brings[lane] && self.has_left[lane]),
        }
    }

    /// Whether one of the lanes takes this.
    pub fn some_takes(&self, taking: Taking) -> bool
        ensures { result ≡ some_lane 32 (these taking (lanes_of self.now)) }
    {
        for lane in 0..LANES {
            if self.takes(taking, lane) {
                return true;
            }
        }
        false
    }

    // In one byte a lane that takes this, and the bytes after it.
    #[tactic(auto, unfolding(tape_spec::specs::Reading::low_at))]
    fn low_at<'a>(&self, taking: Taking, bytes: &'a [u8]) -> Result<(u16, &'a [u8]), BadByte>
        ensures { Finds (λ x. (x.0, x.1.now)) result (low_at (these taking (lanes_of self.now)) bytes.now) }
    {
        let [first, rest @ ..] = bytes else {
            return Err(BadByte { left: 0 });
        };
        let lane = usize::from(*first);
        if lane < LANES && self.takes(taking, lane) {
            return Ok((u16::from(*first), rest));
        }
        Err(BadByte { left: bytes.len() })
    }

    /// In two bytes a lane that takes this, and the bytes after it.
    #[tactic(auto, unfolding(tape_spec::specs::Reading::lane_at))]
    pub fn lane_at<'a>(&self, taking: Taking, bytes: &'a [u8]) -> Result<(u16, &'a [u8]), BadByte>
        ensures { Finds (λ x. (x.0, x.1.now)) result (lane_at (these taking (lanes_of self.now)) bytes.now) }
    {
        let (_, rest) = number_at(1, 0, 0, bytes)?;
        self.low_at(taking, rest)
    }

    /// Whether one of the lanes has made a call.
    pub fn some_called(&self) -> bool
        ensures { result ≡ some_called 32 (lanes_of self.now).lanes }
    {
        for count in &self.calls {
            if *count > 0 {
                return true;
            }
        }
        false
    }

    /// In one byte a lane that has made a call, and the bytes after it.
    #[tactic(auto, unfolding(run_spec::specs::TapeReading::called_at))]
    pub fn called_at<'a>(&self, bytes: &'a [u8]) -> Result<(u16, &'a [u8]), BadByte>
        ensures gives { Finds (λ x. (x.0, x.1.now)) result (called_at (lanes_of self.now).lanes bytes.now) }
        ensures within { IfOk result (λ x. (x.0 < 32) × (1 ≤ slice_index self.now.calls x.0)) }
    {
        let [first, rest @ ..] = bytes else {
            return Err(BadByte { left: 0 });
        };
        let controller = u16::from(*first);
        if controller < 32 && self.calls[controller as usize] > 0 {
            return Ok((controller, rest));
        }
        Err(BadByte { left: bytes.len() })
    }

    /// The number of the last call that a lane has made.
    pub fn last_call(&self, controller: u16) -> u32
        requires { controller < 32 }
        ensures last { result ≡ last_call (lanes_of self.now).lanes controller }
        ensures counted { result ≡ slice_index self.now.calls controller }
    {
        self.calls[controller as usize]
    }

    // Counts one more call of a lane.
    fn raise(&mut self, lane: u16)
        requires { lane < 32 }
        ensures { self.new ≡ record self.old { calls = set self.old.calls lane (min (slice_index self.old.calls lane + 1) 4294967295) } }
    {
        self.calls[lane as usize] = self.calls[lane as usize].saturating_add(1);
    }

    /// Notes an item.
    pub fn note(&mut self, seen: Seen<'_>)
        requires { IsItem (item_of seen) }
        ensures { AreAlike (lanes_behind (lanes_of self.old) (item_of seen.entry)) (lanes_of self.new) }
    {
        match seen {
            Seen::Call { lane, .. } => {
                self.raise(lane);
                self.asks[lane as usize] = true;
            }
            Seen::Leave { lane } => {
                self.raise(lane);
                self.has_left[lane as usize] = true;
            }
            Seen::Bytes { lane, .. } => self.brings[lane as usize] = true,
            Seen::Packet { .. } => {}
            Seen::Meet { .. } => {}
        }
    }
}
