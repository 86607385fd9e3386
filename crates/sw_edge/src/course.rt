// How the calls of a link, of ports or of a net in memory go.
ghost use Rattle.std.specs.Prelude.{◌≡◌, ◌≤◌, IsTrue};
ghost use Rattle.sw_edge.specs.Counts.{HasCause, one_more};
ghost use Rattle.sw_edge.specs.Memory.{is_next};
ghost use Rattle.sw_edge.specs.MemoryNet.{HeldCourse, course, after_turn, after_look};

use crate::count::{Picks, raise};
use std::marker::Model;

// Which calls fail and which of the others find nothing for now, and how often that came.
#[derive(Drop)]
pub struct Course {
    failing: Picks,
    quiet: Picks,
    faults: u64,
    quiets: u64,
    ends: u64,
}

impl Model for Course {
    ghost Value = { HeldCourse };

    ghost view = { λ c. record { failing = c.failing; quiet = c.quiet; faults = c.faults; quiets = c.quiets; ends = c.ends } };
}

impl Course {
    /// Calls of the first indices fail, and of the others that do not fail those of the second find nothing.
    pub fn new(failing: Vec<u64>, quiet: Vec<u64>) -> Course
        ensures { result ≡ course failing.items quiet.items }
    {
        Course {
            failing: Picks::new(failing),
            quiet: Picks::new(quiet),
            faults: 0,
            quiets: 0,
            ends: 0,
        }
    }

    /// Counts a call, and says whether it fails, which counts as a fault.
    pub fn fails(&mut self) -> bool
        ensures picked { result ≡ is_next self.old.failing }
        ensures fault { HasCause self.old.faults self.new.faults (IsTrue result) }
        ensures counted { self.new ≡ after_turn self.old }
    {
        let picked = self.failing.call();
        if picked {
            raise(&mut self.faults);
        }
        picked
    }

    /// Counts a call that does not fail, and says whether it finds nothing for now, which is counted.
    pub fn is_quiet(&mut self) -> bool
        ensures picked { result ≡ is_next self.old.quiet }
        ensures fault { HasCause self.old.quiets self.new.quiets (IsTrue result) }
        ensures counted { self.new ≡ after_look self.old }
    {
        let picked = self.quiet.call();
        if picked {
            raise(&mut self.quiets);
        }
        picked
    }

    /// Counts a fault.
    pub fn fault(&mut self)
        ensures later { self.old.faults ≤ self.new.faults }
        ensures more { self.new ≡ record self.old { faults = one_more self.old.faults } }
    {
        raise(&mut self.faults);
    }

    /// Counts an end.
    pub fn end(&mut self)
        ensures later { self.old.ends ≤ self.new.ends }
        ensures more { self.new ≡ record self.old { ends = one_more self.old.ends } }
    {
        raise(&mut self.ends);
    }
}
