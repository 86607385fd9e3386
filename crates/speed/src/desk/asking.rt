// What is asked for, and what came of it.

/// What workers do on threads of their own.
#[derive(Clone, Copy)]
pub enum Work {
    /// They look at snapshots until the writer has made its calls.
    Look,
    /// They run their packets.
    Carry,
    /// They enter snapshots, and leave them.
    Enter,
}

/// What workers do and how often, and how often the writer makes its calls. Where workers do not wait for it, it stops once they are done.
#[derive(Clone, Copy)]
pub struct Task {
    pub work: Work,
    pub times: u64,
    pub turns: u64,
}

/// What came of the work of one worker or of several: how many packets were sent or snapshots entered. Of the snapshots that were looked
/// at: how many were none that was published, how many older than the one before, and how many steps the last was after, of several
/// workers the fewest.
#[derive(Clone, Copy)]
pub struct Done {
    pub count: u64,
    pub torn: u64,
    pub back: u64,
    pub steps: u64,
}

impl Done {
    /// Nothing was done, and so many steps were seen.
    pub fn nothing(steps: u64) -> Done {
        Done {
            count: 0,
            torn: 0,
            back: 0,
            steps,
        }
    }

    /// With what another worker did.
    pub fn and(self, other: Done) -> Done {
        Done {
            count: self.count.saturating_add(other.count),
            torn: self.torn.saturating_add(other.torn),
            back: self.back.saturating_add(other.back),
            steps: self.steps.min(other.steps),
        }
    }
}

/// What came of calls: how many were answered OK, and how many steps there were at the last one.
#[derive(Clone, Copy)]
pub struct Made {
    pub ok: u64,
    pub steps: u64,
}

impl Made {
    /// With what came of later calls.
    pub fn and_then(self, later: Made) -> Made {
        Made {
            ok: self.ok.saturating_add(later.ok),
            steps: later.steps,
        }
    }
}

/// What came of a plan: the calls that were made first, the work of so many workers, the writer's calls, and how long the work took.
#[derive(Clone, Copy)]
pub struct Ran {
    pub first: Made,
    pub workers: usize,
    pub done: Done,
    pub written: Made,
    pub nanoseconds: u128,
}
