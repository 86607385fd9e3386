//! What holds of a made tape. Each function does nothing: its contract is the law.
ghost use Rattle.gen_tape.specs.Laws.{CallsAreRead, HasNoOthers, IsWithinLimits};

/// Its calls are read as an arbitration, a commit of the router, and an insert for each route, and as nothing else.
pub fn calls_are_read()
    ensures { CallsAreRead }
{}

/// It is in the grammar of tapes, and within the limits of one.
pub fn is_within_limits()
    ensures { IsWithinLimits }
{}

/// Nothing stands on it beside calls and packets.
pub fn has_no_others()
    ensures { HasNoOthers }
{}
