//! What the calls of a pass make of its caller's events, and of the packets that they make enter: each the contract of a function
//! that does nothing.
ghost use Rattle.live_desk.specs.Laws.{OwnGoOn, RunsBehindItsCall};

/// The published list has of a pass's caller all events that the pass's calls made, in their order, and no other.
pub fn own_go_on()
    ensures { OwnGoOn }
{}

/// A packet that a call makes enter is run after at least the steps through the call.
pub fn runs_behind_its_call()
    ensures { RunsBehindItsCall }
{}
