//! What a worker's seat has counted, as the contract of a function that does nothing.
ghost use Rattle.snap_worker.specs.Laws.{CountsHits};

/// Behind a packet the counter of each slot has counted it as often as the packet hit what has the slot.
pub fn counts_hits()
    ensures { CountsHits }
{}
