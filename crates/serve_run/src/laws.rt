//! What packets that a worker ran make of what it knows and of its counts: each the contract of a function that does nothing.
ghost use Rattle.serve_run.specs.Laws.{CountsAll, NoneGoesBack};

/// No packet is run after less of the published list than an earlier one, or than its worker knew before.
pub fn none_goes_back()
    ensures { NoneGoesBack }
{}

/// The seat of a worker has added just what its packets hit.
pub fn counts_all()
    ensures { CountsAll }
{}
