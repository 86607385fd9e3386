//! Laws about the definitions. Each function's contract is the law; its body does nothing.
ghost use Rattle.replay_run.specs.Laws.{ReadsAreBounded};

/// Once all lanes are at their ends and all seats of the counters are joined, each Read saw at least what its lane knew, and at
/// most what all packets counted.
pub fn reads_are_bounded()
    ensures law { ReadsAreBounded }
{}
