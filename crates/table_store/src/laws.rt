//! Laws of entries, each the contract of a function that does nothing.
ghost use Rattle.table_store.specs.Laws.{NamesTell, BestWins, NoneIsBest, OneBeats};

/// Names are the same just where they are equal.
pub fn names_tell()
    ensures { NamesTell }
{}

/// The best entry is hit, and beaten by no entry that is hit.
pub fn best_wins()
    ensures { BestWins }
{}

/// There is no best entry just where none is hit.
pub fn none_is_best()
    ensures { NoneIsBest }
{}

/// Of two entries with different sequence numbers one beats the other.
pub fn one_beats()
    ensures { OneBeats }
{}
