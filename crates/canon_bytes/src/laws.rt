//! Laws of byte strings, each the contract of a function that does nothing.
ghost use Rattle.canon_bytes.specs.Laws.{CanonIsAccepted, CanonIsCanonical, OneCanonical, CanonIsShortest, WorkedStrings};

/// Canonical bytes are accepted for each width in which their number fits, with this number.
pub fn canon_is_accepted()
    ensures { CanonIsAccepted }
{}

/// Each number has canonical bytes.
pub fn canon_is_canonical()
    ensures { CanonIsCanonical }
{}

/// No number has other canonical bytes.
pub fn one_canonical()
    ensures { OneCanonical }
{}

/// No accepted bytes of a number are shorter than its canonical ones.
pub fn canon_is_shortest()
    ensures { CanonIsShortest }
{}

/// Some byte strings and their numbers, computed from the definitions alone.
pub fn worked_strings()
    ensures { WorkedStrings }
{}
