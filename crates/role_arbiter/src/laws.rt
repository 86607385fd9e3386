//! Laws of roles, each the contract of a function that does nothing.
ghost use Rattle.role_arbiter.specs.Laws.{StaysSound, GreatestIsKept, OnePrimary, NobodyTakesOver, ToldInOrder, WorkedRun};

/// Callers rise, no two sessions of a role bear one election id other than 0, none bears a greater
/// one than its role received, and the limits are kept.
pub fn stays_sound()
    ensures { StaysSound }
{}

/// The greatest election id of a role is never forgotten.
pub fn greatest_is_kept()
    ensures { GreatestIsKept }
{}

/// A session that bears its role's greatest election id is the primary.
pub fn one_primary()
    ensures { OnePrimary }
{}

/// No other session becomes primary where a session ends.
pub fn nobody_takes_over()
    ensures { NobodyTakesOver }
{}

/// Who is told is told once, by rising lane.
pub fn told_in_order()
    ensures { ToldInOrder }
{}

/// A run of two lanes, computed from the definitions alone.
pub fn worked_run()
    ensures { WorkedRun }
{}
