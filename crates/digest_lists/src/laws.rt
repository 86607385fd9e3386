//! Laws of digests, each the contract of a function that does nothing.
ghost use Rattle.digest_lists.specs.Laws.{SameIsEqual, EachOnce, ListSizes, PassedOver, StaysSound, AtMostAsMany, LowestIsSent, CountsFromOne, WorkedRun};

/// The test of equal samples tells just whether they are equal.
pub fn same_is_equal()
    ensures { SameIsEqual }
{}

/// Each sample that is not passed over is sent once, in the order in which they came.
pub fn each_once()
    ensures { EachOnce }
{}

/// No list is empty, and none has more samples than its digest's configuration says.
pub fn list_sizes()
    ensures { ListSizes }
{}

/// What was sent is passed over until it is acknowledged or old.
pub fn passed_over()
    ensures { PassedOver }
{}

/// Ids of digests rise, and at most 64 lists of a digest wait.
pub fn stays_sound()
    ensures { StaysSound }
{}

/// Where each digest that is set is one of so many, at most so many are set.
pub fn at_most_as_many()
    ensures { AtMostAsMany }
{}

/// A tick sends the list of the lowest digest that is due.
pub fn lowest_is_sent()
    ensures { LowestIsSent }
{}

/// The lists of a digest bear the ids 1, 2, 3 and on.
pub fn counts_from_one()
    ensures { CountsFromOne }
{}

/// A run, computed from the definitions alone.
pub fn worked_run()
    ensures { WorkedRun }
{}
