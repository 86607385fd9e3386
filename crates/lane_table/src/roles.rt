//! What the holder of a token knows, and the rule that each step keeps.
use crate::entry::OfLane;
use atomic_table::{Join, Play, Split, TableRule};
use std::collections::LinkedList;

// What the journal's seat has taken in: nothing, the seat of a lane with its entries, or a note. No value of it is made.
pub enum Hand<E> {
    Empty,
    Holds(u64, LinkedList<E>),
    Bears(LinkedList<E>),
}

// What a seat knows: the whole journal and the number of lanes, the entries of one lane, or a beginning of the journal. No value of it is made.
pub enum Role<E> {
    AtJournal(LinkedList<E>, u64, Hand<E>),
    AtLane(u64, LinkedList<E>),
    Bearing(LinkedList<E>),
    Spent,
}

// The rule of the table.
pub struct Law;

impl<E: OfLane> TableRule<E, Role<E>, ()> for Law {
    ghost use Rattle.lane_table.specs.Ruling.{Kept, first_role};

    ghost holds = { λ _. Kept E.lane };

    ghost first = { λ _. first_role };
}

// An entry is added to the journal and to the lane that is held.
pub struct Appends;

impl<E: OfLane> Play<E, Role<E>> for Appends {
    ghost use Rattle.lane_table.specs.Ruling.{Appended};

    ghost then = { Appended E.lane };
}

// What is held is compared with the journal.
pub struct Compares;

impl<E: OfLane> Play<E, Role<E>> for Compares {
    ghost use Rattle.lane_table.specs.Ruling.{Compared};

    ghost then = { Compared E.lane };
}

// The seat of the next lane.
pub struct Claims;

impl<E> Split<Role<E>> for Claims {
    ghost use Rattle.lane_table.specs.Ruling.{one_lane_more, next_lane};

    ghost left = { one_lane_more };

    ghost right = { next_lane };
}

// A seat that knows nothing.
pub struct Leaves;

impl<E> Split<Role<E>> for Leaves {
    ghost use Rattle.lane_table.specs.Ruling.{as_it_was, nothing};

    ghost left = { as_it_was };

    ghost right = { nothing };
}

// A note of all that is known.
pub struct Notes;

impl<E> Split<Role<E>> for Notes {
    ghost use Rattle.lane_table.specs.Ruling.{as_it_was, noted};

    ghost left = { as_it_was };

    ghost right = { noted };
}

// What is held, as a seat of its own.
pub struct Hands;

impl<E> Split<Role<E>> for Hands {
    ghost use Rattle.lane_table.specs.Ruling.{emptied, handed};

    ghost left = { emptied };

    ghost right = { handed };
}

// Another seat is held from now on.
impl<E> Join<Role<E>> for Hands {
    ghost use Rattle.lane_table.specs.Ruling.{holding};
    ghost use Rattle.lane_table.specs.declared.roles.Role.TheVariants.{Spent};

    ghost both = { holding };

    ghost spent = { Spent };
}
