//! What a seat knows, and the rule that each step of a word keeps.
use atomic_table::{Join, Play, Split, TableRule};
use std::collections::LinkedList;

// What a seat knows: its parts, what it added to each word, and what it noted there. No value of it is made.
pub struct Tally {
    pub parts: u64,
    pub added: LinkedList<u64>,
    pub noted: LinkedList<u64>,
}

// The rule of the words, told how many there are.
pub struct Counting;

impl TableRule<(), Tally, u64> for Counting {
    ghost use Rattle.counter_bank.specs.Counting.{Kept, first_view};

    ghost holds = { Kept };

    ghost first = { λ _. first_view };
}

pub struct Adds;

impl Play<(), Tally> for Adds {
    ghost use Rattle.counter_bank.specs.Counting.{Added};

    ghost then = { Added };
}

pub struct Notes;

impl Play<(), Tally> for Notes {
    ghost use Rattle.counter_bank.specs.Counting.{Noted};

    ghost then = { Noted };
}

pub struct Parts;

impl Split<Tally> for Parts {
    ghost use Rattle.counter_bank.specs.Counting.{one_less, one_part};

    ghost left = { one_less };

    ghost right = { one_part };
}

impl Join<Tally> for Parts {
    ghost use Rattle.counter_bank.specs.Counting.{together, nobody};

    ghost both = { together };

    ghost spent = { nobody };
}
