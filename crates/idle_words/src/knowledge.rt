//! What a seat knows, and the rule that each step of a word keeps.
use atomic_table::{Join, Play, Split, TableRule};
use std::collections::LinkedList;

// What a seat knows: its parts, the moments that it touched each word with, and those that it noted there. No value of it is made.
pub struct Knowledge {
    pub parts: u64,
    pub touched: LinkedList<u64>,
    pub noted: LinkedList<u64>,
}

// The rule of the words, told how many there are.
pub struct Greatest;

impl TableRule<(), Knowledge, u64> for Greatest {
    ghost use Rattle.idle_words.specs.Touching.{Kept, first_view};

    ghost holds = { Kept };

    ghost first = { λ _. first_view };
}

pub struct Touches;

impl Play<(), Knowledge> for Touches {
    ghost use Rattle.idle_words.specs.Touching.{Touched};

    ghost then = { Touched };
}

pub struct Notes;

impl Play<(), Knowledge> for Notes {
    ghost use Rattle.idle_words.specs.Touching.{Noted};

    ghost then = { Noted };
}

pub struct Parts;

impl Split<Knowledge> for Parts {
    ghost use Rattle.idle_words.specs.Touching.{one_less, one_part};

    ghost left = { one_less };

    ghost right = { one_part };
}

impl Join<Knowledge> for Parts {
    ghost use Rattle.idle_words.specs.Touching.{together, nobody};

    ghost both = { together };

    ghost spent = { nobody };
}
