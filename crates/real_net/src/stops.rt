// What a loop asks whether it is to end.
ghost use Rattle.std.specs.Prelude.{◌≡◌, ◌≤◌, drop, length, IsTrue};
ghost use Rattle.sw_edge.specs.Counts.{HasCause, StaysUnless};
ghost use Rattle.real_net.specs.Stops.{HeldFlag, HeldAnswers, next_answer};

use crate::count::raise;
use crate::system::Signal;
use std::marker::Model;
use sw_edge::Stop;

/// The wish to stop that a flag shows, as one that another thread sets.
#[derive(Drop)]
pub struct FlagStop<F> {
    flag: F,
    yeses: u64,
}

impl<F> Model for FlagStop<F> {
    ghost Value = { HeldFlag F };

    ghost view = { λ s. record { flag = s.flag; yeses = s.yeses } };
}

impl<F> FlagStop<F> {
    /// A stop that is asked for once the flag says so.
    pub fn new(flag: F) -> FlagStop<F>
        ensures { result ≡ record { flag = flag; yeses = 0 } }
    {
        FlagStop { flag, yeses: 0 }
    }
}

impl<F: Signal> Stop for FlagStop<F> {
    ghost yeses = { λ s. s.yeses };

    fn asked(&mut self) -> bool
        ensures yes { HasCause self.old.yeses self.new.yeses (IsTrue result) }
        ensures no_yes { StaysUnless self.old.yeses self.new.yeses (IsTrue result) }

        // It answers what the flag showed.
        ensures shown { F.shows self.old.flag result }
        ensures flag { self.new.flag ≡ self.old.flag }
    {
        let is_set = self.flag.is_set();
        if is_set {
            raise(&mut self.yeses);
        }
        is_set
    }
}

/// The wishes of a list, one at each call. Once the list is used up the answer is yes, so that a loop under it ends.
#[derive(Drop)]
pub struct ListStop {
    answers: Vec<bool>,
    at: usize,
    yeses: u64,
}

impl Model for ListStop {
    ghost Value = { HeldAnswers };

    ghost view = { λ s. record { coming = drop s.at s.answers.items; yeses = s.yeses } };

    ghost invariant = { λ s. s.at ≤ length s.answers.items };
}

impl ListStop {
    /// A stop that gives these answers in order, and then yes.
    pub fn new(answers: Vec<bool>) -> ListStop
        ensures { result ≡ record { coming = answers.items; yeses = 0 } }
    {
        ListStop {
            answers,
            at: 0,
            yeses: 0,
        }
    }

    // The next answer of the list.
    fn next(&mut self) -> bool
        ensures next { result ≡ next_answer self.old.coming }
        ensures coming { self.new ≡ record self.old { coming = drop 1 self.old.coming } }
    {
        match self.answers.get(self.at) {
            Some(answer) => {
                self.at += 1;
                *answer
            }
            None => true,
        }
    }
}

impl Stop for ListStop {
    ghost yeses = { λ s. s.yeses };

    fn asked(&mut self) -> bool
        ensures yes { HasCause self.old.yeses self.new.yeses (IsTrue result) }
        ensures no_yes { StaysUnless self.old.yeses self.new.yeses (IsTrue result) }

        // It answers what comes next in the list, and yes behind it.
        ensures next { result ≡ next_answer self.old.coming }
        ensures coming { self.new.coming ≡ drop 1 self.old.coming }
    {
        let answer = self.next();
        if answer {
            raise(&mut self.yeses);
        }
        answer
    }
}
