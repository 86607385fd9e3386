// Counts, and lists of the calls that are to go another way.
ghost use Rattle.std.specs.Prelude.{◌≡◌, ◌+◌, ◌≤◌, min};
ghost use Rattle.sw_edge.specs.Counts.{one_more};
ghost use Rattle.sw_edge.specs.Memory.{Picked, picks, is_next, after_call, after_calls, unpicked};

use std::marker::Model;

/// Counts one more.
pub fn raise(count: &mut u64)
    ensures more { count.new ≡ one_more count.old }
    ensures later { count.old ≤ count.new }
{
    *count = count.saturating_add(1);
}

// Which calls are picked, by index from 0, and how many calls there were.
#[derive(Drop)]
pub struct Picks {
    indices: Vec<u64>,
    calls: u64,
}

impl Model for Picks {
    ghost Value = { Picked };

    ghost view = { λ p. record { indices = p.indices.items; calls = p.calls } };
}

impl Picks {
    /// The calls of these indices, counted from 0, are picked.
    pub fn new(indices: Vec<u64>) -> Picks
        ensures { result ≡ picks indices.items }
    {
        Picks { indices, calls: 0 }
    }

    /// Counts a call and says whether it is picked.
    pub fn call(&mut self) -> bool
        ensures picked { result ≡ is_next self.old }
        ensures counted { self.new ≡ after_call self.old }
    {
        let picked = self.indices.contains(&self.calls);
        raise(&mut self.calls);
        picked
    }

    /// Counts calls until one is picked, at most so many, and says how many came before that one.
    #[tactic(auto, using(crate::proofs::PieceLaws::calls))]
    pub fn call_until(&mut self, most: usize) -> usize
        ensures before { result ≡ unpicked most self.old }
        ensures within { result ≤ most }
        ensures counted { self.new ≡ after_calls (min (result + 1) most) self.old }
    {
        for before in 0..most {
            if self.call() {
                return before;
            }
        }
        most
    }
}
