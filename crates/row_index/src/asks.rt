//! In which order the shapes of the rows are asked.
ghost use Rattle.std.specs.Prelude.{◌≡◌, ◌==◌, ℕ, ◌<◌, ◌≤◌, false, length, slice_index_or, vec_len, vec_capacity};
ghost use Rattle.std.specs.List.{AllPairs, Any, position};
ghost use Rattle.row_index.specs.declared.asks.Ask.{Ask as Asked};
ghost use Rattle.row_index.specs.Asks.{is_before, Puts, Takes, IsAround};

/// A shape that is asked for rows: of which table, and what no row of it exceeds in priority and in the length of its prefix.
#[derive(Clone, Copy)]
pub(crate) struct Ask {
    pub(crate) table: u32,
    pub(crate) priority: i32,
    pub(crate) length: u32,
    pub(crate) shape: u32,
}

impl Ask {
    // Whether this one is asked first: by lower table, then by greater priority, then by longer prefix.
    fn is_before(self, other: Ask) -> bool
        ensures { result ≡ is_before self other }
    {
        if self.table != other.table {
            return self.table < other.table;
        }
        if self.priority != other.priority {
            return self.priority > other.priority;
        }
        self.length > other.length
    }
}

// Where the asks of a table begin, which is from `low` to `high`.
fn first_from(asks: &[Ask], table: u32, low: usize, high: usize) -> usize
    requires order { AllPairs (λ a b. is_before b a ≡ false) asks.now }
    requires around { IsAround asks.now table low high }
    ensures { IsAround asks.now table result result }
{
    if low >= high {
        return low;
    }
    let middle = low + (high - low) / 2;
    let ask = asks[middle];
    if ask.table < table {
        first_from(asks, table, middle + 1, high)
    } else {
        first_from(asks, table, low, middle)
    }
}

/// Where the asks of a table begin.
pub(crate) fn first_of(asks: &[Ask], table: u32) -> usize
    requires { AllPairs (λ a b. is_before b a ≡ false) asks.now }
    ensures { IsAround asks.now table result result }
{
    first_from(asks, table, 0, asks.len())
}

// Where an ask stands that is put behind those that are not asked after it.
fn place_for(asks: &[Ask], ask: Ask) -> usize
    requires { AllPairs (λ a b. is_before b a ≡ false) asks.now }
    ensures within { result ≤ length asks.now }
    ensures below { (k : ℕ) (d : Asked) → k < result → is_before ask (slice_index_or asks.now k d) ≡ false }
    ensures above { (k : ℕ) (d : Asked) → result ≤ k → k < length asks.now → is_before (slice_index_or asks.now k d) ask ≡ false }
{
    for place in 0..asks.len() {
        let other = asks[place];
        if ask.is_before(other) {
            return place;
        }
    }
    asks.len()
}

/// Puts an ask where it belongs, for which there is room.
pub(crate) fn put(asks: &mut Vec<Ask>, ask: Ask)
    requires order { AllPairs (λ a b. is_before b a ≡ false) asks.old.items }
    requires room { vec_len asks.old < vec_capacity asks.old }
    ensures order { AllPairs (λ a b. is_before b a ≡ false) asks.new.items }
    ensures puts { Puts asks.old.items asks.new.items ask }
    ensures capacity { vec_capacity asks.new ≡ vec_capacity asks.old }
{
    let place = place_for(asks.as_slice(), ask);
    match asks.insert(place, ask) {
        Ok(()) => {}
        Err(_) => unreachable!(),
    }
}

fn place_of(asks: &[Ask], shape: u32) -> Option<usize>
    ensures { result ≡ position (λ ask. ask.shape == shape) asks.now }
{
    asks.iter().position(|ask| ask.shape == shape)
}

/// Takes the ask of a shape away.
pub(crate) fn take(asks: &mut Vec<Ask>, shape: u32)
    requires order { AllPairs (λ a b. is_before b a ≡ false) asks.old.items }
    requires there { Any (λ ask. ask.shape ≡ shape) asks.old.items }
    ensures order { AllPairs (λ a b. is_before b a ≡ false) asks.new.items }
    ensures takes { Takes asks.old.items asks.new.items shape }
    ensures capacity { vec_capacity asks.new ≡ vec_capacity asks.old }
{
    match place_of(asks.as_slice(), shape) {
        Some(place) => {
            asks.remove(place);
        }
        None => {}
    }
}
