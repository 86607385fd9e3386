// Hits of one, two and four threads, on one slot and on slots far apart.
ghost use Rattle.std.specs.Prelude.{◌≡◌, ◌+◌, ◌<◌, ◌≤◌};

use crate::moments::nanoseconds;
use counter_bank::{Bank, Seat, close_with, open};
use std::io::{self, Error, ErrorKind};
use std::thread::{Threads, join};
use std::time::Clock;

const HITS: u32 = 4_000_000;

// As many slots as a switch has.
const SLOTS: u32 = 1_048_576;

fn count(bank: &Bank, seat: Seat, slot: u32) -> Seat
    requires seat { seat.bank ≡ bank.now.id }
    requires slot { slot < bank.now.slots }
    ensures { (result.bank ≡ seat.bank) × (result.parts ≡ seat.parts) }
{
    let mut seat = seat;
    for _ in 0..HITS {
        bank.hit(&mut seat, slot, 64);
    }
    seat
}

// Two threads count, each by a seat, and the second seat is joined to the first.
fn count_by_two<R: Threads>(
    rt: &R,
    bank: &Bank,
    one: Seat,
    two: Seat,
    first: u32,
    second: u32,
) -> Seat
    requires one { one.bank ≡ bank.now.id }
    requires two { two.bank ≡ bank.now.id }
    requires first { first < bank.now.slots }
    requires second { second < bank.now.slots }
    ensures { (result.bank ≡ one.bank) × (result.parts ≡ one.parts + two.parts) }
{
    let (mut seat, other) = join(
        rt,
        move || -> Seat
            requires { (one.bank ≡ bank.now.id) × (first < bank.now.slots) }
            ensures { (result.bank ≡ one.bank) × (result.parts ≡ one.parts) }
        { count(bank, one, first) },
        move || -> Seat
            requires { (two.bank ≡ bank.now.id) × (second < bank.now.slots) }
            ensures { (result.bank ≡ two.bank) × (result.parts ≡ two.parts) }
        { count(bank, two, second) },
    );
    bank.join(&mut seat, other);
    seat
}

// The same by four threads, whose slots are so far apart.
fn count_by_four<R: Threads + Sync>(rt: &R, bank: &Bank, first: Seat, apart: u32) -> Seat
    requires bank { first.bank ≡ bank.now.id }
    requires parts { 3 < first.parts }
    requires slots { bank.now.slots ≡ 1048576 }
    requires apart { apart ≤ 262144 }
    ensures { (result.bank ≡ first.bank) × (result.parts ≡ first.parts) }
{
    let mut one = first;
    let two = bank.split(&mut one);
    let three = bank.split(&mut one);
    let four = bank.split(&mut one);
    let (mut seat, other) = join(
        rt,
        move || -> Seat
            requires { (one.bank ≡ bank.now.id) × (two.bank ≡ bank.now.id) × (bank.now.slots ≡ 1048576) × (apart ≤ 262144) }
            ensures { (result.bank ≡ one.bank) × (result.parts ≡ one.parts + two.parts) }
        { count_by_two(rt, bank, one, two, 0, apart) },
        move || -> Seat
            requires { (three.bank ≡ bank.now.id) × (four.bank ≡ bank.now.id) × (bank.now.slots ≡ 1048576) × (apart ≤ 262144) }
            ensures { (result.bank ≡ three.bank) × (result.parts ≡ three.parts + four.parts) }
        { count_by_two(rt, bank, three, four, 2 * apart, 3 * apart) },
    );
    bank.join(&mut seat, other);
    seat
}

// Counts by so many threads: 1, 2, or else 4.
fn count_by<R: Threads + Sync>(rt: &R, bank: &Bank, seat: Seat, threads: u32, apart: u32) -> Seat
    requires bank { seat.bank ≡ bank.now.id }
    requires parts { 3 < seat.parts }
    requires slots { bank.now.slots ≡ 1048576 }
    requires apart { apart ≤ 262144 }
    ensures { (result.bank ≡ seat.bank) × (result.parts ≡ seat.parts) }
{
    let mut seat = seat;
    match threads {
        1 => count(bank, seat, 0),
        2 => {
            let other = bank.split(&mut seat);
            count_by_two(rt, bank, seat, other, 0, apart)
        }
        _ => count_by_four(rt, bank, seat, apart),
    }
}

/// What counting took: how long a thread needed for a hit, while the others counted beside it, in
/// hundredths of a nanosecond, and how many packets the first slot has after it.
#[derive(Drop)]
pub struct Measured {
    pub hundredths: u128,
    pub packets: u64,
}

/// Counts by 1, 2 or 4 threads, whose slots are so far apart.
pub fn measure<R: Threads + Sync + Clock + AllocGlobal>(
    rt: &R,
    threads: u32,
    apart: u32,
) -> io::Result<Measured>
    requires { apart ≤ 262144 }
{
    let Ok((bank, seat)) = open(rt.alloc(), SLOTS) else {
        return Err(Error::from(ErrorKind::OutOfMemory));
    };
    let before = nanoseconds(rt);
    let seat = count_by(rt, &bank, seat, threads, apart);
    let nanos = nanoseconds(rt).saturating_sub(before);
    let (packets, _) = close_with(bank, seat).get(0);
    Ok(Measured {
        hundredths: nanos.saturating_mul(100) / u128::from(HITS),
        packets,
    })
}
