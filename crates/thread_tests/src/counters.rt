// Counters that four threads share.
ghost use Rattle.std.specs.Prelude.{◌≡◌, ◌+◌, ◌<◌};

use counter_bank::{Bank, Seat, close_with, open};
use std::test::Fail;
use std::thread::{Threads, join};

const HITS: u32 = 250_000;

const SLOTS: u32 = 16;

// The seat, and whether each load was above the one before.
fn count(bank: &Bank, seat: Seat) -> (Seat, bool)
    requires bank { seat.bank ≡ bank.now.id }
    requires slots { bank.now.slots ≡ 16 }
    ensures { (result.0.bank ≡ seat.bank) × (result.0.parts ≡ seat.parts) }
{
    let mut seat = seat;
    let mut last = 0;
    let mut rises = true;
    for number in 0..HITS {
        let slot = number % SLOTS;
        bank.hit(&mut seat, slot, 64);
        if slot == 0 {
            let (packets, _) = bank.load(&mut seat, slot);
            rises = rises && packets > last;
            last = packets;
        }
    }
    (seat, rises)
}

// Two threads count, each by a seat, and the second seat is joined to the first.
fn count_by_two<R: Threads>(rt: &R, bank: &Bank, one: Seat, two: Seat) -> (Seat, bool)
    requires one { one.bank ≡ bank.now.id }
    requires two { two.bank ≡ bank.now.id }
    requires slots { bank.now.slots ≡ 16 }
    ensures { (result.0.bank ≡ one.bank) × (result.0.parts ≡ one.parts + two.parts) }
{
    let ((mut seat, a), (other, b)) = join(
        rt,
        move || -> (Seat, bool)
            requires { (one.bank ≡ bank.now.id) × (bank.now.slots ≡ 16) }
            ensures { (result.0.bank ≡ one.bank) × (result.0.parts ≡ one.parts) }
        { count(bank, one) },
        move || -> (Seat, bool)
            requires { (two.bank ≡ bank.now.id) × (bank.now.slots ≡ 16) }
            ensures { (result.0.bank ≡ two.bank) × (result.0.parts ≡ two.parts) }
        { count(bank, two) },
    );
    bank.join(&mut seat, other);
    (seat, a && b)
}

// The same by four threads.
fn count_by_four<R: Threads + Sync>(rt: &R, bank: &Bank, first: Seat) -> (Seat, bool)
    requires bank { first.bank ≡ bank.now.id }
    requires slots { bank.now.slots ≡ 16 }
    requires parts { 3 < first.parts }
    ensures { (result.0.bank ≡ first.bank) × (result.0.parts ≡ first.parts) }
{
    let mut one = first;
    let two = bank.split(&mut one);
    let three = bank.split(&mut one);
    let four = bank.split(&mut one);
    let ((mut seat, a), (other, b)) = join(
        rt,
        move || -> (Seat, bool)
            requires { (one.bank ≡ bank.now.id) × (two.bank ≡ bank.now.id) × (bank.now.slots ≡ 16) }
            ensures { (result.0.bank ≡ one.bank) × (result.0.parts ≡ one.parts + two.parts) }
        { count_by_two(rt, bank, one, two) },
        move || -> (Seat, bool)
            requires { (three.bank ≡ bank.now.id) × (four.bank ≡ bank.now.id) × (bank.now.slots ≡ 16) }
            ensures { (result.0.bank ≡ three.bank) × (result.0.parts ≡ three.parts + four.parts) }
        { count_by_two(rt, bank, three, four) },
    );
    bank.join(&mut seat, other);
    (seat, a && b)
}

#[test]
fn four_threads_count_a_million_packets(rt: HostRuntime) -> Result<(), Fail> {
    let (bank, first) = open(rt.alloc(), SLOTS)?;
    let (seat, rises) = count_by_four(&rt, &bank, first);
    assert!(rt; rises, "a load was not above the one before");
    let totals = close_with(bank, seat);
    for slot in 0..SLOTS {
        let (packets, bytes) = totals.get(slot);
        assert!(rt;
            packets == 62_500 && bytes == 4_000_000,
            "slot {slot}: {packets} packets, {bytes} bytes"
        );
    }
    Ok(())
}

#[test]
fn the_last_of_a_million_slots_counts(rt: HostRuntime) -> Result<(), Fail> {
    let (bank, mut seat) = open(rt.alloc(), 1_048_576)?;
    let mut other = bank.split(&mut seat);
    bank.hit(&mut seat, 1_048_575, 1_500);
    bank.hit(&mut other, 1_048_575, 9_216);
    let seen = bank.load(&mut other, 1_048_575);
    bank.hit(&mut seat, 0, 60);
    bank.join(&mut seat, other);
    let totals = close_with(bank, seat);
    assert!(rt; seen == (2, 10_716));
    assert!(rt;
        totals.get(1_048_575) == (2, 10_716) && totals.get(0) == (1, 60) && totals.get(1) == (0, 0)
    );
    Ok(())
}
