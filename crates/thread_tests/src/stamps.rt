// Stamps that two threads touch.
ghost use Rattle.std.specs.Prelude.{◌≡◌, ◌+◌, ◌<◌};

use idle_words::{StampSeat, Stamps, open};
use std::test::Fail;
use std::thread::join;

const TOUCHES: u64 = 1_000;

const STAMPS: u32 = 4;

// The seat, and whether no look found less than the one before, or than what the seat touched last.
fn touch(stamps: &Stamps, seat: StampSeat, first: u64) -> (StampSeat, bool)
    requires seat { seat.stamps ≡ stamps.now.id }
    requires count { stamps.now.count ≡ 4 }
    ensures { (result.0.stamps ≡ seat.stamps) × (result.0.parts ≡ seat.parts) }
{
    let mut seat = seat;
    let mut last = 0;
    let mut rises = true;
    for number in 0..TOUCHES {
        let moment = first.wrapping_add(number.wrapping_mul(2));
        stamps.touch(&mut seat, 3, moment);
        let found = stamps.last(&mut seat, 3);
        rises = rises && found >= last && found >= moment;
        last = found;
    }
    (seat, rises)
}

#[test]
fn the_greatest_of_two_threads_stays(rt: HostRuntime) -> Result<(), Fail> {
    let (stamps, mut one) = open(rt.alloc(), STAMPS)?;
    let two = stamps.split(&mut one);
    let shared = &stamps;
    let ((mut seat, a), (other, b)) = join(
        &rt,
        move || -> (StampSeat, bool)
            requires { (one.stamps ≡ shared.now.id) × (shared.now.count ≡ 4) }
            ensures { (result.0.stamps ≡ one.stamps) × (result.0.parts ≡ one.parts) }
        { touch(shared, one, 1) },
        move || -> (StampSeat, bool)
            requires { (two.stamps ≡ shared.now.id) × (shared.now.count ≡ 4) }
            ensures { (result.0.stamps ≡ two.stamps) × (result.0.parts ≡ two.parts) }
        { touch(shared, two, 2) },
    );
    assert!(rt; a && b, "a look found less than one before it");
    stamps.join(&mut seat, other);
    let ended = stamps.close_with(seat);
    assert!(rt; ended.get(3) == 2_000 && ended.get(2) == 0 && ended.get(STAMPS) == 0);
    Ok(())
}
