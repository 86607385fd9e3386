// Clocks and gates.
use std::test::Fail;
use sw_edge::{Clock, Gate, ListClock, OpenGate, RealClock, Who};

#[test]
fn clocks(rt: HostRuntime) -> Result<(), Fail> {
    let mut clock = ListClock::new([5, 3, 9].to_vec(rt.alloc())?);
    for moment in [5, 5, 9, 9] {
        assert!(rt; clock.now() == moment, "at {moment}");
    }
    let mut clock = RealClock::new(&rt);
    let first = clock.now();
    assert!(rt; 0 < first && first <= clock.now());
    OpenGate.turn(Who::Worker(0), 0);
    Ok(())
}
