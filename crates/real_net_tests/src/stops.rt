// What asks whether to stop.
use real_net::{FlagStop, ListStop, StopFlag};
use std::test::Fail;
use std::thread::join;
use sw_edge::Stop;

// How often the flag is looked at.
const LOOKS: u32 = 10_000_000;

fn is_asked_in_time(flag: &StopFlag) -> bool {
    let mut stop = FlagStop::new(flag);
    for _ in 0..LOOKS {
        if stop.asked() {
            return true;
        }
    }
    false
}

#[test]
fn a_flag_that_another_thread_sets_is_seen(rt: HostRuntime) -> Result<(), Fail> {
    let flag = StopFlag::new();
    assert!(rt; !FlagStop::new(&flag).asked());
    let ((), seen) = join(&rt, || flag.set(), || is_asked_in_time(&flag));
    assert!(rt; seen);
    assert!(rt; FlagStop::new(&flag).asked());
    Ok(())
}

#[test]
fn a_list_answers_in_order_and_then_yes(rt: HostRuntime) -> Result<(), Fail> {
    let mut stop = ListStop::new([false, true, false].to_vec(rt.alloc())?);
    for answer in [false, true, false, true, true] {
        assert!(rt; stop.asked() == answer);
    }
    Ok(())
}
