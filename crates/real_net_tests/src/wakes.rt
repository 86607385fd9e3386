// Pulls that another thread wakes.
use crate::places::{at, control_port};
use crate::waits::accepted;
use real_net::{FlagStop, Loopback, RealNet, StopFlag};
use std::net::TcpStream;
use std::test::Fail;
use std::thread::join;
use sw_edge::{Accepted, Link, LinkWaker, Net, Pulled, Sent, Stop};

// How often each link pulls.
const PULLS: u32 = 40;

fn link_of<N: Net>(net: &mut N) -> Result<N::Link, Fail> {
    match accepted(net) {
        Accepted::Link(link) => Ok(link),
        _ => Err(Fail::new("no link was accepted")),
    }
}

// Pulls that nobody wakes.
fn pull_alone<L: Link>(link: &mut L, done: &StopFlag) {
    let mut buf = [0; 8];
    for _ in 0..PULLS {
        let _quiet = link.pull(&mut buf);
    }
    done.set();
}

// Whether as many pulls, each woken before, are done while those of the other link go on.
fn are_woken<L: Link>(link: &mut L, waker: &LinkWaker, done: &StopFlag) -> bool {
    let mut buf = [0; 8];
    for _ in 0..PULLS {
        waker.wake();
        if !matches!(link.pull(&mut buf), Pulled::Quiet) {
            return false;
        }
    }
    !FlagStop::new(done).asked()
}

#[test]
fn a_pull_that_is_woken_ends_at_once(rt: HostRuntime) -> Result<(), Fail> {
    let control = control_port(&rt)?;
    let mut net = RealNet::new(Loopback::new(&rt, rt.alloc()));
    assert!(rt; matches!(net.listen(control, 0), Sent::All));
    let first = TcpStream::connect(&rt, at(control))?;
    let mut woken = link_of(&mut net)?;
    let second = TcpStream::connect(&rt, at(control))?;
    let mut alone = link_of(&mut net)?;
    let Some(waker) = woken.waker() else {
        return Err(Fail::new("the link has no waker"));
    };
    let done = StopFlag::new();
    let ((), in_time) = join(
        &rt,
        || pull_alone(&mut alone, &done),
        || are_woken(&mut woken, &waker, &done),
    );
    assert!(rt; in_time);
    drop(first);
    drop(second);
    Ok(())
}
