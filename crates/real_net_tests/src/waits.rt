// Calls that are made again while they are quiet, since the system may take its time.
ghost use Rattle.std.specs.Prelude.{◌<◌, ◌≤◌, length};
ghost use Rattle.sw_edge.specs.declared.TheConstants.{MAX_PACKET};

use sw_edge::{Accepted, Link, Net, Ports, Pulled, Taken};

// How often a call is made.
const CALLS: u32 = 100;

pub(crate) fn accepted<N: Net>(net: &mut N) -> Accepted<N::Link> {
    for _ in 0..CALLS {
        match net.accept() {
            Accepted::Quiet => {}
            told => return told,
        }
    }
    Accepted::Quiet
}

pub(crate) fn pulled<L: Link>(link: &mut L, buf: &mut [u8]) -> Pulled
    requires { 0 < length buf.old }
{
    for _ in 0..CALLS {
        match link.pull(buf) {
            Pulled::Quiet => {}
            told => return told,
        }
    }
    Pulled::Quiet
}

pub(crate) fn taken<P: Ports>(ports: &mut P, buf: &mut [u8]) -> Taken
    requires { MAX_PACKET ≤ length buf.old }
{
    for _ in 0..CALLS {
        match ports.take(buf) {
            Taken::Quiet => {}
            told => return told,
        }
    }
    Taken::Quiet
}
