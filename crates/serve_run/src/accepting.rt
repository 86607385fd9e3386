//! Links as they come, each with the ports at which its packets leave.
ghost use Rattle.std.specs.Prelude.{◌≡◌, ◌≤◌};
ghost use Rattle.sw_edge.specs.Counts.{HasCause, StaysUnless};

use sw_edge::{Accepted, Net, Opened};

/// What came when a link was waited for.
#[derive(Drop)]
pub(crate) enum Came<L, P> {
    Link(L, P),
    Quiet,
    End,
    Failed,
}

/// Waits for the next link, and opens ports for it.
pub(crate) fn next_link<N: Net>(net: &mut N) -> Came<N::Link, N::Ports>
    ensures end { HasCause (N.ends net.old) (N.ends net.new) (result ≡ Came.End) }
    ensures no_end { StaysUnless (N.ends net.old) (N.ends net.new) (result ≡ Came.End) }
    ensures failed { HasCause (N.faults net.old) (N.faults net.new) (result ≡ Came.Failed) }
    ensures no_fault { StaysUnless (N.faults net.old) (N.faults net.new) (result ≡ Came.Failed) }
{
    match net.accept() {
        Accepted::Link(link) => match net.ports() {
            Opened::Ports(ports) => Came::Link(link, ports),
            Opened::Failed => Came::Failed,
        },
        Accepted::Quiet => Came::Quiet,
        Accepted::End => Came::End,
        Accepted::Failed => Came::Failed,
    }
}
