// A net over a network.
ghost use Rattle.std.specs.Prelude.{◌≡◌, ◌≢◌, ◌≤◌, None, IsOk, IsErr, MatchResult};
ghost use Rattle.sw_edge.specs.Counts.{HasCause, StaysUnless};
ghost use Rattle.real_net.specs.Attempts.{IsTriedBy};
ghost use Rattle.real_net.specs.Nets.{Bound, HeldNet, Binds, BindsNot, Listens, AcceptTells, PortsTell};

use crate::attempts::{TRIES, Trouble, judged};
use crate::count::raise;
use crate::link::RealLink;
use crate::ports::RealPorts;
use crate::system::{Datagrams, Listener, Network};
use std::io::{self, ErrorKind};
use std::marker::Model;
use sw_edge::{Accepted, Net, Opened, Sent};

// The socket of the packets, and the port to which outputs are sent.
#[derive(Drop)]
pub struct Bound<D> {
    socket: D,
    outputs: u16,
}

impl<D> Model for Bound<D> {
    ghost Value = { Bound D };

    ghost view = { λ b. record { socket = b.socket; outputs = b.outputs } };
}

/// A net over a network, as the system's TCP and UDP on 127.0.0.1, which tells what the network tells. It listens for
/// links at one port and takes packets at another; outputs go to the port above that. Without a port of packets, which is
/// said by 0, there are no ports to be had. An accept that waits longer than the listener lets it (50 milliseconds over
/// TCP) is Quiet; so is one to which the system has no handle and no room to give for now, after a wait of that time. Each other error
/// counts as a fault. There is no end.
#[derive(Drop)]
pub struct RealNet<N: Network> {
    network: N,
    listener: Option<N::Listener>,
    packets: Option<Bound<N::Socket>>,
    faults: u64,
    quiets: u64,
}

impl<N: Network> Model for RealNet<N> {
    ghost Value = { HeldNet N N.Listener N.Socket };

    ghost view = { λ n. record { network = n.network; listener = n.listener; packets = n.packets; faults = n.faults; quiets = n.quiets } };
}

// Takes a stream until no signal cuts the wait short.
#[tactic(auto, using(crate::proofs::TryLaws::cut_more))]
fn accept_some<L: Listener>(listener: &mut L) -> Result<L::Stream, Trouble>
    ensures { IsTriedBy L.accepts TRIES listener.old listener.new result }
{
    for _ in 0..TRIES {
        match judged(listener.try_accept()) {
            Err(Trouble::CutShort) => {}
            told => return told,
        }
    }
    Err(Trouble::CutShort)
}

// A socket at the port of packets; none at port 0.
fn bind_packets<N: Network>(network: &N, port: u16) -> io::Result<Option<Bound<N::Socket>>>
    ensures { MatchResult result (Binds (λ at. N.binds at network.now) port) (λ e. BindsNot (λ at. N.binds at network.now) port) }
{
    if port == 0 {
        return Ok(None);
    }
    let Some(outputs) = port.checked_add(1) else {
        return Err(io::Error::from(ErrorKind::AddrNotAvailable));
    };
    let socket = network.try_bind(port)?;
    Ok(Some(Bound { socket, outputs }))
}

impl<N: Network> RealNet<N> {
    /// A net that listens nowhere yet.
    pub fn new(network: N) -> RealNet<N>
        ensures { result ≡ record { network = network; listener = None; packets = None; faults = 0; quiets = 0 } }
    {
        RealNet {
            network,
            listener: None,
            packets: None,
            faults: 0,
            quiets: 0,
        }
    }

    // Listens at both ports; where one is refused the net stays as it is.
    fn open(&mut self, control: u16, packets: u16) -> io::Result<()>
        ensures opened { IsOk result → Listens N.listens N.binds control packets self.old self.new Sent.All }
        ensures refused { IsErr result → Listens N.listens N.binds control packets self.old self.new Sent.Failed }
        ensures network { self.new.network ≡ self.old.network }
        ensures faults { self.new.faults ≡ self.old.faults }
        ensures quiets { self.new.quiets ≡ self.old.quiets }
    {
        let listener = self.network.try_listen(control)?;
        let packets = bind_packets(&self.network, packets)?;
        self.listener = Some(listener);
        self.packets = packets;
        Ok(())
    }

    // Ports over another handle of the socket, if there is one and the system gives it.
    fn share(&self) -> Opened<RealPorts<N::Socket>>
        ensures { PortsTell N.Socket.handles self.now.packets result }
    {
        let Some(packets) = &self.packets else {
            return Opened::Failed;
        };
        match packets.socket.try_handle() {
            Ok(socket) => Opened::Ports(RealPorts::new(socket, packets.outputs)),
            Err(_) => Opened::Failed,
        }
    }
}

impl<N: Network> Net for RealNet<N>
where
    N::Stream: Send,
    N::Socket: Send,
{
    type Link = RealLink<N::Stream>;

    type Ports = RealPorts<N::Socket>;

    ghost faults = { λ n. n.faults };

    ghost quiets = { λ n. n.quiets };

    ghost ends = { λ _. 0 };

    fn listen(&mut self, control: u16, packets: u16) -> Sent
        ensures failed { HasCause self.old.faults self.new.faults (result ≡ Sent.Failed) }
        ensures no_fault { StaysUnless self.old.faults self.new.faults (result ≡ Sent.Failed) }
        ensures quiet { self.new.quiets ≡ self.old.quiets }

        // It listens at both ports of the network, or one was refused.
        ensures told { Listens N.listens N.binds control packets self.old self.new result }
        ensures network { self.new.network ≡ self.old.network }
    {
        match self.open(control, packets) {
            Ok(()) => Sent::All,
            Err(_) => {
                raise(&mut self.faults);
                Sent::Failed
            }
        }
    }

    fn accept(&mut self) -> Accepted<RealLink<N::Stream>>
        ensures failed { HasCause self.old.faults self.new.faults (result ≡ Accepted.Failed) }
        ensures no_fault { StaysUnless self.old.faults self.new.faults (result ≡ Accepted.Failed) }
        ensures quiet { HasCause self.old.quiets self.new.quiets (result ≡ Accepted.Quiet) }
        ensures not_quiet { StaysUnless self.old.quiets self.new.quiets (result ≡ Accepted.Quiet) }
        ensures no_end { result ≢ Accepted.End }

        // It is told what the listener answered to a try that no signal cut short.
        ensures told { AcceptTells N.Listener.accepts TRIES self.old.listener self.new.listener result }
        ensures kept { self.new ≡ record self.old { listener = self.new.listener; faults = self.new.faults; quiets = self.new.quiets } }
    {
        let Some(listener) = &mut self.listener else {
            raise(&mut self.faults);
            return Accepted::Failed;
        };
        match accept_some(listener) {
            Ok(stream) => Accepted::Link(RealLink::new(stream)),
            Err(Trouble::TimedOut) => {
                raise(&mut self.quiets);
                Accepted::Quiet
            }
            Err(_) => {
                raise(&mut self.faults);
                Accepted::Failed
            }
        }
    }

    fn ports(&mut self) -> Opened<RealPorts<N::Socket>>
        ensures failed { HasCause self.old.faults self.new.faults (result ≡ Opened.Failed) }
        ensures no_fault { StaysUnless self.old.faults self.new.faults (result ≡ Opened.Failed) }

        // They are over another handle of the socket of packets.
        ensures told { PortsTell N.Socket.handles self.old.packets result }
        ensures kept { self.new ≡ record self.old { faults = self.new.faults } }
    {
        let told = self.share();
        if let Opened::Failed = told {
            raise(&mut self.faults);
        }
        told
    }
}
