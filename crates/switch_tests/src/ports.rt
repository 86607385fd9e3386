// Ports with a few packets.
ghost use Rattle.std.specs.Prelude.{◌≡◌, ◌≤◌, None, length};
ghost use Rattle.sw_edge.specs.Counts.{HasCause, StaysUnless};

use crate::counts::raise;
use crate::stage::{PATIENCE, Stage};
use std::thread::yield_now;
use sw_edge::{Ports, Sent, Taken};

/// Ports at which so many packets of one byte come in, and which are quiet then.
#[derive(Drop)]
pub struct FewPorts<'a> {
    stage: &'a Stage,
    packets: u64,
    taken: u64,
    quiets: u64,
    ends: u64,
}

impl<'a> FewPorts<'a> {
    /// Ports that bring so many packets, each the same.
    pub fn new(stage: &'a Stage, packets: u64) -> FewPorts<'a> {
        FewPorts {
            stage,
            packets,
            taken: 0,
            quiets: 0,
            ends: 0,
        }
    }
}

impl<'a> Ports for FewPorts<'a> {
    ghost left = { λ _. None };

    ghost sent = { λ _. None };

    ghost faults = { λ _. 0 };

    ghost quiets = { λ p. p.quiets };

    ghost ends = { λ p. p.ends };

    fn take(&mut self, buf: &mut [u8]) -> Taken {
        if self.taken < self.packets {
            self.taken = self.taken.saturating_add(1);
            self.stage.carry();
            buf[0] = 7;
            return Taken::Packet { port: 1, len: 1 };
        }
        if self.quiets < PATIENCE {
            yield_now();
            raise(&mut self.quiets);
            return Taken::Quiet;
        }
        self.stage.give_up();
        raise(&mut self.ends);
        Taken::End
    }

    fn put(&mut self, _port: u16, _bytes: &[u8]) -> Sent {
        Sent::All
    }
}
