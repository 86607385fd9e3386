// A net with links that follow scripts.
ghost use Rattle.std.specs.Prelude.{◌≡◌, ◌≤◌};
ghost use Rattle.sw_edge.specs.Counts.{HasCause, StaysUnless};

use crate::counts::raise;
use crate::links::{Script, WaitingLink};
use crate::ports::FewPorts;
use crate::stage::Stage;
use std::sync::Wait;
use sw_edge::{Accepted, Net, Opened, Sent};

/// How often the net is quiet before its first link: more often than a switch has lanes.
const QUIETS: u64 = 40;

/// The ports at which the net may be asked to listen.
const CONTROL: u16 = 9559;

const PACKETS: u16 = 9100;

/// A net that is quiet, gives a link for each script, at the first place and at the second in turn, and ends. Its first ports have packets.
#[derive(Drop)]
pub struct ScriptNet<'a, W> {
    rt: &'a W,
    stage: &'a Stage,
    scripts: &'a [Script<'a>],
    packets: u64,
    accepted: usize,
    faults: u64,
    quiets: u64,
    ends: u64,
}

impl<'a, W> ScriptNet<'a, W> {
    /// A net whose links play these scripts, and whose ports bring so many packets.
    pub fn new(
        rt: &'a W,
        stage: &'a Stage,
        scripts: &'a [Script<'a>],
        packets: u64,
    ) -> ScriptNet<'a, W> {
        ScriptNet {
            rt,
            stage,
            scripts,
            packets,
            accepted: 0,
            faults: 0,
            quiets: 0,
            ends: 0,
        }
    }
}

impl<'a, W: Wait + Sync> Net for ScriptNet<'a, W> {
    type Link = WaitingLink<'a, W>;

    type Ports = FewPorts<'a>;

    ghost faults = { λ n. n.faults };

    ghost quiets = { λ n. n.quiets };

    ghost ends = { λ n. n.ends };

    fn listen(&mut self, control: u16, packets: u16) -> Sent {
        if control == CONTROL && packets == PACKETS {
            return Sent::All;
        }
        raise(&mut self.faults);
        Sent::Failed
    }

    fn accept(&mut self) -> Accepted<WaitingLink<'a, W>> {
        if self.quiets < QUIETS {
            raise(&mut self.quiets);
            return Accepted::Quiet;
        }
        let Some(script) = self.scripts.get(self.accepted) else {
            raise(&mut self.ends);
            return Accepted::End;
        };
        let stage = self.stage;
        let (own, other) = if self.accepted % 2 == 0 {
            (&stage.first, &stage.second)
        } else {
            (&stage.second, &stage.first)
        };
        self.accepted = self.accepted.saturating_add(1);
        Accepted::Link(WaitingLink::new(self.rt, stage, own, other, *script))
    }

    fn ports(&mut self) -> Opened<FewPorts<'a>> {
        let packets = self.packets;
        self.packets = 0;
        Opened::Ports(FewPorts::new(self.stage, packets))
    }
}
