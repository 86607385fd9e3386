// A net in memory.
ghost use Rattle.std.specs.Prelude.{◌≡◌, ◌≤◌, ◌↔◌, ◌⊎◌, ◌∷◌, [], IsTrue};
ghost use Rattle.sw_edge.specs.Counts.{HasCause, StaysUnless};
ghost use Rattle.sw_edge.specs.Memory.{is_next, after_call};
ghost use Rattle.sw_edge.specs.MemoryNet.{IsNextQuiet, course, quiet_after, HeldLink, HeldNet, HeldPorts};

use crate::course::Course;
use crate::{Accepted, MemoryLink, MemoryPorts, Net, Opened, Sent};
use std::marker::Model;

/// A net in memory that hands out the links and ports that it was given, in their order, of which some calls
/// fail: those whose index, from 0, is in a list. Of the accepts that do not fail, those whose index is in
/// another list find no link for now. It ends where no link is left; a call for ports where none are left fails.
#[derive(Drop)]
pub struct MemoryNet {
    links: Vec<MemoryLink>,
    ports: Vec<MemoryPorts>,
    course: Course,
}

impl Model for MemoryNet {
    ghost Value = { HeldNet };

    ghost view = { λ n. record { links = n.links.items; ports = n.ports.items; course = n.course } };
}

impl MemoryNet {
    /// A net that accepts these links and opens these ports in order; its calls with these indices fail or find nothing.
    pub fn new(
        links: Vec<MemoryLink>,
        ports: Vec<MemoryPorts>,
        failing: Vec<u64>,
        quiet: Vec<u64>,
    ) -> MemoryNet
        ensures links { result.links ≡ links.items }
        ensures ports { result.ports ≡ ports.items }
        ensures course { result.course ≡ course failing.items quiet.items }
    {
        MemoryNet {
            links,
            ports,
            course: Course::new(failing, quiet),
        }
    }
}

impl Net for MemoryNet {
    type Link = MemoryLink;

    type Ports = MemoryPorts;

    ghost faults = { λ n. n.course.faults };

    ghost quiets = { λ n. n.course.quiets };

    ghost ends = { λ n. n.course.ends };

    fn listen(&mut self, _control: u16, _packets: u16) -> Sent
        ensures failed { HasCause self.old.course.faults self.new.course.faults (result ≡ Sent.Failed) }
        ensures no_fault { StaysUnless self.old.course.faults self.new.course.faults (result ≡ Sent.Failed) }
        ensures quiet { self.new.course.quiets ≡ self.old.course.quiets }
        ensures end { self.new.course.ends ≡ self.old.course.ends }

        // It fails where it is told to, and nowhere else.
        ensures picked { (result ≡ Sent.Failed) ↔ IsTrue (is_next self.old.course.failing) }
        ensures kept { self.new ≡ record self.old { course = self.new.course } }
        ensures counted { self.new.course.failing ≡ after_call self.old.course.failing }
        ensures quiet_kept { self.new.course.quiet ≡ self.old.course.quiet }
    {
        if self.course.fails() {
            return Sent::Failed;
        }
        Sent::All
    }

    fn accept(&mut self) -> Accepted<MemoryLink>
        ensures failed { HasCause self.old.course.faults self.new.course.faults (result ≡ Accepted.Failed) }
        ensures no_fault { StaysUnless self.old.course.faults self.new.course.faults (result ≡ Accepted.Failed) }
        ensures quiet { HasCause self.old.course.quiets self.new.course.quiets (result ≡ Accepted.Quiet) }
        ensures not_quiet { StaysUnless self.old.course.quiets self.new.course.quiets (result ≡ Accepted.Quiet) }
        ensures end { HasCause self.old.course.ends self.new.course.ends (result ≡ Accepted.End) }
        ensures no_end { StaysUnless self.old.course.ends self.new.course.ends (result ≡ Accepted.End) }

        // It fails where it is told to, and nowhere else, is quiet where it is told to be, and nowhere else, and ends where no link is left.
        ensures picked { (result ≡ Accepted.Failed) ↔ IsTrue (is_next self.old.course.failing) }
        ensures picked_quiet { (result ≡ Accepted.Quiet) ↔ IsNextQuiet self.old.course }
        ensures counted_quiet { self.new.course.quiet ≡ quiet_after self.old.course }
        ensures none_left { result ≡ Accepted.End → (self.old.links ≡ []) × (self.new.links ≡ []) }
        ensures first { (link : HeldLink) → result ≡ Accepted.Link link → self.old.links ≡ link ∷ self.new.links }
        ensures links_kept { (result ≡ Accepted.Failed) ⊎ (result ≡ Accepted.Quiet) → self.new.links ≡ self.old.links }
        ensures ports { self.new.ports ≡ self.old.ports }
        ensures counted { self.new.course.failing ≡ after_call self.old.course.failing }
    {
        if self.course.fails() {
            return Accepted::Failed;
        }
        if self.course.is_quiet() {
            return Accepted::Quiet;
        }
        if self.links.is_empty() {
            self.course.end();
            return Accepted::End;
        }
        Accepted::Link(self.links.remove(0))
    }

    fn ports(&mut self) -> Opened<MemoryPorts>
        ensures failed { HasCause self.old.course.faults self.new.course.faults (result ≡ Opened.Failed) }
        ensures no_fault { StaysUnless self.old.course.faults self.new.course.faults (result ≡ Opened.Failed) }
        ensures quiet { self.new.course.quiets ≡ self.old.course.quiets }
        ensures end { self.new.course.ends ≡ self.old.course.ends }

        // It fails where it is told to and where no ports are left, and nowhere else.
        ensures none_left { (result ≡ Opened.Failed) ↔ (IsTrue (is_next self.old.course.failing) ⊎ (self.old.ports ≡ [])) }
        ensures first { (ports : HeldPorts) → result ≡ Opened.Ports ports → self.old.ports ≡ ports ∷ self.new.ports }
        ensures ports_kept { result ≡ Opened.Failed → self.new.ports ≡ self.old.ports }
        ensures links { self.new.links ≡ self.old.links }
        ensures counted { self.new.course.failing ≡ after_call self.old.course.failing }
        ensures quiet_kept { self.new.course.quiet ≡ self.old.course.quiet }
    {
        if self.course.fails() {
            return Opened::Failed;
        }
        if self.ports.is_empty() {
            self.course.fault();
            return Opened::Failed;
        }
        Opened::Ports(self.ports.remove(0))
    }
}
