//! The packets of a run, each with its number on its lane.
ghost use Rattle.std.specs.Prelude.{◌≡◌, ◌+◌, ◌-◌, ◌^◌, ◌<◌, ◌++◌, [], ◌∷◌, length, count_by, OnOk, OnErr};
ghost use Rattle.switch_spec.specs.Carrying.{is_who};
ghost use Rattle.lockstep_run.specs.Tallies.{IsLane};

use list_types::{List, NoMemory};
use p4_types::records::Record;
use p4_types::tape::Who;
use std::alloc::Global;
use std::marker::Model;

/// The packets of a run, which a contract sees as the list of their records.
#[derive(Drop)]
pub struct Packets {
    records: List<Record>,
    workers: [u32; 16],
    controllers: [u32; 32],
}

impl Model for Packets {
    ghost use Rattle.std.specs.Prelude.{List};
    ghost use Rattle.p4_types.specs.declared.records.Record.{Record};
    ghost use Rattle.lockstep_run.specs.Tallies.{AreTallied};

    ghost Value = { List Record };

    ghost view = { λ p. p.records };

    ghost invariant = { λ p. AreTallied p.workers p.controllers p.records };
}

impl Packets {
    /// The records of no packet.
    pub fn open(alloc: Global) -> Packets
        ensures { result ≡ [] }
    {
        Packets {
            records: List::new(alloc),
            workers: [0; 16],
            controllers: [0; 32],
        }
    }

    /// How many packets a lane has brought.
    pub fn count_of(&self, who: Who) -> u32
        requires { IsLane who }
        ensures { result ≡ count_by (λ r. is_who who r.who) self.now }
    {
        match who {
            Who::Worker(lane) => self.workers[lane as usize],
            Who::Controller(lane) => self.controllers[lane as usize],
        }
    }

    /// How many packets there are.
    pub fn len(&self) -> usize
        ensures { result ≡ length self.now }
    {
        self.records.len()
    }

    /// Adds a packet of a lane.
    pub fn push(&mut self, packet: Record) -> Result<(), NoMemory>
        requires lane { IsLane packet.who }
        requires room { length self.old < 2 ^ 32 - 1 }
        ensures ok { OnOk result (self.new ≡ self.old ++ packet ∷ []) }
        ensures err { OnErr result (self.new ≡ self.old) }
    {
        let who = packet.who;
        self.records.push(packet)?;
        match who {
            Who::Worker(lane) => self.workers[lane as usize] += 1,
            Who::Controller(lane) => self.controllers[lane as usize] += 1,
        }
        Ok(())
    }

    /// The records in the order in which the packets were run.
    pub fn into_list(self) -> List<Record>
        ensures { result ≡ self }
    {
        self.records
    }
}
