//! What those who share a desk name alike.
ghost use Rattle.std.specs.Prelude.{false};
ghost use Rattle.counter_bank.specs.Account as bank;
ghost use Rattle.event_log.specs.Lists as log;
ghost use Rattle.lane_table.specs.Lanes as table;
ghost use Rattle.p4_types.specs.declared.events.Start as start;

use std::marker::Brand;

/// The names of one desk: its lane table, its published list, its bank of counters, and with what its switch starts. What stands
/// under a lock or goes through a thread is known by them alone.
pub trait Naming {
    ghost table: { table.LaneTableId };

    ghost list: { log.ListName };

    ghost bank: { bank.BankId };

    ghost start: { start.Start };
}

impl Naming for Brand {
    ghost table = { table.no_table };

    ghost list = { log.no_list };

    ghost bank = { bank.no_bank };

    ghost start = { record { device = 0; cpu = 0; rows = 0; slots = 0; bridge = false } };
}
