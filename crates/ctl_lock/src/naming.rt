//! What those who share a run name alike.
ghost use Rattle.std.specs.Prelude.{ℕ, [], false};
ghost use Rattle.std.specs.Prelude as spec;
ghost use Rattle.counter_bank.specs.Account as bank;
ghost use Rattle.event_log.specs.Lists as log;
ghost use Rattle.lane_table.specs.Lanes as table;
ghost use Rattle.p4_types.specs.declared.events.Start as start;
ghost use Rattle.switch_spec.specs.declared.calls.LaneCall as calls;
ghost use Rattle.switch_spec.specs.declared.calls.WorkerItem as items;

use std::marker::Brand;

/// The names of one run: its lane table, its published list, its bank of counters, with what it starts, the calls that each
/// controller's lane is to make, and what each worker's lane is given. What stands under a lock or goes through a thread is known
/// by them alone.
pub trait Naming {
    ghost table: { table.LaneTableId };

    ghost list: { log.ListName };

    ghost bank: { bank.BankId };

    ghost start: { start.Start };

    ghost calls: { ℕ → spec.List calls.LaneCall };

    ghost items: { ℕ → spec.List items.WorkerItem };
}

impl Naming for Brand {
    ghost table = { table.no_table };

    ghost list = { log.no_list };

    ghost bank = { bank.no_bank };

    ghost start = { record { device = 0; cpu = 0; rows = 0; slots = 0; bridge = false } };

    ghost calls = { λ lane. [] };

    ghost items = { λ lane. [] };
}
