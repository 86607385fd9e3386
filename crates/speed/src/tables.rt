// Look-ups in a table of routes, and changes of another table beside it.
ghost use Rattle.std.specs.Prelude.{◌≡◌, ◌<◌, ◌+◌, ◌-◌, ◌^◌, All, IfOk};

use crate::moments::nanoseconds;
use list_types::{List, NoMemory, Text};
use p4_types::info::Table;
use p4_types::keys::{Arguments, FieldTest, Tests};
use p4_types::p4info::Preamble;
use p4_types::table::{ActionCall, EntryAction, EntryChange, EntryName, Room};
use std::alloc::Global;
use std::io::{self, Error, ErrorKind};
use std::time::Clock;
use table_store::TableStore;
use text_lists::TextList;

// The table of IPv4 routes of a router, its action, and another table.
const ROUTES: u32 = 0x0200_0002;

const OTHER: u32 = 0x0200_0003;

const ROUTE: u32 = 0x0100_0003;

const LOOK_UPS: u32 = 2_000;

/// What a look-up took, in hundredths of a nanosecond: of an entry by its name, and of the best entry of a key; and
/// what an INSERT into another table took that was undone. How many were found and made, which keeps the work from
/// being left out.
#[derive(Drop)]
pub struct Measured {
    pub find: u128,
    pub best: u128,
    pub change: u128,
    pub found: u32,
    pub made: u32,
}

fn text(alloc: Global) -> Text {
    Text::from_string(String::new(alloc))
}

fn table(alloc: Global, id: u32) -> Table
    ensures { result.preamble.id ≡ id }
{
    Table {
        preamble: Preamble {
            id,
            name: text(alloc),
            alias: text(alloc),
            annotations: TextList::new(alloc),
        },
        match_fields: List::new(alloc),
        action_refs: List::new(alloc),
        const_default_action: None,
        action_profile: None,
        direct_counters: List::new(alloc),
        size: 16_384,
        idle_timeout_behavior: 0,
        is_const_table: false,
    }
}

// The network of this number: 24 bits of an address.
fn network(number: u32) -> u128 {
    u128::from(number % 0x100_0000) * 256
}

fn name(table: u32, number: u32) -> EntryName
    ensures { result.table ≡ table }
{
    let mut tests = Tests::new();
    tests.push(FieldTest::Prefix {
        value: network(number),
        length: 24,
        width: 32,
    });
    EntryName {
        table,
        tests,
        priority: 0,
    }
}

fn route(table: u32, number: u32) -> EntryChange
    ensures { result.name.table ≡ table }
{
    EntryChange {
        name: name(table, number),
        controller_metadata: 0,
        action: EntryAction::Call(ActionCall {
            action: ROUTE,
            arguments: Arguments::new(),
        }),
    }
}

// Puts a route in, which draws this sequence number.
fn put(
    alloc: Global,
    store: &mut TableStore,
    table: &Table,
    change: &EntryChange,
    number: u32,
) -> bool
    requires table { change.now.name.table ≡ table.now.preamble.id }
    requires below { All (λ entry. entry.seq < 1 + number) store.old.entries }
    ensures below { All (λ entry. entry.seq < 2 + number) store.new.entries }
{
    let room = Room {
        rows: 1,
        slots: 1,
        next_slot: 0,
        next_stamp: 0,
        numbers: u64::MAX - 1 - u64::from(number),
    };
    store.insert(alloc, table, change, room).is_ok()
}

// A store of so many routes, each of which is kept.
fn filled(alloc: Global, routes: u32) -> Result<TableStore, NoMemory>
    ensures below { IfOk result (λ store. All (λ entry. entry.seq < 1 + routes) store.entries) }
    ensures kept { IfOk result (λ store. store.before ≡ store.entries) }
{
    let table = self::table(alloc, ROUTES);
    let mut store = TableStore::open(alloc);
    for number in 0..routes {
        let change = route(ROUTES, number);
        let is_put = put(alloc, &mut store, &table, &change, number);
        drop(change);
        if !is_put {
            drop(store);
            drop(table);
            return Err(NoMemory);
        }
        store.keep();
    }
    drop(table);
    Ok(store)
}

// The name and the address of a look-up.
#[derive(Drop)]
struct LookUp {
    name: EntryName,
    key: [u128; 1],
}

fn asked(alloc: Global, routes: u32) -> io::Result<Vec<LookUp>> {
    let mut list = Vec::new(alloc);
    for number in 0..LOOK_UPS {
        let route = (number * 7919).checked_rem(routes).unwrap_or(0);
        list.push(LookUp {
            name: name(ROUTES, route),
            key: [network(route).wrapping_add(1)],
        })?;
    }
    Ok(list)
}

fn found_by_name(store: &TableStore, asked: &[LookUp]) -> u32 {
    let mut found = 0u32;
    for one in asked {
        if store.find(&one.name).is_some() {
            found = found.wrapping_add(1);
        }
    }
    found
}

fn found_by_key(store: &TableStore, asked: &[LookUp]) -> u32 {
    let mut found = 0u32;
    for one in asked {
        if store.best(ROUTES, &one.key).is_some() {
            found = found.wrapping_add(1);
        }
    }
    found
}

// Puts an entry in, which would draw this sequence number, and undoes it. Whether it was put in.
fn put_and_undo(
    alloc: Global,
    store: &mut TableStore,
    table: &Table,
    change: &EntryChange,
    number: u32,
) -> bool
    requires table { change.now.name.table ≡ table.now.preamble.id }
    requires below { All (λ entry. entry.seq < 1 + number) store.old.entries }
    ensures entries { store.new.entries ≡ store.old.before }
    ensures before { store.new.before ≡ store.old.before }
{
    let room = Room {
        rows: 1,
        slots: 1,
        next_slot: 0,
        next_stamp: 0,
        numbers: u64::MAX - 1 - u64::from(number),
    };
    let made = store.insert(alloc, table, change, room).is_ok();
    store.undo();
    made
}

// How many INSERTs into another table were made, each of which was undone.
fn changed(
    alloc: Global,
    store: &mut TableStore,
    table: &Table,
    change: &EntryChange,
    routes: u32,
) -> u32
    requires table { change.now.name.table ≡ table.now.preamble.id }
    requires below { All (λ entry. entry.seq < 1 + routes) store.old.entries }
    requires kept { store.old.before ≡ store.old.entries }
    ensures { store.new.entries ≡ store.old.entries }
{
    let mut made = 0u32;
    for _ in 0..LOOK_UPS {
        if put_and_undo(alloc, store, table, change, routes) {
            made = made.wrapping_add(1);
        }
    }
    made
}

fn hundredths(before: u128, after: u128) -> u128 {
    after.saturating_sub(before).saturating_mul(100) / u128::from(LOOK_UPS)
}

/// Looks up in a table of so many routes, and changes another table beside it.
pub fn look_ups<R: Clock + AllocGlobal>(rt: &R, routes: u32) -> io::Result<Measured> {
    let alloc = rt.alloc();
    let asked = asked(alloc, routes)?;
    let Ok(mut store) = filled(alloc, routes) else {
        drop(asked);
        return Err(Error::from(ErrorKind::OutOfMemory));
    };
    let other = table(alloc, OTHER);
    let change = route(OTHER, 0);
    let start = nanoseconds(rt);
    let found = found_by_name(&store, &asked);
    let middle = nanoseconds(rt);
    let best = found_by_key(&store, &asked);
    let found_both = nanoseconds(rt);
    let made = changed(alloc, &mut store, &other, &change, routes);
    let end = nanoseconds(rt);
    drop(store);
    drop(asked);
    drop(other);
    drop(change);
    Ok(Measured {
        find: hundredths(start, middle),
        best: hundredths(middle, found_both),
        change: hundredths(found_both, end),
        found: found.wrapping_add(best),
        made,
    })
}
