// Planes of a program with routes in its first table.
ghost use Rattle.std.specs.Prelude.{◌≡◌, ◌+◌, ◌<◌, All, IfOk};

use config_rules::configuration;
use list_types::NoMemory;
use p4_types::keys::{Arguments, FieldTest, Tests};
use p4_types::shared::Shared;
use p4_types::table::{ActionCall, Change, EntryAction, EntryChange, EntryName, Room};
use p4v1_read::read_config;
use plane_state::{Config, Plane};
use std::alloc::Global;
use std::io::{self, Error, ErrorKind};

fn out_of_memory(_: NoMemory) -> Error {
    Error::from(ErrorKind::OutOfMemory)
}

/// The configuration that the bytes of a ForwardingPipelineConfig mean.
pub fn config_of(alloc: Global, bytes: &[u8]) -> io::Result<Config> {
    let Ok(Some(config)) = read_config(alloc, bytes) else {
        return Err(Error::from(ErrorKind::InvalidData));
    };
    let made = configuration(alloc, &config);
    drop(config);
    match made {
        Ok(config) => Ok(config),
        Err(_) => Err(Error::from(ErrorKind::InvalidData)),
    }
}

// The table and the action that routes are written with: the first ones.
fn first_ids(plane: &Plane) -> Option<(u32, u32)> {
    let table = plane
        .config()
        .pipeline()
        .program()
        .tables
        .as_slice()
        .first()?;
    let action = table.actions.as_slice().first()?;
    Some((table.id?, action.reference?))
}

// The route of a network of 24 bits, by its number, to a port and an Ethernet address.
fn route(table: u32, action: u32, number: u32) -> EntryChange {
    let mut tests = Tests::new();
    tests.push(FieldTest::Prefix {
        value: 0x0a00_0000 + u128::from(number % 65_536) * 256,
        length: 24,
        width: 32,
    });
    let mut arguments = Arguments::new();
    arguments.push(u128::from(number % 8) + 1);
    arguments.push(0x0200_0000_0001);
    EntryChange {
        name: EntryName {
            table,
            tests,
            priority: 0,
        },
        controller_metadata: 0,
        action: EntryAction::Call(ActionCall { action, arguments }),
    }
}

// Puts an entry in, which draws this sequence number.
fn put(alloc: Global, plane: &mut Plane, change: EntryChange, number: u32) -> bool
    requires below { All (λ entry. entry.seq < 1 + number) plane.old.now.entries }
    requires former { All (λ entry. entry.seq < 1 + number) plane.old.before.entries }
    ensures below { All (λ entry. entry.seq < 2 + number) plane.new.now.entries }
    ensures former { All (λ entry. entry.seq < 2 + number) plane.new.before.entries }
{
    let room = Room {
        rows: 1,
        slots: 1,
        next_slot: 0,
        next_stamp: 0,
        numbers: u64::MAX - 1 - u64::from(number),
    };
    plane
        .change(alloc, room, &Change::InsertEntry(change))
        .is_ok()
}

// Puts so many routes in. How many were put in.
fn fill(alloc: Global, plane: &mut Plane, table: u32, action: u32, routes: u32) -> u32
    requires below { All (λ entry. entry.seq < 1) plane.old.now.entries }
    requires former { All (λ entry. entry.seq < 1) plane.old.before.entries }
{
    let mut put_in = 0u32;
    for number in 0..routes {
        if put(alloc, plane, route(table, action, number), number) {
            put_in = put_in.wrapping_add(1);
        }
    }
    put_in
}

/// A plane of a configuration with so many routes.
pub fn plane_of(alloc: Global, bytes: &[u8], routes: u32) -> io::Result<Plane> {
    let config = Shared::new(alloc, config_of(alloc, bytes)?).map_err(out_of_memory)?;
    let mut plane = Plane::open(alloc, config, 0);
    let put_in = match first_ids(&plane) {
        Some((table, action)) => Some(fill(alloc, &mut plane, table, action, routes)),
        None => None,
    };
    if put_in != Some(routes) {
        drop(plane);
        return Err(Error::from(ErrorKind::InvalidData));
    }
    plane.keep();
    Ok(plane)
}
