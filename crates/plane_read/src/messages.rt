//! The messages of an answer.
ghost use Rattle.std.specs.Prelude.{◌≡◌, ◌≤◌, ◌<◌, map, length, IfOk, OnOk};
ghost use Rattle.switch_spec.specs.Reading.{response_bytes, chunks};
ghost use Rattle.plane_read.specs.Answered.{Continues, HasRoom};

use list_types::{ByteList, List, NoMemory};
use p4_types::messages::{Entity, ReadResponse};
use p4v1_wire::write_message;
use std::alloc::Global;
use std::mem;

/// How many entities a message has at most.
const MESSAGE_ENTITIES: usize = 1024;

fn message(alloc: Global, entities: List<Entity>) -> Result<ByteList, NoMemory>
    ensures { IfOk result (λ bytes. bytes ≡ response_bytes entities) }
{
    let response = ReadResponse { entities };
    write_message(alloc, &response)
}

// Writes what is gathered, if it is a full message, since another entity follows.
fn make_room(
    alloc: Global,
    written: &mut List<ByteList>,
    gathered: &mut List<Entity>,
) -> Result<(), NoMemory>
    requires { length gathered.old ≤ 1024 }
    ensures kept { OnOk result (HasRoom written.old gathered.old written.new gathered.new) }
    ensures room { OnOk result (length gathered.new < 1024) }
{
    if gathered.len() < MESSAGE_ENTITIES {
        return Ok(());
    }
    let full = mem::replace(gathered, List::new(alloc));
    let bytes = message(alloc, full)?;
    written.push(bytes)?;
    Ok(())
}

fn add(
    alloc: Global,
    written: &mut List<ByteList>,
    gathered: &mut List<Entity>,
    entity: Entity,
) -> Result<(), NoMemory>
    requires { length gathered.old ≤ 1024 }
    ensures continues { OnOk result (Continues written.old gathered.old entity written.new gathered.new) }
    ensures few { OnOk result (length gathered.new ≤ 1024) }
{
    make_room(alloc, written, gathered)?;
    gathered.push(entity)?;
    Ok(())
}

/// The messages with these entities: all but the last are full.
pub(crate) fn messages(alloc: Global, entities: List<Entity>) -> Result<List<ByteList>, NoMemory>
    ensures { IfOk result (λ list. list ≡ map response_bytes (chunks entities)) }
{
    let mut written = List::new(alloc);
    let mut gathered = List::new(alloc);
    for entity in entities.into_vec() {
        add(alloc, &mut written, &mut gathered, entity)?;
    }
    let bytes = message(alloc, gathered)?;
    written.push(bytes)?;
    Ok(written)
}
