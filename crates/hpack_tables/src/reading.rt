//! Reading the headers of a block (RFC 7541, sections 3 and 6).
ghost use Rattle.std.specs.Prelude.{◌≡◌, ◌≤◌, length, true, Ok, Err};
ghost use Rattle.list_types.specs.Results.{Gives, GivesExactly};
ghost use Rattle.hpack_tables.specs.Blocks.{indexed_at, name_at, literal_at, added, field_at, fields_in, is_update, update_at, updates_in, block_at};

use crate::fault::{HpackFault, LIST_TOO_LONG, TABLE_SIZE};
use crate::header::{Header, copied, copy};
use crate::integer::integer;
use crate::strings::{first, string};
use crate::table::{DynamicTable, MAX_SIZE, entry_size};
use list_types::{ByteList, List, Refusal};
use std::alloc::Global;

// How large the headers of a block may be together.
const MAX_LIST: u128 = 65_536;

#[tactic(auto, unfolding(crate::specs::Blocks::indexed_at))]
fn indexed<'a>(
    alloc: Global,
    table: &DynamicTable,
    bytes: &'a [u8],
) -> Result<(Header, &'a [u8]), Refusal<HpackFault>>
    ensures exact { Gives (λ x. (x.0, x.1.now)) result (indexed_at table.now bytes.now) }
    ensures fault { (fault : HpackFault) → indexed_at table.now bytes.now ≡ Err fault → result ≡ Err (Refusal.For fault) }
{
    let (index, rest) = integer(bytes, 7, HpackFault::BadIndex)?;
    let (name, value) = table.entry(index)?;
    let name = copied(alloc, name)?;
    let value = copied(alloc, value)?;
    Ok((Header { name, value }, rest))
}

#[tactic(auto, unfolding(crate::specs::Blocks::name_at))]
fn name<'a>(
    alloc: Global,
    table: &DynamicTable,
    bytes: &'a [u8],
    prefix: u32,
) -> Result<(ByteList, &'a [u8]), Refusal<HpackFault>>
    requires { prefix ≤ 7 }
    ensures { Gives (λ x. (x.0, x.1.now)) result (name_at prefix table.now bytes.now) }
{
    let (index, rest) = integer(bytes, prefix, HpackFault::BadIndex)?;
    if index == 0 {
        return string(alloc, rest);
    }
    let (name, _) = table.entry(index)?;
    Ok((copied(alloc, name)?, rest))
}

#[tactic(auto, unfolding(crate::specs::Blocks::literal_at))]
fn literal<'a>(
    alloc: Global,
    table: &DynamicTable,
    bytes: &'a [u8],
    prefix: u32,
) -> Result<(Header, &'a [u8]), Refusal<HpackFault>>
    requires { prefix ≤ 7 }
    ensures { Gives (λ x. (x.0, x.1.now)) result (literal_at prefix table.now bytes.now) }
{
    let (name, rest) = name(alloc, table, bytes, prefix)?;
    let (value, rest) = string(alloc, rest)?;
    Ok((Header { name, value }, rest))
}

// A literal that becomes an entry.
fn indexing<'a>(
    alloc: Global,
    table: &mut DynamicTable,
    bytes: &'a [u8],
) -> Result<(Header, &'a [u8]), Refusal<HpackFault>>
    ensures { Gives (λ x. (x.0, table.new, x.1.now)) result (added table.old (literal_at 6 table.old bytes.now)) }
{
    let (header, rest) = literal(alloc, table, bytes, 6)?;
    let entry = copy(alloc, &header)?;
    table.insert(entry)?;
    Ok((header, rest))
}

#[tactic(auto, unfolding(crate::specs::Blocks::field_at))]
fn field<'a>(
    alloc: Global,
    table: &mut DynamicTable,
    bytes: &'a [u8],
) -> Result<(Header, &'a [u8]), Refusal<HpackFault>>
    ensures exact { Gives (λ x. (x.0, table.new, x.1.now)) result (field_at table.old bytes.now) }
    ensures update { is_update bytes.now ≡ true → result ≡ Err (Refusal.For HpackFault.TableSize) }
{
    let first = first(bytes);
    if first >= 128 {
        return indexed(alloc, table, bytes);
    }
    if first >= 64 {
        return indexing(alloc, table, bytes);
    }
    if first >= 32 {
        return Err(TABLE_SIZE);
    }
    literal(alloc, table, bytes, 4)
}

fn fields(
    alloc: Global,
    table: &mut DynamicTable,
    bytes: &[u8],
) -> Result<List<Header>, Refusal<HpackFault>>
    ensures { Gives (λ x. (x, table.new)) result (fields_in (length bytes.now) table.old 65536 bytes.now) }
{
    let mut headers = List::new(alloc);
    let mut room = MAX_LIST;
    let mut rest = bytes;
    for _ in 0..bytes.len() {
        if rest.is_empty() {
            return Ok(headers);
        }
        let (header, after) = field(alloc, table, rest)?;
        let size = entry_size(&header);
        if size > room {
            return Err(LIST_TOO_LONG);
        }
        room -= size;
        headers.push(header)?;
        rest = after;
    }
    Ok(headers)
}

fn is_update(bytes: &[u8]) -> bool
    ensures { result ≡ is_update bytes.now }
{
    first(bytes) / 32 == 1
}

#[tactic(auto, unfolding(crate::specs::Blocks::update_at))]
fn update<'a>(table: &mut DynamicTable, bytes: &'a [u8]) -> Result<&'a [u8], HpackFault>
    ensures { GivesExactly (λ x. (table.new, x.now)) result (update_at table.old bytes.now) }
{
    let (size, rest) = integer(bytes, 5, HpackFault::TableSize)?;
    if size > MAX_SIZE {
        return Err(HpackFault::TableSize);
    }
    table.resize(size);
    Ok(rest)
}

fn updates<'a>(table: &mut DynamicTable, bytes: &'a [u8]) -> Result<&'a [u8], HpackFault>
    ensures { GivesExactly (λ x. (table.new, x.now)) result (updates_in (length bytes.now) table.old bytes.now) }
{
    let mut rest = bytes;
    for _ in 0..bytes.len() {
        if !is_update(rest) {
            return Ok(rest);
        }
        rest = update(table, rest)?;
    }
    Ok(rest)
}

/// The headers of a block.
#[tactic(auto, unfolding(crate::specs::Blocks::block_at))]
pub(crate) fn block(
    alloc: Global,
    table: &mut DynamicTable,
    bytes: &[u8],
) -> Result<List<Header>, Refusal<HpackFault>>
    ensures exact { Gives (λ x. (x, table.new)) result (block_at table.old bytes.now) }
    ensures updates { (fault : HpackFault) → updates_in (length bytes.now) table.old bytes.now ≡ Err fault → result ≡ Err (Refusal.For fault) }
{
    let rest = updates(table, bytes)?;
    fields(alloc, table, rest)
}
