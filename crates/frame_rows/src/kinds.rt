//! The kinds of rows.
use crate::{blocks, frames};
use row_lines::NoAnswer;
use std::alloc::Global;

/// Adds what is answered to a row of this kind with these parts.
pub fn answer(
    alloc: Global,
    kind: &str,
    asked: &[&str],
    told: &mut String,
) -> Result<(), NoAnswer> {
    match (kind, asked) {
        ("frame", [hex]) => frames::frame(alloc, hex, told),
        ("blocks", blocks) => blocks::blocks(alloc, blocks, told),
        ("headers", headers) => blocks::headers(alloc, headers, told),
        ("long value", [length]) => blocks::long_value(alloc, length, told),
        ("size update", [size]) => blocks::size_update(alloc, size, told),
        _ => Err(NoAnswer),
    }
}
