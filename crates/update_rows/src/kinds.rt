//! The kinds of rows.
use crate::{drafts, resolved, updates};
use row_lines::NoAnswer;
use std::rt::Files;

/// Adds what is answered to a row of this kind with these parts, of which the first names a P4Info.
pub fn answer<R: Files + AllocGlobal>(
    rt: &R,
    kind: &str,
    asked: &[&str],
    told: &mut String,
) -> Result<(), NoAnswer> {
    match (kind, asked) {
        ("resolved", [info, ids, write]) => resolved::resolved(rt, [info, ids, write], told),
        ("room", [info, write]) => resolved::room(rt, [info, write], told),
        ("updates", [info, rows, table, keys, write]) => {
            updates::updates(rt, [info, rows, table, keys, write], told)
        }
        ("entries", [info, write]) => updates::entries(rt, [info, write], told),
        ("draft", [write]) => drafts::draft(rt.alloc(), write, told),
        _ => Err(NoAnswer),
    }
}
