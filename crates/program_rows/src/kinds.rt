//! The kinds of rows.
use crate::files::{changed_of, info_of, text_of, with_items};
use crate::rules::tell_program;
use row_lines::NoAnswer;
use std::alloc::Global;
use std::rt::Files;

// Adds what becomes of a program whose list is as long as it may be once this many items are put before its own, and of it with
// an item more.
fn tell_limit(
    alloc: Global,
    program: &str,
    asked: [&str; 2],
    count: &str,
    told: &mut String,
) -> Result<(), NoAnswer> {
    let reached = with_items(alloc, program, asked, count.parse::<u16>()?)?;
    tell_program(alloc, None, &reached, told)?;
    tell_program(alloc, None, &with_items(alloc, &reached, asked, 1)?, told)
}

/// Adds what is answered to a row of this kind with these parts.
pub fn answer<R: Files + AllocGlobal>(
    rt: &R,
    kind: &str,
    asked: &[&str],
    told: &mut String,
) -> Result<(), NoAnswer> {
    let alloc = rt.alloc();
    match (kind, asked) {
        ("text", [program]) => tell_program(alloc, None, program, told),
        ("program", [file]) => tell_program(alloc, None, &text_of(rt, file)?, told),
        ("changed", [file, old, new]) => {
            tell_program(alloc, None, &changed_of(rt, [file, old, new])?, told)
        }
        ("limit", [file, list, item, count]) => {
            tell_limit(alloc, &text_of(rt, file)?, [list, item], count, told)
        }
        ("link", [info, file]) => {
            let info = info_of(rt, info)?;
            tell_program(alloc, Some(&info), &text_of(rt, file)?, told)
        }
        ("changed", [info, file, old, new]) => {
            let info = info_of(rt, info)?;
            tell_program(alloc, Some(&info), &changed_of(rt, [file, old, new])?, told)
        }
        _ => Err(NoAnswer),
    }
}
