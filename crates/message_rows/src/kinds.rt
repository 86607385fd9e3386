//! The kinds of rows.
use crate::{answers, calls, infos, sent};
use row_lines::NoAnswer;
use std::alloc::Global;

/// Adds what is answered to a row of this kind with these parts.
pub fn answer(
    alloc: Global,
    kind: &str,
    asked: &[&str],
    told: &mut String,
) -> Result<(), NoAnswer> {
    match kind {
        "answer" => answers::answer(alloc, asked, told),
        "failure" => answers::failure(alloc, asked, told),
        "call" => calls::call(alloc, asked, told),
        "info" => infos::info(alloc, asked, told),
        _ => sent::sent(alloc, kind, asked, told),
    }
}
