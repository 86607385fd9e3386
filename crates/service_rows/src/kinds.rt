//! The kinds of rows.
use crate::{connection, serving};
use row_lines::NoAnswer;
use std::alloc::Global;

/// Adds what is answered to a row of this kind with these parts.
pub fn answer(
    alloc: Global,
    kind: &str,
    asked: &[&str],
    told: &mut String,
) -> Result<(), NoAnswer> {
    match (kind, asked) {
        ("grpc", [steps]) => connection::answer(alloc, steps, told),
        ("service", [steps]) => serving::answer(alloc, steps, told),
        _ => Err(NoAnswer),
    }
}
