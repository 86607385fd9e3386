//! The kinds of rows.
use crate::{edge, expressions, idle, lists, numbers, roles, samples, wire};
use row_lines::NoAnswer;
use std::alloc::Global;

/// Adds what is answered to a row of this kind with these parts.
pub fn answer(
    alloc: Global,
    kind: &str,
    asked: &[&str],
    told: &mut String,
) -> Result<(), NoAnswer> {
    match kind {
        "bit field" => numbers::bit_field(alloc, asked, told),
        "byte string" => numbers::byte_string(alloc, asked, told),
        "operator" => expressions::operator(alloc, asked, told),
        "comparisons" => expressions::comparisons(alloc, asked, told),
        "fields" => wire::fields(alloc, asked, told),
        "written" => wire::written(alloc, asked, told),
        "message numbers" => wire::numbers(alloc, asked, told),
        "message parts" => wire::parts(alloc, asked, told),
        "edits" => lists::edits(alloc, asked, told),
        "outbox" => lists::outbox(alloc, asked, told),
        "ticks" => idle::ticks(alloc, asked, told),
        "roles" => roles::roles(alloc, asked, told),
        "role configuration" => roles::configuration(alloc, asked, told),
        "samples" => samples::samples(alloc, asked, told),
        "source" => edge::source(alloc, asked, told),
        "reader" => edge::reader(alloc, asked, told),
        "sink" => edge::sink(alloc, asked, told),
        "writers" => edge::writers(alloc, asked, told),
        "link" => edge::link(alloc, asked, told),
        "ports" => edge::ports(alloc, asked, told),
        "net" => edge::net(alloc, asked, told),
        _ => Err(NoAnswer),
    }
}
