//! The rule that a program breaks first.
use bm_json::raw::RawProgram;
use bm_json::{JsonFault, read_json};
use list_types::Refusal;
use p4info_model::P4Info;
use row_lines::{NoAnswer, say, tell};
use std::alloc::Global;

// Adds `ok`, or the rule that raw records break first under a P4Info.
fn tell_records(
    alloc: Global,
    info: &P4Info,
    raw: &RawProgram,
    told: &mut String,
) -> Result<(), NoAnswer> {
    match bm_rules::flaw(alloc, raw, info.info())? {
        Some(rule) => tell(told, rule),
        None => say(told, "ok"),
    }
    Ok(())
}

// Adds the number of a rule and, of the first rule, where that is asked for, the member in which it is broken.
fn tell_fault(told: &mut String, fault: &JsonFault, with_member: bool) {
    tell(told, fault.rule);
    if with_member && fault.rule == 1 {
        say(told, fault.at.as_str());
    }
}

/// Adds `ok`, or the rule that a program breaks first: without a P4Info of those that ask for the program alone, with the member
/// in which L1 is broken; under a P4Info of all, by its number.
pub fn tell_program(
    alloc: Global,
    info: Option<&P4Info>,
    program: &str,
    told: &mut String,
) -> Result<(), NoAnswer> {
    let mut place = None;
    match (read_json(alloc, program.as_bytes(), &mut place), info) {
        (Ok(raw), Some(info)) => tell_records(alloc, info, &raw, told),
        (Ok(_raw), None) => {
            say(told, "ok");
            Ok(())
        }
        (Err(Refusal::For(fault)), _) => {
            tell_fault(told, &fault, info.is_none());
            Ok(())
        }
        (Err(Refusal::NoMemory), _) => Err(NoAnswer),
    }
}
