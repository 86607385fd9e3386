//! P4Infos, and what they break.

use list_types::Refusal;
use p4info_model::{P4Info, read_info, write_info};
use row_lines::{NoAnswer, bytes, say, tell};
use std::alloc::Global;

// How many tables and actions, and whether these bytes are the canonical ones.
fn tell_info(
    alloc: Global,
    told: &mut String,
    model: &P4Info,
    bytes: &[u8],
) -> Result<(), NoAnswer> {
    tell(told, model.info().tables.len());
    tell(told, model.info().actions.len());
    let canonical = write_info(alloc, model)?;
    tell(told, canonical.as_slice() == bytes);
    Ok(())
}

/// Of a P4Info: how many tables and actions it has, and whether its bytes are the canonical ones, or the first rule
/// that it breaks.
pub fn info(alloc: Global, asked: &[&str], told: &mut String) -> Result<(), NoAnswer> {
    let [hex] = asked else {
        return Err(NoAnswer);
    };
    let bytes = bytes(alloc, hex)?;
    match read_info(alloc, &bytes) {
        Ok(model) => tell_info(alloc, told, &model, &bytes),
        Err(Refusal::For(fault)) => {
            say(told, "rule");
            tell(told, fault.rule);
            Ok(())
        }
        Err(Refusal::NoMemory) => Err(NoAnswer),
    }
}
