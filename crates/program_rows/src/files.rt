//! What rows name: programs, in which a text may stand in the place of another, and P4Infos.
use p4info_model::{P4Info, read_info};
use row_lines::NoAnswer;
use std::alloc::Global;
use std::fs;
use std::rt::Files;

/// The text in a file of this name.
pub fn text_of<R: Files + AllocGlobal>(rt: &R, name: &str) -> Result<String, NoAnswer> {
    match fs::read_to_string(rt, name) {
        Ok(text) => Ok(text),
        Err(_) => Err(NoAnswer),
    }
}

/// The text in a file, with another text in the place of one where that first stands.
pub fn changed_of<R: Files + AllocGlobal>(rt: &R, asked: [&str; 3]) -> Result<String, NoAnswer> {
    let [file, old, new] = asked;
    Ok(text_of(rt, file)?.replacen(rt.alloc(), old, new, 1)?)
}

/// The program with the list begun by this many more items.
pub fn with_items(
    alloc: Global,
    program: &str,
    asked: [&str; 2],
    count: u16,
) -> Result<String, NoAnswer> {
    let [list, item] = asked;
    let mut items = String::from_str(alloc, list)?;
    for _ in 0..count {
        items.push_str(item)?;
    }
    Ok(program.replacen(alloc, list, items.as_str(), 1)?)
}

/// The P4Info in a file of this name.
pub fn info_of<R: Files + AllocGlobal>(rt: &R, name: &str) -> Result<P4Info, NoAnswer> {
    match fs::read(rt, name) {
        Ok(bytes) => match read_info(rt.alloc(), bytes.as_slice()) {
            Ok(info) => Ok(info),
            Err(_) => Err(NoAnswer),
        },
        Err(_) => Err(NoAnswer),
    }
}
