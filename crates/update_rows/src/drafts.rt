//! Updates that are undone together, and kept together.
use crate::images::{bridge, write_of};
use crate::shown::tell_entry;
use crate::updates::make;
use p4_types::messages::Update;
use plane_image::Image;
use row_lines::{NoAnswer, say, tell};
use std::alloc::Global;

// The one table of the built-in bridge.
const TABLE: u32 = 0x0200_0001;

// Adds the entry that the key 2 takes, and the action of the table's default entry.
fn tell_image(told: &mut String, image: &Image) -> Result<(), NoAnswer> {
    let Some(plane) = image.target() else {
        return Err(NoAnswer);
    };
    tell_entry(told, plane.store().best(TABLE, &[2]));
    match plane.default_entry(TABLE) {
        Some(default) => tell(told, default.action.action),
        None => say(told, "no default"),
    }
    Ok(())
}

fn tell_drafts(
    alloc: Global,
    told: &mut String,
    image: &mut Image,
    updates: &[Update],
) -> Result<(), NoAnswer> {
    for kept in [false, true, false] {
        drop(make(alloc, image, updates, told)?);
        if kept {
            image.keep(1);
        } else {
            image.undo();
        }
        tell_image(told, image)?;
    }
    Ok(())
}

/// Of a Write to the built-in bridge: what becomes of each update, and what stands behind them once they are undone; the same
/// where they are made again and kept; and the same where they are made once more and undone.
pub fn draft(alloc: Global, write: &str, told: &mut String) -> Result<(), NoAnswer> {
    let request = write_of(alloc, write)?;
    let answered = match bridge(alloc) {
        Ok(image) => {
            let mut image = image;
            let answered = tell_drafts(alloc, told, &mut image, request.updates.as_slice());
            drop(image);
            answered
        }
        Err(NoAnswer) => Err(NoAnswer),
    };
    drop(request);
    answered
}
