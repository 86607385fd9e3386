//! What rows name: P4Infos, Writes, and images of the control state.
use crate::pipeline::pipeline;
use list_types::List;
use p4_types::calls::{Call, Method};
use p4_types::events::Start;
use p4_types::messages::WriteRequest;
use p4_types::shared::Shared;
use p4info_model::{P4Info, read_info};
use p4v1_read::read_call;
use plane_image::Image;
use plane_state::Config;
use row_lines::{NoAnswer, bytes};
use std::alloc::Global;
use std::fs;
use std::rt::Files;

/// The P4Info in a file of this name.
pub fn info_of<R: Files + AllocGlobal>(rt: &R, name: &str) -> Result<P4Info, NoAnswer> {
    let file = format!(in rt.alloc(); "{name}.info")?;
    match fs::read(rt, &file) {
        Ok(bytes) => match read_info(rt.alloc(), bytes.as_slice()) {
            Ok(info) => Ok(info),
            Err(_) => Err(NoAnswer),
        },
        Err(_) => Err(NoAnswer),
    }
}

/// The Write of these bytes.
pub fn write_of(alloc: Global, hex: &str) -> Result<WriteRequest, NoAnswer> {
    match read_call(alloc, Method::Write, &bytes(alloc, hex)?)? {
        Call::Write(request) => Ok(request),
        _ => Err(NoAnswer),
    }
}

/// An image with the built-in bridge as its active plane.
pub fn bridge(alloc: Global) -> Result<Image, NoAnswer> {
    let start = Start {
        device: 1,
        cpu: 255,
        rows: 1_024,
        slots: 1_048_576,
        bridge: true,
    };
    Ok(Image::open(alloc, &start)?)
}

// A configuration of these objects, whose program does nothing with a packet.
fn config_of(alloc: Global, info: P4Info) -> Result<Shared<Config>, NoAnswer> {
    let pipeline = pipeline(alloc)?;
    let config = Config::new(alloc, List::new(alloc), List::new(alloc), 0, info, pipeline)?;
    Ok(Shared::new(alloc, config)?)
}

/// An image with this many rows, whose active plane has these objects and nothing written.
pub fn image_of(alloc: Global, info: P4Info, rows: u32) -> Result<Image, NoAnswer> {
    let start = Start {
        device: 1,
        cpu: 255,
        rows,
        slots: 1_048_576,
        bridge: false,
    };
    let config = config_of(alloc, info)?;
    let mut image = Image::open(alloc, &start)?;
    if image.lacks_slots(config.get()) || image.install(alloc, &config).is_err() {
        drop(image);
        return Err(NoAnswer);
    }
    image.keep(1);
    Ok(image)
}
