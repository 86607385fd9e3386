//! The bridge's configuration.
ghost use Rattle.std.specs.Prelude.{◌≡◌, IfOk};
ghost use Rattle.plane_spec.specs.Bridge.{bridge_config};

use crate::objects;
use crate::pipeline::pipeline;
use list_types::{List, NoMemory};
use plane_state::Config;
use std::alloc::Global;

/// The bridge's configuration: the canonical bytes of its P4Info, its pipeline, no device configuration, and the cookie 0.
pub fn config(alloc: Global) -> Result<Config, NoMemory>
    ensures { IfOk result (λ config. config ≡ bridge_config) }
{
    let p4info = objects::info_bytes(alloc)?;
    let info = objects::info(alloc, p4info.as_slice())?;
    let pipeline = pipeline(alloc)?;
    let config = Config::new(alloc, p4info, List::new(alloc), 0, info, pipeline)?;
    Ok(config)
}
