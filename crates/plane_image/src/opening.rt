//! The image at the start.
ghost use Rattle.std.specs.Prelude.{◌≡◌, IfOk, if◌then◌else◌, Some, None};
ghost use Rattle.plane_spec.specs.Bridge.{bridge_config};
ghost use Rattle.plane_spec.specs.Planes.{opened, made_plane};
ghost use Rattle.plane_image.specs.Image.{now_of, before_of};

use crate::image::Image;
use crate::planes::Planes;
use list_types::NoMemory;
use p4_types::events::Start;
use p4_types::messages::Uint128;
use p4_types::shared::Shared;
use plane_state::Plane;
use role_arbiter::{Session, UndoRoles};
use std::alloc::Global;

// The bridge is active, or no plane.
fn active(alloc: Global, bridge: bool) -> Result<Option<Plane>, NoMemory>
    ensures now { IfOk result (λ plane. now_of plane ≡ (if bridge then Some (made_plane 0 bridge_config) else None)) }
    ensures before { IfOk result (λ plane. before_of plane ≡ (if bridge then Some (made_plane 0 bridge_config) else None)) }
{
    if !bridge {
        return Ok(None);
    }
    let config = bridge_program::config(alloc)?;
    let config = Shared::new(alloc, config)?;
    Ok(Some(Plane::open(alloc, config, 0)))
}

// With the bridge, controller 0 starts as the primary of role 0.
fn roles(alloc: Global, start: &Start) -> Result<UndoRoles, NoMemory>
    ensures now { IfOk result (λ roles. roles.now ≡ (opened start.now).roles) }
    ensures before { IfOk result (λ roles. roles.before ≡ (opened start.now).roles) }
{
    let mut roles = UndoRoles::open(alloc)?;
    if start.bridge {
        let new = roles.roles().placed(Session {
            caller: 0,
            role: 0,
            election_id: Uint128 { high: 0, low: 1 },
            config: None,
        });
        roles.enter(new);
        roles.settle();
    }
    Ok(roles)
}

impl Image {
    /// The image with which a switch starts: the built-in bridge is active, or no plane.
    pub fn open(alloc: Global, start: &Start) -> Result<Image, NoMemory>
        ensures now { IfOk result (λ image. image.now ≡ opened start.now) }
        ensures before { IfOk result (λ image. image.before ≡ opened start.now) }
        ensures steps { IfOk result (λ image. image.steps ≡ 0) }
    {
        let roles = roles(alloc, start)?;
        let active = active(alloc, start.bridge)?;
        Ok(Image {
            device: start.device,
            cpu: start.cpu,
            rows: start.rows,
            slots: start.slots,
            roles,
            planes: Planes::open(active),
            next: 1,
            next_slot: 0,
            former_next: 1,
            former_slot: 0,
            closed: false,
            steps: 0,
        })
    }
}
