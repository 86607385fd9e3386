//! Multicast groups as messages.
ghost use Rattle.std.specs.Prelude.{◌≡◌, IfOk};
ghost use Rattle.plane_spec.specs.Shown.{shown_multicast};

use list_types::{List, NoMemory};
use p4_types::messages::{MulticastGroupEntry, PacketReplicationEngineEntry};
use p4_types::multicast::MulticastGroup;
use std::alloc::Global;

/// A multicast group as a message (PacketReplicationEngineEntry): its replicas in the order in which they were given.
/// Without memory there is none.
pub fn shown_multicast(
    alloc: Global,
    group: &MulticastGroup,
) -> Result<PacketReplicationEngineEntry, NoMemory>
    ensures { IfOk result (λ shown. shown ≡ shown_multicast group.now) }
{
    let replicas = Vec::from_slice(alloc, group.replicas.as_slice())?;
    Ok(PacketReplicationEngineEntry {
        multicast_group_entry: Some(MulticastGroupEntry {
            multicast_group_id: group.id,
            replicas: List::from_vec(replicas),
        }),
    })
}
