//! The digest entries that a Read selects.
ghost use Rattle.std.specs.Prelude.{◌≡◌, ◌++◌, filter, map, OnOk};
ghost use Rattle.p4_types.specs.declared.messages.Entity.TheVariants as entities;
ghost use Rattle.switch_spec.specs.Reading.{is_asked_id, selected_digests};

use crate::members::is_asked_id;
use list_types::{List, NoMemory};
use p4_types::messages::{DigestEntry, Entity};
use plane_state::Plane;

fn push_each(asked: u32, entries: &[DigestEntry], answer: &mut List<Entity>) -> Result<(), NoMemory>
    ensures { OnOk result (answer.new ≡ answer.old ++ map entities.DigestEntry (filter (λ entry. is_asked_id asked entry.digest_id) entries.now)) }
{
    for entry in entries {
        if is_asked_id(asked, entry.digest_id) {
            answer.push(Entity::DigestEntry(*entry))?;
        }
    }
    Ok(())
}

/// Adds the digest entries that are asked for, by rising id.
pub(crate) fn push_digests(
    plane: &Plane,
    asked: &DigestEntry,
    answer: &mut List<Entity>,
) -> Result<(), NoMemory>
    ensures { OnOk result (answer.new ≡ answer.old ++ map entities.DigestEntry (selected_digests plane.now.now asked.now)) }
{
    push_each(asked.digest_id, plane.digests(), answer)
}
