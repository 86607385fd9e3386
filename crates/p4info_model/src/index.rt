//! The places of all objects that are looked up.
ghost use Rattle.std.specs.Prelude.{IfOk};

use crate::places;
use list_types::NoMemory;
use p4_types::info::Info;
use std::alloc::Global;
use std::collections::BTreeMap;

/// The first place of each id among the objects of its kind.
#[derive(Drop)]
pub(crate) struct Index {
    pub(crate) tables: BTreeMap<u32, usize>,
    pub(crate) actions: BTreeMap<u32, usize>,
    pub(crate) action_profiles: BTreeMap<u32, usize>,
    pub(crate) counters: BTreeMap<u32, usize>,
    pub(crate) digests: BTreeMap<u32, usize>,
}

impl Index {
    ghost use Rattle.p4info_model.specs.Valid.{IsIndexOf};

    pub(crate) fn of(alloc: Global, info: &Info) -> Result<Index, NoMemory>
        ensures { IfOk result (IsIndexOf info.now) }
    {
        Ok(Index {
            tables: places::places_of(alloc, info.tables.as_slice())?,
            actions: places::places_of(alloc, info.actions.as_slice())?,
            action_profiles: places::places_of(alloc, info.action_profiles.as_slice())?,
            counters: places::places_of(alloc, info.counters.as_slice())?,
            digests: places::places_of(alloc, info.digests.as_slice())?,
        })
    }
}
