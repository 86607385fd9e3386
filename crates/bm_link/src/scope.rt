//! A program and its P4Info, with objects found by their names.
ghost use Rattle.std.specs.Prelude.{◌≡◌, map, IfOk, OnOk};
ghost use Rattle.p4info_model.specs.Lookups.{ArePlaces, PutsFirst};
ghost use Rattle.p4_types.specs.declared.info.Info.{Info};
ghost use Rattle.bm_records.specs.declared.raw.RawProgram.{RawProgram};

use crate::fields::Fields;
use bm_records::raw::{
    Action, ActionProfile, Calculation, CounterArray, LearnList, ParseState, RawProgram,
};
use list_types::{List, NoMemory};
use name_index::Index;
use p4_types::info;
use p4info_model::P4Info;
use std::alloc::Global;
use std::collections::BTreeMap;

/// A program and its P4Info, with objects found by their names.
#[derive(Drop)]
pub(crate) struct Scope<'p, 'a> {
    pub info: &'p P4Info,
    pub fields: Fields<'p, 'a>,
    pub states: Index<'p, ParseState<'a>>,
    pub calculations: Index<'p, Calculation<'a>>,
    pub learn_lists: Index<'p, LearnList<'a>>,
    pub counter_arrays: Index<'p, CounterArray<'a>>,
    pub counters: Index<'p, info::Counter>,
    pub digests: Index<'p, info::Digest>,
    pub tables: Index<'p, info::Table>,
    pub ingress_profiles: Index<'p, ActionProfile<'a>>,
    pub egress_profiles: Index<'p, ActionProfile<'a>>,
    /// The first place of each id among the actions.
    pub action_places: BTreeMap<u64, usize>,
    ghost of_states: { states ≡ fields.raw.now.parser.parse_states },
    ghost of_calculations: { calculations ≡ fields.raw.now.calculations },
    ghost of_learn_lists: { learn_lists ≡ fields.raw.now.learn_lists },
    ghost of_counter_arrays: { counter_arrays ≡ fields.raw.now.counter_arrays },
    ghost of_counters: { counters ≡ info.now.counters },
    ghost of_digests: { digests ≡ info.now.digests },
    ghost of_tables: { tables ≡ info.now.tables },
    ghost of_ingress_profiles: { ingress_profiles ≡ fields.raw.now.pipelines.ingress.action_profiles },
    ghost of_egress_profiles: { egress_profiles ≡ fields.raw.now.pipelines.egress.action_profiles },
    ghost of_actions: { ArePlaces (λ action. action.id) fields.raw.now.actions action_places },
}

fn put_first(places: &mut BTreeMap<u64, usize>, id: u64, place: usize) -> Result<(), NoMemory>
    ensures { OnOk result (PutsFirst places.old places.new id place) }
{
    if !places.contains_key(&id) {
        places.insert(id, place)?;
    }
    Ok(())
}

fn id_of(action: &Action) -> u64
    ensures { result ≡ action.now.id }
{
    action.id
}

fn places_of(alloc: Global, actions: &[Action]) -> Result<BTreeMap<u64, usize>, NoMemory>
    ensures { IfOk result (ArePlaces (λ action. action.id) actions.now) }
{
    let mut places = BTreeMap::new(alloc);
    for place in 0..actions.len() {
        let id = id_of(&actions[place]);
        put_first(&mut places, id, place)?;
    }
    Ok(places)
}

impl<'p, 'a> Scope<'p, 'a> {
    pub(crate) fn of(
        alloc: Global,
        raw: &'p RawProgram<'a>,
        info: &'p P4Info,
    ) -> Result<Scope<'p, 'a>, NoMemory>
        ensures program { IfOk result (λ scope. scope.fields.raw.now ≡ raw.now) }
        ensures info { IfOk result (λ scope. scope.info.now ≡ info.now) }
    {
        let objects = info.info();
        Ok(Scope {
            info,
            fields: Fields::of(alloc, raw)?,
            states: Index::of(alloc, raw.parser.parse_states.as_slice())?,
            calculations: Index::of(alloc, raw.calculations.as_slice())?,
            learn_lists: Index::of(alloc, raw.learn_lists.as_slice())?,
            counter_arrays: Index::of(alloc, raw.counter_arrays.as_slice())?,
            counters: Index::of(alloc, objects.counters.as_slice())?,
            digests: Index::of(alloc, objects.digests.as_slice())?,
            tables: Index::of(alloc, objects.tables.as_slice())?,
            ingress_profiles: Index::of(alloc, raw.pipelines.ingress.action_profiles.as_slice())?,
            egress_profiles: Index::of(alloc, raw.pipelines.egress.action_profiles.as_slice())?,
            action_places: places_of(alloc, raw.actions.as_slice())?,
        })
    }
}

/// What stands for something in a pipeline.
pub(crate) trait Link<T> {
    ghost meaning: { RawProgram → Info → Self → T };

    fn link(&self, alloc: Global, scope: &Scope) -> Result<T, NoMemory>
        ensures { IfOk result (λ linked. linked ≡ meaning scope.now.fields.raw.now scope.now.info.now self.now) };
}

/// What a list stands for.
pub(crate) fn all<M: Link<T>, T: Drop>(
    alloc: Global,
    scope: &Scope,
    items: &[M],
) -> Result<List<T>, NoMemory>
    ensures { IfOk result (λ linked. linked ≡ map (M.meaning scope.now.fields.raw.now scope.now.info.now) items.now) }
{
    let mut linked = List::new(alloc);
    for item in items {
        linked.push(item.link(alloc, scope)?)?;
    }
    Ok(linked)
}
