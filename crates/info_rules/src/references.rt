//! The references between objects of a P4Info.
ghost use Rattle.std.specs.Prelude.{◌≡◌, ◌==◌, [], ◌∷◌, if◌then◌else◌, Some, IfSome, map, nat_eq};
ghost use Rattle.std.specs.List.{list_any};
ghost use Rattle.wire_messages.specs.Answers.{ReadsInMemory};
ghost use Rattle.p4v1_read.specs.P4Infos.{p4info_of, table_of, action_profile_of, direct_counter_of, action_ref_of};
ghost use Rattle.info_rules.specs.Objects.{id_of};
ghost use Rattle.info_rules.specs.Rules.{breaks_i5, lacks_some, lacks_default, differ, same_pair, action_uses, profiles_of_tables, tables_of_profiles, counters_of_tables, tables_of_counters};

use crate::asking::{Question, any};
use crate::gathering::{Gift, gather};
use crate::kinds::{Id, Kind};
use crate::pairs::{Naming, pairs_differ};
use crate::parts::PartId;
use crate::repeats;
use list_types::Refusal;
use p4_types::p4info::{Action, ActionProfile, ActionRef, DirectCounter, Table};
use std::alloc::Global;
use wire_messages::{Message, Unreadable};

/// The actions to which a table refers.
struct ActionUses;

impl Gift<Table, u32> for ActionUses {
    ghost meaning = { table_of };

    ghost gives = { λ _ table. map (λ r. r.id) table.action_refs };

    #[tactic(auto, using(crate::proofs::Gathered::flat_map_single), unfolding(p4v1_read::specs::P4Infos::table_of))]
    fn put(
        &self,
        alloc: Global,
        found: &mut Vec<u32>,
        message: &Message<'_>,
    ) -> Result<(), Refusal<Unreadable>> {
        gather::<ActionRef, u32, PartId>(&PartId, alloc, found, message, 3)
    }
}

#[tactic(auto, using(crate::proofs::Gathered::flat_map_single), unfolding(p4v1_read::specs::P4Infos::p4info_of))]
fn lacks_action(alloc: Global, message: &Message<'_>) -> Result<bool, Refusal<Unreadable>>
    ensures { IfSome (p4info_of message.now) (λ info. ReadsInMemory (λ x. x) result
        (Some (lacks_some nat_eq (map (λ x. id_of x.preamble) info.actions) (action_uses info)))) }
{
    let mut ids = Vec::new(alloc);
    gather::<Action, u32, Id>(&Id, alloc, &mut ids, message, 3)?;
    let mut uses = Vec::new(alloc);
    gather::<Table, u32, ActionUses>(&ActionUses, alloc, &mut uses, message, 2)?;
    Ok(repeats::lacks_numbers(alloc, ids.as_slice(), uses.as_slice())?)
}

/// Whether a reference is to the action of this id.
#[derive(Clone, Copy)]
struct IsTo {
    id: u32,
}

impl Question<ActionRef> for IsTo {
    ghost meaning = { action_ref_of };

    ghost answer = { λ to action. action.id == to.id };

    #[tactic(auto, unfolding(p4v1_read::specs::P4Infos::action_ref_of))]
    fn ask(&self, _: Global, message: &Message<'_>) -> Result<bool, Refusal<Unreadable>> {
        Ok(message.uint32(1)? == self.id)
    }
}

/// Whether a table has a const default action that is not among its actions.
struct LacksDefault;

impl Question<Table> for LacksDefault {
    ghost meaning = { table_of };

    ghost answer = { λ _ table. lacks_default table };

    #[tactic(auto, unfolding(p4v1_read::specs::P4Infos::table_of))]
    fn ask(&self, alloc: Global, message: &Message<'_>) -> Result<bool, Refusal<Unreadable>> {
        let id = message.uint32(4)?;
        let is_there = any::<ActionRef, IsTo>(&IsTo { id }, alloc, message, 3)?;
        Ok(id != 0 && !is_there)
    }
}

/// A table with the profile that it names.
struct ProfileOfTable;

impl Gift<Table, (u32, u32)> for ProfileOfTable {
    ghost meaning = { table_of };

    ghost gives = { λ _ t. if t.implementation_id == 0 then [] else (id_of t.preamble, t.implementation_id) ∷ [] };

    #[tactic(auto, unfolding(p4v1_read::specs::P4Infos::table_of))]
    fn put(
        &self,
        _: Global,
        found: &mut Vec<(u32, u32)>,
        message: &Message<'_>,
    ) -> Result<(), Refusal<Unreadable>> {
        let id = Table::id(message)?;
        let profile = message.uint32(6)?;
        if profile != 0 {
            found.push((id, profile))?;
        }
        Ok(())
    }
}

impl Naming for ActionProfile {
    ghost named_ids = { λ profile. profile.table_ids };

    ghost paired = { λ own named. (named, own) };

    #[tactic(auto, unfolding(p4v1_read::specs::P4Infos::action_profile_of))]
    fn named(alloc: Global, message: &Message<'_>) -> Result<Vec<u32>, Refusal<Unreadable>> {
        message.uint32s(alloc, 2)
    }

    fn pair(own: u32, named: u32) -> (u32, u32) {
        (named, own)
    }
}

impl Naming for Table {
    ghost named_ids = { λ table. table.direct_resource_ids };

    ghost paired = { λ own named. (own, named) };

    #[tactic(auto, unfolding(p4v1_read::specs::P4Infos::table_of))]
    fn named(alloc: Global, message: &Message<'_>) -> Result<Vec<u32>, Refusal<Unreadable>> {
        message.uint32s(alloc, 7)
    }

    fn pair(own: u32, named: u32) -> (u32, u32) {
        (own, named)
    }
}

/// A direct counter behind the table that it names.
struct TableOfCounter;

impl Gift<DirectCounter, (u32, u32)> for TableOfCounter {
    ghost meaning = { direct_counter_of };

    ghost gives = { λ _ counter. (counter.direct_table_id, id_of counter.preamble) ∷ [] };

    #[tactic(auto, unfolding(p4v1_read::specs::P4Infos::direct_counter_of))]
    fn put(
        &self,
        _: Global,
        found: &mut Vec<(u32, u32)>,
        message: &Message<'_>,
    ) -> Result<(), Refusal<Unreadable>> {
        let table = message.uint32(3)?;
        let id = DirectCounter::id(message)?;
        found.push((table, id))?;
        Ok(())
    }
}

#[tactic(auto, unfolding(p4v1_read::specs::P4Infos::p4info_of))]
fn profiles_differ(alloc: Global, message: &Message<'_>) -> Result<bool, Refusal<Unreadable>>
    ensures { IfSome (p4info_of message.now) (λ info. ReadsInMemory (λ x. x) result
        (Some (differ same_pair (profiles_of_tables info) (tables_of_profiles info)))) }
{
    let mut named = Vec::new(alloc);
    gather::<Table, (u32, u32), ProfileOfTable>(&ProfileOfTable, alloc, &mut named, message, 2)?;
    pairs_differ::<ActionProfile>(alloc, named.as_slice(), message, 4)
}

#[tactic(auto, using(crate::proofs::Gathered::flat_map_single, crate::proofs::Joined::differ_turned), unfolding(p4v1_read::specs::P4Infos::p4info_of))]
fn counters_differ(alloc: Global, message: &Message<'_>) -> Result<bool, Refusal<Unreadable>>
    ensures { IfSome (p4info_of message.now) (λ info. ReadsInMemory (λ x. x) result
        (Some (differ same_pair (counters_of_tables info) (tables_of_counters info)))) }
{
    let mut naming = Vec::new(alloc);
    gather::<DirectCounter, (u32, u32), TableOfCounter>(
        &TableOfCounter,
        alloc,
        &mut naming,
        message,
        6,
    )?;
    pairs_differ::<Table>(alloc, naming.as_slice(), message, 2)
}

#[tactic(auto, unfolding(p4v1_read::specs::P4Infos::p4info_of))]
fn some_lacks_default(alloc: Global, message: &Message<'_>) -> Result<bool, Refusal<Unreadable>>
    ensures { IfSome (p4info_of message.now) (λ info. ReadsInMemory (λ x. x) result (Some (list_any lacks_default info.tables))) }
{
    any::<Table, LacksDefault>(&LacksDefault, alloc, message, 2)
}

/// I5: a reference names nothing of its kind, a const default action is not among the table's actions, or a table and its
/// profile or direct counter do not name each other.
pub(crate) fn breaks_i5(alloc: Global, message: &Message<'_>) -> Result<bool, Refusal<Unreadable>>
    ensures { IfSome (p4info_of message.now) (λ info. ReadsInMemory (λ x. x) result (Some (breaks_i5 info))) }
{
    Ok(
        lacks_action(alloc, message)?
            || some_lacks_default(alloc, message)?
            || profiles_differ(alloc, message)?
            || counters_differ(alloc, message)?,
    )
}
