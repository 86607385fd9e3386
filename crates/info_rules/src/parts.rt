//! The parts of objects: match fields, parameters, metadata and references to actions.
ghost use Rattle.std.specs.Prelude.{◌≡◌, [], ◌∷◌, ℕ, ℤ, Some, IfSome, is_none, map};
ghost use Rattle.std.specs.Prelude as spec;
ghost use Rattle.wire_fields.specs.Fields.{WireField};
ghost use Rattle.wire_messages.specs.Answers.{Reads, ReadsInMemory};
ghost use Rattle.p4v1_read.specs.Nested.{all_at};
ghost use Rattle.p4v1_read.specs.P4Infos.{match_field_of, param_of, metadata_of, action_ref_of};
ghost use Rattle.info_rules.specs.Numbers.{width_of, kind_of, scope_of};
ghost use Rattle.info_rules.specs.Objects.{ids_clash};

use crate::asking::Question;
use crate::gathering::{Gift, gather};
use crate::{numbers, repeats};
use list_types::{NoMemory, Refusal};
use p4_types::p4info::{ActionRef, MatchField, Metadata, Param};
use std::alloc::Global;
use wire_messages::{Message, Unreadable};

/// A part that has an id.
pub(crate) trait Numbered: Sized {
    ghost meaning: { spec.List WireField → spec.Option Self };

    ghost part_id: { Self → ℕ };

    fn id(message: &Message<'_>) -> Result<u32, Unreadable>
        ensures { IfSome (meaning message.now) (λ part. Reads (λ x. x) result (Some (part_id part))) };
}

/// A part that has a width.
pub(crate) trait Wide: Sized {
    ghost meaning: { spec.List WireField → spec.Option Self };

    ghost part_bits: { Self → ℤ };

    fn bits(message: &Message<'_>) -> Result<i32, Unreadable>
        ensures { IfSome (meaning message.now) (λ part. Reads (λ x. x) result (Some (part_bits part))) };
}

impl Numbered for MatchField {
    ghost meaning = { match_field_of };

    ghost part_id = { λ x. x.id };

    #[tactic(auto, unfolding(p4v1_read::specs::P4Infos::match_field_of))]
    fn id(message: &Message<'_>) -> Result<u32, Unreadable> {
        message.uint32(1)
    }
}

impl Numbered for Param {
    ghost meaning = { param_of };

    ghost part_id = { λ x. x.id };

    #[tactic(auto, unfolding(p4v1_read::specs::P4Infos::param_of))]
    fn id(message: &Message<'_>) -> Result<u32, Unreadable> {
        message.uint32(1)
    }
}

impl Numbered for Metadata {
    ghost meaning = { metadata_of };

    ghost part_id = { λ x. x.id };

    #[tactic(auto, unfolding(p4v1_read::specs::P4Infos::metadata_of))]
    fn id(message: &Message<'_>) -> Result<u32, Unreadable> {
        message.uint32(1)
    }
}

impl Numbered for ActionRef {
    ghost meaning = { action_ref_of };

    ghost part_id = { λ x. x.id };

    #[tactic(auto, unfolding(p4v1_read::specs::P4Infos::action_ref_of))]
    fn id(message: &Message<'_>) -> Result<u32, Unreadable> {
        message.uint32(1)
    }
}

impl Wide for MatchField {
    ghost meaning = { match_field_of };

    ghost part_bits = { λ x. x.bitwidth };

    #[tactic(auto, unfolding(p4v1_read::specs::P4Infos::match_field_of))]
    fn bits(message: &Message<'_>) -> Result<i32, Unreadable> {
        message.int32(4)
    }
}

impl Wide for Param {
    ghost meaning = { param_of };

    ghost part_bits = { λ x. x.bitwidth };

    #[tactic(auto, unfolding(p4v1_read::specs::P4Infos::param_of))]
    fn bits(message: &Message<'_>) -> Result<i32, Unreadable> {
        message.int32(4)
    }
}

impl Wide for Metadata {
    ghost meaning = { metadata_of };

    ghost part_bits = { λ x. x.bitwidth };

    #[tactic(auto, unfolding(p4v1_read::specs::P4Infos::metadata_of))]
    fn bits(message: &Message<'_>) -> Result<i32, Unreadable> {
        message.int32(4)
    }
}

/// The id of a part.
pub(crate) struct PartId;

impl<P: Numbered> Gift<P, u32> for PartId {
    ghost meaning = { P.meaning };

    ghost gives = { λ _ part. P.part_id part ∷ [] };

    fn put(
        &self,
        _: Global,
        found: &mut Vec<u32>,
        message: &Message<'_>,
    ) -> Result<(), Refusal<Unreadable>> {
        found.push(P::id(message)?)?;
        Ok(())
    }
}

/// Whether an id is 0 or occurs twice.
#[tactic(auto, unfolding(crate::specs::Objects::ids_clash))]
pub(crate) fn ids_clash(alloc: Global, ids: &[u32]) -> Result<bool, NoMemory>
    ensures { spec.IfOk result (λ answer. answer ≡ ids_clash ids.now) }
{
    if ids.contains(&0) {
        return Ok(true);
    }
    repeats::numbers_repeat(alloc, ids)
}

/// Whether an id of the parts in a field is 0 or occurs twice.
#[tactic(auto, using(crate::proofs::Gathered::flat_map_single))]
pub(crate) fn part_ids_clash<P: Numbered>(
    alloc: Global,
    message: &Message<'_>,
    number: u32,
) -> Result<bool, Refusal<Unreadable>>
    ensures { IfSome (all_at P.meaning number message.now) (λ parts. ReadsInMemory (λ x. x) result (Some (ids_clash (map P.part_id parts)))) }
{
    let mut ids = Vec::new(alloc);
    gather::<P, u32, PartId>(&PartId, alloc, &mut ids, message, number)?;
    Ok(ids_clash(alloc, ids.as_slice())?)
}

/// Whether a width is below 1 or above 128.
pub(crate) struct NoWidth;

impl<P: Wide> Question<P> for NoWidth {
    ghost meaning = { P.meaning };

    ghost answer = { λ _ part. is_none (width_of (P.part_bits part)) };

    fn ask(&self, _: Global, message: &Message<'_>) -> Result<bool, Refusal<Unreadable>> {
        Ok(numbers::width_of(P::bits(message)?).is_none())
    }
}

/// Whether the kind of a match is unknown.
pub(crate) struct UnknownKind;

impl Question<MatchField> for UnknownKind {
    ghost meaning = { match_field_of };

    ghost answer = { λ _ field. is_none (kind_of field.match_type) };

    #[tactic(auto, unfolding(p4v1_read::specs::P4Infos::match_field_of))]
    fn ask(&self, _: Global, message: &Message<'_>) -> Result<bool, Refusal<Unreadable>> {
        Ok(numbers::kind_of(message.int32(5)?).is_none())
    }
}

/// Whether the scope of a reference to an action is unknown.
pub(crate) struct UnknownScope;

impl Question<ActionRef> for UnknownScope {
    ghost meaning = { action_ref_of };

    ghost answer = { λ _ action. is_none (scope_of action.scope) };

    #[tactic(auto, unfolding(p4v1_read::specs::P4Infos::action_ref_of))]
    fn ask(&self, _: Global, message: &Message<'_>) -> Result<bool, Refusal<Unreadable>> {
        Ok(numbers::scope_of(message.int32(3)?).is_none())
    }
}
