//! Actions and their primitives.
ghost use Rattle.std.specs.Prelude.{◌≡◌};
ghost use Rattle.json_tree.specs.View.{view};
ghost use Rattle.json_shapes.specs.Shapes.{Reads};
ghost use Rattle.json_shapes.specs.Arrays.{item_at};
ghost use Rattle.bm_records.specs.Primitives.{learn_list_by, learn_list_name, counter_by, counter_name, assign_of, assign_header_of, count_of, primitive_by, primitive_of, datum_of, action_of};

use crate::operations::{self, PrimitiveKind};
use crate::raw::{Action, Datum, LearnListName, Part, Primitive};
use bm_values::kinds::ValueKind;
use bm_values::values;
use json_shapes::shapes::{self, FromJson};
use json_shapes::{Name, OtherShape, arrays};
use json_tree::Element;
use list_types::Refusal;
use std::alloc::Global;

fn learn_list_by<'a>(
    alloc: Global,
    kind: ValueKind,
    value: &Element<'a>,
) -> Result<LearnListName<'a>, Refusal<OtherShape>>
    ensures { Reads result (learn_list_by kind (view value.now)) }
{
    match kind {
        ValueKind::LearnList => {
            let name = shapes::required(alloc, value, "value")?;
            Ok(LearnListName::Name(name))
        }
        ValueKind::Literal => {
            let id = shapes::required(alloc, value, "value")?;
            Ok(LearnListName::Id(id))
        }
        ValueKind::LeftOut => Ok(LearnListName::LeftOut),
        _ => Err(Refusal::For(OtherShape)),
    }
}

impl<'a> FromJson<'a> for LearnListName<'a> {
    ghost shape = { learn_list_name };

    #[tactic(auto, unfolding(crate::specs::Primitives::learn_list_name))]
    fn from_json(
        alloc: Global,
        value: &Element<'a>,
    ) -> Result<LearnListName<'a>, Refusal<OtherShape>> {
        let kind = values::kind_of(value)?;
        learn_list_by(alloc, kind, value)
    }

    fn may_be(value: &Element<'a>) -> bool {
        shapes::has(value, "type")
    }
}

fn counter_by<'a>(
    alloc: Global,
    kind: ValueKind,
    value: &Element<'a>,
) -> Result<Part<Name<'a>>, Refusal<OtherShape>>
    ensures { Reads result (counter_by kind (view value.now)) }
{
    match kind {
        ValueKind::CounterArray => {
            let name = shapes::required(alloc, value, "value")?;
            Ok(Part::Served(name))
        }
        ValueKind::LeftOut => Ok(Part::LeftOut),
        _ => Err(Refusal::For(OtherShape)),
    }
}

#[tactic(auto, unfolding(crate::specs::Primitives::assign_of))]
fn assign<'a>(alloc: Global, parameters: &Element<'a>) -> Result<Primitive<'a>, Refusal<OtherShape>>
    ensures { Reads result (assign_of (view parameters.now)) }
{
    let target = arrays::item_at(alloc, parameters, 0)?;
    let value = arrays::item_at(alloc, parameters, 1)?;
    Ok(Primitive::Assign { target, value })
}

#[tactic(auto, unfolding(crate::specs::Primitives::assign_header_of))]
fn assign_header<'a>(
    alloc: Global,
    parameters: &Element<'a>,
) -> Result<Primitive<'a>, Refusal<OtherShape>>
    ensures { Reads result (assign_header_of (view parameters.now)) }
{
    let target = arrays::item_at(alloc, parameters, 0)?;
    let source = arrays::item_at(alloc, parameters, 1)?;
    Ok(Primitive::AssignHeader { target, source })
}

#[tactic(auto, unfolding(crate::specs::Primitives::counter_name, json_shapes::specs::Arrays::item_at))]
fn counter_at_first<'a>(
    alloc: Global,
    parameters: &Element<'a>,
) -> Result<Part<Name<'a>>, Refusal<OtherShape>>
    ensures { Reads result (item_at counter_name 0 (view parameters.now)) }
{
    let Some(value) = parameters.at(0) else {
        return Err(Refusal::For(OtherShape));
    };
    let kind = values::kind_of(&value)?;
    counter_by(alloc, kind, &value)
}

#[tactic(auto, unfolding(crate::specs::Primitives::count_of))]
fn count<'a>(alloc: Global, parameters: &Element<'a>) -> Result<Primitive<'a>, Refusal<OtherShape>>
    ensures { Reads result (count_of (view parameters.now)) }
{
    let counter = counter_at_first(alloc, parameters)?;
    let index = arrays::item_at(alloc, parameters, 1)?;
    Ok(Primitive::Count { counter, index })
}

fn primitive_by<'a>(
    alloc: Global,
    kind: PrimitiveKind,
    op: Name<'a>,
    count_of: usize,
    parameters: &Element<'a>,
) -> Result<Primitive<'a>, Refusal<OtherShape>>
    ensures { Reads result (primitive_by kind op.entry count_of (view parameters.now)) }
{
    match kind {
        PrimitiveKind::Assign => {
            arrays::of_count(2, count_of)?;
            assign(alloc, parameters)
        }
        PrimitiveKind::AddHeader => {
            arrays::of_count(1, count_of)?;
            let header = arrays::item_at(alloc, parameters, 0)?;
            Ok(Primitive::AddHeader(header))
        }
        PrimitiveKind::RemoveHeader => {
            arrays::of_count(1, count_of)?;
            let header = arrays::item_at(alloc, parameters, 0)?;
            Ok(Primitive::RemoveHeader(header))
        }
        PrimitiveKind::AssignHeader => {
            arrays::of_count(2, count_of)?;
            assign_header(alloc, parameters)
        }
        PrimitiveKind::Drop => Ok(Primitive::Drop),
        PrimitiveKind::Count => {
            arrays::of_count(2, count_of)?;
            count(alloc, parameters)
        }
        PrimitiveKind::GenerateDigest => {
            arrays::of_count(2, count_of)?;
            let name = arrays::item_at(alloc, parameters, 1)?;
            Ok(Primitive::GenerateDigest(name))
        }
        PrimitiveKind::NoOp => Ok(Primitive::NoOp),
        PrimitiveKind::LeftOut => Ok(Primitive::LeftOut),
        PrimitiveKind::Unknown => Ok(Primitive::Unknown(op)),
    }
}

impl<'a> FromJson<'a> for Primitive<'a> {
    ghost shape = { primitive_of };

    #[tactic(auto, unfolding(crate::specs::Primitives::primitive_of))]
    fn from_json(alloc: Global, value: &Element<'a>) -> Result<Primitive<'a>, Refusal<OtherShape>> {
        let op: Name = shapes::required(alloc, value, "op")?;
        let Some(parameters) = value.get("parameters") else {
            return Err(Refusal::For(OtherShape));
        };
        let count = arrays::item_count(&parameters)?;
        let kind = operations::primitive_kind(op.as_str());
        primitive_by(alloc, kind, op, count, &parameters)
    }

    fn may_be(value: &Element<'a>) -> bool {
        shapes::has(value, "parameters") && shapes::has(value, "op")
    }
}

impl<'a> FromJson<'a> for Datum {
    ghost shape = { datum_of };

    #[tactic(auto, unfolding(crate::specs::Primitives::datum_of))]
    fn from_json(alloc: Global, value: &Element<'a>) -> Result<Datum, Refusal<OtherShape>> {
        let width = shapes::required(alloc, value, "bitwidth")?;
        Ok(Datum { width })
    }

    fn may_be(value: &Element<'a>) -> bool {
        shapes::has(value, "bitwidth")
    }
}

impl<'a> FromJson<'a> for Action<'a> {
    ghost shape = { action_of };

    #[tactic(auto, unfolding(crate::specs::Primitives::action_of))]
    fn from_json(alloc: Global, value: &Element<'a>) -> Result<Action<'a>, Refusal<OtherShape>> {
        let name = shapes::required(alloc, value, "name")?;
        let id = shapes::required(alloc, value, "id")?;
        let runtime_data = shapes::required(alloc, value, "runtime_data")?;
        let primitives = shapes::required(alloc, value, "primitives")?;
        Ok(Action {
            name,
            id,
            runtime_data,
            primitives,
        })
    }

    fn may_be(value: &Element<'a>) -> bool {
        shapes::has(value, "primitives") && shapes::has(value, "runtime_data")
    }
}
