//! Values with a type, and pairs of names.
ghost use Rattle.std.specs.Prelude.{◌≡◌};
ghost use Rattle.json_tree.specs.View.{view};
ghost use Rattle.json_shapes.specs.Shapes.{ReadsExactly, Reads};
ghost use Rattle.bm_values.specs.Values.{field_name, kind_of, field_by, field_value, header_by, header_value};

use crate::kinds::{self, ValueKind};
use crate::raw::{FieldName, Part, RawField};
use json_shapes::shapes::{self, FromJson};
use json_shapes::{Name, OtherShape, arrays};
use json_tree::Element;
use list_types::Refusal;
use std::alloc::Global;

impl<'a> FromJson<'a> for FieldName<'a> {
    ghost shape = { field_name };

    #[tactic(auto, unfolding(crate::specs::Values::field_name))]
    fn from_json(alloc: Global, value: &Element<'a>) -> Result<FieldName<'a>, Refusal<OtherShape>> {
        if arrays::item_count(value)? != 2 {
            return Err(Refusal::For(OtherShape));
        }
        let header = arrays::item_at(alloc, value, 0)?;
        let field = arrays::item_at(alloc, value, 1)?;
        Ok(FieldName { header, field })
    }

    fn may_be(value: &Element<'a>) -> bool {
        matches!(arrays::item_count(value), Ok(2))
    }
}

/// The kind of a value with a type; without one, or where it is no text, it is of another shape.
#[tactic(auto, unfolding(crate::specs::Values::kind_of, json_shapes::specs::Shapes::required))]
pub fn kind_of(value: &Element<'_>) -> Result<ValueKind, OtherShape>
    ensures { ReadsExactly result (kind_of (view value.now)) }
{
    let Some(inside) = value.get("type") else {
        return Err(OtherShape);
    };
    match inside.as_str() {
        Some(kind) => Ok(kinds::value_kind(kind)),
        None => Err(OtherShape),
    }
}

fn field_by<'a>(
    alloc: Global,
    kind: ValueKind,
    value: &Element<'a>,
) -> Result<RawField<'a>, Refusal<OtherShape>>
    ensures { Reads result (field_by kind (view value.now)) }
{
    match kind {
        ValueKind::Field => {
            let field = shapes::required(alloc, value, "value")?;
            Ok(Part::Served(field))
        }
        ValueKind::LeftOut => Ok(Part::LeftOut),
        _ => Err(Refusal::For(OtherShape)),
    }
}

/// A value that is a field.
impl<'a> FromJson<'a> for RawField<'a> {
    ghost shape = { field_value };

    #[tactic(auto, unfolding(crate::specs::Values::field_value))]
    fn from_json(alloc: Global, value: &Element<'a>) -> Result<RawField<'a>, Refusal<OtherShape>> {
        let kind = kind_of(value)?;
        field_by(alloc, kind, value)
    }

    fn may_be(value: &Element<'a>) -> bool {
        shapes::has(value, "type")
    }
}

fn header_by<'a>(
    alloc: Global,
    kind: ValueKind,
    value: &Element<'a>,
) -> Result<Part<Name<'a>>, Refusal<OtherShape>>
    ensures { Reads result (header_by kind (view value.now)) }
{
    match kind {
        ValueKind::Header => {
            let name = shapes::required(alloc, value, "value")?;
            Ok(Part::Served(name))
        }
        ValueKind::LeftOut => Ok(Part::LeftOut),
        _ => Err(Refusal::For(OtherShape)),
    }
}

/// A value that is a header.
impl<'a> FromJson<'a> for Part<Name<'a>> {
    ghost shape = { header_value };

    #[tactic(auto, unfolding(crate::specs::Values::header_value))]
    fn from_json(
        alloc: Global,
        value: &Element<'a>,
    ) -> Result<Part<Name<'a>>, Refusal<OtherShape>> {
        let kind = kind_of(value)?;
        header_by(alloc, kind, value)
    }

    fn may_be(value: &Element<'a>) -> bool {
        shapes::has(value, "type")
    }
}
