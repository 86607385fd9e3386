//! Headers, errors, counters, calculations, checksums and digests.
ghost use Rattle.std.specs.Prelude.{◌≡◌};
ghost use Rattle.json_tree.specs.View.{view};
ghost use Rattle.json_shapes.specs.Shapes.{Reads};
ghost use Rattle.bm_records.specs.Objects.{width_with, sign_by, type_field_of, header_type_of, header_of, error_of, size_by, counter_of, input_literal, input_by, input_of, calculation_of, checksum_of, learn_list_of};

use crate::raw::{
    Calculation, CalculationInput, Checksum, CounterArray, ErrorNumber, Header, HeaderType,
    LearnList, Part, RawWidth, TypeField,
};
use bm_values::kinds::ValueKind;
use bm_values::raw::FieldWidth;
use bm_values::values;
use json_shapes::shapes::{self, FromJson};
use json_shapes::{OtherShape, arrays};
use json_tree::Element;
use list_types::Refusal;
use std::alloc::Global;

fn width_with(signed: bool, width: RawWidth) -> RawWidth
    ensures { result ≡ width_with signed width }
{
    if signed { Part::LeftOut } else { width }
}

fn sign_by(alloc: Global, count: usize, value: &Element<'_>) -> Result<bool, Refusal<OtherShape>>
    ensures { Reads result (sign_by count (view value.now)) }
{
    if count == 3 {
        return arrays::item_at(alloc, value, 2);
    }
    arrays::of_count(2, count)?;
    Ok(false)
}

impl<'a> FromJson<'a> for TypeField<'a> {
    ghost shape = { type_field_of };

    #[tactic(auto, unfolding(crate::specs::Objects::type_field_of))]
    fn from_json(alloc: Global, value: &Element<'a>) -> Result<TypeField<'a>, Refusal<OtherShape>> {
        let count = arrays::item_count(value)?;
        let signed = sign_by(alloc, count, value)?;
        let name = arrays::item_at(alloc, value, 0)?;
        let given: FieldWidth = arrays::item_at(alloc, value, 1)?;
        Ok(TypeField {
            name,
            width: width_with(signed, given.width),
        })
    }

    fn may_be(value: &Element<'a>) -> bool {
        shapes::begins_with_text(value)
    }
}

impl<'a> FromJson<'a> for HeaderType<'a> {
    ghost shape = { header_type_of };

    #[tactic(auto, unfolding(crate::specs::Objects::header_type_of))]
    fn from_json(
        alloc: Global,
        value: &Element<'a>,
    ) -> Result<HeaderType<'a>, Refusal<OtherShape>> {
        let name = shapes::required(alloc, value, "name")?;
        let fields = shapes::required(alloc, value, "fields")?;
        Ok(HeaderType { name, fields })
    }

    fn may_be(value: &Element<'a>) -> bool {
        shapes::has(value, "fields")
    }
}

impl<'a> FromJson<'a> for Header<'a> {
    ghost shape = { header_of };

    #[tactic(auto, unfolding(crate::specs::Objects::header_of))]
    fn from_json(alloc: Global, value: &Element<'a>) -> Result<Header<'a>, Refusal<OtherShape>> {
        let name = shapes::required(alloc, value, "name")?;
        let header_type = shapes::required(alloc, value, "header_type")?;
        let metadata = shapes::required(alloc, value, "metadata")?;
        Ok(Header {
            name,
            header_type,
            metadata,
        })
    }

    fn may_be(value: &Element<'a>) -> bool {
        shapes::has(value, "metadata")
    }
}

impl<'a> FromJson<'a> for ErrorNumber<'a> {
    ghost shape = { error_of };

    #[tactic(auto, unfolding(crate::specs::Objects::error_of))]
    fn from_json(
        alloc: Global,
        value: &Element<'a>,
    ) -> Result<ErrorNumber<'a>, Refusal<OtherShape>> {
        let count = arrays::item_count(value)?;
        arrays::of_count(2, count)?;
        let name = arrays::item_at(alloc, value, 0)?;
        let number = arrays::item_at(alloc, value, 1)?;
        Ok(ErrorNumber { name, number })
    }

    fn may_be(value: &Element<'a>) -> bool {
        shapes::begins_with_text(value)
    }
}

fn size_by(
    alloc: Global,
    is_direct: bool,
    value: &Element<'_>,
) -> Result<Option<u64>, Refusal<OtherShape>>
    ensures { Reads result (size_by is_direct (view value.now)) }
{
    if is_direct {
        return Ok(None);
    }
    let size = shapes::required(alloc, value, "size")?;
    Ok(Some(size))
}

impl<'a> FromJson<'a> for CounterArray<'a> {
    ghost shape = { counter_of };

    #[tactic(auto, unfolding(crate::specs::Objects::counter_of))]
    fn from_json(
        alloc: Global,
        value: &Element<'a>,
    ) -> Result<CounterArray<'a>, Refusal<OtherShape>> {
        let name = shapes::required(alloc, value, "name")?;
        let is_direct = shapes::required(alloc, value, "is_direct")?;
        let size = size_by(alloc, is_direct, value)?;
        Ok(CounterArray {
            name,
            is_direct,
            size,
        })
    }

    fn may_be(value: &Element<'a>) -> bool {
        shapes::has(value, "is_direct")
    }
}

#[tactic(auto, unfolding(crate::specs::Objects::input_literal))]
fn input_literal<'a>(
    alloc: Global,
    input: &Element<'a>,
) -> Result<CalculationInput<'a>, Refusal<OtherShape>>
    ensures { Reads result (input_literal (view input.now)) }
{
    let value = shapes::required(alloc, input, "value")?;
    let width = shapes::required(alloc, input, "bitwidth")?;
    Ok(CalculationInput::Literal { value, width })
}

fn input_by<'a>(
    alloc: Global,
    kind: ValueKind,
    value: &Element<'a>,
) -> Result<CalculationInput<'a>, Refusal<OtherShape>>
    ensures { Reads result (input_by kind (view value.now)) }
{
    match kind {
        ValueKind::Field => {
            let field = shapes::required(alloc, value, "value")?;
            Ok(CalculationInput::Field(field))
        }
        ValueKind::Literal => input_literal(alloc, value),
        ValueKind::LeftOut => Ok(CalculationInput::LeftOut),
        _ => Err(Refusal::For(OtherShape)),
    }
}

impl<'a> FromJson<'a> for CalculationInput<'a> {
    ghost shape = { input_of };

    #[tactic(auto, unfolding(crate::specs::Objects::input_of))]
    fn from_json(
        alloc: Global,
        value: &Element<'a>,
    ) -> Result<CalculationInput<'a>, Refusal<OtherShape>> {
        let kind = values::kind_of(value)?;
        input_by(alloc, kind, value)
    }

    fn may_be(value: &Element<'a>) -> bool {
        shapes::has(value, "type")
    }
}

impl<'a> FromJson<'a> for Calculation<'a> {
    ghost shape = { calculation_of };

    #[tactic(auto, unfolding(crate::specs::Objects::calculation_of))]
    fn from_json(
        alloc: Global,
        value: &Element<'a>,
    ) -> Result<Calculation<'a>, Refusal<OtherShape>> {
        let name = shapes::required(alloc, value, "name")?;
        let algo = shapes::required(alloc, value, "algo")?;
        let input = shapes::required(alloc, value, "input")?;
        Ok(Calculation { name, algo, input })
    }

    fn may_be(value: &Element<'a>) -> bool {
        shapes::has(value, "input")
    }
}

impl<'a> FromJson<'a> for Checksum<'a> {
    ghost shape = { checksum_of };

    #[tactic(auto, unfolding(crate::specs::Objects::checksum_of))]
    fn from_json(alloc: Global, value: &Element<'a>) -> Result<Checksum<'a>, Refusal<OtherShape>> {
        let name = shapes::required(alloc, value, "name")?;
        let target = shapes::required(alloc, value, "target")?;
        let calculation = shapes::required(alloc, value, "calculation")?;
        let update = shapes::required(alloc, value, "update")?;
        let verify: Option<bool> = shapes::unless_absent(alloc, value, "verify")?;
        let if_cond = shapes::optional(alloc, value, "if_cond")?;
        Ok(Checksum {
            name,
            target,
            calculation,
            update,
            verify: verify.unwrap_or(true),
            if_cond,
        })
    }

    fn may_be(value: &Element<'a>) -> bool {
        shapes::has(value, "calculation") && shapes::has(value, "target")
    }
}

impl<'a> FromJson<'a> for LearnList<'a> {
    ghost shape = { learn_list_of };

    #[tactic(auto, unfolding(crate::specs::Objects::learn_list_of))]
    fn from_json(alloc: Global, value: &Element<'a>) -> Result<LearnList<'a>, Refusal<OtherShape>> {
        let name = shapes::required(alloc, value, "name")?;
        let id = shapes::required(alloc, value, "id")?;
        let elements = shapes::required(alloc, value, "elements")?;
        Ok(LearnList { name, id, elements })
    }

    fn may_be(value: &Element<'a>) -> bool {
        shapes::has(value, "elements")
    }
}
