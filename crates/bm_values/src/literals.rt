//! Literals and widths.
ghost use Rattle.std.specs.Prelude.{◌≡◌, ◌<◌, ◌≤◌, length, IfSome};
ghost use Rattle.json_tree.specs.View.{view};
ghost use Rattle.json_shapes.specs.Shapes.{Reads};
ghost use Rattle.bm_values.specs.Literals.{hex_digit, hex_number, are_hex_digits, hex_literal, literal_text, literal_of, width_in, width_of, field_width_of, width_bits};

use crate::raw::{FieldWidth, Part, RawLiteral, RawWidth};
use json_shapes::OtherShape;
use json_shapes::shapes::FromJson;
use json_tree::Element;
use list_types::Refusal;
use std::alloc::Global;

fn hex_digit(byte: u8) -> Option<u8>
    ensures digit { result ≡ hex_digit byte }
    ensures small { IfSome result (λ digit. digit < 16) }
{
    match byte {
        b'0'..=b'9' => Some(byte - b'0'),
        b'a'..=b'f' => Some(byte - b'a' + 10),
        b'A'..=b'F' => Some(byte - b'A' + 10),
        _ => None,
    }
}

fn hex_number(digits: &[u8]) -> Option<u128>
    requires { length digits.now ≤ 32 }
    ensures { result ≡ hex_number 0 digits.now }
{
    let mut number = 0u128;
    for byte in digits {
        match hex_digit(*byte) {
            Some(digit) => number = number * 16 + u128::from(digit),
            None => return None,
        }
    }
    Some(number)
}

fn are_hex_digits(digits: &[u8]) -> bool
    ensures { result ≡ are_hex_digits digits.now }
{
    digits.iter().all(|byte| hex_digit(*byte).is_some())
}

fn hex_literal(digits: &[u8]) -> Option<RawLiteral>
    ensures { result ≡ hex_literal digits.now }
{
    if digits.is_empty() {
        return None;
    }
    if digits.len() > 32 {
        if are_hex_digits(digits) {
            return Some(Part::LeftOut);
        }
        return None;
    }
    match hex_number(digits) {
        Some(number) => Some(Part::Served(number)),
        None => None,
    }
}

/// The literal that the bytes of a text are: `0x` and at least one hex digit of either case.
pub fn literal_text(text: &[u8]) -> Option<RawLiteral>
    ensures { result ≡ literal_text text.now }
{
    match text {
        [b'0', b'x', digits @ ..] => hex_literal(digits),
        _ => None,
    }
}

impl<'a> FromJson<'a> for RawLiteral {
    ghost shape = { literal_of };

    fn from_json(_alloc: Global, value: &Element<'a>) -> Result<RawLiteral, Refusal<OtherShape>> {
        let Some(text) = value.as_str() else {
            return Err(Refusal::For(OtherShape));
        };
        match literal_text(text.as_bytes()) {
            Some(literal) => Ok(literal),
            None => Err(Refusal::For(OtherShape)),
        }
    }

    fn may_be(value: &Element<'a>) -> bool {
        match value.as_str() {
            Some(text) => text.len() > 2,
            None => false,
        }
    }
}

fn width_in(bits: u64) -> Option<RawWidth>
    ensures { result ≡ width_in bits }
{
    if bits == 0 {
        None
    } else if bits <= 128 {
        Some(Part::Served(bits as u32))
    } else {
        Some(Part::LeftOut)
    }
}

/// The bits of a width; one that is left out counts as 0.
pub fn width_bits(width: &RawWidth) -> u32
    ensures { result ≡ width_bits width.now }
{
    match width {
        Part::Served(bits) => *bits,
        Part::LeftOut => 0,
    }
}

impl<'a> FromJson<'a> for RawWidth {
    ghost shape = { width_of };

    fn from_json(_alloc: Global, value: &Element<'a>) -> Result<RawWidth, Refusal<OtherShape>> {
        let Some(bits) = value.as_u64() else {
            return Err(Refusal::For(OtherShape));
        };
        match width_in(bits) {
            Some(width) => Ok(width),
            None => Err(Refusal::For(OtherShape)),
        }
    }

    fn may_be(value: &Element<'a>) -> bool {
        value.as_u64().is_some()
    }
}

impl<'a> FromJson<'a> for FieldWidth {
    ghost shape = { field_width_of };

    fn from_json(alloc: Global, value: &Element<'a>) -> Result<FieldWidth, Refusal<OtherShape>> {
        if let Some(text) = value.as_str() {
            return if text == "*" {
                Ok(FieldWidth {
                    width: Part::LeftOut,
                })
            } else {
                Err(Refusal::For(OtherShape))
            };
        }
        let width = RawWidth::from_json(alloc, value)?;
        Ok(FieldWidth { width })
    }

    fn may_be(value: &Element<'a>) -> bool {
        value.as_u64().is_some() || value.as_str().is_some()
    }
}
