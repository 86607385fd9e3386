//! Ones' complement sums.
ghost use Rattle.std.specs.Prelude.{◌≡◌, ℕ, ◌+◌, ◌^◌, ◌<◌, ◌≤◌, All};
ghost use Rattle.std.specs.List.{flat_map};
ghost use Rattle.pkt_bits.specs.Field.{number_bits};
ghost use Rattle.program_spec.specs.Checksums as spec;
ghost use Rattle.program_spec.specs.Checksums.{input_bits};
ghost use Rattle.pkt_codec.specs.Room.{IsInputInStore};
ghost use Rattle.pkt_codec.specs.Sums.{weighed, IsOnesSum};

use crate::reading::{read, width};
use bm_expr::Store;
use bm_pipeline::checksums::CalculationInput;

// The ones' complement sum of two words.
fn ones_sum(one: u32, other: u32) -> u32
    requires one { one < 2 ^ 16 }
    requires other { other < 2 ^ 16 }
    ensures { result ≡ spec.ones_sum one other }
{
    let sum = one + other;
    (sum & 0xffff) + (sum >> 16)
}

// The sum with the bits of a number behind those before, of which the last word has `offset` bits.
fn add(sum: u32, offset: u32, width: u32, number: u128) -> u32
    requires sum { sum < 2 ^ 16 }
    requires offset { offset < 16 }
    requires width { width ≤ 128 }
    ensures added { (before : ℕ) → IsOnesSum sum before → IsOnesSum result (before + weighed offset (number_bits width number)) }
    ensures word { result < 2 ^ 16 }
{
    let mut total = sum;
    let mut at = offset;
    let mut left = width;
    while left > 0 {
        let size = left.min(16 - at);
        let part = ((number >> (left - size)) & ((1 << size) - 1)) as u32;
        total = ones_sum(total, part << (16 - at - size));
        at = (at + size) % 16;
        left -= size;
    }
    total
}

/// A number of so many bits.
#[derive(Clone, Copy)]
struct Laid {
    width: u32,
    number: u128,
}

// What is laid behind the other inputs.
fn laid_next(store: &Store, input: CalculationInput) -> Laid
    requires in_store { IsInputInStore store.now input }
    ensures bits { input_bits store.now input ≡ number_bits result.width result.number }
    ensures width { result.width ≤ 128 }
{
    match input {
        CalculationInput::Field(field) => Laid {
            width: width(field),
            number: read(store, field),
        },
        CalculationInput::Literal { value, width } => Laid {
            width,
            number: value,
        },
    }
}

/// `csum16` of inputs laid end to end.
pub(crate) fn csum16(store: &Store, input: &[CalculationInput]) -> u32
    requires in_store { All (IsInputInStore store.now) input.now }
    ensures { result ≡ spec.csum16 (flat_map (input_bits store.now) input.now) }
{
    let mut sum = 0;
    let mut offset = 0;
    for taken in input {
        let next = laid_next(store, *taken);
        sum = add(sum, offset, next.width, next.number);
        offset = (offset + next.width) % 16;
    }
    0xffff - sum
}
