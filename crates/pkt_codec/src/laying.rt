//! Numbers laid end to end, which are written eight bytes at a time.
ghost use Rattle.std.specs.Prelude.{◌≡◌, ◌+◌, ◌*◌, ◌%◌, ◌^◌, ◌<◌, ◌≤◌, ◌++◌, length, take};
ghost use Rattle.std.specs.List.{splice};
ghost use Rattle.canon_bytes.specs.Bits.{bits};
ghost use Rattle.pkt_bits.specs.Field.{number_bits};
ghost use Rattle.pkt_codec.specs.Laid.{so_far, IsLaying};

use bm_expr::cut;
use pkt_bits::put;

/// Bits of which the first `at` are written, and the others are the lowest `filled` bits of a word.
#[derive(Clone, Copy)]
pub(crate) struct Laying {
    at: usize,
    filled: u32,
    word: u64,
}

/// No bits.
pub(crate) fn begun() -> Laying
    ensures { result ≡ record { at = 0; filled = 0; word = 0 } }
{
    Laying {
        at: 0,
        filled: 0,
        word: 0,
    }
}

// The lowest bits of a number.
fn low(number: u128, width: u32) -> u64
    requires { width < 64 }
    ensures { result ≡ number % 2 ^ width }
{
    let lowest = (number & 0xffff_ffff_ffff_ffff) as u64;
    lowest & ((1 << width) - 1)
}

// A number behind the bits of a word that has room for it.
fn behind(laying: Laying, width: u32, number: u128) -> Laying
    requires narrow { width < 64 }
    requires room { laying.filled + width ≤ 64 }
    requires fits { laying.word < 2 ^ laying.filled }
    ensures at { result.at ≡ laying.at }
    ensures filled { result.filled ≡ laying.filled + width }
    ensures fits { result.word < 2 ^ result.filled }
    ensures bits { number_bits result.filled result.word ≡ number_bits laying.filled laying.word ++ number_bits width number }
{
    Laying {
        at: laying.at,
        filled: laying.filled + width,
        word: (laying.word << width) + low(number, width),
    }
}

// Writes eight bytes.
fn put_eight(bytes: &mut [u8], place: usize, word: u64)
    requires in_range { place + 8 ≤ length bytes.old }
    ensures written { bits bytes.new ≡ splice (bits bytes.old) (place * 8) (place * 8 + 64) (number_bits 64 word) }
    ensures as_long { length bytes.new ≡ length bytes.old }
{
    bytes[place..place + 8].copy_from_slice(&word.to_be_bytes());
}

/// Writes the bits that are not yet written.
pub(crate) fn write(laying: Laying, bytes: &mut [u8])
    requires laying { IsLaying bytes.old laying }
    ensures written { take (laying.at + laying.filled) (bits bytes.new) ≡ so_far bytes.old laying }
    ensures as_long { length bytes.new ≡ length bytes.old }
{
    if laying.filled == 64 && laying.at % 8 == 0 {
        put_eight(bytes, laying.at / 8, laying.word);
    } else {
        put(bytes, laying.at, laying.filled, u128::from(laying.word));
    }
}

/// Lays the lowest bits of a number behind others.
pub(crate) fn lay(laying: Laying, width: u32, number: u128, bytes: &mut [u8]) -> Laying
    requires laying { IsLaying bytes.old laying }
    requires width { width ≤ 128 }
    requires in_range { laying.at + laying.filled + width ≤ 8 * length bytes.old }
    requires end { laying.at + laying.filled + width < 2 ^ 64 }
    ensures laid { so_far bytes.new result ≡ so_far bytes.old laying ++ number_bits width number }
    ensures laying { IsLaying bytes.new result }
    ensures end { result.at + result.filled ≡ laying.at + laying.filled + width }
    ensures as_long { length bytes.new ≡ length bytes.old }
{
    if width < 64 && laying.filled + width <= 64 {
        return behind(laying, width, number);
    }
    write(laying, bytes);
    let at = laying.at + laying.filled as usize;
    if width < 64 {
        let none = Laying {
            at,
            filled: 0,
            word: 0,
        };
        return behind(none, width, number);
    }
    put(bytes, at, width, cut(number, width));
    Laying {
        at: at + width as usize,
        filled: 0,
        word: 0,
    }
}
