//! What tests look at of the values of a key.
ghost use Rattle.std.specs.Prelude.{◌≡◌, map, IfOk};
ghost use Rattle.match_index.specs.Cuts.{cut_of, value_of, part, with_word, with_part, same_cut, has_cuts, name_print_from, key_print_from, name_print, key_print};

use list_types::NoMemory;
use p4_types::keys::FieldTest;
use std::alloc::Global;

/// Which part of a field's value a test compares with its own.
#[derive(Clone, Copy)]
pub(crate) enum Cut {
    /// No part: the test holds for each value, or is a range.
    Nothing,
    Whole,
    /// All but the last so many bits.
    First { dropped: u32 },
    /// The bits of a mask.
    Under { mask: u128 },
}

const FACTOR: u64 = 0x9e37_79b9_7f4a_7c15;

fn cut_of(test: FieldTest) -> Cut
    ensures { result ≡ cut_of test }
{
    match test {
        FieldTest::Any => Cut::Nothing,
        FieldTest::Equal(_) => Cut::Whole,
        FieldTest::Prefix { length, width, .. } => Cut::First {
            dropped: width.saturating_sub(length),
        },
        FieldTest::Masked { mask, .. } => Cut::Under { mask },
        FieldTest::Between { .. } => Cut::Nothing,
    }
}

// The value that a test compares with.
fn value_of(test: FieldTest) -> u128
    ensures { result ≡ value_of test }
{
    match test {
        FieldTest::Any => 0,
        FieldTest::Equal(value) => value,
        FieldTest::Prefix { value, .. } => value,
        FieldTest::Masked { value, .. } => value,
        FieldTest::Between { .. } => 0,
    }
}

fn part(cut: Cut, value: u128) -> u128
    ensures { result ≡ part cut value }
{
    match cut {
        Cut::Nothing => 0,
        Cut::Whole => value,
        Cut::First { dropped } => { if dropped < 128 { value >> dropped } else { 0 } }
        Cut::Under { mask } => value & mask,
    }
}

#[tactic(auto, unfolding(crate::specs::Cuts::with_word))]
fn with_word(print: u64, word: u64) -> u64
    ensures { result ≡ with_word print word }
{
    print.wrapping_mul(FACTOR).wrapping_add(word)
}

fn with_part(print: u64, part: u128) -> u64
    ensures { result ≡ with_part print part }
{
    let low = (part % (1 << 64)) as u64;
    let high = (part >> 64) as u64;
    with_word(with_word(print, low), high)
}

fn same_cut(a: Cut, b: Cut) -> bool
    ensures { result ≡ same_cut a b }
{
    match (a, b) {
        (Cut::Nothing, Cut::Nothing) => true,
        (Cut::Whole, Cut::Whole) => true,
        (Cut::First { dropped: a }, Cut::First { dropped: b }) => a == b,
        (Cut::Under { mask: a }, Cut::Under { mask: b }) => a == b,
        _ => false,
    }
}

/// Whether these are the cuts of the tests.
pub(crate) fn has_cuts(cuts: &[Cut], tests: &[FieldTest]) -> bool
    ensures { result ≡ has_cuts cuts.now tests.now }
{
    match cuts {
        [] => tests.is_empty(),
        [cut, others @ ..] => match tests {
            [] => false,
            [test, rest @ ..] => same_cut(*cut, cut_of(*test)) && has_cuts(others, rest),
        },
    }
}

pub(crate) fn cuts_of(alloc: Global, tests: &[FieldTest]) -> Result<Vec<Cut>, NoMemory>
    ensures { IfOk result (λ cuts. cuts.items ≡ map cut_of tests.now) }
{
    let mut cuts = Vec::with_capacity(alloc, tests.len())?;
    for test in tests {
        cuts.push(cut_of(*test))?;
    }
    Ok(cuts)
}

fn name_print_from(print: u64, tests: &[FieldTest]) -> u64
    ensures { result ≡ name_print_from print tests.now }
{
    match tests {
        [] => print,
        [test, others @ ..] => {
            let part = part(cut_of(*test), value_of(*test));
            name_print_from(with_part(print, part), others)
        }
    }
}

/// The fingerprint that each key has that passes the tests, under their cuts.
pub(crate) fn name_print(tests: &[FieldTest]) -> u64
    ensures { result ≡ name_print tests.now }
{
    name_print_from(0, tests)
}

fn key_print_from(print: u64, cuts: &[Cut], key: &[u128]) -> u64
    ensures { result ≡ key_print_from print cuts.now key.now }
{
    match cuts {
        [] => print,
        [cut, others @ ..] => match key {
            [] => print,
            [value, rest @ ..] => {
                key_print_from(with_part(print, part(*cut, *value)), others, rest)
            }
        },
    }
}

/// The fingerprint of a key under cuts.
pub(crate) fn key_print(cuts: &[Cut], key: &[u128]) -> u64
    ensures { result ≡ key_print cuts.now key.now }
{
    key_print_from(0, cuts, key)
}
