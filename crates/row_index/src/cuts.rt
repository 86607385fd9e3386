//! What tests look at of the values of a key.
ghost use Rattle.std.specs.Prelude.{◌≡◌, ◌<◌};
ghost use Rattle.row_index.specs.Cuts.{cut_of, value_of, part, with_word, with_part, same_cut, same_cuts, mixed, name_print_from, key_print_from, bucket_of};

use p4_types::keys::FieldTest;

/// Which part of a field's value a test compares with its own.
#[derive(Clone, Copy)]
enum Cut {
    /// No part: the test holds for each value, or is a range.
    Nothing,
    Whole,
    /// All but the last so many bits.
    First { dropped: u32 },
    /// The bits of a mask.
    Under { mask: u128 },
}

const FACTOR: u64 = 0x9e37_79b9_7f4a_7c15;

fn cut_of(test: FieldTest) -> Cut
    ensures { result ≡ cut_of test }
{
    match test {
        FieldTest::Any => Cut::Nothing,
        FieldTest::Equal(_) => Cut::Whole,
        FieldTest::Prefix { length, width, .. } => Cut::First {
            dropped: width.saturating_sub(length),
        },
        FieldTest::Masked { mask, .. } => Cut::Under { mask },
        FieldTest::Between { .. } => Cut::Nothing,
    }
}

// The value that a test compares with.
fn value_of(test: FieldTest) -> u128
    ensures { result ≡ value_of test }
{
    match test {
        FieldTest::Any => 0,
        FieldTest::Equal(value) => value,
        FieldTest::Prefix { value, .. } => value,
        FieldTest::Masked { value, .. } => value,
        FieldTest::Between { .. } => 0,
    }
}

fn part(cut: Cut, value: u128) -> u128
    ensures { result ≡ part cut value }
{
    match cut {
        Cut::Nothing => 0,
        Cut::Whole => value,
        Cut::First { dropped } => { if dropped < 128 { value >> dropped } else { 0 } }
        Cut::Under { mask } => value & mask,
    }
}

#[tactic(auto, unfolding(crate::specs::Cuts::with_word))]
fn with_word(print: u64, word: u64) -> u64
    ensures { result ≡ with_word print word }
{
    print.wrapping_mul(FACTOR).wrapping_add(word)
}

fn with_part(print: u64, part: u128) -> u64
    ensures { result ≡ with_part print part }
{
    let low = (part % (1 << 64)) as u64;
    let high = (part >> 64) as u64;
    with_word(with_word(print, low), high)
}

// The upper half of a fingerprint whose bits are mixed: each bit of it stands on all bits below.
#[tactic(auto, unfolding(crate::specs::Cuts::mixed))]
fn mixed(print: u64) -> u32
    ensures { result ≡ mixed print }
{
    (print.wrapping_mul(FACTOR) >> 32) as u32
}

fn same_cut(a: Cut, b: Cut) -> bool
    ensures { result ≡ same_cut a b }
{
    match (a, b) {
        (Cut::Nothing, Cut::Nothing) => true,
        (Cut::Whole, Cut::Whole) => true,
        (Cut::First { dropped: a }, Cut::First { dropped: b }) => a == b,
        (Cut::Under { mask: a }, Cut::Under { mask: b }) => a == b,
        _ => false,
    }
}

/// Whether two lists of tests compare the same parts.
pub(crate) fn same_cuts(a: &[FieldTest], b: &[FieldTest]) -> bool
    ensures { result ≡ same_cuts a.now b.now }
{
    match a {
        [] => b.is_empty(),
        [first, others @ ..] => match b {
            [] => false,
            [other, rest @ ..] => same_cut(cut_of(*first), cut_of(*other))
                && same_cuts(others, rest),
        },
    }
}

/// The fingerprint that each key has that passes the tests, from what it begins with.
pub(crate) fn name_print(print: u64, tests: &[FieldTest]) -> u32
    ensures { result ≡ name_print_from print tests.now }
{
    match tests {
        [] => mixed(print),
        [test, others @ ..] => {
            let part = part(cut_of(*test), value_of(*test));
            name_print(with_part(print, part), others)
        }
    }
}

/// The fingerprint of the parts of a key that the tests compare.
pub(crate) fn key_print(print: u64, tests: &[FieldTest], key: &[u128]) -> u32
    ensures { result ≡ key_print_from print tests.now key.now }
{
    match tests {
        [] => mixed(print),
        [test, others @ ..] => match key {
            [] => mixed(print),
            [value, rest @ ..] => {
                key_print(with_part(print, part(cut_of(*test), *value)), others, rest)
            }
        },
    }
}

/// The bucket of a fingerprint, of so many buckets.
#[tactic(auto, unfolding(crate::specs::Cuts::bucket_of))]
pub(crate) fn bucket_of(count: u32, print: u32) -> u32
    requires { 0 < count }
    ensures bucket { result ≡ bucket_of count print }
    ensures below { result < count }
{
    (u64::from(print) * u64::from(count) >> 32) as u32
}
