//! What tells a row from the others, and which rows a key hits.
ghost use Rattle.std.specs.Prelude.{◌≡◌, ◌==◌, ◌&&◌};
ghost use Rattle.plane_spec.specs.Entries.{same_test, same_tests, same_name, prefix_bits, passes, all_pass, prefix_length};

use p4_types::keys::FieldTest;
use p4_types::table::EntryName;

fn same_test(a: FieldTest, b: FieldTest) -> bool
    ensures { result ≡ same_test a b }
{
    match (a, b) {
        (FieldTest::Any, FieldTest::Any) => true,
        (FieldTest::Equal(a), FieldTest::Equal(b)) => a == b,
        (
            FieldTest::Prefix {
                value: a,
                length: l,
                width: w,
            },
            FieldTest::Prefix {
                value: b,
                length: m,
                width: v,
            },
        ) => a == b && l == m && w == v,
        (FieldTest::Masked { value: a, mask: m }, FieldTest::Masked { value: b, mask: n }) => {
            a == b && m == n
        }
        (FieldTest::Between { low: a, high: m }, FieldTest::Between { low: b, high: n }) => {
            a == b && m == n
        }
        _ => false,
    }
}

fn same_tests(a: &[FieldTest], b: &[FieldTest]) -> bool
    ensures { result ≡ same_tests a.now b.now }
{
    match a {
        [] => b.is_empty(),
        [first, others @ ..] => match b {
            [] => false,
            [other, rest @ ..] => same_test(*first, *other) && same_tests(others, rest),
        },
    }
}

/// Whether two names have the same table, match and priority.
pub(crate) fn same_name(a: &EntryName, b: &EntryName) -> bool
    ensures { result ≡ same_name a.now b.now }
{
    a.table == b.table
        && a.priority == b.priority
        && same_tests(a.tests.as_slice(), b.tests.as_slice())
}

/// The first `length` bits of a number of `width` bits.
fn prefix_bits(length: u32, width: u32, value: u128) -> u128
    ensures { result ≡ prefix_bits length width value }
{
    let others = width.saturating_sub(length);
    if others < 128 { value >> others } else { 0 }
}

fn passes(test: FieldTest, key: u128) -> bool
    ensures { result ≡ passes test key }
{
    match test {
        FieldTest::Any => true,
        FieldTest::Equal(value) => key == value,
        FieldTest::Prefix {
            value,
            length,
            width,
        } => prefix_bits(length, width, key) == prefix_bits(length, width, value),
        FieldTest::Masked { value, mask } => key & mask == value & mask,
        FieldTest::Between { low, high } => low <= key && key <= high,
    }
}

fn all_pass(tests: &[FieldTest], key: &[u128]) -> bool
    ensures { result ≡ all_pass tests.now key.now }
{
    match tests {
        [] => key.is_empty(),
        [test, others @ ..] => match key {
            [] => false,
            [value, rest @ ..] => passes(*test, *value) && all_pass(others, rest),
        },
    }
}

/// Whether a row of that name is one of the table's that the key hits.
pub(crate) fn hits(table: u32, key: &[u128], name: &EntryName) -> bool
    ensures { result ≡ (name.now.table == table && all_pass name.now.tests key.now) }
{
    name.table == table && all_pass(name.tests.as_slice(), key)
}

/// The length of the prefix of the first longest-prefix field, in bits, or 0.
pub(crate) fn prefix_length(tests: &[FieldTest]) -> u32
    ensures { result ≡ prefix_length tests.now }
{
    match tests {
        [] => 0,
        [FieldTest::Prefix { length, .. }, ..] => *length,
        [_, others @ ..] => prefix_length(others),
    }
}
