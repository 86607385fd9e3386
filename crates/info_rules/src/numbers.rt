//! What the numbers of a P4Info stand for.
ghost use Rattle.std.specs.Prelude.{◌≡◌, ◌<◌, ◌^◌, IfSome};
ghost use Rattle.info_rules.specs.Numbers.{width_of, size_of, kind_of, scope_of, named};

use p4_types::info::{MatchKind, Scope};

/// A width in bits, 1 to 128.
pub fn width_of(bits: i32) -> Option<u32>
    ensures { result ≡ width_of bits }
{
    if bits < 1 || bits > 128 {
        return None;
    }
    Some(bits as u32)
}

/// A size in rows or cells, as a P4Info gives it by an `int64`; none where it is negative.
pub fn size_of(number: i64) -> Option<u64>
    ensures size { result ≡ size_of number }
    ensures small { IfSome result (λ size. size < 2 ^ 63) }
{
    if number < 0 {
        return None;
    }
    Some(number as u64)
}

/// A size in rows or members, as a P4Info gives it by an `int32`; none where it is negative.
pub fn small_size_of(number: i32) -> Option<u32>
    ensures size { result ≡ size_of number }
    ensures small { IfSome result (λ size. size < 2 ^ 31) }
{
    if number < 0 {
        return None;
    }
    Some(number as u32)
}

/// The match kind of a number of the enumeration `MatchField.MatchType`; none for UNSPECIFIED and numbers without a name.
pub fn kind_of(number: i32) -> Option<MatchKind>
    ensures { result ≡ kind_of number }
{
    match number {
        2 => Some(MatchKind::Exact),
        3 => Some(MatchKind::Lpm),
        4 => Some(MatchKind::Ternary),
        5 => Some(MatchKind::Range),
        6 => Some(MatchKind::Optional),
        _ => None,
    }
}

/// The scope of a number of the enumeration `ActionRef.Scope`; none for a number without a name.
pub fn scope_of(number: i32) -> Option<Scope>
    ensures { result ≡ scope_of number }
{
    match number {
        0 => Some(Scope::TableAndDefault),
        1 => Some(Scope::TableOnly),
        2 => Some(Scope::DefaultOnly),
        _ => None,
    }
}

/// An id, where 0 names nothing.
pub fn named(id: u32) -> Option<u32>
    ensures { result ≡ named id }
{
    if id == 0 { None } else { Some(id) }
}
