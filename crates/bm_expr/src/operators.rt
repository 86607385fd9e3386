//! Shifts and cuts of 128 bits that are defined for every amount.
ghost use Rattle.std.specs.Prelude.{◌≡◌, ◌*◌, ◌/◌, ◌%◌, ◌^◌, ◌<◌, ◌≤◌};

/// The lowest `width` bits of a number, which a field of this width has room for.
#[tactic(auto, using(crate::proofs::Shifts::masked, crate::proofs::Shifts::cut_fits))]
pub fn cut(value: u128, width: u32) -> u128
    requires width { width ≤ 128 }
    ensures number { result ≡ value % 2 ^ width }
    ensures fits { result < 2 ^ width }
{
    if width < 128 {
        value & ((1 << width) - 1)
    } else {
        value
    }
}

/// A left shift, which is 0 from 128 on.
#[tactic(auto, using(crate::proofs::Shifts::left_out))]
pub fn shifted_left(value: u128, amount: u128) -> u128
    ensures { result ≡ (value * 2 ^ amount) % 2 ^ 128 }
{
    if amount < 128 {
        value << amount as u32
    } else {
        0
    }
}

/// A right shift, which is 0 from 128 on.
#[tactic(auto, using(crate::proofs::Shifts::right_out))]
pub fn shifted_right(value: u128, amount: u128) -> u128
    ensures { result ≡ value / 2 ^ amount }
{
    if amount >= 128 {
        0
    } else {
        value >> amount as u32
    }
}
