//! Calculations and checksums.
use crate::headers::FieldRef;
use bm_expr::{FieldPlace, Truth};
use list_types::List;

/// What a calculation takes in.
#[derive(Clone, Copy)]
pub enum CalculationInput {
    Field(FieldRef),
    /// A number of so many bits, 1 to 128; its lowest bits are taken.
    Literal { value: u128, width: u32 },
}

/// A `csum16` of its inputs, laid end to end.
#[derive(Drop)]
pub struct Calculation {
    pub input: List<CalculationInput>,
}

#[derive(Drop)]
pub struct Checksum {
    pub target: FieldPlace,
    /// The place of its calculation among the calculations.
    pub calculation: usize,
    pub update: bool,
    pub verify: bool,
    /// Where this does not hold, it is neither verified nor updated.
    pub if_cond: Option<Truth>,
}
