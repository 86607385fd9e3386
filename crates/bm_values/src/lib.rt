//! Values of a program in BMv2's JSON form: fields, headers, literals, widths and expressions.
#![tactic(auto)]

mod expressions;
pub mod kinds;
pub mod literals;
pub mod raw;
pub mod values;

pub use expressions::trees_are_of_their_parts;
