//! Expressions of a pipeline, and the fields that they read (BMv2 JSON form, "expressions").
#![tactic(auto)]

mod expression;
mod fitting;
pub mod laws;
mod meaning;
mod operators;
mod settling;
mod store;

pub use expression::{Number, NumberNode, Truth, TruthNode};
pub use fitting::{Counts, fits, fits_truth};
pub use meaning::{truth, value};
pub use operators::cut;
pub use settling::{is_settled, settled};
pub use store::{FieldPlace, HeaderPlace, Store};
