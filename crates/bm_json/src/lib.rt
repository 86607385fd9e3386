//! The raw records of a pipeline in BMv2's JSON form, in this project's profile of it.
#![tactic(auto)]

mod faults;
pub mod laws;
mod left_out;
mod limits;
mod program;
mod scope;

pub use bm_records::raw;
pub use faults::JsonFault;
pub use program::read_json;
