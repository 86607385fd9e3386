//! The members and groups of the action profiles of a plane, in place, with how often each is named.
#![tactic(auto)]

mod groups;
mod members;
mod rows;
mod sets;
mod store;

pub use rows::{GroupRow, MemberRow, SetCount};
pub use store::ProfileStore;
