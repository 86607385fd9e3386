//! A valid P4Info: the objects of a program, looked up by their ids.
#![tactic(auto)]

mod flaw;
mod index;
mod places;
mod read;
mod resolve;
mod valid;
mod write;

pub use flaw::InfoFault;
pub use read::read_info;
pub use valid::P4Info;
pub use write::write_info;
