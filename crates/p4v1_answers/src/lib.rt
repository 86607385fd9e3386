//! What a server of P4Runtime sends, read by the fields of its messages.
#![tactic(auto)]

mod answers;
mod borrowed;
mod failures;
pub mod laws;
mod reading;
mod stream;

pub use answers::{Answer, read_answer};
pub use failures::{errors_of, read_status};
