//! Tables of rows that stand in files: a question a line, its parts between tabs, and what is answered to it.
#![tactic(auto)]

mod answering;
mod parts;
mod telling;

pub use answering::{NoAnswer, answer_lines};
pub use parts::{Step, bytes, numbers, steps};
pub use telling::{say, tell, tell_hex};
