//! Rows of the leaves: what their public calls answer to the questions of the standard input.
#![tactic(auto)]

mod edge;
mod expressions;
mod idle;
mod kinds;
mod lists;
mod numbers;
mod roles;
mod samples;
mod wire;

use std::io;

fn main(rt: HostRuntime) -> io::Result<()> {
    row_lines::answer_lines(&rt, kinds::answer)
}
