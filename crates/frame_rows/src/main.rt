//! Rows of the transport's bottom: frames of HTTP/2 that are read and written, and header blocks with the dynamic table
//! behind each.
#![tactic(auto)]

mod blocks;
mod frames;
mod kinds;

use std::io;

fn main(rt: HostRuntime) -> io::Result<()> {
    row_lines::answer_lines(&rt, kinds::answer)
}
