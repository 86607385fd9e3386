//! Rows of device configurations: what is read of a program, by itself or under a P4Info.
//!
//! - `program` is a file: `ok`, or the rule that it breaks first of those that ask for the program alone, and of L1 the member.
//! - `text` is what `program` says of a text.
//! - `limit` is a file, the beginning of a list in it, an item, and a count, at which the list is as long as it may be: what
//!   `program` says of it with so many items put there, and with one more.
//! - `link` is a P4Info and a file: `ok`, or the first of L1 to L15 that is broken.
//! - `changed` is what `program` or `link` has, and two texts: the same of the program with the second in the place of the first,
//!   where that first stands.
#![tactic(auto)]

mod files;
mod kinds;
mod rules;

use std::alloc::Global;
use std::io;

fn main(rt: HostRuntime) -> io::Result<()> {
    row_lines::answer_lines(
        &rt,
        |_alloc: Global, kind: &str, asked: &[&str], told: &mut String| {
            kinds::answer(&rt, kind, asked, told)
        },
    )
}
