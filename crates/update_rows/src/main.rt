//! Rows of updates: the rule that each breaks first, and what stands behind those that break none.
#![tactic(auto)]

mod drafts;
mod images;
mod kinds;
mod pipeline;
mod resolved;
mod shown;
mod updates;

use std::alloc::Global;
use std::io;

fn main(rt: HostRuntime) -> io::Result<()> {
    row_lines::answer_lines(
        &rt,
        |_alloc: Global, kind: &str, asked: &[&str], told: &mut String| {
            kinds::answer(&rt, kind, asked, told)
        },
    )
}
