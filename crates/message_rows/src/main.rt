//! Rows of messages: what is read of those of controllers and of those of servers, how those of the switch are spelled,
//! and which rules P4Infos break.
#![tactic(auto)]

mod answers;
mod calls;
mod infos;
mod kinds;
mod sent;
mod shown;

use std::io;

fn main(rt: HostRuntime) -> io::Result<()> {
    row_lines::answer_lines(&rt, kinds::answer)
}
