//! Runs the connections of its standard input, a line each, and prints what each gives and sends.
//!
//! A line is a name, and then what happens in turn: `feed=BYTES` (they come), `again=BYTES` (they come, and
//! a code is told again), `headers=STREAM:open:NAME=VALUE,..`, `headers=STREAM:end:NAME=VALUE,..`,
//! `data=STREAM:BYTES`, `sent` (what is to be sent is taken and told) and `took` (it is taken, and its length told). BYTES,
//! names and values are parts between `+`, each hex, or hex, `*` and how many times. The answer is the
//! name, the events, the code of a breach, and at the end `sent=HEX`. Each line is also run with its bytes one by
//! one, and the answer says so where that gives another. A line that begins with `every-cut` is run with one cut at each
//! place of its bytes, and the answer counts those that give the same.
#![tactic(auto)]

mod row;
mod text;

use std::io;

fn main(rt: HostRuntime) -> io::Result<()> {
    for line in rt.lines(rt.alloc()) {
        let line = line?;
        let answer = row::answer(rt.alloc(), line.as_str());
        println!(rt; "{}", row::shown(&answer))?;
    }
    Ok(())
}
