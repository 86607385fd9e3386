//! What a connection makes its calls with.
use list_types::NoMemory;
use live_desk::{Naming, Pass};
use pkt_worker::Verdict;
use std::alloc::Global;

/// What makes the calls of a connection, with the memory that the packets need which they make enter, while these run.
#[derive(Drop)]
pub struct LinkPass<J: Naming> {
    pub pass: Pass<J>,
    pub verdict: Verdict,
}

/// These passes, each with the memory that its packets need, in their order.
pub fn with_verdicts<J: Naming>(
    alloc: Global,
    passes: Vec<Pass<J>>,
) -> Result<Vec<LinkPass<J>>, NoMemory> {
    let mut links = Vec::new(alloc);
    for pass in passes {
        let verdict = Verdict::open(alloc)?;
        links.push(LinkPass { pass, verdict })?;
    }
    Ok(links)
}
