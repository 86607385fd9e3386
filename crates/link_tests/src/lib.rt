//! Tests of a link that is served over links and ports in memory. What is expected comes from outside of the crates.
#![tactic(auto)]

#[cfg(test)]
mod links;
#[cfg(test)]
mod noting;
#[cfg(test)]
mod quiet;
