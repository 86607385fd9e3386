//! Tests of the whole switch: serving over links and ports of the tests' own, and runs with a thread for each lane of a tape. What is
//! expected comes from outside of the crates.
#![tactic(auto)]

#[cfg(test)]
mod counts;
#[cfg(test)]
mod holding;
#[cfg(test)]
mod links;
#[cfg(test)]
mod nets;
#[cfg(test)]
mod ports;
#[cfg(test)]
mod replay;
#[cfg(test)]
mod serve;
#[cfg(test)]
mod stage;
#[cfg(test)]
mod tapes;
