//! Tests of what threads share.
#![tactic(auto)]

#[cfg(test)]
mod counters;
#[cfg(test)]
mod stamps;
