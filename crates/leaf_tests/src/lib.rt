//! Tests of the public items of the crates at the bottom that no row can say. What is expected comes from outside of them.
#![tactic(auto)]

#[cfg(test)]
mod edge;
#[cfg(test)]
mod expressions;
