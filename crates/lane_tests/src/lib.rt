//! Tests of what threads share - the lanes of a journal, a list of events - and of what waits for controllers.
#![tactic(auto)]

#[cfg(test)]
mod calls;
#[cfg(test)]
mod mail;
#[cfg(test)]
mod told;
