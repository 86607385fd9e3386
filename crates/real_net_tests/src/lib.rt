//! Tests of the adapters over the system's sockets on 127.0.0.1, and over a flag that another thread sets.
#![tactic(auto)]

#[cfg(test)]
mod links;
#[cfg(test)]
mod packets;
#[cfg(test)]
mod places;
#[cfg(test)]
mod stops;
#[cfg(test)]
mod waits;
#[cfg(test)]
mod wakes;
