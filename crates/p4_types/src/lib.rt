//! The plain data of the switch: what its calls, events, tapes and reports are made of.
#![tactic(auto)]

pub mod calls;
pub mod code;
pub mod events;
pub mod ids;
pub mod info;
pub mod journal;
pub mod keys;
pub mod messages;
pub mod multicast;
pub mod p4info;
pub mod profiles;
pub mod records;
pub mod shared;
pub mod table;
pub mod tape;
pub mod weights;
