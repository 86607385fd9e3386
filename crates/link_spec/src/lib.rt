//! What a device configuration is linked to where it breaks no rule: each name of a program in BMv2's JSON form resolved
//! to the place of what it stands for.
#![tactic(auto)]

pub mod laws;
