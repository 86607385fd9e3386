//! What a forwarding pipeline's configuration means, or the first rule that it breaks: of its P4Info, or of its program
//! under it.
#![tactic(auto)]

mod meaning;

pub use meaning::{config_flaw, configuration};
