//! Why calls are refused.
use p4_types::code::{Code, ConfigRule};

/// Why a pipeline is not set: its configuration breaks a rule, or a code alone.
#[derive(Clone, Copy)]
pub enum SetRefusal {
    Breaks(ConfigRule),
    Fails(Code),
}
