//! Why there are no raw records.
use list_types::Text;

/// The rule of a configuration that is broken first: L1 by 1, and so on. The place is for people.
#[derive(Drop)]
pub struct JsonFault {
    pub rule: u8,
    pub at: Text,
}
