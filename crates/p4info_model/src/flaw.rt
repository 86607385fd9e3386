//! The refusal of a P4Info.

/// The rule that a P4Info breaks first: 1 where its bytes are not read, else 2 to 9.
#[derive(Clone, Copy, Debug)]
pub struct InfoFault {
    pub rule: u8,
}
