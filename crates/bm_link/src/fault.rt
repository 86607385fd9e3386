//! Why nothing is linked.

/// The rule of L1 to L15 that is broken first, by its number.
#[derive(Clone, Copy, Drop)]
pub struct LinkFault {
    pub rule: u8,
}
