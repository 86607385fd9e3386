//! The rules by which a packet of a controller is refused.

/// Why a packet that a controller sends does not enter. The first rule that it breaks is answered.
#[derive(Clone, Copy)]
pub enum PacketRule {
    /// The caller's session is not the primary of its role.
    P1 = 1,
    /// There is no active plane.
    P2 = 2,
    /// Metadata are unknown, missing, given twice, empty or too wide for their field.
    P3 = 3,
    /// With its header it has more than 9,216 bytes.
    P4 = 4,
}
