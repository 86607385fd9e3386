//! Whether quiet links are to make room for others.

/// What asks a quiet link to make room for another one.
pub trait Room {
    /// Told since which moment a link has been quiet for long, in nanoseconds, or that it has not: whether the link is to make room.
    fn is_wanted(&mut self, quiet_since: Option<u64>) -> bool;
}

/// Where there is room for each link.
#[derive(Clone, Copy)]
pub struct EnoughRoom;

impl Room for EnoughRoom {
    fn is_wanted(&mut self, _quiet_since: Option<u64>) -> bool {
        false
    }
}
