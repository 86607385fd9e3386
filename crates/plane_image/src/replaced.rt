//! What stood in the place of a plane.
use plane_state::Plane;

/// The planes that were replaced and are not given up yet.
#[derive(Drop)]
pub(crate) enum Replaced {
    Nothing,
    /// The plane that was staged: another is.
    Staged(Option<Plane>),
    /// The plane that was active: the one that was staged is.
    Promoted(Option<Plane>),
    /// Both: a new plane is active, and none is staged.
    Both {
        active: Option<Plane>,
        staged: Option<Plane>,
    },
}
