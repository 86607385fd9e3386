//! A snapshot that is kept.
ghost use Rattle.std.specs.Prelude.{◌≡◌};

use pub_snap::View;

/// A snapshot that is kept for so many packets more, of a viewer that was refused so often.
pub struct Stay {
    pub(crate) view: View,
    pub(crate) left: u32,
    pub(crate) refusals: u64,
    ghost counted: { refusals ≡ view.refusals },
}
