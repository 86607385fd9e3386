//! Why nothing is read of a JSON value.
ghost use Rattle.std.specs.Prelude.{◌≡◌};
ghost use Rattle.list_types.specs.declared.memory.Refusal.TheVariants as refusals;

use list_types::Refusal;

/// A member is missing or of another shape.
#[derive(Clone, Copy, Debug)]
pub struct OtherShape;

impl From<OtherShape> for Refusal<OtherShape> {
    ghost from_gives = { λ shape e. e ≡ refusals.For shape };

    fn from(shape: OtherShape) -> Refusal<OtherShape> {
        Refusal::For(shape)
    }
}
