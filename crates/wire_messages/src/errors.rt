//! Why a message is not read.
ghost use Rattle.std.specs.Prelude.{◌≡◌};
ghost use Rattle.list_types.specs.declared.memory.Refusal.TheVariants as refusals;

use list_types::Refusal;

/// Bytes are no message, or a field has another type or value than its own.
#[derive(Clone, Copy, Debug)]
pub struct Unreadable;

impl From<Unreadable> for Refusal<Unreadable> {
    ghost from_gives = { λ cause e. e ≡ refusals.For cause };

    fn from(cause: Unreadable) -> Refusal<Unreadable> {
        Refusal::For(cause)
    }
}
