//! Want of memory, and refusals beside it.
use std::alloc::{AllocError, AllocFailed};

/// There was no memory for a call.
#[derive(Clone, Copy, Debug)]
pub struct NoMemory;

impl From<AllocError> for NoMemory {
    fn from(_: AllocError) -> NoMemory {
        NoMemory
    }
}

impl<T: Drop> From<AllocFailed<T>> for NoMemory {
    fn from(failed: AllocFailed<T>) -> NoMemory {
        drop(failed);
        NoMemory
    }
}

/// Why a call was not done: for a cause, or for want of memory.
#[derive(Clone, Copy, Drop)]
pub enum Refusal<C> {
    NoMemory,
    For(C),
}

impl<C> From<NoMemory> for Refusal<C> {
    ghost use Rattle.std.specs.Prelude.{◌≡◌};
    ghost use Rattle.list_types.specs.declared.memory.Refusal.TheVariants as refusals;

    ghost from_gives = { λ _ e. e ≡ refusals.NoMemory };

    fn from(_: NoMemory) -> Refusal<C> {
        Refusal::NoMemory
    }
}

impl<C> From<AllocError> for Refusal<C> {
    ghost use Rattle.std.specs.Prelude.{◌≡◌};
    ghost use Rattle.list_types.specs.declared.memory.Refusal.TheVariants as refusals;

    ghost from_gives = { λ _ e. e ≡ refusals.NoMemory };

    fn from(_: AllocError) -> Refusal<C> {
        Refusal::NoMemory
    }
}

impl<C, T: Drop> From<AllocFailed<T>> for Refusal<C> {
    ghost use Rattle.std.specs.Prelude.{◌≡◌};
    ghost use Rattle.list_types.specs.declared.memory.Refusal.TheVariants as refusals;

    ghost from_gives = { λ _ e. e ≡ refusals.NoMemory };

    fn from(failed: AllocFailed<T>) -> Refusal<C> {
        drop(failed);
        Refusal::NoMemory
    }
}
