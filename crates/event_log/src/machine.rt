//! What events do to a state.

/// A state that events of type E change, one after the other.
pub trait Machine<E> {
    // The state before the first event.
    ghost start: { Self };
    // The state after an event.
    ghost applied: { Self → E → Self };
    // Which event may come in a state.
    ghost may: { Self → E → Type 0 };
}
