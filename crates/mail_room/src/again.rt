//! What goes with the notices of a call.
ghost use Rattle.std.specs.Prelude.{◌≡◌};

/// What a call has told, of which each of its notices has a copy.
pub trait Again {
    /// A copy. It takes no memory.
    fn again(&self) -> Self
        ensures { result ≡ self.now };
}
