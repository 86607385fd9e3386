// The clock.
use std::time::Clock;

/// The moment of the clock in nanoseconds, or 0 where it tells none.
pub fn nanoseconds<T: Clock>(rt: &T) -> u128 {
    match rt.monotonic() {
        Ok(moment) => moment.as_nanos(),
        Err(_) => 0,
    }
}
