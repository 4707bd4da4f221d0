//! The time for which somebody is silent.
use std::rt::Clock;
use std::time::Duration;

/// The time since some start. Where the clock can't be read it is 0, so nobody is silent then.
pub(crate) fn now(clock: &impl Clock) -> Duration {
    clock.monotonic().unwrap_or(Duration::ZERO)
}
