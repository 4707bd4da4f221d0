//! The moments that a clock tells.
ghost use Rattle.std.specs.Prelude.{◌≡◌, ◌/◌, ◌^◌, ◌-◌, min, IfOk, OnErr};
ghost use Rattle.std.specs.Duration.{as_nanos};

use std::io;
use std::time::Duration;

/// The moment that a clock told: milliseconds since 1970, and 0 where the clock can't be read or
/// stands before that: no moment that a manager knows goes back by it.
pub fn moment(told: io::Result<Duration>) -> u64
    ensures told { IfOk told (λ time. result ≡ min (as_nanos time / 1_000_000) (2 ^ 64 - 1)) }
    ensures untold { OnErr told (result ≡ 0) }
{
    match told {
        Ok(time) => u64::try_from(time.as_millis()).unwrap_or(u64::MAX),
        Err(_) => 0,
    }
}
