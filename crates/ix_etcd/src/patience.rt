//! How long a request may take.
ghost use Rattle.std.specs.Prelude.{◌≡◌, true};

use std::io;
use std::io::{ErrorKind, Read, Write};
use std::rt::Clock;
use std::time::Duration;

/// How many seconds a request has until it is answered, from its first try on.
const REQUEST_TIME: u64 = 10;

/// How many milliseconds a connect, a write or a read may take.
const STEP_TIME: u64 = 1000;

/// How many milliseconds nothing is asked where no member answered.
const PAUSE_TIME: u64 = 200;

/// The moment at which a request ends, by a clock that never goes back.
#[derive(Clone, Copy, Debug)]
pub(crate) struct Deadline {
    end: Duration,
}

impl Deadline {
    /// Ten seconds from now on. It is over at once where the clock can't be read.
    pub(crate) fn of_request(clock: &impl Clock) -> Deadline {
        let now = clock.monotonic().unwrap_or(Duration::ZERO);
        Deadline {
            end: now.saturating_add(Duration::from_secs(REQUEST_TIME)),
        }
    }

    /// Whether it is over. It is where the clock can't be read.
    pub(crate) fn is_over(&self, clock: &impl Clock) -> bool {
        match clock.monotonic() {
            Ok(now) => now >= self.end,
            Err(_) => true,
        }
    }
}

/// For how long one step waits for the peer.
pub(crate) fn step_time() -> Duration {
    Duration::from_millis(STEP_TIME)
}

/// For how long nothing is asked where no member answered.
pub(crate) fn pause_time() -> Duration {
    Duration::from_millis(PAUSE_TIME)
}

/// A stream whose reads and writes fail once a deadline is over.
#[derive(Drop)]
pub(crate) struct Timed<'a, S, C> {
    pub(crate) stream: &'a mut S,
    pub(crate) clock: &'a C,
    pub(crate) deadline: Deadline,
}

impl<S, C: Clock> Timed<'_, S, C> {
    /// Fails where the deadline is over.
    fn check(&self) -> io::Result<()> {
        if self.deadline.is_over(self.clock) {
            return Err(io::Error::from(ErrorKind::TimedOut));
        }
        Ok(())
    }
}

impl<S: Read, C: Clock> Read for Timed<'_, S, C> {
    fn read(&mut self, buf: &mut [u8]) -> io::Result<usize> {
        self.check()?;
        self.stream.read(buf)
    }
}

impl<S: Write, C: Clock> Write for Timed<'_, S, C> {
    fn write(&mut self, bytes: &[u8]) -> io::Result<usize> {
        self.check()?;
        self.stream.write(bytes)
    }

    fn flush(&mut self) -> io::Result<()> {
        self.stream.flush()
    }
}
