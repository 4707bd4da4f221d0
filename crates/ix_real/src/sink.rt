//! Standard output.
ghost use Rattle.std.specs.Prelude.{◌≡◌};
ghost use Rattle.ix_real.specs.inside.Untold.{untold_sink};

use crate::faults::count_fault;
use ix_outside::{Failed, Sink};
use std::io;
use std::io::Write;
use std::marker::Model;

/// Standard output. Its bytes go out in the call that puts them.
#[derive(Drop)]
pub struct RealSink<'a, R> {
    rt: &'a R,
    faults: u64,
}

/// Contracts see how many puts failed.
impl<'a, R> Model for RealSink<'a, R> {
    ghost use Rattle.std.specs.Prelude.{ℕ};

    ghost Value = { ℕ };

    ghost view = { λ sink. sink.faults };
}

impl<'a, R: Print> RealSink<'a, R> {
    /// None failed yet.
    pub fn new(rt: &'a R) -> Self
        ensures { result ≡ 0 }
    {
        RealSink { rt, faults: 0 }
    }
}

impl<R: Print> Sink for RealSink<'_, R> {
    ghost state = { untold_sink };

    fn put(&mut self, bytes: &[u8]) -> Result<(), Failed> {
        if io::writer(self.rt).write_all(bytes).is_ok() {
            return Ok(());
        }
        count_fault(&mut self.faults);
        Err(Failed)
    }
}
