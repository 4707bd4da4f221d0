//! The numbers of the calls that are told to fail.
ghost use Rattle.std.specs.Prelude.{◌≡◌};
ghost use Rattle.ix_memory.specs.Calls.{is_told, next_call};

use std::marker::Model;

/// The number of the next call, and the numbers of those that are told to fail.
#[derive(Drop)]
pub(crate) struct Calls {
    fail: Vec<u64>,
    number: u64,
}

impl Model for Calls {
    ghost use Rattle.ix_memory.specs.Calls.{CallList};

    ghost Value = { CallList };

    ghost view = { λ calls. record { fail = calls.fail.items; number = calls.number } };
}

impl Calls {
    pub(crate) fn new(fail: Vec<u64>) -> Calls
        ensures { result ≡ record { fail = fail.items; number = 0 } }
    {
        Calls { fail, number: 0 }
    }

    /// The number of the next call, which is how many were made, up to 2^64 - 1.
    pub(crate) fn number(&self) -> u64
        ensures { result ≡ self.now.number }
    {
        self.number
    }

    /// Makes the next call: whether its number stands among those that fail.
    pub(crate) fn next_fails(&mut self) -> bool
        ensures told { result ≡ is_told self.old }
        ensures after { self.new ≡ next_call self.old }
    {
        let is_told = self.fail.contains(&self.number);
        self.number = self.number.saturating_add(1);
        is_told
    }
}
