//! Why an action isn't prepared, and why a list of actions isn't taken as a history.

ghost use Rattle.std.specs.Prelude.{◌≡◌};
ghost use Rattle.ix_engine.specs.declared.faults.PrepareFault.TheVariants as fault;

use std::alloc::AllocError;

/// Why an action isn't prepared. The first that applies is told.
#[derive(Clone, Copy, Debug, PartialEq, Eq)]
pub enum PrepareFault {
    /// The history extended by the action isn't a partial word.
    NotPartial,
    /// The history has 1,000,000 actions.
    Full,
    /// The tree of the extended history has a Size above the limit.
    Over { limit: usize },
    /// Memory ran out.
    Memory,
}

impl From<AllocError> for PrepareFault {
    ghost from_gives = { λ _ why. why ≡ fault.Memory };

    fn from(_: AllocError) -> PrepareFault {
        PrepareFault::Memory
    }
}

/// Why a list of actions isn't taken as a history: the number, counted from 1, of the first action
/// that isn't taken behind those in front of it, and why it isn't.
#[derive(Clone, Copy, Debug, PartialEq, Eq)]
pub struct ResumeFault {
    pub number: u64,
    pub why: PrepareFault,
}
