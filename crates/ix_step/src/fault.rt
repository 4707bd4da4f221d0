//! Why a tree was not built.

ghost use Rattle.std.specs.Prelude.{◌≡◌};
ghost use Rattle.ix_step.specs.declared.fault.Unbuilt.TheVariants.{Memory};

use std::alloc::{AllocError, AllocFailed};

/// Why a tree was not built.
#[derive(Clone, Copy, Debug, PartialEq, Eq, Drop)]
pub enum BuildFault {
    /// Its Size would be above the limit.
    Over { limit: usize },
    /// Memory ran out.
    Memory,
}

/// Why a part of a tree was not built.
#[derive(Clone, Copy, Drop)]
pub(crate) enum Unbuilt {
    /// It would make the whole larger than the limit.
    Over,
    /// Memory ran out.
    Memory,
}

impl From<AllocError> for Unbuilt {
    ghost from_gives = { λ _ unbuilt. unbuilt ≡ Memory };

    fn from(_error: AllocError) -> Unbuilt {
        Unbuilt::Memory
    }
}

impl<T: Drop> From<AllocFailed<T>> for Unbuilt {
    ghost from_gives = { λ _ unbuilt. unbuilt ≡ Memory };

    fn from(_error: AllocFailed<T>) -> Unbuilt {
        Unbuilt::Memory
    }
}
