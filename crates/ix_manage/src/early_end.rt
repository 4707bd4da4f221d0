//! Why a run ends before it has its answer.
ghost use Rattle.std.specs.Prelude.{◌≡◌};
ghost use Rattle.ix_manage.specs.declared.early_end.EarlyEnd.TheVariants.{Output, Refused};
ghost use Rattle.ix_manage.specs.declared.refusal.Refusal.TheVariants.{Disk, Memory, Wire};

use crate::refusal::Refusal;
use ix_outside::{DiskFailed, Failed, WireFailed};
use std::alloc::AllocError;

/// Why a run ends before it has its answer. Each fault becomes one by `?`.
#[derive(Drop)]
pub(crate) enum EarlyEnd {
    /// A line is to be put that says why.
    Refused(Refusal),
    /// A text is to be put that says why the words name no job.
    Words { text: String },
    /// A line is to be put that says that the journal is that of another expression, with its text.
    OtherExpression { kept: Vec<u8> },
    /// A put failed.
    Output,
}

impl From<Refusal> for EarlyEnd {
    ghost from_gives = { λ refusal end. end ≡ Refused refusal };

    fn from(refusal: Refusal) -> EarlyEnd {
        EarlyEnd::Refused(refusal)
    }
}

impl From<AllocError> for EarlyEnd {
    ghost from_gives = { λ _ end. end ≡ Refused Memory };

    fn from(_: AllocError) -> EarlyEnd {
        EarlyEnd::Refused(Refusal::Memory)
    }
}

impl From<Failed> for EarlyEnd {
    ghost from_gives = { λ _ end. end ≡ Output };

    fn from(_: Failed) -> EarlyEnd {
        EarlyEnd::Output
    }
}

impl From<DiskFailed> for EarlyEnd {
    ghost from_gives = { λ _ end. end ≡ Refused Disk };

    fn from(_: DiskFailed) -> EarlyEnd {
        EarlyEnd::Refused(Refusal::Disk)
    }
}

impl From<WireFailed> for EarlyEnd {
    ghost from_gives = { λ _ end. end ≡ Refused Wire };

    fn from(_: WireFailed) -> EarlyEnd {
        EarlyEnd::Refused(Refusal::Wire)
    }
}
