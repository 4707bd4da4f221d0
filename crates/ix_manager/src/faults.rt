//! What starting a manager and handling an event answer.

ghost use Rattle.std.specs.Prelude.{◌≡◌};
ghost use Rattle.ix_manager.specs.declared.faults.StartFault.TheVariants as fault;
ghost use Rattle.ix_manager.specs.inside.StartFaults.{start_fault_of, open_fault_of};
ghost use Rattle.ix_manager.specs.inside.StartFaults.{record_fault_of};

use ix_engine::{PrepareFault, ResumeFault};
use ix_outside::DiskFailed;
use ix_step::BuildFault;
use ix_store::OpenFault;
use std::alloc::AllocError;

/// Whether the run goes on.
#[derive(Clone, Copy, Debug, PartialEq, Eq)]
pub enum Go {
    /// Further events may be handled.
    More,
    /// A line was `stop`: no further event is handled.
    Stopped,
}

/// Why the run ended before its time.
#[derive(Clone, Copy, Debug, PartialEq, Eq)]
pub enum Stop {
    /// The disk failed while a confirmed action was appended to the journal, which is to be started
    /// from again.
    Disk,
}

/// Why a manager wasn't started. The first that applies is told. The records of actions are counted
/// from 1, without the boots.
#[derive(Drop, Debug)]
pub enum StartFault {
    /// The Size of the expression's initial tree is above this limit.
    Large { limit: usize },
    /// A call of the disk failed.
    Disk,
    /// The file is no journal.
    Foreign,
    /// The file is the journal of another expression, whose text it keeps.
    Other { kept: Vec<u8> },
    /// The open gate in front of this place isn't followed by a whole record that may stand there
    /// and a further gate.
    Damaged { at: usize },
    /// There are a million boots, or a record is open behind a million actions or a million boots.
    Many,
    /// With the record of this number the history isn't partial.
    Word { number: u64 },
    /// With the record of this number the Size of the history's tree is above this limit.
    Heavy { number: u64, limit: usize },
    /// Memory ran out.
    Memory,
}

impl From<AllocError> for StartFault {
    ghost from_gives = { λ _ why. why ≡ fault.Memory };

    fn from(_: AllocError) -> StartFault {
        StartFault::Memory
    }
}

impl From<DiskFailed> for StartFault {
    ghost from_gives = { λ _ why. why ≡ fault.Disk };

    fn from(_: DiskFailed) -> StartFault {
        StartFault::Disk
    }
}

impl From<BuildFault> for StartFault {
    ghost from_gives = { λ fault why. why ≡ start_fault_of fault };

    fn from(fault: BuildFault) -> StartFault {
        match fault {
            BuildFault::Over { limit } => StartFault::Large { limit },
            BuildFault::Memory => StartFault::Memory,
        }
    }
}

impl From<OpenFault> for StartFault {
    ghost from_gives = { λ fault why. why ≡ open_fault_of fault };

    fn from(fault: OpenFault) -> StartFault {
        match fault {
            OpenFault::Disk => StartFault::Disk,
            OpenFault::NotJournal => StartFault::Foreign,
            OpenFault::OtherExpression { kept } => StartFault::Other { kept },
            OpenFault::Damaged { at } => StartFault::Damaged { at },
            OpenFault::Many => StartFault::Many,
            OpenFault::Memory => StartFault::Memory,
        }
    }
}

impl From<ResumeFault> for StartFault {
    ghost from_gives = { λ fault why. why ≡ record_fault_of fault.number fault.why };

    fn from(fault: ResumeFault) -> StartFault {
        let number = fault.number;
        match fault.why {
            PrepareFault::NotPartial => StartFault::Word { number },
            PrepareFault::Full => StartFault::Many,
            PrepareFault::Over { limit } => StartFault::Heavy { number, limit },
            PrepareFault::Memory => StartFault::Memory,
        }
    }
}
