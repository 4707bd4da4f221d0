//! Why a journal wasn't renewed.

ghost use Rattle.std.specs.Prelude.{◌≡◌};
ghost use Rattle.ix_renew.specs.declared.fault.RenewalFault.TheVariants as fault;
ghost use Rattle.ix_renew.specs.inside.Faults.{making_fault_of, action_fault_of, engine_fault_of};

use ix_engine::{PrepareFault, ResumeFault};
use ix_outside::DiskFailed;
use ix_step::BuildFault;
use ix_store::RenewFault;
use std::alloc::AllocError;

/// Why a journal wasn't renewed. Records are counted from 1.
#[derive(Drop, Debug)]
pub enum RenewalFault {
    /// The initial tree is above this limit of Size.
    Large { limit: usize },
    /// The file is no journal.
    Foreign,
    /// It is the journal of another expression, whose text it keeps.
    Other { kept: Vec<u8> },
    /// It is the journal of no run yet: unfinished, or never opened.
    Unopened,
    /// The open gate in front of this place isn't followed by a whole record that may stand there
    /// and a further gate.
    Damaged { at: usize },
    /// It has too many records, or its count or its boots are above 2^63.
    Many,
    /// With the record of this number the history isn't partial.
    Word { number: u64 },
    /// With the record of this number the Size of the history's tree is above this limit.
    Heavy { number: u64, limit: usize },
    /// The new file has a byte.
    There,
    /// A call of the disk failed; the count of disk faults rose.
    Disk,
    /// There was no memory.
    Memory,
}

impl From<AllocError> for RenewalFault {
    ghost from_gives = { λ _ why. why ≡ fault.Memory };

    fn from(_: AllocError) -> RenewalFault {
        RenewalFault::Memory
    }
}

impl From<DiskFailed> for RenewalFault {
    ghost from_gives = { λ _ why. why ≡ fault.Disk };

    fn from(_: DiskFailed) -> RenewalFault {
        RenewalFault::Disk
    }
}

impl From<BuildFault> for RenewalFault {
    ghost from_gives = { λ fault why. why ≡ engine_fault_of fault };

    fn from(fault: BuildFault) -> RenewalFault {
        match fault {
            BuildFault::Over { limit } => RenewalFault::Large { limit },
            BuildFault::Memory => RenewalFault::Memory,
        }
    }
}

impl From<ResumeFault> for RenewalFault {
    ghost from_gives = { λ fault why. why ≡ action_fault_of fault.number fault.why };

    fn from(fault: ResumeFault) -> RenewalFault {
        let number = fault.number;
        match fault.why {
            PrepareFault::NotPartial => RenewalFault::Word { number },
            PrepareFault::Full => RenewalFault::Many,
            PrepareFault::Over { limit } => RenewalFault::Heavy { number, limit },
            PrepareFault::Memory => RenewalFault::Memory,
        }
    }
}

impl From<RenewFault> for RenewalFault {
    ghost from_gives = { λ fault why. why ≡ making_fault_of fault };

    fn from(fault: RenewFault) -> RenewalFault {
        match fault {
            RenewFault::There => RenewalFault::There,
            RenewFault::Disk => RenewalFault::Disk,
            RenewFault::Memory => RenewalFault::Memory,
        }
    }
}
