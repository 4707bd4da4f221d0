//! Why a journal wasn't opened.

ghost use Rattle.std.specs.Prelude.{◌≡◌};
ghost use Rattle.ix_store.specs.declared.fault.OpenFault.TheVariants as fault;

use ix_outside::DiskFailed;
use std::alloc::AllocError;

/// Why a journal wasn't opened.
#[derive(Drop, Debug)]
pub enum OpenFault {
    /// A call of the disk failed; the count of disk faults rose.
    Disk,
    /// The file is no journal.
    NotJournal,
    /// It is the journal of another expression, whose text it keeps.
    OtherExpression { kept: Vec<u8> },
    /// The open gate in front of this place isn't followed by a whole record that may stand there
    /// and a further gate.
    Damaged { at: usize },
    /// The 1,000,001st record of an action is open, or the 1,000,001st boot; or 1,000,000 boots are
    /// there, so that there is no room for another.
    Many,
    /// There was no memory for the front of the file, the history, the header or the text kept.
    Memory,
}

impl From<AllocError> for OpenFault {
    ghost from_gives = { λ _ why. why ≡ fault.Memory };

    fn from(_: AllocError) -> OpenFault {
        OpenFault::Memory
    }
}

impl From<DiskFailed> for OpenFault {
    ghost from_gives = { λ _ why. why ≡ fault.Disk };

    fn from(_: DiskFailed) -> OpenFault {
        OpenFault::Disk
    }
}
