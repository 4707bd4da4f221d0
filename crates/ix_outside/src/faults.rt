//! What the calls of the outside answer in place of Ok.
ghost use Rattle.std.specs.Prelude.{◌≡◌};
ghost use Rattle.ix_outside.specs.declared.faults.LoadFault.TheVariants.{Memory};

use std::alloc::AllocError;

/// Why a file wasn't loaded.
#[derive(Clone, Copy, Debug, PartialEq, Eq)]
pub enum LoadFault {
    /// It isn't there or couldn't be read; the count of faults rose.
    Failed,
    /// It has more bytes than the limit.
    TooLong,
    /// There was no memory for its bytes.
    Memory,
}

impl From<AllocError> for LoadFault {
    ghost from_gives = { λ _ fault. fault ≡ Memory };

    fn from(_: AllocError) -> Self {
        LoadFault::Memory
    }
}

/// A put failed: some front of its bytes may have gone out.
#[derive(Clone, Copy, Debug, PartialEq, Eq)]
pub struct Failed;

/// A call of `listen` or `next` failed.
#[derive(Clone, Copy, Debug, PartialEq, Eq)]
pub struct WireFailed;

/// The peer of a send is gone: some front of the bytes may have been sent.
#[derive(Clone, Copy, Debug, PartialEq, Eq)]
pub struct Gone;

/// A call of the disk failed.
#[derive(Clone, Copy, Debug, PartialEq, Eq)]
pub struct DiskFailed;
