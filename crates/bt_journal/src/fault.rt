//! Why a call of a store failed.
ghost use Rattle.std.specs.Prelude.{◌≡◌};
ghost use Rattle.bt_journal.specs.declared.fault.Fault.TheVariants.{Failed, OutOfMemory};

use crate::disk::DiskFailed;
use std::alloc::{AllocError, AllocFailed};

/// Why a call of a store failed.
#[derive(Clone, Copy, Debug, Drop, PartialEq, Eq)]
pub enum Fault {
    /// An allocation failed.
    OutOfMemory,
    /// A call of the disk failed.
    Failed,
    /// The file or the payload is too long.
    TooLong,
    /// The store is closed: an earlier call failed. Open the file again.
    Closed,
    /// The file does not begin with a head.
    NotAJournal,
    /// The file has another format.
    OtherFormat,
    /// Another engine wrote the file.
    OtherEngine,
    /// The file is damaged: there is a frame after the end of its frames.
    Damaged,
}

impl From<AllocError> for Fault {
    ghost from_gives = { λ _ e. e ≡ OutOfMemory };

    fn from(_: AllocError) -> Self {
        Fault::OutOfMemory
    }
}

impl<T: Drop> From<AllocFailed<T>> for Fault {
    ghost from_gives = { λ _ e. e ≡ OutOfMemory };

    fn from(_: AllocFailed<T>) -> Self {
        Fault::OutOfMemory
    }
}

impl From<DiskFailed> for Fault {
    ghost from_gives = { λ _ e. e ≡ Failed };

    fn from(_: DiskFailed) -> Self {
        Fault::Failed
    }
}
