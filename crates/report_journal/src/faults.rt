//! Why a journal's call is refused, and what a mend found.
use house_io::Failed;
use std::alloc::{AllocError, AllocFailed};

/// Why a call on a journal is refused.
#[derive(Clone, Copy, Debug, PartialEq, Eq)]
pub enum JournalFault {
    /// The record would end at this offset, which is past the greatest.
    Full(u32),
    /// The disk failed.
    DiskFault,
    /// An earlier record is in doubt.
    NotMended,
    /// There was no memory for it; nothing was written.
    NoMemory,
}

impl From<AllocError> for JournalFault {
    ghost use Rattle.std.specs.Prelude.{◌≡◌};
    ghost use Rattle.report_journal.specs.declared.faults.JournalFault.TheVariants.{NoMemory};

    ghost from_gives = { λ _ e. e ≡ NoMemory };

    fn from(_: AllocError) -> Self {
        JournalFault::NoMemory
    }
}

impl<T: Drop> From<AllocFailed<T>> for JournalFault {
    ghost use Rattle.std.specs.Prelude.{◌≡◌};
    ghost use Rattle.report_journal.specs.declared.faults.JournalFault.TheVariants.{NoMemory};

    ghost from_gives = { λ _ e. e ≡ NoMemory };

    fn from(_: AllocFailed<T>) -> Self {
        JournalFault::NoMemory
    }
}

impl From<Failed> for JournalFault {
    ghost use Rattle.std.specs.Prelude.{◌≡◌};
    ghost use Rattle.report_journal.specs.declared.faults.JournalFault.TheVariants.{DiskFault};

    ghost from_gives = { λ _ e. e ≡ DiskFault };

    fn from(_: Failed) -> Self {
        JournalFault::DiskFault
    }
}

/// What became of the record in doubt.
#[derive(Clone, Copy, Debug, PartialEq, Eq)]
pub enum Mended {
    /// None was in doubt.
    Nothing,
    /// Its gate is open: it counts.
    Counted,
    /// Its gate is closed: it is as if it had never been put.
    Dropped,
}

/// A disk on which no journal could be formed, with the reason: `DiskFault` or `NoMemory`.
#[derive(Drop)]
pub struct NotFormed<D> {
    /// The disk that was given, handed back. After `DiskFault` a part of a header may be on it.
    pub disk: D,
    /// `DiskFault` or `NoMemory`: where it is the latter the disk is as it was given.
    pub fault: JournalFault,
}
