//! Why a journal's reports are not read, and where they break off.
use house_io::Failed;
use lot_base::NoMemory;
use std::alloc::{AllocError, AllocFailed};

/// Why a record is no record of this journal.
#[derive(Clone, Copy, Debug, PartialEq, Eq)]
pub enum JournalCause {
    /// The header names this clock.
    OtherClock(u32),
    /// The header names an auction with this digest.
    OtherAuction([u8; 32]),
    /// The header is of this version.
    OtherVersion(u8),
    /// This good is the first whose opening price is another one, or that is there in one opening alone.
    OtherOpening(u8),
    /// There is no header, or no record within the limits after an open gate.
    Damaged,
    /// The payload is that of no report.
    NotReport,
}

/// The first broken record, by its number from 1; 0 is the header.
#[derive(Clone, Copy, Debug, PartialEq, Eq)]
pub struct Broken {
    /// From 1; 0 is the header.
    pub number: u32,
    /// `NotReport` of a record alone, `Damaged` of either, and the others of the header alone.
    pub cause: JournalCause,
}

/// Why a journal's reports are not read.
#[derive(Clone, Copy, Debug, PartialEq, Eq)]
pub enum RecoverFault {
    /// The disk failed.
    DiskFault,
    /// There was no memory for the reports.
    NoMemory,
}

impl From<AllocError> for RecoverFault {
    ghost use Rattle.std.specs.Prelude.{◌≡◌};
    ghost use Rattle.recovery.specs.declared.faults.RecoverFault.TheVariants as why;

    ghost from_gives = { λ _ e. e ≡ why.NoMemory };

    fn from(_: AllocError) -> Self {
        RecoverFault::NoMemory
    }
}

impl<T: Drop> From<AllocFailed<T>> for RecoverFault {
    ghost use Rattle.std.specs.Prelude.{◌≡◌};
    ghost use Rattle.recovery.specs.declared.faults.RecoverFault.TheVariants as why;

    ghost from_gives = { λ _ e. e ≡ why.NoMemory };

    fn from(_: AllocFailed<T>) -> Self {
        RecoverFault::NoMemory
    }
}

impl From<NoMemory> for RecoverFault {
    ghost use Rattle.std.specs.Prelude.{◌≡◌};
    ghost use Rattle.recovery.specs.declared.faults.RecoverFault.TheVariants as why;

    ghost from_gives = { λ _ e. e ≡ why.NoMemory };

    fn from(_: NoMemory) -> Self {
        RecoverFault::NoMemory
    }
}

impl From<Failed> for RecoverFault {
    ghost use Rattle.std.specs.Prelude.{◌≡◌};
    ghost use Rattle.recovery.specs.declared.faults.RecoverFault.TheVariants as why;

    ghost from_gives = { λ _ e. e ≡ why.DiskFault };

    fn from(_: Failed) -> Self {
        RecoverFault::DiskFault
    }
}
