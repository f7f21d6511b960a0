//! Why no clock is read from a journal.
use clock::Judgement;
use lot_base::NoMemory;
use recovery::{Broken, RecoverFault};

/// Why no clock is read from a journal's file.
#[derive(Clone, Copy, Debug, PartialEq, Eq)]
pub enum OpenFault {
    /// This record is broken, and the reports before it are legal.
    Broken(Broken),
    /// The report of this record, numbered from 1, is the first that the clock does not take.
    NotAcceptable { number: u32, judgement: Judgement },
    /// A call on the disk failed.
    DiskFault,
    /// Memory ran out.
    NoMemory,
}

impl From<RecoverFault> for OpenFault {
    ghost use Rattle.std.specs.Prelude.{◌≡◌};
    ghost use Rattle.clock_book.specs.Opening.{fault_of};

    ghost from_gives = { λ fault e. e ≡ fault_of fault };

    fn from(fault: RecoverFault) -> Self {
        match fault {
            RecoverFault::DiskFault => OpenFault::DiskFault,
            RecoverFault::NoMemory => OpenFault::NoMemory,
        }
    }
}

impl From<NoMemory> for OpenFault {
    ghost use Rattle.std.specs.Prelude.{◌≡◌};
    ghost use Rattle.clock_book.specs.declared.faults.OpenFault.TheVariants as why;

    ghost from_gives = { λ _ e. e ≡ why.NoMemory };

    fn from(_: NoMemory) -> Self {
        OpenFault::NoMemory
    }
}
