//! Why journals are not moved.
use clock_book::OpenFault;

/// Why the journals of an auction are not moved. A clock is told by its number.
#[derive(Clone, Copy, Debug, PartialEq, Eq)]
pub enum MoveFault {
    /// The book of this clock is not opened on its target, for this fault.
    NotOpened { clock: u8, fault: OpenFault },
    /// The reports of this clock's target are no front of the clock's: the one of this number, from 1, is the first that differs or is
    /// too many.
    NotFront { clock: u8, number: u32 },
    /// The next record of this clock's target would end at this offset, past the greatest.
    Full { clock: u8, needed: u32 },
    /// A call on the disk of this clock's target failed while its reports were offered.
    DiskFault(u8),
    /// Memory ran out.
    NoMemory,
}

/// Why not all reports of a clock were offered.
#[derive(Clone, Copy, Debug)]
pub(crate) enum Stopped {
    /// The next record would end at this offset, past the greatest.
    Full(u32),
    /// A call on the target's disk failed.
    DiskFault,
    /// Memory ran out.
    NoMemory,
}
