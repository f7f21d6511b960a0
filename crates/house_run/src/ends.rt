//! How a run ends.
ghost use Rattle.std.specs.Prelude.{◌≡◌};
ghost use Rattle.house_run.specs.Status.{cause_number, end_at, number_of, record_of, refusal_number, status_of, values_number};

use crate::journals::Unread;
use auction_file::AuctionFault;
use clock_book::OpenFault;
use lot_base::Bundle;
use recovery::JournalCause;
use valuation::ValuesFault;

/// A file with a limit.
#[derive(Clone, Copy, Debug, PartialEq, Eq)]
pub enum File {
    /// An auction file: at most 65,536 bytes.
    Auction,
    /// A log: at most 67,108,864 bytes.
    Log,
    /// A valuation file: at most 1,048,576 bytes.
    Values,
}

/// How a run ended.
#[derive(Debug, Drop)]
pub enum Ended {
    /// The job was done and its text written.
    Done,
    /// Memory ran out; nothing was written.
    NoMemory,
    /// The words are no command.
    Usage,
    /// The auction file is refused.
    BadAuction(AuctionFault),
    /// A file could not be read.
    ReadFault,
    /// The text could not be written whole; a front of it was.
    WriteFault,
    /// A call on this clock's journal failed.
    DiskFault(u8),
    /// A call on the net, or on what was given back to it, failed.
    NetFault,
    /// This clock's journal is refused for this fault, the first one that is.
    BadJournal {
        clock: u8,
        fault: OpenFault,
    },
    /// A clock, the first such one, is running in this round; this is its smallest member without a report there.
    Open {
        clock: u8,
        round: u32,
        missing: u8,
    },
    /// No choice of what the members of a clock, the first such one, demand in its last round clears.
    NoAward {
        clock: u8,
    },
    /// A clock, the first such one, has halted at this good.
    Halted {
        clock: u8,
        good: u8,
    },
    /// The valuation file is refused.
    BadValues(ValuesFault),
    /// The goods are no strong substitutes for a bidder, the first such one: no unit of the good can go from `x` to `y`, alone or against a
    /// unit of another good, without loss.
    NotSubstitutes {
        bidder: u8,
        x: Bundle,
        y: Bundle,
        good: u8,
    },
    /// The file is longer than its limit.
    TooLong(File),
    /// The first faulty entry of the log begins after so many bytes.
    BadLog(u64),
    /// The house refused a frame of the bidder's agent. `docs/FORMATS.md` says what each code, its detail and its value mean.
    Refused {
        code: u8,
        detail: u8,
        value: u32,
    },
    /// So many looks at this clock in a row were equal to the one before.
    LooksSpent(u8),
    /// What came over the link answered nothing.
    BadReply,
    /// The auction has no bidder of this number.
    NoBidder(u8),
    /// The auction can't go on under the other file: its supplies, ceiling, names or tokens differ, it is not of version 2, or a good of
    /// either does not open at 0.
    OtherTerms,
    /// The target of this clock, the first such one, is no front of its journal: this is the first record that differs or is too many.
    NotPrefix {
        clock: u8,
        number: u32,
    },
    /// The next record of this clock's target would end at `needed`, after 67,108,864.
    TargetFull {
        clock: u8,
        needed: u32,
    },
    /// This clock's target is refused for this fault, the first one that is.
    BadTarget {
        clock: u8,
        fault: OpenFault,
    },
    /// There are not as many start prices as goods, but so many.
    StartCount(u8),
    /// A good, the first such one, would start at this price below its opening, or not below the ceiling.
    StartRange {
        good: u8,
        value: u32,
    },
}

impl Ended {
    /// The status that the program ends with.
    pub fn status(&self) -> u8
        ensures { result ≡ status_of self.now }
    {
        match self {
            Ended::Done => 0,
            Ended::NoMemory => 1,
            Ended::Usage => 2,
            Ended::BadAuction(_) => 3,
            Ended::ReadFault => 4,
            Ended::WriteFault => 5,
            Ended::DiskFault(_) => 6,
            Ended::NetFault => 7,
            Ended::BadJournal { .. } => 8,
            Ended::Open { .. } => 9,
            Ended::NoAward { .. } => 10,
            Ended::Halted { .. } => 11,
            Ended::BadValues(_) => 12,
            Ended::NotSubstitutes { .. } => 13,
            Ended::TooLong(_) => 14,
            Ended::BadLog(_) => 15,
            Ended::Refused { .. } => 16,
            Ended::LooksSpent(_) => 17,
            Ended::BadReply => 18,
            Ended::NoBidder(_) => 19,
            Ended::OtherTerms => 20,
            Ended::NotPrefix { .. } => 21,
            Ended::TargetFull { .. } => 22,
            Ended::BadTarget { .. } => 23,
            Ended::StartCount(_) => 24,
            Ended::StartRange { .. } => 25,
        }
    }
}

/// The number of a fault in its line; that memory ran out has none.
pub(crate) fn fault_number(fault: &AuctionFault) -> u8
    ensures { result ≡ number_of fault.now }
{
    match fault {
        AuctionFault::NoMemory => 0,
        AuctionFault::NotToml => 1,
        AuctionFault::Missing(_) => 2,
        AuctionFault::WrongKind(_) => 3,
        AuctionFault::Goods(_) => 4,
        AuctionFault::Bidders(_) => 5,
        AuctionFault::BadDigest(_) => 6,
        AuctionFault::Ceiling(_) => 7,
        AuctionFault::Repeated(_) => 8,
        AuctionFault::UnknownKey(_) => 9,
        AuctionFault::Version(_) => 10,
        AuctionFault::BadName(_) => 11,
        AuctionFault::BadSupply { .. } => 12,
        AuctionFault::Opening { .. } => 13,
    }
}

/// The number of a fault of a valuation file in its line; that memory ran out has none.
pub(crate) fn values_number(fault: &ValuesFault) -> u8
    ensures { result ≡ values_number fault.now }
{
    match fault {
        ValuesFault::NoMemory => 0,
        ValuesFault::NotToml => 1,
        ValuesFault::Missing(_) => 2,
        ValuesFault::WrongKind(_) => 3,
        ValuesFault::Value { .. } => 4,
        ValuesFault::Length { .. } => 5,
        ValuesFault::EmptyNotZero(_) => 6,
        ValuesFault::Above { .. } => 7,
        ValuesFault::Bidders(_) => 8,
        ValuesFault::UnknownKey(_) => 9,
        ValuesFault::Form(_) => 10,
    }
}

/// The record at which a journal is refused, 0 for its header.
pub(crate) fn record_of(fault: &OpenFault) -> u32
    ensures { result ≡ record_of fault.now }
{
    match fault {
        OpenFault::Broken(broken) => broken.number,
        OpenFault::NotAcceptable { number, .. } => *number,
        OpenFault::DiskFault | OpenFault::NoMemory => 0,
    }
}

/// How a command ends that can't read all journals.
pub(crate) fn end_at(unread: Unread) -> Ended
    ensures { result ≡ end_at unread.clock unread.fault }
{
    match unread.fault {
        OpenFault::DiskFault => Ended::DiskFault(unread.clock),
        OpenFault::NoMemory => Ended::NoMemory,
        fault => Ended::BadJournal {
            clock: unread.clock,
            fault,
        },
    }
}

/// The number of the fault of a journal.
pub(crate) fn refusal_number(fault: &OpenFault) -> u8
    ensures { result ≡ refusal_number fault.now }
{
    match fault {
        OpenFault::Broken(broken) => cause_number(&broken.cause),
        OpenFault::NotAcceptable { .. } => 6,
        OpenFault::DiskFault | OpenFault::NoMemory => 0,
    }
}

fn cause_number(cause: &JournalCause) -> u8
    ensures { result ≡ cause_number cause.now }
{
    match cause {
        JournalCause::OtherClock(_) => 1,
        JournalCause::OtherAuction(_) => 2,
        JournalCause::Damaged => 3,
        JournalCause::NotReport => 4,
        JournalCause::OtherVersion(_) => 7,
        JournalCause::OtherOpening(_) => 8,
    }
}
