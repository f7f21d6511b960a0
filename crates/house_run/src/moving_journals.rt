//! Moving the journals of an auction to another file of it.
ghost use Rattle.std.specs.Prelude.{◌≡◌};
ghost use Rattle.clock.specs.Reports.{histories};
ghost use Rattle.migration.specs.Moving.{AreClocksAs};
ghost use Rattle.house_run.specs.MovingJournals.{MovesJournals, move_end, target_end};
ghost use Rattle.house_run.specs.Seen.{shelf_seen};

use crate::disks::{close_journals, journal_names, open_journals};
use crate::ends::{Ended, end_at};
use auction_file::Auction;
use clock::Clock;
use clock_book::OpenFault;
use house_io::Shelf;
use migration::{MoveFault, move_journals};
use std::alloc::Global;

/// Opens the targets of an auction's clocks, moves the reports of these clocks to them, and gives them back.
pub(crate) fn move_to<H: Shelf>(
    alloc: Global,
    clocks: &[Clock],
    auction: &Auction,
    target: &str,
    shelf: &mut H,
) -> Result<(), Ended>
    requires clocks { AreClocksAs auction.now.terms (histories clocks.now) }
    ensures { MovesJournals auction.now (histories clocks.now) target.now (shelf_seen H.Shelf shelf.old shelf.new) result }
{
    let Ok(names) = journal_names(alloc, target, auction.terms.bidders + 1) else {
        return Err(Ended::NoMemory);
    };
    let disks = match open_journals(alloc, shelf, &names) {
        Ok(disks) => disks,
        Err(unread) => return Err(end_at(unread)),
    };
    let (answer, disks) = move_journals(alloc, clocks, &auction.terms, &auction.digest, disks);
    close_journals(shelf, &names, disks);
    match answer {
        Ok(()) => Ok(()),
        Err(fault) => Err(move_end(fault)),
    }
}

/// How a command ends whose journals are not moved.
fn move_end(fault: MoveFault) -> Ended
    ensures { result ≡ move_end fault }
{
    match fault {
        MoveFault::NotOpened { clock, fault } => target_end(clock, fault),
        MoveFault::NotFront { clock, number } => Ended::NotPrefix { clock, number },
        MoveFault::Full { clock, needed } => Ended::TargetFull { clock, needed },
        MoveFault::DiskFault(clock) => Ended::DiskFault(clock),
        MoveFault::NoMemory => Ended::NoMemory,
    }
}

/// How a command ends that can't open the target of this clock.
fn target_end(clock: u8, fault: OpenFault) -> Ended
    ensures { result ≡ target_end clock fault }
{
    match fault {
        OpenFault::DiskFault => Ended::DiskFault(clock),
        OpenFault::NoMemory => Ended::NoMemory,
        fault => Ended::BadTarget { clock, fault },
    }
}
