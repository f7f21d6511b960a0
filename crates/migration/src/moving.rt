//! Reports that are offered to the books on the targets.
ghost use Rattle.std.specs.Prelude.{◌≡◌, ◌+◌, ◌<◌, length, IsTrue, OnOk, IfErr};
ghost use Rattle.house_io.specs.Disks.{IfDiskTells};
ghost use Rattle.house_io.specs.Moments.{Leaves};
ghost use Rattle.recovery.specs.Journaled.{StandsForReports};
ghost use Rattle.clock.specs.Reports.{histories};
ghost use Rattle.clock_book.specs.Past.{owner_in};
ghost use Rattle.migration.specs.Targets.{HasFirst, GoesOn, StopsFor, AreReady, AreOffered, fault_at};

use crate::faults::{MoveFault, Stopped};
use clock::{Clock, Offered};
use clock_book::ClockBook;
use house_io::Disk;
use lot_base::{NoMemory, Terms};
use std::alloc::Global;

/// Offers to each book, clock by clock, the reports of its clock that it lacks.
pub(crate) fn move_all<D: Disk>(
    alloc: Global,
    terms: &Terms,
    clocks: &[Clock],
    books: &mut [ClockBook<D>],
) -> Result<(), MoveFault>
    requires count { length books.old ≡ terms.now.bidders + 1 }
    requires ready { AreReady (histories clocks.now) books.old }
    ensures { AreOffered D.shown (histories clocks.now) books.old books.new result }
{
    for clock in 0..terms.bidders + 1 {
        let source = &clocks[clock as usize];
        match move_reports(alloc, source, &mut books[clock as usize]) {
            Ok(()) => {}
            Err(stopped) => return Err(fault_at(clock, stopped)),
        }
    }
    Ok(())
}

/// The fault of a clock whose reports were not all offered.
fn fault_at(clock: u8, stopped: Stopped) -> MoveFault
    ensures { result ≡ fault_at clock stopped }
{
    match stopped {
        Stopped::Full(needed) => MoveFault::Full { clock, needed },
        Stopped::DiskFault => MoveFault::DiskFault(clock),
        Stopped::NoMemory => MoveFault::NoMemory,
    }
}

/// Offers to a book the reports of a clock that it lacks, in order.
fn move_reports<D: Disk>(
    alloc: Global,
    source: &Clock,
    book: &mut ClockBook<D>,
) -> Result<(), Stopped>
    requires { HasFirst source.now.history (length book.old.state.clock.reports) book.old }
    ensures goes_on { GoesOn D.shown source.now.history book.old book.new }
    ensures whole { OnOk result (IfDiskTells (D.shown book.new.disk)
        (λ moments. Leaves (StandsForReports (owner_in book.old.origin) source.now.history.reports) moments.now)) }
    ensures steady { OnOk result ((D.shown book.new.disk).faults ≡ (D.shown book.old.disk).faults) }
    ensures err { IfErr result (StopsFor (D.shown book.old.disk).faults (D.shown book.new.disk).faults (owner_in book.old.origin)
        source.now.history.reports) }
{
    let found = book.clock().count();
    for place in found..source.count() {
        match offer_next(alloc, source, book, place) {
            Ok(()) => {}
            Err(stopped) => return Err(stopped),
        }
    }
    let _kept = book.clock();
    Ok(())
}

/// Offers to a book, which has the reports of a clock before this place, the one at it.
fn offer_next<D: Disk>(
    alloc: Global,
    source: &Clock,
    book: &mut ClockBook<D>,
    place: u32,
) -> Result<(), Stopped>
    requires first { HasFirst source.now.history place book.old }
    requires more { place < length source.now.history.reports }
    ensures goes_on { GoesOn D.shown source.now.history book.old book.new }
    ensures first { OnOk result (HasFirst source.now.history (place + 1) book.new) }
    ensures steady { OnOk result ((D.shown book.new.disk).faults ≡ (D.shown book.old.disk).faults) }
    ensures err { IfErr result (StopsFor (D.shown book.old.disk).faults (D.shown book.new.disk).faults (owner_in book.old.origin)
        source.now.history.reports) }
{
    let _legal = source.number();
    let _most = source.count();
    let _kept = book.clock();
    let report = match source.report(alloc, place + 1) {
        Err(NoMemory) => return Err(Stopped::NoMemory),
        Ok(report) => report,
    };
    match book.offer(alloc, report.bidder, report.round, report.demand) {
        Offered::Taken => Ok(()),
        Offered::Full(needed) => Err(Stopped::Full(needed)),
        Offered::DiskFault => Err(Stopped::DiskFault),
        Offered::Again | Offered::Refused(_) | Offered::NoMemory => unreachable!(),
    }
}
