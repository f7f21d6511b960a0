//! Whether the reports of the targets are fronts of those that are moved.
ghost use Rattle.std.specs.Prelude.{◌≡◌, ◌+◌, ◌<◌, ◌↔◌, ℕ, length, IsTrue, IfOk, IfErr, OnOk};
ghost use Rattle.clock.specs.Reports.{histories};
ghost use Rattle.clock_book.specs.Books.{BookOf};
ghost use Rattle.migration.specs.Targets.{IsFrontOrOff, AreFronts, IsFrontFault};

use crate::faults::MoveFault;
use clock::Clock;
use clock_book::ClockBook;
use demand_set::Report;
use house_io::Disk;
use lot_base::{NoMemory, Terms};
use std::alloc::Global;

/// Looks, clock by clock, that the reports of each book are a front of those of its clock.
pub(crate) fn check_fronts<D: Disk>(
    alloc: Global,
    terms: &Terms,
    clocks: &[Clock],
    books: &[ClockBook<D>],
) -> Result<(), MoveFault>
    requires clocks { length clocks.now ≡ terms.now.bidders + 1 }
    requires books { length books.now ≡ terms.now.bidders + 1 }
    ensures ok { OnOk result (AreFronts (histories clocks.now) books.now (length books.now)) }
    ensures err { IfErr result (IsFrontFault (histories clocks.now) books.now) }
{
    for clock in 0..terms.bidders + 1 {
        let source = &clocks[clock as usize];
        let target = books[clock as usize].clock();
        match first_off(alloc, source, target) {
            Err(NoMemory) => return Err(MoveFault::NoMemory),
            Ok(Some(number)) => return Err(MoveFault::NotFront { clock, number }),
            Ok(None) => {}
        }
    }
    Ok(())
}

/// The number, from 1, of the first report of the target that differs from the source's or is too many.
fn first_off(alloc: Global, source: &Clock, target: &Clock) -> Result<Option<u32>, NoMemory>
    ensures { IfOk result (IsFrontOrOff target.now.history.reports source.now.history.reports) }
{
    let most = source.count();
    for place in 0..target.count() {
        if place >= most {
            return Ok(Some(place + 1));
        }
        let found = target.report(alloc, place + 1)?;
        let report = source.report(alloc, place + 1)?;
        if !are_same(&found, &report) {
            return Ok(Some(place + 1));
        }
    }
    Ok(None)
}

/// Whether two reports are the same.
fn are_same(one: &Report, other: &Report) -> bool
    ensures { IsTrue result ↔ (one.now ≡ other.now) }
{
    one.bidder == other.bidder && one.round == other.round && one.demand.same(&other.demand)
}
