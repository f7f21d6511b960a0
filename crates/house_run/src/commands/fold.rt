//! The command `fold`: one clock over a log.
ghost use Rattle.std.specs.Prelude.{◌≡◌};
ghost use Rattle.house_run.specs.Ends.{ShelfAnswer, end_of};
ghost use Rattle.house_run.specs.FoldCommand.{FoldDone, fold_needs};
ghost use Rattle.house_run.specs.Frame.{Frame};
ghost use Rattle.house_run.specs.Seen.{outside};

use crate::ends::{Ended, File};
use crate::logs::read_log;
use house_io::Shelf;
use lot_base::{NoMemory, Terms};
use outcome_text::write_standing;
use report_log::LogFault;
use std::alloc::Global;

/// The standing line of the clock of all bidders after a log, or why there is none.
pub(crate) fn job<H: Shelf>(
    alloc: Global,
    terms: &Terms,
    log: &str,
    shelf: &mut H,
) -> Result<Vec<u8>, Ended>
    ensures answer { ShelfAnswer (FoldDone terms.now log.now) (fold_needs terms.now log.now) (outside H.Shelf shelf.old shelf.new) result }
    ensures frame { Frame (fold_needs terms.now log.now) (end_of result) (outside H.Shelf shelf.old shelf.new) }
{
    let clock = match read_log(alloc, terms, shelf, log) {
        Ok(clock) => clock,
        Err(LogFault::Failed) => return Err(Ended::ReadFault),
        Err(LogFault::TooLong) => return Err(Ended::TooLong(File::Log)),
        Err(LogFault::Faulty(place)) => return Err(Ended::BadLog(place)),
        Err(LogFault::NoMemory) => return Err(Ended::NoMemory),
    };
    match write_standing(alloc, clock.number(), &clock.look(), clock.missing()) {
        Ok(line) => Ok(line),
        Err(NoMemory) => Err(Ended::NoMemory),
    }
}
