//! The command `trial`: what the clocks of an auction settle, told by bidders with valuations.
ghost use Rattle.lot_base.specs.Goods.{IsRange};
ghost use Rattle.house_run.specs.Ends.{ShelfAnswer, end_of};
ghost use Rattle.house_run.specs.Frame.{Frame};
ghost use Rattle.house_run.specs.Seen.{outside};
ghost use Rattle.house_run.specs.TrialCommand.{TrialDone, trial_needs};

use crate::ends::Ended;
use crate::markets::{read_market, try_market};
use house_io::Shelf;
use lot_base::NoMemory;
use outcome_text::write_plain;
use std::alloc::Global;
use std::thread::Threads;

/// The text of the outcome of a trial, or why there is none.
pub(crate) fn job<T: Threads + Sync, H: Shelf>(
    rt: &T,
    alloc: Global,
    auction: &str,
    values: &str,
    workers: u32,
    shelf: &mut H,
) -> Result<Vec<u8>, Ended>
    requires { IsRange 1 64 workers }
    ensures answer { ShelfAnswer (TrialDone auction.now values.now) (trial_needs auction.now values.now)
        (outside H.Shelf shelf.old shelf.new) result }
    ensures frame { Frame (trial_needs auction.now values.now) (end_of result) (outside H.Shelf shelf.old shelf.new) }
{
    let market = read_market(alloc, shelf, auction, values)?;
    let valuations = market.valuations.as_slice();
    let outcome = try_market(rt, alloc, &market.terms, valuations, workers)?;
    match write_plain(alloc, &outcome) {
        Ok(text) => Ok(text),
        Err(NoMemory) => Err(Ended::NoMemory),
    }
}
