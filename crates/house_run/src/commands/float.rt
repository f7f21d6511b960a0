//! The command `float`: what the clocks of an auction settle that start at given prices, told by bidders with valuations.
ghost use Rattle.house_run.specs.Ends.{ShelfAnswer, end_of};
ghost use Rattle.house_run.specs.FloatCommand.{FloatDone, float_needs};
ghost use Rattle.house_run.specs.Frame.{Frame};
ghost use Rattle.house_run.specs.Seen.{outside};

use crate::ends::Ended;
use crate::float_texts::float_text;
use crate::markets::{float_market, read_started};
use house_io::Shelf;
use lot_base::Prices;
use std::alloc::Global;

/// The text of what the clocks settle, or why there is none.
pub(crate) fn job<H: Shelf>(
    alloc: Global,
    auction: &str,
    values: &str,
    start: &Prices,
    shelf: &mut H,
) -> Result<Vec<u8>, Ended>
    ensures answer { ShelfAnswer (FloatDone auction.now values.now start.now) (float_needs auction.now values.now start.now)
        (outside H.Shelf shelf.old shelf.new) result }
    ensures frame { Frame (float_needs auction.now values.now start.now) (end_of result) (outside H.Shelf shelf.old shelf.new) }
{
    let market = read_started(alloc, shelf, auction, values, start)?;
    let valuations = market.valuations.as_slice();
    let floated = float_market(alloc, &market.terms, valuations, start)?;
    match float_text(alloc, &market.terms, start, &floated) {
        Ok(text) => Ok(text.into_bytes()),
        Err(_) => Err(Ended::NoMemory),
    }
}
