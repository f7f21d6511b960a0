//! The command `check`: what an auction file says.
ghost use Rattle.house_run.specs.CheckCommand.{CheckDone, check_needs};
ghost use Rattle.house_run.specs.Ends.{ShelfAnswer, end_of};
ghost use Rattle.house_run.specs.Frame.{Frame};
ghost use Rattle.house_run.specs.Seen.{outside};

use crate::ends::Ended;
use crate::files::read_auction;
use crate::texts::check_text;
use house_io::Shelf;
use std::alloc::Global;

/// The text of the auction that a file says, or why there is none.
pub(crate) fn job<H: Shelf>(alloc: Global, auction: &str, shelf: &mut H) -> Result<Vec<u8>, Ended>
    ensures answer { ShelfAnswer (CheckDone auction.now) (check_needs auction.now) (outside H.Shelf shelf.old shelf.new) result }
    ensures frame { Frame (check_needs auction.now) (end_of result) (outside H.Shelf shelf.old shelf.new) }
{
    let auction = read_auction(alloc, shelf, auction)?;
    match check_text(alloc, &auction) {
        Ok(text) => Ok(text),
        Err(_) => Err(Ended::NoMemory),
    }
}
