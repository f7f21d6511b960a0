//! The command `standing`: how each clock of an auction stands.
ghost use Rattle.std.specs.Prelude.{◌≡◌, IfOk};
ghost use Rattle.std.specs.List.{flat_map};
ghost use Rattle.clock.specs.Reports.{histories};
ghost use Rattle.house_run.specs.Ends.{ShelfAnswer, end_of};
ghost use Rattle.house_run.specs.Frame.{Frame};
ghost use Rattle.house_run.specs.Seen.{outside};
ghost use Rattle.house_run.specs.StandingCommand.{StandingDone, standing_needs};
ghost use Rattle.house_run.specs.Texts.{standing_of};

use crate::ends::Ended;
use crate::house::read_house;
use clock::Clock;
use house_io::Shelf;
use lot_base::NoMemory;
use outcome_text::write_standing;
use std::alloc::Global;

/// The standing lines of the clocks, or why there are none.
pub(crate) fn job<H: Shelf>(
    alloc: Global,
    auction: &str,
    journals: &str,
    shelf: &mut H,
) -> Result<Vec<u8>, Ended>
    ensures answer { ShelfAnswer (StandingDone auction.now journals.now) (standing_needs auction.now journals.now)
        (outside H.Shelf shelf.old shelf.new) result }
    ensures frame { Frame (standing_needs auction.now journals.now) (end_of result) (outside H.Shelf shelf.old shelf.new) }
{
    let house = read_house(alloc, shelf, auction, journals, None)?;
    match standing_text(alloc, &house.clocks) {
        Ok(text) => Ok(text),
        Err(NoMemory) => Err(Ended::NoMemory),
    }
}

/// The standing line of each clock.
pub(crate) fn standing_text(alloc: Global, clocks: &[Clock]) -> Result<Vec<u8>, NoMemory>
    ensures { IfOk result (λ text. text.items ≡ flat_map standing_of (histories clocks.now)) }
{
    let mut text = Vec::new(alloc);
    for clock in clocks {
        let line = standing_line(alloc, clock)?;
        text.extend_from_slice(&line)?;
    }
    Ok(text)
}

/// The standing line of a clock.
fn standing_line(alloc: Global, clock: &Clock) -> Result<Vec<u8>, NoMemory>
    ensures { IfOk result (λ line. line.items ≡ standing_of clock.now.history) }
{
    write_standing(alloc, clock.number(), &clock.look(), clock.missing())
}
