//! The command `settle`: what the clocks of an auction settle.
ghost use Rattle.std.specs.Prelude.{◌≡◌, IfOk, IfErr};
ghost use Rattle.clock.specs.Reports.{histories};
ghost use Rattle.settlement.specs.Clocks.{AreClocksOf};
ghost use Rattle.house_run.specs.Ends.{ShelfAnswer, end_of};
ghost use Rattle.house_run.specs.Frame.{Frame};
ghost use Rattle.house_run.specs.Outcomes.{text_of_outcome};
ghost use Rattle.house_run.specs.Steps.{IsSettledEnd, IsSettledText};
ghost use Rattle.house_run.specs.Seen.{outside};
ghost use Rattle.house_run.specs.SettleCommand.{SettleDone, settle_needs};

use crate::ends::Ended;
use crate::house::{AuctionClocks, read_house};
use house_io::Shelf;
use lot_base::NoMemory;
use outcome_text::{write_json, write_plain};
use settlement::{Outcome, Settlement, settle};
use std::alloc::Global;

/// The text of what the clocks settle, or why there is none.
pub(crate) fn job<H: Shelf>(
    alloc: Global,
    auction: &str,
    journals: &str,
    json: bool,
    shelf: &mut H,
) -> Result<Vec<u8>, Ended>
    ensures answer { ShelfAnswer (SettleDone auction.now journals.now json) (settle_needs auction.now journals.now)
        (outside H.Shelf shelf.old shelf.new) result }
    ensures frame { Frame (settle_needs auction.now journals.now) (end_of result) (outside H.Shelf shelf.old shelf.new) }
{
    let house = read_house(alloc, shelf, auction, journals, None)?;
    settled_text(alloc, &house, json)
}

/// The text of what the clocks settle, or how they stand where they settle nothing.
fn settled_text(alloc: Global, house: &AuctionClocks, json: bool) -> Result<Vec<u8>, Ended>
    requires { AreClocksOf house.now.terms (histories house.now.clocks.items) }
    ensures text { IfOk result (λ text. IsSettledText house.now.terms (histories house.now.clocks.items) json text.items) }
    ensures ends { IfErr result (IsSettledEnd house.now.terms (histories house.now.clocks.items)) }
{
    match settle(alloc, &house.terms, &house.clocks) {
        Ok(Settlement::Settled(outcome)) => match text_of(alloc, &outcome, json) {
            Ok(text) => Ok(text),
            Err(NoMemory) => Err(Ended::NoMemory),
        },
        Ok(
            Settlement::Open {
                clock,
                round,
                missing,
            },
        ) => Err(Ended::Open {
            clock,
            round,
            missing,
        }),
        Ok(Settlement::NoAward { clock }) => Err(Ended::NoAward { clock }),
        Ok(Settlement::Halted { clock, good }) => Err(Ended::Halted { clock, good }),
        Err(NoMemory) => Err(Ended::NoMemory),
    }
}

/// The text of an outcome.
fn text_of(alloc: Global, outcome: &Outcome, json: bool) -> Result<Vec<u8>, NoMemory>
    ensures { IfOk result (λ text. text.items ≡ text_of_outcome json outcome.now) }
{
    if json {
        write_json(alloc, outcome)
    } else {
        write_plain(alloc, outcome)
    }
}
