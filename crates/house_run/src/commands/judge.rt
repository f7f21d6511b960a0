//! The command `judge`: whether one valuation explains all that a bidder has reported.
ghost use Rattle.std.specs.Prelude.{◌≡◌, List, length, IfOk};
ghost use Rattle.clock.specs.Reports.{histories};
ghost use Rattle.outcome_text.specs.Lines.{text_of};
ghost use Rattle.rationale.specs.Decisions.{IsDecision};
ghost use Rattle.rationale.specs.Observations.{Observation};
ghost use Rattle.settlement.specs.Clocks.{AreClocksOf};
ghost use Rattle.house_run.specs.Ends.{ShelfAnswer, end_of};
ghost use Rattle.house_run.specs.Frame.{Frame};
ghost use Rattle.house_run.specs.JudgeCommand.{IsJudgedText, JudgeDone, decision_lines, judge_needs};
ghost use Rattle.house_run.specs.Seen.{outside};

use crate::ends::Ended;
use crate::house::{AuctionClocks, read_house};
use crate::judge_texts::{links_text, values_text};
use house_io::Shelf;
use lot_base::{Goods, NoMemory};
use observed_demand::{Place, observe};
use rationale::Decision;
use std::alloc::{AllocError, Global};

/// The text of what is decided of a bidder, or why there is none.
pub(crate) fn job<H: Shelf>(
    alloc: Global,
    auction: &str,
    journals: &str,
    bidder: u8,
    shelf: &mut H,
) -> Result<Vec<u8>, Ended>
    ensures answer { ShelfAnswer (JudgeDone auction.now journals.now bidder) (judge_needs auction.now journals.now bidder)
        (outside H.Shelf shelf.old shelf.new) result }
    ensures frame { Frame (judge_needs auction.now journals.now bidder) (end_of result) (outside H.Shelf shelf.old shelf.new) }
{
    let house = read_house(alloc, shelf, auction, journals, Some(bidder))?;
    match judged_text(alloc, &house, bidder) {
        Ok(text) => Ok(text),
        Err(NoMemory) => Err(Ended::NoMemory),
    }
}

/// The text of what is decided of a bidder of the auction.
fn judged_text(alloc: Global, house: &AuctionClocks, bidder: u8) -> Result<Vec<u8>, NoMemory>
    requires { AreClocksOf house.now.terms (histories house.now.clocks.items) }
    ensures { IfOk result (λ text. IsJudgedText house.now.terms (histories house.now.clocks.items) bidder text.items) }
{
    let observed = observe(alloc, &house.terms, &house.clocks, bidder)?;
    let decision = observed.rationale.decide(alloc)?;
    let places = observed.places.as_slice();
    let text = decision_text(alloc, bidder, &house.terms.goods, places, &decision)?;
    Ok(text)
}

/// The text of a decision on observations with these places.
fn decision_text(
    alloc: Global,
    bidder: u8,
    goods: &Goods,
    places: &[Place],
    decision: &Decision,
) -> Result<Vec<u8>, AllocError>
    requires { (seen : List Observation) × (length seen ≡ length places.now) × IsDecision goods.now seen decision.now }
    ensures { IfOk result (λ text. text.items ≡ text_of (decision_lines bidder goods.now places.now decision.now)) }
{
    match decision {
        Decision::Rational(values) => values_text(alloc, bidder, goods, values.as_slice()),
        Decision::Cycle(links) => links_text(alloc, bidder, places, links.as_slice()),
    }
}
