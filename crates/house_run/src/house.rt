//! The clocks of an auction, from its file and their journals.
ghost use Rattle.std.specs.Prelude.{◌≡◌, ◌<◌, ◌≤◌, IfOk, IfErr, IfNone, IfSome, Some};
ghost use Rattle.clock.specs.Reports.{histories};
ghost use Rattle.house_run.specs.Journals.{AreHistories};
ghost use Rattle.house_run.specs.Seen.{outside, shelf_seen};
ghost use Rattle.house_run.specs.Steps.{EndsAtJournals, ReadsJournals};

use crate::ends::{Ended, end_at};
use crate::files::read_auction;
use crate::journals::read_clocks;
use clock::Clock;
use house_io::Shelf;
use lot_base::Terms;
use std::alloc::Global;

/// What the file of an auction and the journals of its clocks say.
#[derive(Drop)]
pub(crate) struct AuctionClocks {
    /// Those of the file.
    pub terms: Terms,
    /// The clocks in the order of their numbers.
    pub clocks: Vec<Clock>,
}

/// Reads an auction, which has to have this bidder, if one is asked for, and its journals, or says how a command that needs both ends.
pub(crate) fn read_house<H: Shelf>(
    alloc: Global,
    shelf: &mut H,
    auction: &str,
    journals: &str,
    bidder: Option<u8>,
) -> Result<AuctionClocks, Ended>
    ensures read { IfOk result (λ house. AreHistories (shelf_seen H.Shelf shelf.old shelf.new) auction.now journals.now house.terms
        (histories house.clocks.items)) }
    ensures frame { IfOk result (λ _. ReadsJournals auction.now journals.now (outside H.Shelf shelf.old shelf.new)) }
    ensures bidder { IfOk result (λ house. IfSome bidder (λ b. b ≤ house.terms.bidders)) }
    ensures ends { IfErr result (EndsAtJournals auction.now journals.now bidder (outside H.Shelf shelf.old shelf.new)) }
{
    let auction = read_auction(alloc, shelf, auction)?;
    if let Some(number) = missing_bidder(&auction.terms, bidder) {
        return Err(Ended::NoBidder(number));
    }
    match read_clocks(alloc, shelf, journals, &auction.terms, &auction.digest) {
        Ok(clocks) => Ok(AuctionClocks {
            terms: auction.terms,
            clocks,
        }),
        Err(unread) => Err(end_at(unread)),
    }
}

/// The bidder that is asked for, if one is and the auction does not have it.
fn missing_bidder(terms: &Terms, bidder: Option<u8>) -> Option<u8>
    ensures some { IfSome result (λ number. (bidder ≡ Some number) × (terms.now.bidders < number)) }
    ensures none { IfNone result (IfSome bidder (λ number. number ≤ terms.now.bidders)) }
{
    match bidder {
        Some(number) if terms.bidders < number => Some(number),
        _ => None,
    }
}
