//! Markets, and what a trial of one gives.
ghost use Rattle.std.specs.Prelude.{◌≡◌, ◌≤◌, IfOk, IfErr, OnOk};
ghost use Rattle.clock.specs.Reports.{histories};
ghost use Rattle.lot_base.specs.Goods.{IsRange};
ghost use Rattle.trial.specs.Trials.{AreValuationsOf, IsTried};
ghost use Rattle.house_run.specs.Frame.{Frame};
ghost use Rattle.two_way.specs.FloatHistories.{IsFloat};
ghost use Rattle.two_way.specs.Histories.{IsStart};
ghost use Rattle.house_run.specs.FloatCommand.{float_needs};
ghost use Rattle.house_run.specs.Markets.{IsMarketAt, TriesAs, market_bidders};
ghost use Rattle.house_run.specs.Seen.{outside, shelf_seen};
ghost use Rattle.house_run.specs.BidCommand.{bid_needs};
ghost use Rattle.command_line.specs.Parts.{Bidding};
ghost use Rattle.house_run.specs.Steps.{IsStartEnd, IsTrialEnd, LeavesSo, StopsBidding, end_by, float_end};
ghost use Rattle.house_run.specs.TrialCommand.{trial_needs};
ghost use Rattle.house_run.specs.declared.ends.Ended.{Ended as End};

use crate::ends::Ended;
use crate::files::{read_auction, read_values};
use auction_file::Auction;
use house_io::Shelf;
use lot_base::{Prices, Terms};
use settlement::{Outcome, Settlement};
use std::alloc::Global;
use std::thread::Threads;
use trial::{TrialFault, Tried, trial};
use two_way::{FloatFault, Floated, first_outside, float};
use valuation::Valuation;

/// The terms of an auction, and a valuation for each bidder.
#[derive(Drop)]
pub(crate) struct Market {
    /// Those of the auction.
    pub terms: Terms,
    /// That of bidder 1 first: one for each bidder.
    pub valuations: Vec<Valuation>,
}

/// Reads an auction and a file of valuations, or says how a command that needs both ends.
pub(crate) fn read_market<H: Shelf>(
    alloc: Global,
    shelf: &mut H,
    auction: &str,
    values: &str,
) -> Result<Market, Ended>
    ensures read { IfOk result (λ m. IsMarketAt (shelf_seen H.Shelf shelf.old shelf.new) auction.now values.now m.terms
        m.valuations.items) }
    ensures valuations { IfOk result (λ m. AreValuationsOf m.terms m.valuations.items) }
    ensures frame { IfOk result (λ _. (end : End) → Frame (trial_needs auction.now values.now) end (outside H.Shelf shelf.old shelf.new)) }
    ensures ends { IfErr result (LeavesSo (trial_needs auction.now values.now) (outside H.Shelf shelf.old shelf.new)) }
{
    let auction = read_auction(alloc, shelf, auction)?;
    let valuations = read_values(alloc, shelf, values, &auction.terms)?;
    Ok(Market {
        terms: auction.terms,
        valuations,
    })
}

/// Reads an auction, whose clocks have to be able to start at these prices, and a file of valuations, or says how a command that needs both
/// ends.
pub(crate) fn read_started<H: Shelf>(
    alloc: Global,
    shelf: &mut H,
    auction: &str,
    values: &str,
    start: &Prices,
) -> Result<Market, Ended>
    ensures read { IfOk result (λ m. IsMarketAt (shelf_seen H.Shelf shelf.old shelf.new) auction.now values.now m.terms
        m.valuations.items) }
    ensures valuations { IfOk result (λ m. AreValuationsOf m.terms m.valuations.items) }
    ensures starts { IfOk result (λ m. IsStart m.terms start.now) }
    ensures frame { IfOk result (λ _. (end : End)
        → Frame (float_needs auction.now values.now start.now) end (outside H.Shelf shelf.old shelf.new)) }
    ensures ends { IfErr result (LeavesSo (float_needs auction.now values.now start.now) (outside H.Shelf shelf.old shelf.new)) }
{
    let auction = read_auction(alloc, shelf, auction)?;
    check_start(&auction.terms, start)?;
    let valuations = read_values(alloc, shelf, values, &auction.terms)?;
    Ok(Market {
        terms: auction.terms,
        valuations,
    })
}

/// Whether clocks on these terms can start at these prices, or how a command ends that would start them there.
fn check_start(terms: &Terms, start: &Prices) -> Result<(), Ended>
    ensures starts { OnOk result (IsStart terms.now start.now) }
    ensures ends { IfErr result (IsStartEnd terms.now start.now) }
{
    let found = start.count();
    if found != terms.goods.count() {
        return Err(Ended::StartCount(found));
    }
    match first_outside(terms, start) {
        None => Ok(()),
        Some(good) => Err(Ended::StartRange {
            good,
            value: start.get(good),
        }),
    }
}

/// An auction, and a valuation for each of its bidders.
#[derive(Drop)]
pub(crate) struct Bidders {
    /// What the file of the auction says.
    pub auction: Auction,
    /// That of bidder 1 first: one for each bidder.
    pub valuations: Vec<Valuation>,
}

/// Reads an auction, which has to have this bidder, and a file of valuations, or says how a command that needs both ends.
pub(crate) fn read_bidders<H: Shelf>(
    alloc: Global,
    shelf: &mut H,
    auction: &str,
    values: &str,
    bidder: u8,
) -> Result<Bidders, Ended>
    ensures read { IfOk result (λ m. IsMarketAt (shelf_seen H.Shelf shelf.old shelf.new) auction.now values.now m.auction.terms
        m.valuations.items) }
    ensures valuations { IfOk result (λ m. AreValuationsOf m.auction.terms m.valuations.items) }
    ensures bidder { IfOk result (λ m. bidder ≤ m.auction.terms.bidders) }
    ensures frame { IfOk result (λ _. (b : Bidding) (end : End)
        → Frame (bid_needs auction.now values.now b) end (outside H.Shelf shelf.old shelf.new)) }
    ensures ends { IfErr result (λ end. (b : Bidding) → b.bidder ≡ bidder
        → StopsBidding auction.now values.now b (outside H.Shelf shelf.old shelf.new) end) }
{
    let auction = read_auction(alloc, shelf, auction)?;
    if auction.terms.bidders < bidder {
        return Err(Ended::NoBidder(bidder));
    }
    let valuations = read_values(alloc, shelf, values, &auction.terms)?;
    Ok(Bidders {
        auction,
        valuations,
    })
}

/// The outcome of the trial of a market by so many workers, or how a command that needs it ends.
pub(crate) fn try_market<T: Threads + Sync>(
    rt: &T,
    alloc: Global,
    terms: &Terms,
    valuations: &[Valuation],
    workers: u32,
) -> Result<Outcome, Ended>
    requires valuations { AreValuationsOf terms.now valuations.now }
    requires workers { IsRange 1 64 workers }
    ensures tries { IfOk result (TriesAs terms.now valuations.now) }
    ensures ends { IfErr result (IsTrialEnd terms.now valuations.now) }
{
    match trial(rt, alloc, terms, valuations, workers) {
        Ok(tried) => outcome_of(terms, valuations, tried),
        Err(fault) => Err(end_by(&fault)),
    }
}

/// What a market floats to from these prices, or how a command that needs it ends.
pub(crate) fn float_market(
    alloc: Global,
    terms: &Terms,
    valuations: &[Valuation],
    start: &Prices,
) -> Result<Floated, Ended>
    requires valuations { AreValuationsOf terms.now valuations.now }
    requires starts { IsStart terms.now start.now }
    ensures floats { IfOk result (λ f. IsFloat terms.now (market_bidders terms.now valuations.now) start.now f.clocks.items f.prices
        f.rows f.choices) }
    ensures ends { IfErr result (IsTrialEnd terms.now valuations.now) }
{
    match float(alloc, terms, valuations, start) {
        Ok(floated) => Ok(floated),
        Err(fault) => Err(float_end(&fault)),
    }
}

/// How a command ends whose market does not float.
fn float_end(fault: &FloatFault) -> Ended
    ensures { result ≡ float_end fault.now }
{
    match fault {
        FloatFault::NoMemory => Ended::NoMemory,
        FloatFault::NotSubstitutes { bidder, x, y, good } => Ended::NotSubstitutes {
            bidder: *bidder,
            x: *x,
            y: *y,
            good: *good,
        },
    }
}

/// How a command ends whose trial is refused.
fn end_by(fault: &TrialFault) -> Ended
    ensures { result ≡ end_by fault.now }
{
    match fault {
        TrialFault::NoMemory => Ended::NoMemory,
        TrialFault::NotSubstitutes { bidder, x, y, good } => Ended::NotSubstitutes {
            bidder: *bidder,
            x: *x,
            y: *y,
            good: *good,
        },
    }
}

/// The outcome of a trial, which always has one.
fn outcome_of(terms: &Terms, valuations: &[Valuation], tried: Tried) -> Result<Outcome, Ended>
    requires { IsTried terms.now (market_bidders terms.now valuations.now) (histories tried.clocks.items) tried.settlement }
    ensures tries { IfOk result (TriesAs terms.now valuations.now) }
    ensures ends { IfErr result (IsTrialEnd terms.now valuations.now) }
{
    let Tried { settlement, .. } = tried;
    match settlement {
        Settlement::Settled(outcome) => Ok(outcome),
        Settlement::Open { .. } | Settlement::Halted { .. } | Settlement::NoAward { .. } => {
            unreachable!()
        }
    }
}
