//! What no clause says: that calls succeed where there is memory, and rounds that were worked by hand.
ghost use Rattle.std.specs.Prelude.{◌≡◌, IfOk, IfSome};
ghost use Rattle.lot_base.specs.Demands.{IsDemand};

use clock::{Clock, Judgement, ReplayFault};
use demand_set::{Demand, Report};
use expected_values::{equal, equal_in};
use lot_base::{Goods, Phase, Prices, Terms};
use std::alloc::Global;
use std::test::Fail;

/// A clock beside its terms.
#[derive(Drop)]
struct Auction {
    alloc: Global,
    terms: Terms,
    clock: Clock,
    ghost same: { clock.history.terms ≡ terms },
}

impl Auction {
    fn new(alloc: Global, terms: Terms, number: u8) -> Option<Auction> {
        Auction::with_room(alloc, terms, number, 0, 0)
    }

    /// One with room for so many reports and quantities.
    fn with_room(
        alloc: Global,
        terms: Terms,
        number: u8,
        reports: u32,
        quantities: u32,
    ) -> Option<Auction> {
        if number > terms.bidders {
            return None;
        }
        match Clock::with_room(alloc, &terms, number, reports, quantities) {
            Ok(clock) => Some(Auction {
                alloc,
                terms,
                clock,
            }),
            Err(_) => None,
        }
    }

    /// What becomes of a report of these quantities, one bundle after another. One that is to be applied is applied.
    fn report(&mut self, bidder: u8, round: u32, quantities: &[u16]) -> Option<Judgement> {
        let demand = demand_of(self.alloc, &self.terms.goods, quantities)?;
        let judgement = self.clock.judge(bidder, round, &demand);
        if judgement == Judgement::Take {
            let report = Report {
                bidder,
                round,
                demand,
            };
            if self.clock.apply(self.alloc, report).is_err() {
                return None;
            }
        }
        Some(judgement)
    }

    fn repeat(&mut self, rounds: u32) -> Option<u32> {
        repeated(self.alloc, &mut self.clock, rounds)
    }

    fn move_on(&mut self, bidder: u8, round: u32, quantities: &[u8]) -> Option<bool> {
        moved(self.alloc, &mut self.clock, bidder, round, quantities)
    }

    fn reserve(&mut self, quantities: u32) -> bool {
        self.clock.reserve(self.alloc, quantities).is_ok()
    }
}

/// How many of so many rounds a clock repeats.
fn repeated(alloc: Global, clock: &mut Clock, rounds: u32) -> Option<u32>
    ensures { clock.new.history.terms ≡ clock.old.history.terms }
{
    match clock.repeat(alloc, rounds) {
        Ok(made) => Some(made),
        Err(_) => None,
    }
}

/// Whether a clock moves a bidder's report of the quantities that these bytes spell on to a round.
fn moved(
    alloc: Global,
    clock: &mut Clock,
    bidder: u8,
    round: u32,
    quantities: &[u8],
) -> Option<bool>
    ensures { clock.new.history.terms ≡ clock.old.history.terms }
{
    match clock.apply_again(alloc, bidder, round, quantities) {
        Ok(true) => Some(true),
        Ok(false) => Some(false),
        Err(_) => None,
    }
}

fn terms_of(supply: &[u16], bidders: u8, ceiling: u32) -> Option<Terms> {
    match Goods::new(supply) {
        Ok(goods) => Terms::new(goods, bidders, ceiling).ok(),
        Err(_) => None,
    }
}

/// The demand of these quantities, if they are whole bundles and there is memory.
fn demand_of(alloc: Global, goods: &Goods, quantities: &[u16]) -> Option<Demand>
    ensures { IfSome result (λ d. IsDemand goods.now d) }
{
    let count = goods.count();
    if count < 1 || count > 6 || quantities.len() % count as usize != 0 {
        return None;
    }
    match Demand::read_quantities(alloc, goods, count, quantities) {
        Ok(demand) => Some(demand),
        Err(_) => None,
    }
}

/// What is asked of a clock, and what it answers.
enum Step<'a> {
    /// The report of this bidder in this round, of these quantities, is judged so.
    Reported(u8, u32, &'a [u16], Judgement),
    /// The report of this bidder in this round, of the quantities that these bytes spell, moves on from the round before, or does not.
    Moved(u8, u32, &'a [u8], bool),
    /// The clock is in this round, in this phase, this member is missing, and these are the prices.
    Stands(u32, Phase, u8, &'a [u32]),
    /// It is that of this number.
    Numbered(u8),
    /// So many reports were applied.
    Counts(u32),
    /// The report of this number is of this bidder in this round, and demands these quantities.
    Told(u32, u8, u32, &'a [u16]),
    /// The report of this number demands what its bidder's report before it did, or does not.
    Again(u32, bool),
    /// The demand of this bidder in the round.
    Last(u8, Option<&'a [u16]>),
    /// The prices of this round.
    Priced(u32, &'a [u32]),
    /// Of so many rounds that may repeat, so many do.
    Repeats(u32, u32),
    /// There is memory for so many quantities.
    Reserves(u32),
}

fn shown_of(clock: &Clock) -> (u32, Phase, Prices) {
    let look = clock.look();
    (look.round, look.phase, look.prices)
}

fn are_prices(prices: &Prices, wanted: &[u32]) -> bool {
    prices.as_slice() == wanted
}

fn number_of(clock: &Clock) -> u8 {
    clock.number()
}

fn steps_of(clock: &Clock) -> u32 {
    clock.steps()
}

fn missing_of(clock: &Clock) -> u8 {
    clock.missing()
}

fn count_of(clock: &Clock) -> u32 {
    clock.count()
}

fn stands(clock: &Clock, round: u32, phase: Phase, missing: u8, prices: &[u32]) -> bool {
    let shown = shown_of(clock);
    shown.0 == round
        && steps_of(clock).checked_add(1) == Some(round)
        && shown.1 == phase
        && missing_of(clock) == missing
        && are_prices(&shown.2, prices)
}

fn told(alloc: Global, clock: &Clock, number: u32) -> Option<Report> {
    if number < 1 || number > clock.count() {
        return None;
    }
    clock.report(alloc, number).ok()
}

/// Whose report has this number, without unpacking it.
fn whose(clock: &Clock, number: u32) -> Option<u8> {
    if number < 1 || number > clock.count() {
        return None;
    }
    Some(clock.bidder(number))
}

fn is_again(clock: &Clock, number: u32) -> Option<bool> {
    if number < 1 || number > clock.count() {
        return None;
    }
    Some(clock.is_repeat(number))
}

fn is_demand(demand: &Demand, quantities: &[u16]) -> bool {
    demand.quantities() == quantities
}

fn is_report(report: Option<Report>, bidder: u8, round: u32, quantities: &[u16]) -> bool {
    match report {
        None => false,
        Some(told) => {
            told.bidder == bidder && told.round == round && is_demand(&told.demand, quantities)
        }
    }
}

fn is_last(clock: &Clock, bidder: u8, quantities: Option<&[u16]>) -> bool {
    match (clock.last_demand(bidder), quantities) {
        (None, None) => true,
        (Some(demand), Some(wanted)) => is_demand(demand, wanted),
        _ => false,
    }
}

fn are_prices_at(clock: &Clock, round: u32, prices: &[u32]) -> bool {
    if round < 1 || round > clock.look().round {
        return false;
    }
    are_prices(&clock.prices_at(round), prices)
}

/// Whether these are the prices of a round by those of the round before, where there is one.
fn follow(clock: &Clock, round: u32, prices: &[u32]) -> bool {
    if round < 2 || round > clock.look().round {
        return true;
    }
    let before = clock.prices_at(round - 1);
    are_prices(&clock.next_prices(round - 1, &before), prices)
}

/// Whether a step goes as it says.
fn goes(auction: &mut Auction, step: &Step) -> bool {
    match *step {
        Step::Reported(bidder, round, quantities, judgement) => {
            auction.report(bidder, round, quantities) == Some(judgement)
        }
        Step::Moved(bidder, round, quantities, moves) => {
            auction.move_on(bidder, round, quantities) == Some(moves)
        }
        Step::Repeats(most, rounds) => auction.repeat(most) == Some(rounds),
        Step::Reserves(quantities) => auction.reserve(quantities),
        _ => shows(auction.alloc, &auction.clock, step),
    }
}

/// The same of a step that changes nothing.
fn shows(alloc: Global, clock: &Clock, step: &Step) -> bool {
    match *step {
        Step::Stands(round, phase, missing, prices) => {
            stands(clock, round, phase, missing, prices)
        }
        Step::Numbered(number) => number_of(clock) == number,
        Step::Counts(count) => count_of(clock) == count,
        Step::Told(number, bidder, round, quantities) => {
            whose(clock, number) == Some(bidder)
                && is_report(told(alloc, clock, number), bidder, round, quantities)
        }
        Step::Again(number, again) => is_again(clock, number) == Some(again),
        Step::Last(bidder, quantities) => is_last(clock, bidder, quantities),
        Step::Priced(round, prices) => {
            are_prices_at(clock, round, prices) && follow(clock, round, prices)
        }
        _ => false,
    }
}

/// The number, from 1, of the first step that goes otherwise. It is 0 where there is no auction.
fn first_other(auction: Option<Auction>, steps: &[Step]) -> Option<u32> {
    let Some(mut auction) = auction else {
        return Some(0);
    };
    let mut number: u32 = 0;
    for step in steps {
        number = number.saturating_add(1);
        if !goes(&mut auction, step) {
            return Some(number);
        }
    }
    None
}

/// An auction of these terms without the bidder of this number.
fn auction_of(
    alloc: Global,
    supply: &[u16],
    bidders: u8,
    ceiling: u32,
    number: u8,
) -> Option<Auction> {
    match terms_of(supply, bidders, ceiling) {
        Some(terms) => Auction::new(alloc, terms, number),
        None => None,
    }
}

const JUDGED: &[Step] = &[
    Step::Reported(1, 1, &[2], Judgement::Take),
    Step::Reported(1, 1, &[2], Judgement::Again),
    Step::Reported(1, 1, &[1], Judgement::Conflict(1)),
    Step::Reported(2, 2, &[2], Judgement::Early(1)),
    Step::Reported(2, 1, &[2], Judgement::Take),
    Step::Reported(1, 1, &[2], Judgement::Again),
    Step::Reported(1, 1, &[1], Judgement::Conflict(1)),
    Step::Reported(1, 3, &[1], Judgement::Early(2)),
    Step::Reported(1, 0, &[1], Judgement::NoRound),
    Step::Reported(1, 2, &[1], Judgement::Take),
    Step::Reported(2, 2, &[1], Judgement::Take),
    Step::Reported(1, 3, &[1], Judgement::Over(2)),
    Step::Reported(1, 2, &[0], Judgement::Conflict(2)),
    Step::Reported(1, 1, &[2], Judgement::Again),
    Step::Reported(0, 1, &[2], Judgement::NotMember),
    Step::Reported(3, 1, &[2], Judgement::NotMember),
    Step::Stands(2, Phase::Ended, 0, &[1]),
];

#[test]
fn judges_a_report_by_those_before_it(rt: HostRuntime) -> Result<(), Fail> {
    let auction = auction_of(rt.alloc(), &[2], 2, 10, 0);
    equal(first_other(auction, JUDGED), None)?;
    Ok(())
}

const FULL_ROUND: &[Step] = &[
    Step::Numbered(0),
    Step::Stands(1, Phase::Running, 1, &[0]),
    Step::Reported(1, 1, &[2], Judgement::Take),
    Step::Stands(1, Phase::Running, 2, &[0]),
    Step::Last(1, Some(&[2])),
    Step::Last(2, None),
    Step::Reported(2, 1, &[2], Judgement::Take),
    Step::Stands(2, Phase::Running, 1, &[1]),
    Step::Last(1, None),
];

#[test]
fn a_round_begins_when_all_members_have_reported(rt: HostRuntime) -> Result<(), Fail> {
    let auction = auction_of(rt.alloc(), &[2], 2, 10, 0);
    equal(first_other(auction, FULL_ROUND), None)?;
    Ok(())
}

const WITHOUT_SECOND: &[Step] = &[
    Step::Numbered(2),
    Step::Reported(0, 1, &[1], Judgement::NotMember),
    Step::Reported(2, 1, &[1], Judgement::NotMember),
    Step::Reported(1, 1, &[1], Judgement::Take),
    Step::Stands(1, Phase::Ended, 0, &[0]),
];

#[test]
fn a_bidder_is_no_member_of_the_clock_of_its_number(rt: HostRuntime) -> Result<(), Fail> {
    let auction = auction_of(rt.alloc(), &[1], 2, 10, 2);
    equal(first_other(auction, WITHOUT_SECOND), None)?;
    Ok(())
}

/// The demand of a bidder that wants both goods or none, where they are worth it.
const BOTH: &[u16] = &[1, 1];

/// The demand of a bidder that wants one good or two.
const ANY: &[u16] = &[0, 1, 1, 0, 1, 1];

// One bidder wants both goods or none, the other wants one of them: no good alone is in excess demand.
const TOGETHER: &[Step] = &[
    Step::Stands(1, Phase::Running, 1, &[0, 0]),
    Step::Reported(1, 1, BOTH, Judgement::Take),
    Step::Reported(2, 1, ANY, Judgement::Take),
    Step::Stands(2, Phase::Running, 1, &[1, 1]),
    Step::Reported(1, 2, BOTH, Judgement::Take),
    Step::Reported(2, 2, &[0, 1, 1, 0], Judgement::Take),
    Step::Stands(3, Phase::Running, 1, &[2, 2]),
    Step::Reported(1, 3, &[0, 0], Judgement::Take),
    Step::Reported(2, 3, &[0, 0, 0, 1, 1, 0], Judgement::Take),
    Step::Stands(3, Phase::Ended, 0, &[2, 2]),
];

const SECOND_ALONE: &[Step] = &[
    Step::Reported(2, 1, ANY, Judgement::Take),
    Step::Stands(1, Phase::Ended, 0, &[0, 0]),
];

const FIRST_ALONE: &[Step] = &[
    Step::Reported(1, 1, BOTH, Judgement::Take),
    Step::Stands(1, Phase::Ended, 0, &[0, 0]),
];

#[test]
fn goods_in_excess_demand_only_together_rise_together(rt: HostRuntime) -> Result<(), Fail> {
    for (number, steps) in [(0, TOGETHER), (1, SECOND_ALONE), (2, FIRST_ALONE)] {
        let auction = auction_of(rt.alloc(), &[1, 1], 2, 10, number);
        equal_in(number, first_other(auction, steps), None)?;
    }
    Ok(())
}

// The goods 0 and 1 are in as great an excess demand as the goods 1 and 2, and no set of fewer goods is.
const TIED: &[Step] = &[
    Step::Stands(1, Phase::Running, 1, &[0, 0, 0]),
    Step::Reported(1, 1, &[0, 1, 0, 1, 0, 1], Judgement::Take),
    Step::Stands(1, Phase::Running, 2, &[0, 0, 0]),
    Step::Reported(2, 1, &[0, 1, 0, 1, 0, 1], Judgement::Take),
    Step::Stands(1, Phase::Running, 3, &[0, 0, 0]),
    Step::Reported(3, 1, &[0, 1, 0, 1, 0, 1], Judgement::Take),
    Step::Stands(1, Phase::Running, 4, &[0, 0, 0]),
    Step::Reported(4, 1, &[0, 1, 0, 1, 0, 1], Judgement::Take),
    Step::Stands(2, Phase::Running, 1, &[1, 1, 0]),
];

#[test]
fn of_sets_that_tie_the_smallest_number_rises(rt: HostRuntime) -> Result<(), Fail> {
    let auction = auction_of(rt.alloc(), &[1, 1, 1], 4, 10, 0);
    equal(first_other(auction, TIED), None)?;
    Ok(())
}

// Each is told by the latest report of its bidder, and not by the first, nor by the number of bundles.
const TOLD_AGAIN: &[Step] = &[
    Step::Reported(1, 1, &[2], Judgement::Take),
    Step::Reported(2, 1, &[2], Judgement::Take),
    Step::Reported(1, 2, &[1], Judgement::Take),
    Step::Reported(2, 2, &[2], Judgement::Take),
    Step::Reported(1, 3, &[2], Judgement::Take),
    Step::Reported(2, 3, &[2], Judgement::Take),
    Step::Reported(1, 4, &[1, 2], Judgement::Take),
    Step::Reported(2, 4, &[2], Judgement::Take),
    Step::Reported(2, 5, &[1, 2], Judgement::Take),
    Step::Reported(1, 5, &[1, 2], Judgement::Take),
    Step::Stands(5, Phase::Ended, 0, &[4]),
    Step::Again(1, false),
    Step::Again(2, false),
    Step::Again(3, false),
    Step::Again(4, true),
    Step::Again(5, false),
    Step::Again(6, true),
    Step::Again(7, false),
    Step::Again(8, true),
    Step::Again(9, false),
    Step::Again(10, true),
    Step::Told(9, 2, 5, &[1, 2]),
    Step::Told(10, 1, 5, &[1, 2]),
    Step::Priced(2, &[1]),
    Step::Priced(5, &[4]),
];

#[test]
fn a_report_tells_its_bidder_and_whether_it_repeats(rt: HostRuntime) -> Result<(), Fail> {
    let auction = auction_of(rt.alloc(), &[2], 2, 10, 0);
    equal(first_other(auction, TOLD_AGAIN), None)?;
    Ok(())
}

const TO_THE_CEILING: &[Step] = &[
    Step::Stands(1, Phase::Running, 1, &[0]),
    Step::Reported(1, 1, &[1], Judgement::Take),
    Step::Reported(2, 1, &[1], Judgement::Take),
    Step::Stands(2, Phase::Running, 1, &[1]),
    Step::Reported(1, 2, &[1], Judgement::Take),
    Step::Reported(2, 2, &[1], Judgement::Take),
    Step::Stands(3, Phase::Running, 1, &[2]),
    Step::Reported(1, 3, &[1], Judgement::Take),
    Step::Reported(2, 3, &[1], Judgement::Take),
    Step::Stands(3, Phase::Halted(0), 0, &[2]),
    Step::Reported(1, 4, &[1], Judgement::Over(3)),
];

#[test]
fn a_good_at_the_ceiling_halts_the_clock(rt: HostRuntime) -> Result<(), Fail> {
    let auction = auction_of(rt.alloc(), &[1], 2, 2, 0);
    equal(first_other(auction, TO_THE_CEILING), None)?;
    Ok(())
}

const FROM_EIGHT: &[Step] = &[
    Step::Stands(1, Phase::Running, 1, &[8]),
    Step::Reported(1, 1, &[1], Judgement::Take),
    Step::Reported(2, 1, &[1], Judgement::Take),
    Step::Stands(2, Phase::Running, 1, &[9]),
    Step::Reported(1, 2, &[1], Judgement::Take),
    Step::Reported(2, 2, &[1], Judgement::Take),
    Step::Stands(3, Phase::Running, 1, &[10]),
    Step::Reported(1, 3, &[1], Judgement::Take),
    Step::Reported(2, 3, &[1], Judgement::Take),
    Step::Stands(3, Phase::Halted(0), 0, &[10]),
];

/// The terms of one unit for two bidders, which opens at a price.
fn opening_at(price: u32) -> Option<Terms> {
    let goods = Goods::new(&[1]).ok()?;
    let opening = Prices::read(&[price])?;
    if opening.count() != goods.count() {
        return None;
    }
    Terms::with_opening(goods, 2, 10, opening).ok()
}

#[test]
fn a_clock_opens_at_the_reserves_and_rises_from_there(rt: HostRuntime) -> Result<(), Fail> {
    let auction = match opening_at(8) {
        Some(terms) => Auction::new(rt.alloc(), terms, 0),
        None => None,
    };
    equal(first_other(auction, FROM_EIGHT), None)?;
    Ok(())
}

const NO_MEMBERS: &[Step] = &[
    Step::Stands(1, Phase::Ended, 0, &[0]),
    Step::Reported(1, 1, &[1], Judgement::NotMember),
    Step::Last(1, None),
];

#[test]
fn a_clock_without_members_has_ended(rt: HostRuntime) -> Result<(), Fail> {
    let auction = auction_of(rt.alloc(), &[1], 1, 10, 1);
    equal(first_other(auction, NO_MEMBERS), None)?;
    Ok(())
}

/// A report of the second bidder's wish for the one unit.
fn second_wants_it(alloc: Global, terms: &Terms, round: u32) -> Result<Report, Fail>
    ensures { IfOk result (λ r. IsDemand terms.now.goods r.demand) }
{
    match demand_of(alloc, &terms.goods, &[1]) {
        Some(demand) => Ok(Report {
            bidder: 2,
            round,
            demand,
        }),
        None => Err("no demand".into()),
    }
}

/// Whether the clock without the first bidder takes the second one's report, and how it stands then.
fn takes_one(alloc: Global, terms: &Terms) -> Result<bool, Fail> {
    let mut reports = Vec::new(alloc);
    reports.push(second_wants_it(alloc, terms, 1)?)?;
    match Clock::replay(alloc, terms, 1, reports) {
        Ok(clock) => Ok(stands(&clock, 1, Phase::Ended, 0, &[0])),
        Err(_) => Ok(false),
    }
}

#[test]
fn replays_reports_that_are_taken(rt: HostRuntime) -> Result<(), Fail> {
    let terms = terms_of(&[1], 2, 10).ok_or("no terms")?;
    assert!(rt; takes_one(rt.alloc(), &terms)?);
    Ok(())
}

/// Why the clock of all bidders does not take the second one's reports in the rounds 1 and 3.
fn fault_of_two(alloc: Global, terms: &Terms) -> Result<Option<ReplayFault>, Fail> {
    let mut reports = Vec::new(alloc);
    reports.push(second_wants_it(alloc, terms, 1)?)?;
    reports.push(second_wants_it(alloc, terms, 3)?)?;
    Ok(Clock::replay(alloc, terms, 0, reports).err())
}

#[test]
fn names_the_first_report_that_is_not_taken(rt: HostRuntime) -> Result<(), Fail> {
    let terms = terms_of(&[1], 2, 10).ok_or("no terms")?;
    let early = ReplayFault::NotTaken {
        number: 2,
        judgement: Judgement::Early(1),
    };
    equal(fault_of_two(rt.alloc(), &terms)?, Some(early))?;
    Ok(())
}

// One good and room for two reports and four quantities: a report of one quantity leaves room for one report and three.
const WITHIN_ROOM: &[Step] = &[
    Step::Counts(0),
    Step::Reported(1, 1, &[1], Judgement::Take),
    Step::Counts(1),
    Step::Told(1, 1, 1, &[1]),
    Step::Reserves(100),
    Step::Counts(1),
    Step::Told(1, 1, 1, &[1]),
];

#[test]
fn a_report_within_the_room_is_kept_and_told(rt: HostRuntime) -> Result<(), Fail> {
    let auction = match terms_of(&[2], 2, 10) {
        Some(terms) => Auction::with_room(rt.alloc(), terms, 0, 2, 4),
        None => None,
    };
    equal(first_other(auction, WITHIN_ROOM), None)?;
    Ok(())
}

// The first good is in excess demand in two rounds, and nothing in the third: only it rises, by one in each round.
const EARLIER: &[Step] = &[
    Step::Reported(2, 1, &[2, 1], Judgement::Take),
    Step::Reported(1, 1, &[2, 1], Judgement::Take),
    Step::Reported(2, 2, &[1, 1, 2, 0], Judgement::Take),
    Step::Reported(1, 2, &[2, 1], Judgement::Take),
    Step::Reported(2, 3, &[0, 2], Judgement::Take),
    Step::Reported(1, 3, &[2, 1], Judgement::Take),
    Step::Stands(3, Phase::Ended, 0, &[2, 0]),
    Step::Counts(6),
    Step::Told(1, 2, 1, &[2, 1]),
    Step::Told(2, 1, 1, &[2, 1]),
    Step::Priced(1, &[0, 0]),
    Step::Told(3, 2, 2, &[1, 1, 2, 0]),
    Step::Told(4, 1, 2, &[2, 1]),
    Step::Priced(2, &[1, 0]),
    Step::Told(5, 2, 3, &[0, 2]),
    Step::Told(6, 1, 3, &[2, 1]),
    Step::Priced(3, &[2, 0]),
];

#[test]
fn earlier_reports_and_prices_are_told(rt: HostRuntime) -> Result<(), Fail> {
    let auction = auction_of(rt.alloc(), &[2, 3], 2, 10, 0);
    equal(first_other(auction, EARLIER), None)?;
    Ok(())
}

const NOT_REPEATED: &[Step] = &[
    Step::Repeats(3, 0),
    Step::Reported(2, 1, &[2], Judgement::Take),
    Step::Repeats(3, 0),
    Step::Reported(1, 1, &[2], Judgement::Take),
    Step::Reported(1, 2, &[2], Judgement::Take),
    Step::Repeats(3, 0),
    Step::Reported(2, 2, &[2], Judgement::Take),
    Step::Counts(4),
    Step::Stands(3, Phase::Running, 1, &[2]),
];

#[test]
fn repeats_nothing_before_a_step_or_within_a_round(rt: HostRuntime) -> Result<(), Fail> {
    let auction = auction_of(rt.alloc(), &[2], 2, 10, 0);
    equal(first_other(auction, NOT_REPEATED), None)?;
    Ok(())
}

// The least quantities of both members are three of two units: the round repeats as often as asked, and then up to the ceiling.
const REPEATED: &[Step] = &[
    Step::Reported(3, 1, &[2], Judgement::Take),
    Step::Reported(1, 1, &[1, 2], Judgement::Take),
    Step::Repeats(0, 0),
    Step::Stands(2, Phase::Running, 1, &[1]),
    Step::Repeats(3, 3),
    Step::Stands(5, Phase::Running, 1, &[4]),
    Step::Counts(8),
    Step::Told(3, 1, 2, &[1, 2]),
    Step::Told(4, 3, 2, &[2]),
    Step::Told(5, 1, 3, &[1, 2]),
    Step::Told(6, 3, 3, &[2]),
    Step::Told(7, 1, 4, &[1, 2]),
    Step::Told(8, 3, 4, &[2]),
    Step::Repeats(100, 6),
    Step::Stands(11, Phase::Running, 1, &[10]),
    Step::Repeats(100, 0),
    Step::Reported(1, 11, &[1, 2], Judgement::Take),
    Step::Reported(3, 11, &[2], Judgement::Take),
    Step::Stands(11, Phase::Halted(0), 0, &[10]),
    Step::Reported(1, 4, &[1, 2], Judgement::Again),
    Step::Reported(1, 4, &[2], Judgement::Conflict(4)),
];

#[test]
fn repeats_what_each_member_reported(rt: HostRuntime) -> Result<(), Fail> {
    let auction = auction_of(rt.alloc(), &[2], 3, 10, 2);
    equal(first_other(auction, REPEATED), None)?;
    Ok(())
}

// Only what a bidder reported in the round before moves on: not other quantities, nor a part of them, nor twice, nor to another round
// than the current one, nor after the end.
const MOVED: &[Step] = &[
    Step::Moved(1, 1, &[0, 2], false),
    Step::Reported(1, 1, &[2], Judgement::Take),
    Step::Moved(1, 1, &[0, 2], false),
    Step::Reported(2, 1, &[1, 2], Judgement::Take),
    Step::Moved(1, 3, &[0, 2], false),
    Step::Moved(1, 2, &[0, 1], false),
    Step::Moved(2, 2, &[0, 1], false),
    Step::Moved(1, 2, &[0, 2], true),
    Step::Moved(1, 2, &[0, 2], false),
    Step::Reported(1, 2, &[2], Judgement::Again),
    Step::Moved(2, 2, &[0, 1, 0, 2], true),
    Step::Counts(4),
    Step::Told(3, 1, 2, &[2]),
    Step::Told(4, 2, 2, &[1, 2]),
    Step::Again(4, true),
    Step::Stands(3, Phase::Running, 1, &[2]),
    Step::Repeats(1, 1),
    Step::Moved(2, 4, &[0, 1, 0, 2], true),
    Step::Reported(1, 4, &[0], Judgement::Take),
    Step::Stands(4, Phase::Ended, 0, &[3]),
    Step::Moved(1, 5, &[0, 0], false),
];

#[test]
fn a_report_that_repeats_is_moved_on(rt: HostRuntime) -> Result<(), Fail> {
    let auction = auction_of(rt.alloc(), &[2], 2, 10, 0);
    equal(first_other(auction, MOVED), None)?;
    Ok(())
}

// The demands of a bidder that wants one unit of one of six goods.
const FIRST_OF_SIX: &[u16] = &[1, 0, 0, 0, 0, 0];

const SECOND_OF_SIX: &[u16] = &[0, 1, 0, 0, 0, 0];

const THIRD_OF_SIX: &[u16] = &[0, 0, 1, 0, 0, 0];

const FOURTH_OF_SIX: &[u16] = &[0, 0, 0, 1, 0, 0];

const FIFTH_OF_SIX: &[u16] = &[0, 0, 0, 0, 1, 0];

const SIXTH_OF_SIX: &[u16] = &[0, 0, 0, 0, 0, 1];

// One good after the other rises to the ceiling of 10,000, so that the clock has all rounds that one can have.
const ALL_ROUNDS: &[Step] = &[
    Step::Reported(3, 1, FIRST_OF_SIX, Judgement::Take),
    Step::Reported(1, 1, FIRST_OF_SIX, Judgement::Take),
    Step::Repeats(100_000, 9_999),
    Step::Reported(3, 10_001, SECOND_OF_SIX, Judgement::Take),
    Step::Reported(1, 10_001, SECOND_OF_SIX, Judgement::Take),
    Step::Repeats(100_000, 9_999),
    Step::Reported(3, 20_001, THIRD_OF_SIX, Judgement::Take),
    Step::Reported(1, 20_001, THIRD_OF_SIX, Judgement::Take),
    Step::Repeats(100_000, 9_999),
    Step::Reported(3, 30_001, FOURTH_OF_SIX, Judgement::Take),
    Step::Reported(1, 30_001, FOURTH_OF_SIX, Judgement::Take),
    Step::Repeats(100_000, 9_999),
    Step::Reported(3, 40_001, FIFTH_OF_SIX, Judgement::Take),
    Step::Reported(1, 40_001, FIFTH_OF_SIX, Judgement::Take),
    Step::Repeats(100_000, 9_999),
    Step::Stands(
        50_001,
        Phase::Running,
        1,
        &[10_000, 10_000, 10_000, 10_000, 10_000, 0],
    ),
    Step::Reported(3, 50_001, SIXTH_OF_SIX, Judgement::Take),
    Step::Reported(1, 50_001, SIXTH_OF_SIX, Judgement::Take),
    Step::Repeats(100_000, 9_999),
    Step::Stands(
        60_001,
        Phase::Running,
        1,
        &[10_000, 10_000, 10_000, 10_000, 10_000, 10_000],
    ),
    Step::Reported(3, 60_001, &[0, 0, 0, 0, 0, 0], Judgement::Take),
    Step::Reported(1, 60_001, SIXTH_OF_SIX, Judgement::Take),
    Step::Stands(
        60_001,
        Phase::Ended,
        0,
        &[10_000, 10_000, 10_000, 10_000, 10_000, 10_000],
    ),
    Step::Counts(120_002),
    Step::Told(100_001, 3, 50_001, SIXTH_OF_SIX),
    Step::Told(120_002, 1, 60_001, SIXTH_OF_SIX),
    Step::Priced(50_002, &[10_000, 10_000, 10_000, 10_000, 10_000, 1]),
];

#[test]
fn a_clock_has_as_many_rounds_as_goods_and_ceiling_allow(rt: HostRuntime) -> Result<(), Fail> {
    let auction = auction_of(rt.alloc(), &[1, 1, 1, 1, 1, 1], 3, 10_000, 2);
    equal(first_other(auction, ALL_ROUNDS), None)?;
    Ok(())
}

// As many reports and quantities as a clock of a house has room for.
const IN_MOST_ROOM: &[Step] = &[
    Step::Reported(1, 1, &[1], Judgement::Take),
    Step::Reserves(33_554_432),
    Step::Told(1, 1, 1, &[1]),
];

#[test]
fn a_clock_takes_the_most_room_that_a_house_asks_for(rt: HostRuntime) -> Result<(), Fail> {
    let auction = match terms_of(&[2], 2, 10) {
        Some(terms) => Auction::with_room(rt.alloc(), terms, 0, 720_012, 33_554_432),
        None => None,
    };
    equal(first_other(auction, IN_MOST_ROOM), None)?;
    Ok(())
}
