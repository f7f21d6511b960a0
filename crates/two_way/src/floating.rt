//! Two-way clocks of an auction whose bidders report what they demand by their valuations, from any start prices.
ghost use Rattle.std.specs.Prelude.{◌≡◌, ◌≤◌, length, true, Some, IfOk, IfErr, OnOk};
ghost use Rattle.std.specs.List.{AllZip};
ghost use Rattle.lot_base.specs.Economy.{AllStrongSubstitutes};
ghost use Rattle.clock.specs.Reports.{all_bidders};
ghost use Rattle.exchange_check.specs.Verdicts.{IsRight};
ghost use Rattle.trial.specs.Bidding.{bidders_of};
ghost use Rattle.trial.specs.Trials.{AreValuationsOf};
ghost use Rattle.two_way.specs.Histories.{IsStart};
ghost use Rattle.two_way.specs.Floated.{AreEnded, AreFloatedBy, choice_of};
ghost use Rattle.trial.specs.Rounds.{AreColumns};
ghost use Rattle.two_way.specs.Standing.{prices_of};
ghost use Rattle.two_way.specs.Bidding.{AreBidders, HaveSaid};
ghost use Rattle.two_way.specs.FloatHistories.{AreWhole, IsFloat, IsFloatOf, IsFresh, IsRefusal, HasTurned, is_running, round_told};

use crate::awarding::award_rows;
use crate::bidding::{Bidder, bidders_at, follow};
use crate::choosing::choice_of;
use crate::clocks::TwoWay;
use award_assembly::Choice;
use demand_set::Report;
use exchange_check::{Verdict, check};
use lot_base::limits::MOST_STEPS;
use lot_base::{Bundle, NoMemory, Phase, Prices, Sequence, Terms};
use settlement::AwardRow;
use std::alloc::Global;
use trial::carrying::no_columns;
use valuation::{Column, Valuation};

/// More rounds than a two-way clock has.
const MORE_ROUNDS: u32 = 2 * MOST_STEPS + 2;

/// The two-way clocks of an auction, and what they settle.
#[derive(Debug, Drop)]
pub struct Floated {
    /// Clock 0 first: one more than there are bidders. Each has ended.
    pub clocks: Vec<TwoWay>,
    /// Those at which the clock of all ended, good 0 first. They need not be the least.
    pub prices: Prices,
    /// One for each bidder, that of bidder 1 first.
    pub rows: Sequence<AwardRow>,
    /// One for each clock: the bundles that its members get in the first choice that clears at its prices.
    pub choices: Sequence<Choice>,
}

/// What the clock of all settles.
#[derive(Drop)]
struct Awarded {
    /// Those at which it ended.
    prices: Prices,
    /// The rows of the bidders.
    rows: Sequence<AwardRow>,
}

/// Why valuations float to nothing.
#[derive(Clone, Copy, Debug)]
pub enum FloatFault {
    /// The goods are no strong substitutes for a bidder, the first such one: no unit of the good can go from `x` to `y`, alone or
    /// against a unit of another good, without loss. It is the first such triple, by index of `x`, index of `y`, and good.
    NotSubstitutes {
        bidder: u8,
        x: Bundle,
        y: Bundle,
        good: u8,
    },
    /// Memory ran out.
    NoMemory,
}

/// The auction on these terms where all clocks start at these prices, and each bidder reports in every round what it demands by its
/// valuation, the first valuation being that of bidder 1. It is refused where the goods are no strong substitutes for a bidder.
pub fn float(
    alloc: Global,
    terms: &Terms,
    valuations: &[Valuation],
    start: &Prices,
) -> Result<Floated, FloatFault>
    requires valuations { AreValuationsOf terms.now valuations.now }
    requires start { IsStart terms.now start.now }
    ensures floated { IfOk result (λ f. IsFloat terms.now (bidders_of terms.now.goods valuations.now) start.now f.clocks.items f.prices
        f.rows f.choices) }
    ensures refused { IfErr result (IsRefusal terms.now (bidders_of terms.now.goods valuations.now)) }
{
    check_all(terms, valuations)?;
    match float_all(alloc, terms, valuations, start) {
        Ok(floated) => Ok(floated),
        Err(NoMemory) => Err(FloatFault::NoMemory),
    }
}

/// The first bidder for whom the goods are no strong substitutes, as why there is nothing.
fn check_all(terms: &Terms, valuations: &[Valuation]) -> Result<(), FloatFault>
    requires count { length valuations.now ≡ terms.now.bidders }
    ensures substitutes { OnOk result (AllStrongSubstitutes terms.now.goods (bidders_of terms.now.goods valuations.now)
        (all_bidders terms.now.bidders)) }
    ensures refused { IfErr result (IsRefusal terms.now (bidders_of terms.now.goods valuations.now)) }
{
    for place in 0..terms.bidders {
        let bidder = place + 1;
        if let Verdict::Breaks { x, y, good } = verdict_of(terms, valuations, bidder) {
            return Err(FloatFault::NotSubstitutes { bidder, x, y, good });
        }
    }
    Ok(())
}

/// Whether the goods are strong substitutes for this bidder.
fn verdict_of(terms: &Terms, valuations: &[Valuation], bidder: u8) -> Verdict
    requires count { length valuations.now ≡ terms.now.bidders }
    requires bidder { (1 ≤ bidder) × (bidder ≤ terms.now.bidders) }
    ensures { IsRight terms.now.goods (bidders_of terms.now.goods valuations.now bidder) result }
{
    check(&terms.goods, &valuations[bidder as usize - 1])
}

/// The clocks and what they settle, where the goods are strong substitutes for all bidders.
fn float_all(
    alloc: Global,
    terms: &Terms,
    valuations: &[Valuation],
    start: &Prices,
) -> Result<Floated, NoMemory>
    requires valuations { AreValuationsOf terms.now valuations.now }
    requires substitutes { AllStrongSubstitutes terms.now.goods (bidders_of terms.now.goods valuations.now)
        (all_bidders terms.now.bidders) }
    requires start { IsStart terms.now start.now }
    ensures { IfOk result (λ f. IsFloat terms.now (bidders_of terms.now.goods valuations.now) start.now f.clocks.items f.prices
        f.rows f.choices) }
{
    let clocks = run_clocks(alloc, terms, valuations, start)?;
    let choices = choices_of(alloc, terms, valuations, start, clocks.as_slice())?;
    let awarded = settle(alloc, terms, start, clocks.as_slice(), choices.as_slice())?;
    Ok(Floated {
        clocks,
        prices: awarded.prices,
        rows: awarded.rows,
        choices: Sequence::from_vec(choices),
    })
}

/// The last prices of the clock of all, and the rows of the bidders, by the choice of each clock.
fn settle(
    alloc: Global,
    terms: &Terms,
    start: &Prices,
    clocks: &[TwoWay],
    choices: &[Choice],
) -> Result<Awarded, NoMemory>
    requires start { IsStart terms.now start.now }
    requires clocks { AreEnded terms.now start.now clocks.now }
    requires choices { AllZip (λ h choice. choice_of h ≡ Some choice) clocks.now choices.now }
    ensures { IfOk result (λ a. AreFloatedBy clocks.now a.prices a.rows choices.now) }
{
    let all = &clocks[0];
    let others = clocks.split_at(1).1;
    let awards = &choices[0];
    let prices = all.look().prices;
    let rows = award_rows(alloc, all, others, &prices, awards)?;
    Ok(Awarded { prices, rows })
}

/// The first choices that clear, one for each clock.
fn choices_of(
    alloc: Global,
    terms: &Terms,
    valuations: &[Valuation],
    start: &Prices,
    clocks: &[TwoWay],
) -> Result<Vec<Choice>, NoMemory>
    requires valuations { AreValuationsOf terms.now valuations.now }
    requires substitutes { AllStrongSubstitutes terms.now.goods (bidders_of terms.now.goods valuations.now)
        (all_bidders terms.now.bidders) }
    requires start { IsStart terms.now start.now }
    requires clocks { AreWhole terms.now (bidders_of terms.now.goods valuations.now) start.now clocks.now }
    ensures { IfOk result (λ choices. AllZip (λ h choice. choice_of h ≡ Some choice) clocks.now choices.items) }
{
    let mut choices = Vec::new(alloc);
    for place in 0..clocks.len() {
        match choice_of(alloc, terms, &clocks[place])? {
            Some(choice) => choices.push(choice)?,
            None => unreachable!(),
        }
    }
    Ok(choices)
}

/// All clocks of the auction, in the order of their numbers.
fn run_clocks(
    alloc: Global,
    terms: &Terms,
    valuations: &[Valuation],
    start: &Prices,
) -> Result<Vec<TwoWay>, NoMemory>
    requires valuations { AreValuationsOf terms.now valuations.now }
    requires substitutes { AllStrongSubstitutes terms.now.goods (bidders_of terms.now.goods valuations.now)
        (all_bidders terms.now.bidders) }
    requires start { IsStart terms.now start.now }
    ensures { IfOk result (λ clocks. AreWhole terms.now (bidders_of terms.now.goods valuations.now) start.now clocks.items) }
{
    let mut columns = no_columns(alloc, &terms.goods)?;
    let mut clocks = Vec::new(alloc);
    for number in 0..terms.bidders + 1 {
        let clock = run_clock(alloc, terms, valuations, &mut columns, number, start)?;
        clocks.push(clock)?;
    }
    Ok(clocks)
}

/// The clock of this number, told in each round what its members demand, until it has ended.
fn run_clock(
    alloc: Global,
    terms: &Terms,
    valuations: &[Valuation],
    columns: &mut Vec<Option<Column>>,
    number: u8,
    start: &Prices,
) -> Result<TwoWay, NoMemory>
    requires valuations { AreValuationsOf terms.now valuations.now }
    requires substitutes { AllStrongSubstitutes terms.now.goods (bidders_of terms.now.goods valuations.now)
        (all_bidders terms.now.bidders) }
    requires columns { AreColumns terms.now.goods columns.old.items }
    requires start { IsStart terms.now start.now }
    requires number { number ≤ terms.now.bidders }
    ensures clock { IfOk result (IsFloatOf terms.now (bidders_of terms.now.goods valuations.now) start.now number) }
    ensures columns { AreColumns terms.now.goods columns.new.items }
{
    let mut clock = TwoWay::new(alloc, terms, number, start)?;
    let mut bidders = bidders_at(alloc, terms, valuations, &clock.look().prices)?;
    for turn in 0..MORE_ROUNDS {
        if !is_running(&clock) {
            return Ok(clock);
        }
        run_round(alloc, &mut clock, terms, valuations, columns, &mut bidders)?;
    }
    Ok(clock)
}

/// Whether the clock is running.
fn is_running(clock: &TwoWay) -> bool
    ensures { result ≡ is_running clock.now }
{
    match clock.look().phase {
        Phase::Running => true,
        Phase::Ended | Phase::Halted(_) => false,
    }
}

/// Tells the clock what each of its members demands in the present round, and has the bidders follow its prices.
fn run_round(
    alloc: Global,
    clock: &mut TwoWay,
    terms: &Terms,
    valuations: &[Valuation],
    columns: &mut Vec<Option<Column>>,
    bidders: &mut Vec<Bidder>,
) -> Result<(), NoMemory>
    requires terms { clock.old.terms ≡ terms.now }
    requires valuations { AreValuationsOf terms.now valuations.now }
    requires columns { AreColumns terms.now.goods columns.old.items }
    requires start { IsStart clock.old.terms clock.old.start }
    requires fresh { IsFresh (bidders_of terms.now.goods valuations.now) clock.old }
    requires bidders { AreBidders terms.now (bidders_of terms.now.goods valuations.now) (prices_of clock.old) bidders.old.items }
    requires said { HaveSaid (bidders_of terms.now.goods valuations.now) clock.old bidders.old.items }
    ensures told { OnOk result (clock.new ≡ round_told (bidders_of terms.now.goods valuations.now) clock.old) }
    ensures turned { OnOk result (HasTurned clock.old clock.new) }
    ensures bidders { OnOk result (AreBidders terms.now (bidders_of terms.now.goods valuations.now) (prices_of clock.new)
        bidders.new.items) }
    ensures said { OnOk result (is_running clock.new ≡ true
        → HaveSaid (bidders_of terms.now.goods valuations.now) clock.new bidders.new.items) }
    ensures columns { AreColumns terms.now.goods columns.new.items }
{
    let before = clock.look().prices;
    tell_round(alloc, clock, terms, valuations, bidders)?;
    let after = clock.look().prices;
    follow(alloc, terms, valuations, columns, bidders, &before, &after)
}

/// Tells the clock what each of its members demands at the prices of the present round, the smallest member first.
fn tell_round(
    alloc: Global,
    clock: &mut TwoWay,
    terms: &Terms,
    valuations: &[Valuation],
    bidders: &[Bidder],
) -> Result<(), NoMemory>
    requires terms { clock.old.terms ≡ terms.now }
    requires start { IsStart clock.old.terms clock.old.start }
    requires fresh { IsFresh (bidders_of terms.now.goods valuations.now) clock.old }
    requires bidders { AreBidders terms.now (bidders_of terms.now.goods valuations.now) (prices_of clock.old) bidders.now }
    requires said { HaveSaid (bidders_of terms.now.goods valuations.now) clock.old bidders.now }
    ensures told { OnOk result (clock.new ≡ round_told (bidders_of terms.now.goods valuations.now) clock.old) }
    ensures turned { OnOk result (HasTurned clock.old clock.new) }
{
    let number = clock.number();
    let round = clock.look().round;
    for place in 0..terms.bidders {
        let bidder = place + 1;
        if bidder == number {
            continue;
        }
        let from = &bidders[place as usize];
        if from.stays {
            clock.apply_again(alloc, bidder)?;
            continue;
        }
        let demand = from.follower.demand(alloc)?;
        let report = Report {
            bidder,
            round,
            demand,
        };
        match clock.apply(alloc, report) {
            Ok(()) => {}
            Err(_) => return Err(NoMemory),
        }
    }
    Ok(())
}
