//! How a two-way clock stands, and where its rounds lead.
ghost use Rattle.std.specs.Prelude.{◌≡◌, ◌≢◌, ◌<◌, ◌≤◌, ◌^◌, ◌+◌, ◌⊎◌, ℕ, true, false, None, [], length, drop, is_none};
ghost use Rattle.std.specs.List.{AllByRecursion};
ghost use Rattle.lot_base.specs.declared.limits.TheConstants.{MOST_STEPS};
ghost use Rattle.lot_base.specs.Goods.{AllBelow};
ghost use Rattle.lot_base.specs.Demands.{IsDemand};
ghost use Rattle.lot_base.specs.declared.phases.Phase.TheVariants.{Running};
ghost use Rattle.demand_set.specs.declared.reports.Report.{Report as ReportValue};
ghost use Rattle.clock.specs.Reports.{members, demand_in, demands_in, is_full};
ghost use Rattle.clock.specs.Standing.{good_from};

use crate::past::Past;
use crate::quantities::{Amount, Quantities, demanded};
use credit_book::Account;
use lot_base::limits::MOST_STEPS;
use lot_base::{GoodSet, Phase, Prices, Terms};
use overshoot::most_short;
use step_choice::choose;

/// How a two-way clock stands after its steps.
#[derive(Debug, Drop)]
pub struct Standing {
    /// How many steps it has made, either way: the number of the last or current round, less one.
    pub steps: u32,
    /// Whether the direction was down in a round before.
    pub was_down: bool,
    /// Whether the last or current round is the last, and why.
    pub phase: Phase,
    /// Those of that round.
    pub prices: Prices,
    /// What the steps up add up to.
    pub up: Account,
    /// What the steps down add up to, by the greatest quantities.
    pub down: Account,
}

impl Standing {
    ghost use Rattle.two_way.specs.Histories.{IsStart};
    ghost use Rattle.two_way.specs.Falling.{fall_set};
    ghost use Rattle.two_way.specs.Quantities.{AddUp, amount_in};
    ghost use Rattle.two_way.specs.declared.quantities.Amount.TheVariants.{Least};
    ghost use Rattle.two_way.specs.Turns.{GoesDown, IsTurned, Rises, Halts, Falls, Ends, HasRoom, set_up};
    ghost use Rattle.two_way.specs.Kept.{StandsAt};

    /// How a clock stands that has no reports. Where it has a member it waits for the first one. A clock without members goes on by itself,
    /// since each of its rounds is full, and comes down to the opening.
    pub(crate) fn first(terms: &Terms, clock: u8, start: &Prices, reports: &Past) -> Standing
        requires number { clock ≤ terms.now.bidders }
        requires start { IsStart terms.now start.now }
        requires goods { reports.now.goods ≡ terms.now.goods }
        requires none { reports.now.reports ≡ [] }
        ensures { StandsAt (record { terms = terms.now; number = clock; start = start.now; reports = reports.now.reports }) result }
    {
        let mut standing = Standing {
            steps: 0,
            was_down: false,
            phase: Phase::Running,
            prices: *start,
            up: Account::new(),
            down: Account::new(),
        };
        for made in 0..2 * MOST_STEPS + 1 {
            standing.advance(terms, clock, reports, 0);
            if standing.steps == made {
                return standing;
            }
        }
        standing
    }

    /// Goes where the present round leads, with these reports in it: nowhere while some member has none.
    pub(crate) fn advance(&mut self, terms: &Terms, clock: u8, reports: &Past, from: usize)
        requires goods { reports.now.goods ≡ terms.now.goods }
        requires from { from ≤ length reports.now.reports }
        requires fit { AllByRecursion (λ (r : ReportValue). IsDemand terms.now.goods r.demand) (drop from reports.now.reports) }
        requires room { is_full (members terms.now.bidders clock) (drop from reports.now.reports) (self.old.steps + 1) ≡ true
            → HasRoom terms.now (demands_in (drop from reports.now.reports) (self.old.steps + 1))
            (members terms.now.bidders clock) self.old }
        requires few { self.old.steps ≤ 120000 }
        ensures open { is_full (members terms.now.bidders clock) (drop from reports.now.reports) (self.old.steps + 1) ≡ false
            → self.new ≡ self.old }
        ensures full { is_full (members terms.now.bidders clock) (drop from reports.now.reports) (self.old.steps + 1) ≡ true
            → IsTurned terms.now (demands_in (drop from reports.now.reports) (self.old.steps + 1))
            (members terms.now.bidders clock) self.old self.new }
    {
        if is_open(terms.bidders, clock, reports, from, self.steps + 1) {
            return;
        }
        self.turn(terms, clock, reports, from);
    }

    /// Goes where a full round leads: up, where the direction is up and a set of goods is in excess demand; else down.
    fn turn(&mut self, terms: &Terms, clock: u8, reports: &Past, from: usize)
        requires goods { reports.now.goods ≡ terms.now.goods }
        requires from { from ≤ length reports.now.reports }
        requires fit { AllByRecursion (λ (r : ReportValue). IsDemand terms.now.goods r.demand) (drop from reports.now.reports) }
        requires room { HasRoom terms.now (demands_in (drop from reports.now.reports) (self.old.steps + 1))
            (members terms.now.bidders clock) self.old }
        ensures { IsTurned terms.now (demands_in (drop from reports.now.reports) (self.old.steps + 1))
            (members terms.now.bidders clock) self.old self.new }
    {
        if self.was_down {
            self.turn_down(terms, clock, reports, from);
            return;
        }
        let least = demanded(
            &terms.goods,
            terms.bidders,
            clock,
            reports,
            from,
            self.steps + 1,
            Amount::Least,
        );
        let set = choose(&terms.goods, &least.excess);
        if set.0 == 0 {
            self.turn_down(terms, clock, reports, from);
        } else {
            self.turn_up(terms, clock, reports, from, set, &least);
        }
    }

    /// Goes where a full round leads whose direction is up, by its step set.
    fn turn_up(
        &mut self,
        terms: &Terms,
        clock: u8,
        reports: &Past,
        from: usize,
        set: GoodSet,
        least: &Quantities,
    )
        requires room { HasRoom terms.now (demands_in (drop from reports.now.reports) (self.old.steps + 1))
            (members terms.now.bidders clock) self.old }
        requires up { self.old.was_down ≡ false }
        requires set { set.0 ≡ set_up terms.now (demands_in (drop from reports.now.reports) (self.old.steps + 1))
            (members terms.now.bidders clock) }
        requires some { set.0 ≢ 0 }
        requires least { AddUp terms.now.goods (λ j. amount_in Least (demands_in (drop from reports.now.reports) (self.old.steps + 1) j))
            terms.now.bidders
            clock least.now }
        ensures { Rises terms.now (demands_in (drop from reports.now.reports) (self.old.steps + 1))
            (members terms.now.bidders clock) self.old self.new
            ⊎ Halts terms.now (demands_in (drop from reports.now.reports) (self.old.steps + 1))
            (members terms.now.bidders clock) self.old self.new }
    {
        match first_at(&self.prices, terms.ceiling, set) {
            Some(good) => self.phase = Phase::Halted(good),
            None => {
                self.up.add(&terms.goods, set, &least.tables);
                self.prices = self.prices.raise(set);
                self.steps += 1;
            }
        }
    }

    /// Goes where a full round leads whose direction is down.
    fn turn_down(&mut self, terms: &Terms, clock: u8, reports: &Past, from: usize)
        requires goods { reports.now.goods ≡ terms.now.goods }
        requires from { from ≤ length reports.now.reports }
        requires fit { AllByRecursion (λ (r : ReportValue). IsDemand terms.now.goods r.demand) (drop from reports.now.reports) }
        requires room { HasRoom terms.now (demands_in (drop from reports.now.reports) (self.old.steps + 1))
            (members terms.now.bidders clock) self.old }
        requires down { GoesDown terms.now (demands_in (drop from reports.now.reports) (self.old.steps + 1))
            (members terms.now.bidders clock) self.old }
        ensures { Falls terms.now (demands_in (drop from reports.now.reports) (self.old.steps + 1))
            (members terms.now.bidders clock) self.old self.new
            ⊎ Ends terms.now (demands_in (drop from reports.now.reports) (self.old.steps + 1))
            (members terms.now.bidders clock) self.old self.new }
    {
        let greatest = demanded(
            &terms.goods,
            terms.bidders,
            clock,
            reports,
            from,
            self.steps + 1,
            Amount::Greatest,
        );
        let (set, _) = most_short(&terms.goods, &terms.opening, &self.prices, &greatest.excess);
        if set.0 == 0 {
            self.phase = Phase::Ended;
            return;
        }
        self.down.add(&terms.goods, set, &greatest.tables);
        self.prices = self.prices.lower(set);
        self.was_down = true;
        self.steps += 1;
    }
}

/// Whether a member of a clock has no report in a round among those from a place on. The last one is asked first: where they report in
/// order, it is the last to do so.
fn is_open(bidders: u8, clock: u8, reports: &Past, from: usize, round: u32) -> bool
    requires few { bidders ≤ 12 }
    requires from { from ≤ length reports.now.reports }
    ensures open { result ≡ true → is_full (members bidders clock) (drop from reports.now.reports) round ≡ false }
    ensures full { result ≡ false → is_full (members bidders clock) (drop from reports.now.reports) round ≡ true }
{
    for step in 0..bidders {
        let bidder = bidders - step;
        if bidder != clock && is_absent(reports, from, round, bidder) {
            return true;
        }
    }
    false
}

/// Whether a bidder has no report in a round among those from a place on.
fn is_absent(reports: &Past, from: usize, round: u32, bidder: u8) -> bool
    requires { from ≤ length reports.now.reports }
    ensures { result ≡ is_none (demand_in (drop from reports.now.reports) round bidder) }
{
    match reports.demand_in(from, round, bidder) {
        Some(_) => false,
        None => true,
    }
}

#[tactic(auto, using(clock::proofs::Next::good_from_drop))]
/// The first good of a set that is at the ceiling.
fn first_at(prices: &Prices, ceiling: u32, set: GoodSet) -> Option<u8>
    ensures { result ≡ good_from 0 ceiling prices.now set.0 }
{
    let mut rest = set.0;
    for good in 0..prices.count() {
        if rest % 2 == 1 && prices.get(good) == ceiling {
            return Some(good);
        }
        rest /= 2;
    }
    None
}
