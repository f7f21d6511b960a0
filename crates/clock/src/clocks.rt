//! A clock.
ghost use Rattle.std.specs.Prelude.{◌≡◌, ◌+◌, ◌-◌, ◌<◌, ◌≤◌, ◌++◌, [], ◌∷◌, ℕ, List, length, max, slice_get, replicate, None, Some, OnOk, OnErr, IfOk, IfErr, IfSome, IsSome, IsTrue, option_copied, ◌↔◌};
ghost use Rattle.std.specs.List.{AllByRecursion, concat};
ghost use Rattle.lyapunov.specs.Excesses.{IsSmall};
ghost use Rattle.lot_base.specs.declared.limits.TheConstants.{MOST_STEPS};
ghost use Rattle.lot_base.specs.Goods.{IsSupply};
ghost use Rattle.lot_base.specs.Demands.{IsDemand};
ghost use Rattle.clock.specs.Past.{pushed};
ghost use Rattle.clock.specs.Kept.{CountsIn, HasRoomFor, StandsAmong, demand_or};

use crate::next_step::Standing;
use crate::packing::Past;
use crate::rounds::{demand_at, member_count, missing_in, prices_along};
use credit_book::Account;
use demand_set::{Demand, Report};
use lot_base::{Excess, Goods, LeastTable, NoMemory, Phase, Prices, Terms};
use std::alloc::Global;
use std::marker::Model;

/// One clock, seen as its history: its terms, its number and the reports that were applied, in order; and for how many more reports
/// and quantities it has room.
#[derive(Debug, Drop)]
pub struct Clock {
    /// Those of the auction; they never change.
    pub(crate) terms: Terms,
    /// Whose reports it is without; 0 where it takes those of all bidders.
    pub(crate) number: u8,
    /// The reports that were applied, packed.
    pub(crate) past: Past,
    /// What each bidder demands, at its number: in the last or current round, or in the one before until it has reported.
    pub(crate) latest: Vec<Option<Demand>>,
    /// Whether it has reported in that round, at its number.
    pub(crate) reported: [bool; 13],
    /// How many members have no report in that round.
    pub(crate) left: u8,
    /// How many steps it has made: the number of the last or current round, less one.
    pub(crate) steps: u32,
    /// Whether that round is the last, and why.
    pub(crate) phase: Phase,
    /// Those of that round.
    pub(crate) prices: Prices,
    /// The least quantities of these demands, at the number of their bidder.
    pub(crate) tables: [Option<LeastTable>; 13],
    /// How far these demands are above the supply, each set at its number.
    excess: Excess,
    /// What the steps add up to: the units that the members, without each one, left of each step's set.
    pub(crate) account: Account,
}

impl Model for Clock {
    ghost use Rattle.clock.specs.Reports.{ClockOf};
    ghost use Rattle.std.specs.Prelude.{◌+◌};
    ghost use Rattle.clock.specs.Kept.{IsKept, KeepsLatest};

    ghost Value = { ClockOf };

    ghost view = { λ c. record {
      history = record { terms = c.terms; number = c.number; reports = c.past.reports };
      spare_reports = c.past.spare_reports;
      spare_quantities = c.past.spare_quantities;
    } };

    ghost invariant = { λ c. IsKept (record { terms = c.terms; number = c.number; reports = c.past.reports }) c.past c.left c.steps c.phase c.prices
        c.tables c.excess.0 c.account
        × KeepsLatest (record { terms = c.terms; number = c.number; reports = c.past.reports }) (c.steps + 1) c.latest.items c.reported };
}

/// What a clock shows: its last or current round, how it stands and at which prices.
#[derive(Clone, Copy, Debug)]
pub struct Look {
    /// From 1: one more than the steps.
    pub round: u32,
    /// Whether that round is the last, and why.
    pub phase: Phase,
    /// Those to which the reports of that round answer, good 0 first.
    pub prices: Prices,
}

/// A report for which there was no memory.
#[derive(Debug, Drop)]
pub struct NotApplied {
    pub report: Report,
}

impl Clock {
    ghost use Rattle.lot_base.specs.Goods.{at};
    ghost use Rattle.lot_base.specs.Demands.{IsDemand, IsTable, least};
    ghost use Rattle.demand_set.specs.Same.{same_demand};
    ghost use Rattle.std.specs.Prelude.{◌==◌, true, option_map, find, take, drop};
    ghost use Rattle.std.specs.Prelude.{ℤ, pos, ◌≤ℤ◌, ◌+ℤ◌, ◌-ℤ◌};
    ghost use Rattle.lot_base.specs.declared.phases.Phase.TheVariants.{Halted};
    ghost use Rattle.lyapunov.specs.Paths.{highest_rise};
    ghost use Rattle.std.specs.List.{concat};
    ghost use Rattle.clock.specs.Reports.{demand_in, with_report, applied, most_reports};
    ghost use Rattle.clock.specs.Kept.{report_of};
    ghost use Rattle.clock.specs.Latest.{IsRepeat};
    ghost use Rattle.clock.specs.Explained.{Explains, ShowsLeast, lyapunov_of, lyapunov_without};
    ghost use Rattle.clock.specs.Standing.{HasSteps, steps_of, last_round, phase_of, prices_after, prices_of, missing_of};
    ghost use Rattle.clock.specs.Judging.{judgement_of, IsJudgement, IsLegal};
    ghost use Rattle.clock.specs.Accounts.{account_without};
    ghost use Rattle.credit_book.specs.Account.{sum_without};
    ghost use Rattle.clock.specs.declared.judging.Judgement.TheVariants.{Take};
    ghost use Rattle.std.specs.List.{AllByRecursion};
    ghost use Rattle.demand_set.specs.declared.reports.Report.{Report as ReportValue};

    /// A clock of these terms without reports.
    pub fn new(alloc: Global, terms: &Terms, number: u8) -> Result<Clock, NoMemory>
        requires { number ≤ terms.now.bidders }
        ensures { IfOk result (λ c. c.history ≡ record { terms = terms.now; number = number; reports = [] }) }
    {
        Clock::with_room(alloc, terms, number, 0, 0)
    }

    /// A clock of these terms without reports, with room for so many reports and quantities.
    pub fn with_room(
        alloc: Global,
        terms: &Terms,
        number: u8,
        reports: u32,
        quantities: u32,
    ) -> Result<Clock, NoMemory>
        requires { number ≤ terms.now.bidders }
        ensures { IfOk result (λ c. c ≡ record {
          history = record { terms = terms.now; number = number; reports = [] };
          spare_reports = reports;
          spare_quantities = quantities;
        }) }
    {
        let mut past = Past::new(alloc, &terms.goods);
        past.reserve(reports, quantities)?;
        let latest = no_demands(alloc)?;
        let left = member_count(terms.bidders, number);
        let tables = [None; 13];
        let excess = lyapunov::opening(&terms.goods);
        let mut account = Account::new();
        let standing = Standing::next(
            terms,
            0,
            &terms.opening,
            left,
            &excess,
            &tables,
            &mut account,
        );
        Ok(Clock {
            terms: *terms,
            number,
            past,
            latest,
            reported: [false; 13],
            left,
            steps: standing.steps,
            phase: standing.phase,
            prices: standing.prices,
            tables,
            excess,
            account,
        })
    }

    /// Takes room for at least one report and so many quantities. Nothing else changes.
    pub fn reserve(&mut self, _alloc: Global, quantities: u32) -> Result<(), NoMemory>
        ensures ok { OnOk result (self.new ≡ record self.old
            { spare_reports = max self.old.spare_reports 1; spare_quantities = max self.old.spare_quantities quantities }) }
        ensures err { OnErr result (self.new ≡ self.old) }
    {
        self.past.reserve(1, quantities)
    }

    /// Applies a report that is judged `Take`. Where there is no memory for it, it comes back and the clock is unchanged. A report
    /// for which there is room takes none.
    pub fn apply(&mut self, _alloc: Global, report: Report) -> Result<(), NotApplied>
        requires take { judgement_of self.old.history report ≡ Take }
        requires fits { IsDemand self.old.history.terms.goods report.demand }
        ensures ok { OnOk result (self.new.history ≡ with_report self.old.history report) }
        ensures err { IfErr result (λ e. (e.report ≡ report) × (self.new ≡ self.old)) }

        // The report takes what it needs from the room, and where that is enough it is applied.
        ensures spare { OnOk result (self.new ≡ applied self.old report) }
        ensures room { OnErr result ((1 ≤ self.old.spare_reports) × (length (concat report.demand) ≤ self.old.spare_quantities) → ⊥) }
    {
        let quantities = report.demand.quantities().len() as u32;
        match self.past.reserve(1, quantities) {
            Ok(()) => {
                self.take(report);
                Ok(())
            }
            Err(NoMemory) => Err(NotApplied { report }),
        }
    }

    /// Applies a report for which there is room.
    fn take(&mut self, report: Report)
        requires take { judgement_of self.old.history report ≡ Take }
        requires fits { IsDemand self.old.history.terms.goods report.demand }
        requires reports { 1 ≤ self.old.spare_reports }
        requires quantities { length (concat report.demand) ≤ self.old.spare_quantities }
        ensures { self.new ≡ applied self.old report }
    {
        let Report { bidder, demand, .. } = report;
        if self.demands_still(bidder, &demand) {
            self.count_in(bidder, None);
        } else {
            self.count_in(bidder, Some(demand));
        }
    }

    /// Whether a bidder demanded this in the last or current round or, before it has reported in it, in the round before.
    fn demands_still(&self, bidder: u8, demand: &Demand) -> bool
        ensures { IsTrue result → demand_in self.now.history.reports (last_round self.now.history) bidder ≡ None
            → demand_in self.now.history.reports (steps_of self.now.history) bidder ≡ Some demand.now }
    {
        match self.latest.get(bidder as usize) {
            Some(Some(latest)) => latest.same(demand),
            _ => false,
        }
    }

    /// Applies a report of a bidder in the current round, for which there is room: of this demand, or of that of the round before.
    pub(crate) fn count_in(&mut self, bidder: u8, demand: Option<Demand>)
        requires take { judgement_of self.old.history (report_of self.old.history bidder demand) ≡ Take }
        requires fits { IfSome demand (IsDemand self.old.history.terms.goods) }
        requires known { demand ≡ None → IsSome (demand_in self.old.history.reports (steps_of self.old.history) bidder) }
        requires reports { 1 ≤ self.old.spare_reports }
        requires quantities { IfSome demand (λ d. length (concat d) ≤ self.old.spare_quantities) }
        ensures { self.new ≡ applied self.old (report_of self.old.history bidder demand) }
    {
        let goods = self.terms.goods;
        let seat = bidder as usize;
        count_demand(&goods, &mut self.excess, &mut self.tables[seat], &demand);
        let members = member_count(self.terms.bidders, self.number);
        let round_before = self.steps.saturating_sub(1) as usize * members as usize;
        note_demand(
            &mut self.past,
            &mut self.latest[seat],
            round_before,
            members as usize,
            bidder,
            self.steps + 1,
            demand,
        );
        self.reported[seat] = true;
        self.left -= 1;
        if self.left > 0 {
            self.phase = Phase::Running;
            return;
        }
        let standing = Standing::next(
            &self.terms,
            self.steps,
            &self.prices,
            self.left,
            &self.excess,
            &self.tables,
            &mut self.account,
        );
        self.steps = standing.steps;
        self.phase = standing.phase;
        self.prices = standing.prices;
        let Some(set) = standing.raised else {
            return;
        };
        self.past.raise(set);
        self.left = members;
        self.reported = [false; 13];
    }

    /// How many reports were applied. Where there is one more to be taken, they are below the most.
    pub fn count(&self) -> u32
        ensures value { result ≡ length self.now.history.reports }
        ensures more { (r : ReportValue) → judgement_of self.now.history r ≡ Take
            → length self.now.history.reports + 1 ≤ most_reports self.now.history.terms self.now.history.number }
    {
        self.past.count() as u32
    }

    /// The report of a number, from 1.
    pub fn report(&self, alloc: Global, number: u32) -> Result<Report, NoMemory>
        requires from_one { 1 ≤ number }
        requires to_last { number ≤ length self.now.history.reports }
        ensures { IfOk result (λ r. slice_get self.now.history.reports (number - 1) ≡ Some r) }
    {
        self.past
            .report(alloc, &self.terms.goods, number as usize - 1)
    }

    /// Whose report has a number, from 1. Takes no memory.
    pub fn bidder(&self, number: u32) -> u8
        requires from_one { 1 ≤ number }
        requires to_last { number ≤ length self.now.history.reports }
        ensures { IfSome (slice_get self.now.history.reports (number - 1)) (λ r. result ≡ r.bidder) }
    {
        self.past.bidder(number as usize - 1)
    }

    /// Whether the report of a number, from 1, demands what the latest report of its bidder before it demanded: not where it is the
    /// bidder's first. Takes no memory.
    pub fn is_repeat(&self, number: u32) -> bool
        requires from_one { 1 ≤ number }
        requires to_last { number ≤ length self.now.history.reports }
        ensures { IsTrue result ↔ IsRepeat self.now.history.reports (number - 1) }
    {
        self.past.is_repeat(number as usize - 1)
    }

    /// The prices of a round, from 1 to the last or current one. Takes no memory.
    pub fn prices_at(&self, round: u32) -> Prices
        requires from_one { 1 ≤ round }
        requires to_last { round ≤ last_round self.now.history }
        ensures { result ≡ prices_after self.now.history (round - 1) }
    {
        let sets = self.past.sets();
        prices_along(&self.terms.opening, &sets[..round as usize - 1])
    }

    /// The prices of the round after this one, from those of this one. Takes no memory, and raises them once.
    pub fn next_prices(&self, round: u32, prices: &Prices) -> Prices
        requires from_one { 1 ≤ round }
        requires before_last { round < last_round self.now.history }
        requires prices { prices.now ≡ prices_after self.now.history (round - 1) }
        ensures { result ≡ prices_after self.now.history round }
    {
        prices.raise(self.past.sets()[round as usize - 1])
    }

    /// The number of the clock.
    pub fn number(&self) -> u8
        ensures value { result ≡ self.now.history.number }
        ensures legal { IsLegal self.now.history }
    {
        self.number
    }

    /// How many steps the clock has made: the number of its last or current round, less one.
    pub fn steps(&self) -> u32
        ensures value { result ≡ steps_of self.now.history }
        ensures made { HasSteps self.now.history result }
        ensures few { result ≤ MOST_STEPS }

        // Where valuations explain the reports: each step lowers the Lyapunov function, and some price rose in every step, so there
        // are as many as the greatest rise of a price.
        ensures lowers { (u : ℕ → List ℕ → ℤ) (n : ℕ) → Explains u self.now.history → n < result →
            (lyapunov_of u self.now.history (prices_after self.now.history (n + 1)) +ℤ pos 1)
            ≤ℤ lyapunov_of u self.now.history (prices_after self.now.history n) }
        ensures bound { (u : ℕ → List ℕ → ℤ) → Explains u self.now.history
            → pos result ≤ℤ lyapunov_of u self.now.history self.now.history.terms.opening }
        ensures highest { (u : ℕ → List ℕ → ℤ) → Explains u self.now.history
            → result ≡ highest_rise self.now.history.terms.opening (prices_of self.now.history) }
    {
        self.steps
    }

    /// What the steps add up to for the members.
    pub fn account(&self) -> &Account
        ensures sums { (bidder : ℕ) → sum_without result.now bidder ≡ account_without self.now.history bidder }
        ensures steps { result.now.steps ≡ steps_of self.now.history }

        // Where valuations explain the reports, the account is how far the Lyapunov function of those in it rose.
        ensures rise { (u : ℕ → List ℕ → ℤ) (bidder : ℕ) → Explains u self.now.history →
            sum_without result.now bidder ≡ lyapunov_without bidder u self.now.history (prices_of self.now.history)
            -ℤ lyapunov_without bidder u self.now.history self.now.history.terms.opening }
    {
        &self.account
    }

    /// The last or current round.
    pub fn look(&self) -> Look
        ensures round { result.round ≡ last_round self.now.history }
        ensures phase { result.phase ≡ phase_of self.now.history }
        ensures prices { result.prices ≡ prices_of self.now.history }

        // Each good has a price, and none is above the ceiling. The good at which a clock is halted is at the ceiling.
        ensures goods { length result.prices ≡ length self.now.history.terms.goods }
        ensures within { AllByRecursion (λ price. price ≤ self.now.history.terms.ceiling) result.prices }
        ensures halted { (good : ℕ) → result.phase ≡ Halted good → (good < length self.now.history.terms.goods)
            × (at result.prices good ≡ self.now.history.terms.ceiling) }

        // Where valuations explain the reports, these are least prices that minimise the Lyapunov function of the members.
        ensures least { (u : ℕ → List ℕ → ℤ) → Explains u self.now.history → ShowsLeast u self.now.history result }
    {
        Look {
            round: self.steps + 1,
            phase: self.phase,
            prices: self.prices,
        }
    }

    /// The smallest member without a report in the last or current round, 0 where there is none.
    pub fn missing(&self) -> u8
        ensures { result ≡ missing_of self.now.history }
    {
        missing_in(self.terms.bidders, self.number, &self.reported).unwrap_or(0)
    }

    /// The demand of a bidder in the last or current round, if it has reported one.
    pub fn last_demand(&self, bidder: u8) -> Option<&Demand>
        ensures value { option_copied result ≡ demand_in self.now.history.reports (last_round self.now.history) bidder }
        ensures fits { IfSome (option_copied result) (IsDemand self.now.history.terms.goods) }
    {
        demand_at(&self.latest, &self.reported, bidder)
    }
}

/// No demand of anybody.
fn no_demands(alloc: Global) -> Result<Vec<Option<Demand>>, NoMemory>
    ensures { IfOk result (λ demands. demands.items ≡ replicate 13 None) }
{
    let mut demands = Vec::new(alloc);
    for _ in 0..13u8 {
        demands.push(None)?;
    }
    Ok(demands)
}

/// Puts the least quantities of a demand into the excess, in the place of those of the bidder's demand before, and keeps them. With no
/// demand all stays.
fn count_demand(
    goods: &Goods,
    excess: &mut Excess,
    kept: &mut Option<LeastTable>,
    demand: &Option<Demand>,
)
    requires supply { IsSupply goods.now }
    requires fits { IfSome demand.now (IsDemand goods.now) }
    requires small { IfSome kept.old (λ table. IsSmall table.0) }
    requires room { HasRoomFor kept.old excess.old.0 }
    ensures { CountsIn goods.now demand.now kept.old kept.new excess.old.0 excess.new.0 }
{
    let Some(demand) = demand else {
        return;
    };
    let table = demand.least_table(goods);
    match kept {
        None => lyapunov::add_table(goods, excess, &table),
        Some(before) => lyapunov::replace_table(goods, excess, before, &table),
    }
    *kept = Some(table);
}

/// Puts a report after the others, in the room for it, and keeps its demand: this one, or the latest, which is that of the bidder's
/// report among those of the round before. That report's quantities are shared.
fn note_demand(
    past: &mut Past,
    latest: &mut Option<Demand>,
    round_before: usize,
    members: usize,
    bidder: u8,
    round: u32,
    demand: Option<Demand>,
)
    requires room { 1 ≤ past.old.spare_reports }
    requires quantities { IfSome demand (λ d. length (concat d) ≤ past.old.spare_quantities) }
    requires goods { IfSome demand (AllByRecursion (λ x. length x ≡ past.old.goods)) }
    requires again { demand ≡ None → StandsAmong past.old.reports round_before members bidder latest.old }
    ensures past { past.new ≡ pushed past.old (record { bidder = bidder; round = round; demand = demand_or latest.old demand }) }
    ensures latest { latest.new ≡ Some (demand_or latest.old demand) }
{
    match demand {
        Some(demand) => {
            let report = Report {
                bidder,
                round,
                demand,
            };
            past.push(&report);
            *latest = Some(report.demand);
        }
        None => {
            past.push_again(round_before, members, bidder, round);
            if let Some(demand) = latest {
                past.spend(demand.quantities().len() as u32);
            }
        }
    }
}
