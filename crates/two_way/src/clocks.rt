//! A two-way clock.
ghost use Rattle.std.specs.Prelude.{◌≡◌, ◌≢◌, ◌≤◌, ◌<◌, ◌+◌, ◌∷◌, [], ℕ, List, ℤ, pos, ◌≤ℤ◌, ◌-ℤ◌, ◌^◌, length, drop, true, false, option_map, option_copied, IsSome, IfOk, IfErr, IfSome, OnOk, OnErr};
ghost use Rattle.std.specs.List.{AllByRecursion};
ghost use Rattle.lot_base.specs.Demands.{IsDemand};
ghost use Rattle.demand_set.specs.declared.reports.Report.{Report as ReportValue};
ghost use Rattle.clock.specs.Reports.{members, demands_in, is_full};
ghost use Rattle.two_way.specs.Turns.{IsTurned, HasRoom};

use crate::next_step::Standing;
use crate::past::Past;
use clock::{Judgement, Look, NotApplied};
use demand_set::{Demand, Report};
use lot_base::{NoMemory, Phase, Prices, Terms};
use std::alloc::Global;
use std::marker::Model;

/// One two-way clock, seen as its history: its terms, its number, the prices at which it started, and the reports that were applied, in
/// order.
#[derive(Debug, Drop)]
pub struct TwoWay {
    /// Those of the auction; they never change.
    terms: Terms,
    /// Whose reports it is without; 0 where it takes those of all bidders.
    number: u8,
    /// The prices at which it started.
    start: Prices,
    /// The reports that were applied.
    past: Past,
    /// How many of these are of the rounds before the last or current one.
    begin: usize,
    /// How many are of the rounds before that one.
    last: usize,
    /// How it stands.
    standing: Standing,
}

impl Model for TwoWay {
    ghost use Rattle.two_way.specs.Histories.{TwoWayHistory};
    ghost use Rattle.two_way.specs.Kept.{IsKept, KeepsPast};

    ghost Value = { TwoWayHistory };

    ghost view = { λ c. record { terms = c.terms; number = c.number; start = c.start; reports = c.past.reports } };

    ghost invariant = { λ c. IsKept (record { terms = c.terms; number = c.number; start = c.start; reports = c.past.reports })
        c.begin c.standing
        × KeepsPast (record { terms = c.terms; number = c.number; start = c.start; reports = c.past.reports }) c.past.goods c.last c.begin
        c.standing };
}

impl TwoWay {
    ghost use Rattle.lot_base.specs.Demands.{IsDemand};
    ghost use Rattle.demand_set.specs.Same.{same_demand};
    ghost use Rattle.clock.specs.Reports.{demand_in};
    ghost use Rattle.clock.specs.declared.judging.Judgement.TheVariants.{Take};
    ghost use Rattle.two_way.specs.Histories.{IsStart, told};
    ghost use Rattle.two_way.specs.Standing.{again_by};
    ghost use Rattle.two_way.specs.Standing.{judgement_of, last_round, phase_of, prices_of, steps_of, ups_after, downs_after, sum_without};
    ghost use Rattle.two_way.specs.Explained.{Explains, ShowsMinimum, lyapunov_of, lyapunov_without};

    /// A clock of these terms that starts at these prices, without reports. A clock without members comes down to the opening at once.
    pub fn new(alloc: Global, terms: &Terms, number: u8, start: &Prices) -> Result<TwoWay, NoMemory>
        requires number { number ≤ terms.now.bidders }
        requires start { IsStart terms.now start.now }
        ensures { IfOk result (λ c. c ≡ record { terms = terms.now; number = number; start = start.now; reports = [] }) }
    {
        let past = Past::new(alloc, &terms.goods);
        let standing = Standing::first(terms, number, start, &past);
        Ok(TwoWay {
            terms: *terms,
            number,
            start: *start,
            past,
            begin: 0,
            last: 0,
            standing,
        })
    }

    /// What becomes of a report. Takes no memory.
    pub fn judge(&self, bidder: u8, round: u32, demand: &Demand) -> Judgement
        ensures { result ≡ judgement_of self.now (record { bidder = bidder; round = round; demand = demand.now }) }
    {
        if bidder < 1 || bidder > self.terms.bidders || bidder == self.number {
            return Judgement::NotMember;
        }
        if round == 0 {
            return Judgement::NoRound;
        }
        let last = self.standing.steps + 1;
        if round > last {
            return match self.standing.phase {
                Phase::Running => Judgement::Early(last),
                Phase::Ended | Phase::Halted(_) => Judgement::Over(last),
            };
        }
        match self.repeats(bidder, round, demand) {
            None => Judgement::Take,
            Some(true) => Judgement::Again,
            Some(false) => Judgement::Conflict(round),
        }
    }

    /// Whether a demand is that of a bidder in a round, if the bidder has reported in it.
    fn repeats(&self, bidder: u8, round: u32, demand: &Demand) -> Option<bool>
        ensures { result ≡ option_map (λ before. same_demand before demand.now) (demand_in self.now.reports round bidder) }
    {
        match self.demand_in(round, bidder) {
            None => None,
            Some(before) => Some(before.same(demand)),
        }
    }

    /// The demand of a bidder in a round, if it has reported one.
    fn demand_in(&self, round: u32, bidder: u8) -> Option<&Demand>
        ensures { option_copied result ≡ demand_in self.now.reports round bidder }
    {
        if round == self.standing.steps + 1 {
            self.past.demand_in(self.begin, round, bidder)
        } else {
            self.past.demand_in(0, round, bidder)
        }
    }

    /// Applies a report that is judged `Take`. Where there is no memory for it, it comes back and the clock is unchanged.
    pub fn apply(&mut self, _alloc: Global, report: Report) -> Result<(), NotApplied>
        requires take { judgement_of self.old report ≡ Take }
        requires fits { IsDemand self.old.terms.goods report.demand }
        ensures ok { OnOk result (self.new ≡ told self.old report) }
        ensures err { IfErr result (λ e. (e.report ≡ report) × (self.new ≡ self.old)) }
    {
        match self.past.push(report) {
            Err(refused) => Err(refused),
            Ok(()) => {
                go_on(
                    &self.terms,
                    self.number,
                    &self.past,
                    &mut self.standing,
                    &mut self.begin,
                    &mut self.last,
                );
                Ok(())
            }
        }
    }

    /// Applies what a bidder demanded in the round before as its report in the current one, where that is judged `Take`. Where there is no
    /// memory for it the clock is unchanged.
    pub fn apply_again(&mut self, _alloc: Global, bidder: u8) -> Result<(), NoMemory>
        requires take { judgement_of self.old (again_by self.old bidder) ≡ Take }
        requires said { IsSome (demand_in self.old.reports (steps_of self.old) bidder) }
        ensures ok { OnOk result (self.new ≡ told self.old (again_by self.old bidder)) }
        ensures err { OnErr result (self.new ≡ self.old) }
    {
        self.past
            .push_again(self.last, self.standing.steps, bidder)?;
        go_on(
            &self.terms,
            self.number,
            &self.past,
            &mut self.standing,
            &mut self.begin,
            &mut self.last,
        );
        Ok(())
    }

    /// The last or current round. Takes no memory.
    pub fn look(&self) -> Look
        ensures round { result.round ≡ last_round self.now }
        ensures phase { result.phase ≡ phase_of self.now }
        ensures prices { result.prices ≡ prices_of self.now }
        ensures goods { length result.prices ≡ length self.now.terms.goods }

        // Where valuations explain the reports: a minimum of the Lyapunov function and a choice that clears at the end, and no halt.
        ensures shows { (u : ℕ → List ℕ → ℤ) → Explains u self.now → ShowsMinimum u self.now result }
    {
        self.shown()
    }

    /// The same without the valuations.
    fn shown(&self) -> Look
        ensures round { result.round ≡ last_round self.now }
        ensures phase { result.phase ≡ phase_of self.now }
        ensures prices { result.prices ≡ prices_of self.now }
        ensures goods { length result.prices ≡ length self.now.terms.goods }
        ensures started { IsStart self.now.terms self.now.start }
    {
        Look {
            round: self.standing.steps + 1,
            phase: self.standing.phase,
            prices: self.standing.prices,
        }
    }

    /// How many of the steps were up. Takes no memory.
    pub fn ups(&self) -> u32
        ensures value { result ≡ ups_after self.now (steps_of self.now) }

        // Where valuations explain the reports, each step lowers the Lyapunov function.
        ensures bound { (u : ℕ → List ℕ → ℤ) → Explains u self.now →
            pos (result + downs_after self.now (steps_of self.now)) ≤ℤ lyapunov_of u self.now self.now.start }
    {
        self.standing.up.steps()
    }

    /// How many of the steps were down. Takes no memory.
    pub fn downs(&self) -> u32
        ensures value { result ≡ downs_after self.now (steps_of self.now) }

        // Where valuations explain the reports, each step lowers the Lyapunov function.
        ensures bound { (u : ℕ → List ℕ → ℤ) → Explains u self.now →
            pos (ups_after self.now (steps_of self.now) + result) ≤ℤ lyapunov_of u self.now self.now.start }
    {
        self.standing.down.steps()
    }

    /// The demand of a bidder in the last or current round, if it has reported one. Takes no memory.
    pub fn last_demand(&self, bidder: u8) -> Option<&Demand>
        ensures value { option_copied result ≡ demand_in self.now.reports (last_round self.now) bidder }
        ensures fits { IfSome (option_copied result) (IsDemand self.now.terms.goods) }
    {
        self.demand_in(self.standing.steps + 1, bidder)
    }

    /// The number of the clock. Takes no memory.
    pub fn number(&self) -> u8
        ensures { result ≡ self.now.number }
    {
        self.number
    }

    /// What the steps add up to for the members but one; 0 leaves nobody out. Takes no memory.
    pub fn sum_without(&self, bidder: u8) -> i64
        ensures value { result ≡ sum_without self.now bidder }
        ensures low { (pos 0 -ℤ pos (2 ^ 53)) ≤ℤ result }
        ensures high { result ≤ℤ pos (2 ^ 53) }

        // Where valuations explain the reports, it is how far the Lyapunov function of those in it rose.
        ensures rise { (u : ℕ → List ℕ → ℤ) → Explains u self.now → result ≡ lyapunov_without bidder u self.now (prices_of self.now)
            -ℤ lyapunov_without bidder u self.now self.now.start }
    {
        let _started = self.shown();
        self.sum(bidder)
    }

    /// The same without the valuations.
    fn sum(&self, bidder: u8) -> i64
        ensures value { result ≡ sum_without self.now bidder }
        ensures low { (pos 0 -ℤ pos (2 ^ 53)) ≤ℤ result }
        ensures high { result ≤ℤ pos (2 ^ 53) }
    {
        self.standing.up.without(bidder) - self.standing.down.without(bidder)
    }
}

/// Goes where the present round leads with a report more, and keeps the places at which it and the round before begin.
fn go_on(
    terms: &Terms,
    number: u8,
    past: &Past,
    standing: &mut Standing,
    begin: &mut usize,
    last: &mut usize,
)
    requires goods { past.now.goods ≡ terms.now.goods }
    requires begins { begin.old ≤ length past.now.reports }
    requires fit { AllByRecursion (λ (r : ReportValue). IsDemand terms.now.goods r.demand) (drop begin.old past.now.reports) }
    requires room { is_full (members terms.now.bidders number) (drop begin.old past.now.reports) (standing.old.steps + 1) ≡ true
        → HasRoom terms.now (demands_in (drop begin.old past.now.reports) (standing.old.steps + 1)) (members terms.now.bidders number)
        standing.old }
    requires few { standing.old.steps ≤ 120000 }
    ensures open { is_full (members terms.now.bidders number) (drop begin.old past.now.reports) (standing.old.steps + 1) ≡ false
        → standing.new ≡ standing.old }
    ensures full { is_full (members terms.now.bidders number) (drop begin.old past.now.reports) (standing.old.steps + 1) ≡ true
        → IsTurned terms.now (demands_in (drop begin.old past.now.reports) (standing.old.steps + 1)) (members terms.now.bidders number)
        standing.old standing.new }
    ensures stays { standing.new.steps ≡ standing.old.steps → (begin.new ≡ begin.old) × (last.new ≡ last.old) }
    ensures goes { standing.new.steps ≢ standing.old.steps → (begin.new ≡ length past.now.reports) × (last.new ≡ begin.old) }
{
    let steps = standing.steps;
    standing.advance(terms, number, past, *begin);
    if standing.steps != steps {
        *last = *begin;
        *begin = past.len();
    }
}
