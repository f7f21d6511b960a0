//! The reports of a clock, packed: the quantities of all demands in one buffer, a place for each report, and the step set of each
//! step. Reports of one demand may share its quantities.
ghost use Rattle.std.specs.Prelude.{◌≡◌, ◌<◌, ◌≤◌, ◌+◌, ◌-◌, ◌*◌, ◌==◌, ◌^◌, [], ◌∷◌, ◌↔◌};
ghost use Rattle.std.specs.Prelude.{true, ℕ, List, length, map, take, drop, max, find, is_some, option_map, slice_get, Some, OnOk, OnErr, IfOk, IfSome, IsTrue};
ghost use Rattle.std.specs.List.{AllByRecursion, concat};
ghost use Rattle.lot_base.specs.Demands.{IsDemand};
ghost use Rattle.demand_set.specs.Same.{same_demand};
ghost use Rattle.demand_set.specs.declared.reports.Report.{Report as ReportValue};
ghost use Rattle.lot_base.specs.declared.supply.GoodSet.{GoodSet as GoodSetValue};
ghost use Rattle.clock.specs.Reports.{members};
ghost use Rattle.clock.specs.Tables.{is_member_of};
ghost use Rattle.clock.specs.Latest.{IsRepeat};
ghost use Rattle.clock.specs.Past.{PastOf, again_among, with_again, with_spare, pushed, raised_on};

use crate::kept_quantities::{
    Place, has_same, is_demand, keep, latest_place, make_room, place_again, place_of, quantities_at,
};
use demand_set::{Demand, Report};
use lot_base::{GoodSet, Goods, NoMemory};
use std::alloc::Global;
use std::marker::Model;

/// The reports of a clock, in order, with the step sets so far. It has room for some more reports without taking memory.
#[derive(Debug, Drop)]
pub(crate) struct Past {
    /// How many goods each bundle is of.
    goods: u8,
    /// The quantities of the demands.
    quantities: Vec<u16>,
    /// Where the quantities of each report stand.
    places: Vec<Place>,
    /// The step set of each step.
    sets: Vec<GoodSet>,
    /// For how many more reports there is room.
    spare_reports: u32,
    /// For how many more quantities there is room.
    spare_quantities: u32,
}

impl Model for Past {
    ghost use Rattle.std.specs.Vec.{vec_capacity};
    ghost use Rattle.clock.specs.Past.{PastOf, again_among, with_again, history_of, IsPast};

    ghost Value = { PastOf };

    ghost view = { λ p. record {
      goods = p.goods;
      reports = history_of p.goods p.quantities.items p.places.items;
      sets = p.sets.items;
      spare_reports = p.spare_reports;
      spare_quantities = p.spare_quantities;
    } };

    ghost invariant = { λ p. IsPast p.goods p.quantities.items p.places.items p.spare_reports p.spare_quantities (vec_capacity p.quantities)
        (vec_capacity p.places) (vec_capacity p.sets) };
}

impl Past {
    /// No reports, and no room.
    pub(crate) fn new(alloc: Global, goods: &Goods) -> Past
        ensures { result ≡ record { goods = length goods.now; reports = []; sets = []; spare_reports = 0; spare_quantities = 0 } }
    {
        Past {
            goods: goods.count(),
            quantities: Vec::new(alloc),
            places: Vec::new(alloc),
            sets: Vec::new(alloc),
            spare_reports: 0,
            spare_quantities: 0,
        }
    }

    /// Takes room for so many more reports and quantities, where there is less. Where there is enough it takes no memory.
    pub(crate) fn reserve(&mut self, reports: u32, quantities: u32) -> Result<(), NoMemory>
        ensures ok { OnOk result (self.new ≡ with_spare self.old (max self.old.spare_reports reports)
            (max self.old.spare_quantities quantities)) }
        ensures err { OnErr result (self.new ≡ self.old) }
        ensures fits { OnErr result ((reports ≤ self.old.spare_reports) × (quantities ≤ self.old.spare_quantities) → ⊥) }
    {
        if reports <= self.spare_reports && quantities <= self.spare_quantities {
            return Ok(());
        }
        let reports = self.spare_reports.max(reports);
        let quantities = self.spare_quantities.max(quantities);
        make_room(
            &mut self.quantities,
            &mut self.places,
            &mut self.sets,
            reports,
            quantities,
        )?;
        self.spare_reports = reports;
        self.spare_quantities = quantities;
        Ok(())
    }

    /// Forgets that there is room for more than so many reports and quantities.
    pub(crate) fn keep_spare(&mut self, reports: u32, quantities: u32)
        requires reports { reports ≤ self.old.spare_reports }
        requires quantities { quantities ≤ self.old.spare_quantities }
        ensures { self.new ≡ with_spare self.old reports quantities }
    {
        self.spare_reports = reports;
        self.spare_quantities = quantities;
    }

    /// Adds a report after the others, in the room for it.
    pub(crate) fn push(&mut self, report: &Report)
        requires room { 1 ≤ self.old.spare_reports }
        requires quantities { length (concat report.now.demand) ≤ self.old.spare_quantities }
        requires goods { AllByRecursion (λ x. length x ≡ self.old.goods) report.now.demand }
        ensures { self.new ≡ pushed self.old report.now }
    {
        let more = report.demand.quantities();
        let start = keep(&mut self.quantities, more);
        self.places.push_reserved(Place {
            bidder: report.bidder,
            round: report.round,
            start,
            count: report.demand.len(),
        });
        self.spare_reports -= 1;
        self.spare_quantities -= more.len() as u32;
    }

    /// Adds the report of a bidder among some reports once more, in another round and in the room for it. It shares its quantities.
    pub(crate) fn push_again(&mut self, from: usize, reports: usize, bidder: u8, round: u32)
        requires room { 1 ≤ self.old.spare_reports }
        requires inside { from + reports ≤ length self.old.reports }
        requires there { is_some (find (λ (r : ReportValue). r.bidder == bidder) (take reports (drop from self.old.reports))) ≡ true }
        ensures { self.new ≡ with_again self.old (again_among (take reports (drop from self.old.reports)) round bidder ∷ []) }
    {
        let others = self.places.split_at(from).1;
        let place = place_again(&others[..reports], bidder, round);
        self.places.push_reserved(place);
        self.spare_reports -= 1;
    }

    /// Takes so many quantities from the room for them, as far as there is any.
    pub(crate) fn spend(&mut self, quantities: u32)
        ensures { self.new ≡ with_spare self.old self.old.spare_reports (self.old.spare_quantities - quantities) }
    {
        self.spare_quantities = self.spare_quantities.saturating_sub(quantities);
    }

    /// Adds the step set of a further step, of which there are fewer than reports.
    pub(crate) fn raise(&mut self, set: GoodSet)
        requires { length self.old.sets < length self.old.reports }
        ensures { self.new ≡ raised_on self.old set }
    {
        self.sets.push_reserved(set);
    }

    /// How many reports there are.
    pub(crate) fn count(&self) -> usize
        ensures { result ≡ length self.now.reports }
    {
        self.places.len()
    }

    /// The step set of each step.
    pub(crate) fn sets(&self) -> &[GoodSet]
        ensures { result.now ≡ self.now.sets }
    {
        &self.sets
    }

    /// For how many more reports and quantities there is room.
    pub(crate) fn spare(&self) -> (u32, u32)
        ensures reports { result.0 ≡ self.now.spare_reports }
        ensures quantities { result.1 ≡ self.now.spare_quantities }
    {
        (self.spare_reports, self.spare_quantities)
    }

    /// Whether a demand is that of the first report of a bidder among some reports, if there is one.
    pub(crate) fn repeats(
        &self,
        from: usize,
        reports: usize,
        bidder: u8,
        demand: &Demand,
    ) -> Option<bool>
        requires { from + reports ≤ length self.now.reports }
        ensures { result ≡ option_map (λ (r : ReportValue). same_demand r.demand demand.now)
            (find (λ (r : ReportValue). r.bidder == bidder) (take reports (drop from self.now.reports))) }
    {
        let others = self.places.split_at(from).1;
        match place_of(&others[..reports], bidder) {
            None => None,
            Some(place) => {
                let kept = quantities_at(&self.quantities, self.goods, place);
                Some(is_demand(kept, self.goods, place.count, demand))
            }
        }
    }

    /// Whose report has a number, from 0.
    pub(crate) fn bidder(&self, number: usize) -> u8
        requires { number < length self.now.reports }
        ensures { IfSome (slice_get self.now.reports number) (λ (r : ReportValue). result ≡ r.bidder) }
    {
        self.places[number].bidder
    }

    /// Whether the report of a number, from 0, demands what the latest report of its bidder before it demanded.
    pub(crate) fn is_repeat(&self, number: usize) -> bool
        requires { number < length self.now.reports }
        ensures { IsTrue result ↔ IsRepeat self.now.reports number }
    {
        let place = self.places[number];
        let earlier = self.places.split_at(number).0;
        match latest_place(earlier, place.bidder) {
            None => false,
            Some(before) => has_same(&self.quantities, self.goods, before, &place),
        }
    }

    /// The report of a number, from 0. Its demand is one of these goods.
    pub(crate) fn report(
        &self,
        alloc: Global,
        goods: &Goods,
        number: usize,
    ) -> Result<Report, NoMemory>
        requires number { number < length self.now.reports }
        requires goods { length goods.now ≡ self.now.goods }
        requires fit { AllByRecursion (λ (r : ReportValue). IsDemand goods.now r.demand) self.now.reports }
        ensures { IfOk result (λ r. slice_get self.now.reports number ≡ Some r) }
    {
        let place = self.places[number];
        let kept = quantities_at(&self.quantities, self.goods, &place);
        match Demand::read_quantities(alloc, goods, self.goods, kept) {
            Ok(demand) => Ok(Report {
                bidder: place.bidder,
                round: place.round,
                demand,
            }),
            Err(_) => Err(NoMemory),
        }
    }
}

/// Adds the report of each member among some reports once more, in another round and in the room for them, the smallest member first.
pub(crate) fn push_round(
    past: &mut Past,
    bidders: u8,
    clock: u8,
    from: usize,
    reports: usize,
    round: u32,
)
    requires room { length (members bidders clock) ≤ past.old.spare_reports }
    requires inside { from + reports ≤ length past.old.reports }
    requires there { (j : ℕ) → is_member_of bidders clock j ≡ true
        → is_some (find (λ (r : ReportValue). r.bidder == j) (take reports (drop from past.old.reports))) ≡ true }
    ensures { past.new ≡ with_again past.old (map (again_among (take reports (drop from past.old.reports)) round) (members bidders clock)) }
{
    for step in 0..bidders {
        let bidder = step + 1;
        if bidder != clock {
            past.push_again(from, reports, bidder, round);
        }
    }
}
