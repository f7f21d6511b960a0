//! The reports of a two-way clock, as they are kept.
ghost use Rattle.std.specs.Prelude.{◌≡◌, ◌<◌, ◌≤◌, ◌+◌, ◌==◌, ◌&&◌, ◌++◌, [], ◌∷◌, List, ℕ, length};
ghost use Rattle.std.specs.Prelude.{drop, find, reverse, option_copied, option_map, is_some, true, slice_index_or, OnOk, OnErr, IfErr, IfSome};
ghost use Rattle.std.specs.Vec.{vec_capacity};
ghost use Rattle.std.specs.List.{AllByRecursion};
ghost use Rattle.lot_base.specs.Demands.{IsDemand, IsTable, least};
ghost use Rattle.clock.specs.Reports.{demand_in, demands_in};
ghost use Rattle.two_way.specs.Past.{AllThere, AreTabled, IsKeptAt, nothing_kept, with_report};
ghost use Rattle.two_way.specs.declared.past.Place.{Place as PlaceValue};
ghost use Rattle.two_way.specs.declared.past.Kept.{Kept as KeptValue};

use clock::NotApplied;
use demand_set::{Demand, Report};
use lot_base::{Goods, LeastTable, NoMemory};
use std::alloc::Global;
use std::marker::Model;

/// The reports of a two-way clock, seen as the supply and their list. A bidder whose demand stays has it kept once.
#[derive(Debug, Drop)]
pub(crate) struct Past {
    /// The supply of which the demands are.
    goods: Goods,
    /// The demands. None is that of the same bidder before it.
    demands: Vec<Kept>,
    /// The reports, in order.
    places: Vec<Place>,
}

/// A demand that was reported.
#[derive(Debug, Drop)]
pub(crate) struct Kept {
    /// The bundles that were reported.
    pub demand: Demand,
    /// The least that it has of each set of goods.
    pub least: LeastTable,
}

/// A report whose demand is kept at a place.
#[derive(Clone, Copy, Debug)]
pub(crate) struct Place {
    /// Who reported it, from 1.
    pub bidder: u8,
    /// In which round, from 1.
    pub round: u32,
    /// The place of its demand among those that are kept, from 0.
    pub number: usize,
}

impl Model for Past {
    ghost use Rattle.std.specs.Prelude.{length};
    ghost use Rattle.two_way.specs.Past.{AllThere, AreTabled, PastOf, reports_of};

    ghost Value = { PastOf };

    ghost view = { λ p. record { goods = p.goods; reports = reports_of p.demands.items p.places.items } };

    ghost invariant = { λ p. AllThere p.demands.items p.places.items × AreTabled (length p.goods) p.demands.items };
}

impl Past {
    /// No reports.
    pub(crate) fn new(alloc: Global, goods: &Goods) -> Past
        ensures { result ≡ record { goods = goods.now; reports = [] } }
    {
        Past {
            goods: *goods,
            demands: Vec::new(alloc),
            places: Vec::new(alloc),
        }
    }

    /// How many reports there are.
    pub(crate) fn len(&self) -> usize
        ensures { result ≡ length self.now.reports }
    {
        self.places.len()
    }

    /// Puts a report after the others. Where there is no memory for it, it comes back.
    pub(crate) fn push(&mut self, report: Report) -> Result<(), NotApplied>
        requires { IsDemand self.old.goods report.demand }
        ensures ok { OnOk result (self.new ≡ with_report self.old report) }
        ensures err { IfErr result (λ e. (e.report ≡ report) × (self.new ≡ self.old)) }
    {
        let found = kept_at(&self.demands, &self.places, report.bidder, &report.demand);
        match make_room(&mut self.demands, &mut self.places) {
            Err(NoMemory) => Err(NotApplied { report }),
            Ok(()) => {
                let bidder = report.bidder;
                let round = report.round;
                let number = keep(&self.goods, &mut self.demands, found, report.demand);
                self.places.push_reserved(Place {
                    bidder,
                    round,
                    number,
                });
                Ok(())
            }
        }
    }

    /// Puts after the others what a bidder demands in a round by the reports from a place on, in the next round. It is kept already.
    pub(crate) fn push_again(&mut self, from: usize, round: u32, bidder: u8) -> Result<(), NoMemory>
        requires from { from ≤ length self.old.reports }
        requires last { round < 4294967295 }
        requires there { is_some (demand_in (drop from self.old.reports) round bidder) ≡ true }
        ensures ok { OnOk result (self.new ≡ with_report self.old
            (record { bidder = bidder; round = round + 1; demand = demands_in (drop from self.old.reports) round bidder })) }
        ensures err { OnErr result (self.new ≡ self.old) }
    {
        let number = number_in(self.places.split_at(from).1, round, bidder);
        make_place(&mut self.places)?;
        self.places.push_reserved(Place {
            bidder,
            round: round + 1,
            number,
        });
        Ok(())
    }

    /// What is kept of the demand of a bidder in a round, if one of the reports from a place on says it.
    pub(crate) fn kept_in(&self, from: usize, round: u32, bidder: u8) -> Option<&Kept>
        requires { from ≤ length self.now.reports }
        ensures demand { option_map (λ (k : KeptValue). k.demand) (option_copied result)
            ≡ demand_in (drop from self.now.reports) round bidder }
        ensures table { IfSome (option_copied result) (λ (k : KeptValue). IsTable (length self.now.goods) (least k.demand) k.least.0) }
    {
        match place_of(self.places.split_at(from).1, round, bidder) {
            None => None,
            Some(place) => Some(kept_of(&self.demands, place.number)),
        }
    }

    /// The demand of a bidder in a round, if one of the reports from a place on says it.
    pub(crate) fn demand_in(&self, from: usize, round: u32, bidder: u8) -> Option<&Demand>
        requires { from ≤ length self.now.reports }
        ensures { option_copied result ≡ demand_in (drop from self.now.reports) round bidder }
    {
        match self.kept_in(from, round, bidder) {
            None => None,
            Some(kept) => Some(&kept.demand),
        }
    }
}

/// What is kept at a place.
fn kept_of(demands: &[Kept], number: usize) -> &Kept
    requires { number < length demands.now }
    ensures { result.now ≡ slice_index_or demands.now number nothing_kept }
{
    &demands[number]
}

/// The first place of a bidder in a round.
fn place_of(places: &[Place], round: u32, bidder: u8) -> Option<&Place>
    ensures { option_copied result ≡ find (λ (p : PlaceValue). (p.round == round) && (p.bidder == bidder)) places.now }
{
    places
        .iter()
        .find(|place| place.round == round && place.bidder == bidder)
}

/// Where the demand of a bidder in a round is kept, by the first such place.
fn number_in(places: &[Place], round: u32, bidder: u8) -> usize
    ensures { (p : PlaceValue) → find (λ (q : PlaceValue). (q.round == round) && (q.bidder == bidder)) places.now ≡ Some p
        → result ≡ p.number }
{
    match place_of(places, round, bidder) {
        Some(place) => place.number,
        None => 0,
    }
}

/// The latest place of a bidder.
fn latest_place(places: &[Place], bidder: u8) -> Option<&Place>
    ensures { option_copied result ≡ find (λ (p : PlaceValue). p.bidder == bidder) (reverse places.now) }
{
    places.iter().rev().find(|place| place.bidder == bidder)
}

/// Where a demand is kept, if it is that of the bidder's latest report.
fn kept_at(demands: &[Kept], places: &[Place], bidder: u8, demand: &Demand) -> Option<usize>
    requires { AllThere demands.now places.now }
    ensures { IfSome result (λ number. (number < length demands.now)
        × ((slice_index_or demands.now number nothing_kept).demand ≡ demand.now)) }
{
    match latest_place(places, bidder) {
        None => None,
        Some(place) => number_if_same(demands, place.number, demand),
    }
}

/// The place, if the demand there is this one.
fn number_if_same(demands: &[Kept], number: usize, demand: &Demand) -> Option<usize>
    requires { number < length demands.now }
    ensures { IfSome result (λ place. (place ≡ number) × ((slice_index_or demands.now number nothing_kept).demand ≡ demand.now)) }
{
    if demands[number].demand.same(demand) {
        Some(number)
    } else {
        None
    }
}

/// Makes room for a demand and a report more. What is kept stays, whatever is answered.
fn make_room(demands: &mut Vec<Kept>, places: &mut Vec<Place>) -> Result<(), NoMemory>
    ensures demands { demands.new.items ≡ demands.old.items }
    ensures places { places.new.items ≡ places.old.items }
    ensures room_demands { OnOk result (length demands.old.items < vec_capacity demands.new) }
    ensures room_places { OnOk result (length places.old.items < vec_capacity places.new) }
{
    demands.reserve(1)?;
    make_place(places)
}

/// Makes room for a report more. What is kept stays, whatever is answered.
fn make_place(places: &mut Vec<Place>) -> Result<(), NoMemory>
    ensures places { places.new.items ≡ places.old.items }
    ensures room { OnOk result (length places.old.items < vec_capacity places.new) }
{
    places.reserve(1)?;
    Ok(())
}

/// Puts a demand after the others, in the room for it, if it is not kept already. Tells where it is kept.
fn keep(goods: &Goods, demands: &mut Vec<Kept>, found: Option<usize>, demand: Demand) -> usize
    requires fits { IsDemand goods.now demand }
    requires room { length demands.old.items < vec_capacity demands.old }
    requires found { IfSome found (λ number. (number < length demands.old.items)
        × ((slice_index_or demands.old.items number nothing_kept).demand ≡ demand)) }
    requires tables { AreTabled (length goods.now) demands.old.items }
    ensures kept { IsKeptAt demands.old.items demands.new.items result demand }
    ensures tables { AreTabled (length goods.now) demands.new.items }
{
    match found {
        Some(number) => number,
        None => {
            let number = demands.len();
            let least = demand.least_table(goods);
            demands.push_reserved(Kept { demand, least });
            number
        }
    }
}
