//! The reports of one bidder, each with the prices of its round.
ghost use Rattle.std.specs.Prelude.{◌≡◌, ◌≤◌, ◌<◌, ◌+◌, ◌-◌, ◌++◌, ◌∷◌, [], length, IfOk};
ghost use Rattle.std.specs.List.{AllByRecursion};
ghost use Rattle.lot_base.specs.Demands.{IsDemand};
ghost use Rattle.lot_base.specs.declared.limits.TheConstants.{MOST_BIDDERS, MOST_STEPS};
ghost use Rattle.clock.specs.Reports.{ClockHistory, histories};
ghost use Rattle.clock.specs.Standing.{last_round, prices_after};
ghost use Rattle.rationale.specs.Kept.{AreLow};
ghost use Rattle.rationale.specs.declared.limits.TheConstants.{MOST_OBSERVATIONS};
ghost use Rattle.observed_demand.specs.Reported.{observations_in, observations_of, places_in, places_of};

use clock::Clock;
use demand_set::Demand;
use lot_base::{NoMemory, Prices, Terms};
use rationale::Rationale;
use std::alloc::Global;

/// Where an observation was made.
#[derive(Clone, Copy, Debug)]
pub struct Place {
    /// The number of the clock.
    pub clock: u8,
    /// The round in which it was reported, from 1.
    pub round: u32,
}

/// What one bidder demanded at which prices, and where it was reported.
#[derive(Debug, Drop)]
pub struct Observed {
    /// The observations, clock by clock, in the order in which the reports were taken.
    pub rationale: Rationale,
    /// The place of each.
    pub places: Vec<Place>,
}

/// What a bidder reported to these clocks, which are on these terms.
pub fn observe(
    alloc: Global,
    terms: &Terms,
    clocks: &[Clock],
    bidder: u8,
) -> Result<Observed, NoMemory>
    requires few { length clocks.now ≤ MOST_BIDDERS + 1 }
    requires terms { AllByRecursion (λ (c : ClockHistory). c.terms ≡ terms.now) (histories clocks.now) }
    ensures supply { IfOk result (λ o. o.rationale.supply ≡ terms.now.goods) }
    ensures observations { IfOk result (λ o. o.rationale.observations ≡ observations_of bidder (histories clocks.now)) }
    ensures places { IfOk result (λ o. o.places.items ≡ places_of bidder (histories clocks.now)) }
{
    let mut observed = Observed {
        rationale: Rationale::new(alloc, &terms.goods)?,
        places: Vec::new(alloc),
    };
    for clock in clocks {
        observed = observe_clock(alloc, clock, bidder, observed)?;
    }
    Ok(observed)
}

/// The same with what the bidder reported to one clock more.
fn observe_clock(
    alloc: Global,
    clock: &Clock,
    bidder: u8,
    observed: Observed,
) -> Result<Observed, NoMemory>
    requires goods { observed.rationale.supply ≡ clock.now.history.terms.goods }
    requires room { length observed.rationale.observations + MOST_STEPS + 1 < MOST_OBSERVATIONS }
    ensures supply { IfOk result (λ o. o.rationale.supply ≡ observed.rationale.supply) }
    ensures observations { IfOk result (λ o. o.rationale.observations ≡ observed.rationale.observations
        ++ observations_in bidder clock.now.history) }
    ensures places { IfOk result (λ o. o.places.items ≡ observed.places.items ++ places_in bidder clock.now.history) }
    ensures few { IfOk result (λ o. length o.rationale.observations ≤ length observed.rationale.observations + MOST_STEPS + 1) }
{
    let _steps = clock.steps();
    let name = clock.number();
    let mut all = observed;
    let mut round = 1;
    let mut prices = clock.prices_at(round);
    for before in 0..clock.count() {
        let number = before + 1;
        if clock.bidder(number) == bidder {
            let report = clock.report(alloc, number)?;
            prices = prices_later(clock, round, &prices, report.round);
            round = report.round;
            let place = Place { clock: name, round };
            all = with_one(alloc, all, place, &prices, report.demand)?;
        }
    }
    Ok(all)
}

/// The prices of a round, from those of one that is no later.
fn prices_later(clock: &Clock, from: u32, prices: &Prices, to: u32) -> Prices
    requires from_one { 1 ≤ from }
    requires later { from ≤ to }
    requires to_last { to ≤ last_round clock.now.history }
    requires prices { prices.now ≡ prices_after clock.now.history (from - 1) }
    ensures { result ≡ prices_after clock.now.history (to - 1) }
{
    let mut now = *prices;
    for round in from..to {
        now = clock.next_prices(round, &now);
    }
    now
}

/// The same with one observation more.
fn with_one(
    alloc: Global,
    observed: Observed,
    place: Place,
    prices: &Prices,
    demand: Demand,
) -> Result<Observed, NoMemory>
    requires goods { length prices.now ≡ length observed.rationale.supply }
    requires low { AreLow prices.now }
    requires demand { IsDemand observed.rationale.supply demand }
    requires few { length observed.rationale.observations < MOST_OBSERVATIONS }
    ensures supply { IfOk result (λ o. o.rationale.supply ≡ observed.rationale.supply) }
    ensures observations { IfOk result (λ o. o.rationale.observations ≡ observed.rationale.observations
        ++ record { prices = prices.now; bundles = demand } ∷ []) }
    ensures places { IfOk result (λ o. o.places.items ≡ observed.places.items ++ place ∷ []) }
{
    let mut all = observed;
    all.places.push(place)?;
    match all.rationale.add(alloc, prices, demand) {
        Ok(_) => Ok(all),
        Err(_) => Err(NoMemory),
    }
}
