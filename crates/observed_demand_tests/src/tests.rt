//! What no clause says: that observing succeeds where there is memory, also at the limits.
ghost use Rattle.std.specs.Prelude.{◌≡◌, ◌≤◌, IfOk};
ghost use Rattle.std.specs.List.{AllByRecursion};
ghost use Rattle.clock.specs.Reports.{ClockHistory, histories};

use clock::Clock;
use expected_values::equal;
use lot_base::{Goods, Terms};
use observed_demand::{Observed, observe};
use reported_clocks::{demand_of, offer};
use std::alloc::{AllocError, Global};
use std::process::Abort;
use std::test::Fail;

fn terms_of(supply: &[u16], bidders: u8, ceiling: u32) -> Result<Terms, Fail> {
    Ok(Terms::new(Goods::new(supply)?, bidders, ceiling)?)
}

/// The clock takes a report of each member in a round, each of the same demand.
fn fill(
    alloc: Global,
    terms: &Terms,
    clock: &mut Clock,
    round: u32,
    quantities: &[u16],
) -> Result<(), Fail>
    requires { clock.old.history.terms ≡ terms.now }
    ensures { clock.new.history.terms ≡ terms.now }
{
    let number = clock.number();
    for step in 0..terms.bidders {
        let bidder = step + 1;
        if bidder != number {
            let demand = demand_of(alloc, &terms.goods, quantities)?;
            offer(alloc, clock, bidder, round, demand)?;
        }
    }
    Ok(())
}

/// The clock of this number, to which each member reported this demand in each of so many rounds.
fn clock_of(
    alloc: Global,
    terms: &Terms,
    number: u8,
    rounds: u32,
    quantities: &[u16],
) -> Result<Clock, Fail>
    requires { number ≤ terms.now.bidders }
    ensures { IfOk result (λ c. c.history.terms ≡ terms.now) }
{
    let mut clock = Clock::new(alloc, terms, number)?;
    for before in 0..rounds {
        fill(alloc, terms, &mut clock, before + 1, quantities)?;
    }
    Ok(clock)
}

/// How many observations there are, and the clock and the round of the last one.
fn last_of(observed: &Observed) -> (usize, Option<(u8, u32)>) {
    let last = observed
        .places
        .last()
        .map(|place| (place.clock, place.round));
    (observed.places.len(), last)
}

/// What bidder 2 of two reported to the clock of both, who wanted a unit in each of so many rounds.
fn observed_rounds(alloc: Global, rounds: u32) -> Result<Observed, Fail> {
    let terms = terms_of(&[1], 2, 10_000)?;
    let clocks = [clock_of(alloc, &terms, 0, rounds, &[1])?];
    Ok(observe(alloc, &terms, &clocks, 2)?)
}

#[test]
fn a_clock_of_many_rounds_is_observed(rt: HostRuntime) -> Result<(), Fail> {
    let observed = observed_rounds(rt.alloc(), 10_000)?;
    equal(last_of(&observed), (10_000, Some((0, 10_000))))?;
    Ok(())
}

/// All quantities of a good.
fn all_quantities(alloc: Global, units: u16) -> Result<Vec<u16>, AllocError> {
    let mut quantities = Vec::new(alloc);
    for quantity in 0..units {
        quantities.push(quantity)?;
    }
    quantities.push(units)?;
    Ok(quantities)
}

/// What the one bidder reported who wants any of 2,048 bundles.
fn observed_box(alloc: Global) -> Result<Observed, Fail> {
    let terms = terms_of(&[2047], 1, 10)?;
    let all = all_quantities(alloc, 2047)?;
    let clocks = [clock_of(alloc, &terms, 0, 1, &all)?];
    Ok(observe(alloc, &terms, &clocks, 1)?)
}

#[test]
fn the_largest_demand_is_observed(rt: HostRuntime) -> Result<(), Fail> {
    let observed = observed_box(rt.alloc())?;
    equal(last_of(&observed), (1, Some((0, 1))))?;
    Ok(())
}

/// The clocks of these terms, of which each member wants none of six goods.
fn clocks_of(alloc: Global, terms: &Terms) -> Result<Vec<Clock>, Fail>
    ensures { IfOk result (λ v. AllByRecursion (λ (c : ClockHistory). c.terms ≡ terms.now) (histories v.items)) }
{
    let mut clocks = Vec::new(alloc);
    for number in 0..terms.bidders + 1 {
        clocks.push(clock_of(alloc, terms, number, 1, &[0; 6])?)?;
    }
    Ok(clocks)
}

/// What bidder 12 of twelve reported to these clocks.
fn observed_clocks(rt: &impl Abort, alloc: Global) -> Result<Observed, Fail> {
    let terms = terms_of(&[1, 1, 1, 1, 1, 1], 12, 10)?;
    let clocks = clocks_of(alloc, &terms)?;
    assert!(rt; clocks.len() <= 13);
    Ok(observe(alloc, &terms, &clocks, 12)?)
}

#[test]
fn thirteen_clocks_are_observed(rt: HostRuntime) -> Result<(), Fail> {
    let observed = observed_clocks(&rt, rt.alloc())?;
    equal(last_of(&observed), (12, Some((11, 1))))?;
    Ok(())
}
