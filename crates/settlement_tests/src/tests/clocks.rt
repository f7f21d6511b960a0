//! The clocks of an auction whose bidders report so, and how it stands then.
ghost use Rattle.std.specs.Prelude.{◌≡◌, ◌≤◌, IfOk};
ghost use Rattle.lot_base.specs.Demands.{IsDemand};
ghost use Rattle.clock.specs.Reports.{histories};
ghost use Rattle.settlement.specs.Clocks.{AreClocksOf};

use clock::Clock;
use demand_set::Demand;
use expected_values::equal;
use lot_base::{Bundle, Goods, Phase, Prices, Terms, cost};
use reported_clocks::{demand_of, offer};
use settlement::{Settlement, settle};
use std::alloc::Global;
use std::process::Abort;
use std::test::Fail;

/// Bidder, round and the quantities of the bundles.
pub(super) type Report<'a> = (u8, u32, &'a [u16]);

/// The bundle of one unit of the one good.
pub(super) const ONE: &[u16] = &[1];

/// The reports of all clocks.
#[derive(Clone, Copy)]
pub(super) enum Reports<'a> {
    /// For each clock those that come to it.
    Listed(&'a [&'a [Report<'a>]]),
    /// Each bidder values the bundles of the box so, and reports its demand sets.
    True(&'a [&'a [u32]]),
}

/// Adds the quantities of a bundle.
fn append(quantities: &mut Vec<u16>, bundle: &Bundle) -> Result<(), Fail> {
    for good in 0..bundle.count() {
        quantities.push(bundle.quantity(good))?;
    }
    Ok(())
}

/// All bundles of the greatest surplus, by trying each. No bundle costs more than 1,000,000.
fn demand_at(
    rt: &impl Abort,
    alloc: Global,
    goods: &Goods,
    prices: &Prices,
    values: &[u32],
) -> Result<Demand, Fail>
    ensures { IfOk result (λ d. IsDemand goods.now d) }
{
    equal(values.len(), goods.box_size() as usize)?;
    let mut best = 0u64;
    let mut quantities = Vec::new(alloc);
    for place in 0..goods.box_size() {
        let bundle = goods.bundle(place);
        let surplus = (1_000_000 + values[place as usize] as u64).saturating_sub(cost(
            prices, &bundle,
        ));
        if surplus > best {
            best = surplus;
            quantities = Vec::new(alloc);
        }
        if surplus == best {
            append(&mut quantities, &bundle)?;
        }
    }
    demand_of(alloc, goods, &quantities)
}

/// A clock of which each round was full with demand sets, as long as it ran.
fn full(
    rt: &impl Abort,
    alloc: Global,
    terms: &Terms,
    number: u8,
    values: &[&[u32]],
) -> Result<Clock, Fail>
    requires { number ≤ terms.now.bidders }
    ensures terms { IfOk result (λ c. c.history.terms ≡ terms.now) }
    ensures number { IfOk result (λ c. c.history.number ≡ number) }
{
    let mut clock = Clock::new(alloc, terms, number)?;
    for round in 1..10_001 {
        if clock.look().phase != Phase::Running {
            break;
        }
        fill(rt, alloc, terms, &mut clock, round, values)?;
    }
    Ok(clock)
}

/// Fills a round with the demand sets of the members.
fn fill(
    rt: &impl Abort,
    alloc: Global,
    terms: &Terms,
    clock: &mut Clock,
    round: u32,
    values: &[&[u32]],
) -> Result<(), Fail>
    requires { clock.old.history.terms ≡ terms.now }
    ensures terms { clock.new.history.terms ≡ clock.old.history.terms }
    ensures number { clock.new.history.number ≡ clock.old.history.number }
{
    let prices = clock.look().prices;
    for place in 0..values.len() {
        let bidder = (place % 12) as u8 + 1;
        if bidder != clock.number() {
            let demand = demand_at(rt, alloc, &terms.goods, &prices, values[place])?;
            offer(alloc, clock, bidder, round, demand)?;
        }
    }
    Ok(())
}

/// The clock of this number.
fn clock_of(
    rt: &impl Abort,
    alloc: Global,
    terms: &Terms,
    number: u8,
    reports: Reports,
) -> Result<Clock, Fail>
    requires { number ≤ terms.now.bidders }
    ensures terms { IfOk result (λ c. c.history.terms ≡ terms.now) }
    ensures number { IfOk result (λ c. c.history.number ≡ number) }
{
    match reports {
        Reports::Listed(lists) => {
            assert!(rt; (number as usize) < lists.len());
            reported_clocks::clock_of(alloc, terms, number, lists[number as usize])
        }
        Reports::True(values) => full(rt, alloc, terms, number, values),
    }
}

/// The clock of all, and those without one bidder each.
fn clocks_of(
    rt: &impl Abort,
    alloc: Global,
    terms: &Terms,
    reports: Reports,
) -> Result<Vec<Clock>, Fail>
    ensures { IfOk result (λ v. AreClocksOf terms.now (histories v.items)) }
{
    let mut clocks = Vec::new(alloc);
    for number in 0..terms.bidders + 1 {
        clocks.push(clock_of(rt, alloc, terms, number, reports)?)?;
    }
    Ok(clocks)
}

/// How an auction of these terms stands where its bidders report so.
pub(super) fn settled(
    rt: &impl Abort,
    alloc: Global,
    terms: &Terms,
    reports: Reports,
) -> Result<Settlement, Fail> {
    let clocks = clocks_of(rt, alloc, terms, reports)?;
    Ok(settle(alloc, terms, &clocks)?)
}

/// Terms of this supply, so many bidders and this ceiling.
pub(super) fn terms_of(supply: &[u16], bidders: u8, ceiling: u32) -> Result<Terms, Fail> {
    Ok(Terms::new(Goods::new(supply)?, bidders, ceiling)?)
}

/// The same with a ceiling of 100, where the clocks open at these prices.
pub(super) fn terms_opening_at(
    supply: &[u16],
    opening: &[u32],
    bidders: u8,
) -> Result<Terms, Fail> {
    let opening = Prices::read(opening).ok_or("opening")?;
    let goods = Goods::new(supply)?;
    equal(opening.count(), goods.count())?;
    Ok(Terms::with_opening(goods, bidders, 100, opening)?)
}
