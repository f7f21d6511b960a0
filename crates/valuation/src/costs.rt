//! What the bundles of a box cost.
ghost use Rattle.std.specs.Prelude.{◌≡◌, ◌≤◌, ◌+◌, ◌*◌, ◌^◌, ℕ, length, slice_index, IfOk, OnOk};
ghost use Rattle.lot_base.specs.declared.limits.TheConstants.{MOST_BUNDLES};
ghost use Rattle.valuation.specs.Carried.{AreCosts, AreLowCosts, AreLowered, IsSpread};

use lot_base::{Goods, NoMemory, Prices};
use std::alloc::Global;
use std::marker::Model;

/// What each bundle of a box costs at some prices, in order of index. More than 65,535 is kept as 65,535: no bundle is worth so much.
#[derive(Debug, Drop)]
pub struct Costs {
    /// That of the empty bundle, the first one, is 0.
    each: Vec<u16>,
}

impl Model for Costs {
    ghost use Rattle.std.specs.Prelude.{◌≡◌, ℕ, List, slice_index};

    ghost Value = { List ℕ };

    ghost view = { λ c. c.each.items };

    ghost invariant = { λ c. slice_index c.each.items 0 ≡ 0 };
}

impl Costs {
    /// The costs of the bundles of the goods at these prices. A price that is not there is 0.
    pub fn new(alloc: Global, goods: &Goods, prices: &Prices) -> Result<Costs, NoMemory>
        ensures { IfOk result (λ c. AreLowCosts goods.now prices.now c) }
    {
        let costs = costs_at(alloc, goods, prices.as_slice())?;
        let each = lowered(alloc, &costs)?;
        Ok(Costs { each })
    }

    /// The costs, in order of index.
    pub fn as_slice(&self) -> &[u16]
        ensures value { result.now ≡ self.now }
        ensures empty { slice_index self.now 0 ≡ 0 }
    {
        &self.each
    }
}

/// The same numbers, 65,535 where one is greater.
fn lowered(alloc: Global, numbers: &[u64]) -> Result<Vec<u16>, NoMemory>
    ensures { IfOk result (λ low. AreLowered numbers.now low.items) }
{
    let mut low = Vec::with_capacity(alloc, numbers.len())?;
    for place in 0..numbers.len() {
        low.push(numbers[place].min(65_535) as u16)?;
    }
    Ok(low)
}

/// What each bundle of the goods costs at the prices, in order of index. A price that is not there is 0.
pub(crate) fn costs_at(alloc: Global, goods: &Goods, prices: &[u32]) -> Result<Vec<u64>, NoMemory>
    ensures { IfOk result (λ costs. AreCosts goods.now prices.now costs.items) }
{
    let mut costs = Vec::with_capacity(alloc, goods.box_size() as usize)?;
    costs.push(0u64)?;
    for step in 0..goods.count() {
        let good = goods.count() - 1 - step;
        spread(&mut costs, goods.supply(good), price_at(prices, good))?;
    }
    Ok(costs)
}

/// The price of a good, 0 where there is none.
fn price_at(prices: &[u32], good: u8) -> u32
    ensures { result ≡ slice_index prices.now good }
{
    let place = good as usize;
    if place < prices.len() {
        prices[place]
    } else {
        0
    }
}

/// Adds the costs of the same bundles with 1 to so many units of one good more in front of them.
fn spread(costs: &mut Vec<u64>, units: u16, price: u32) -> Result<(), NoMemory>
    requires some { 1 ≤ length costs.old.items }
    requires few { (units + 1) * length costs.old.items ≤ MOST_BUNDLES }
    requires small { (i : ℕ) → slice_index costs.old.items i ≤ 2 ^ 50 }
    ensures { OnOk result (IsSpread units price costs.old.items costs.new.items) }
{
    let size = costs.len();
    for place in size..size * (units as usize + 1) {
        let cost = costs[place - size] + price as u64;
        costs.push(cost)?;
    }
    Ok(())
}
