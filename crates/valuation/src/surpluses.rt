//! Surpluses at the present prices.
ghost use Rattle.std.specs.Prelude.{◌≡◌, ◌≢◌, ◌<◌, ◌≤◌, ◌+◌, ◌-◌, ◌^◌, ℕ, ℤ, List, length, slice_index, true, false, IfOk};
ghost use Rattle.lot_base.specs.Goods.{box_size};
ghost use Rattle.lot_base.specs.Economy.{demand};
ghost use Rattle.valuation.specs.Values.{AreValues, valuation_of};
ghost use Rattle.valuation.specs.Carried.{AreLowCosts, Carries, CarriesAt, IsColumn, IsLeft, greatest, raised_by};

use crate::collecting::collect;
use crate::columns::Column;
use crate::costs::Costs;
use crate::paying::{greatest_of, pay};
use crate::renewing::{greatest_left, leave, left_at};
use crate::steadiness::{fewest_of_best, lasts};
use crate::values::{Valuation, value_at};
use demand_set::Demand;
use lot_base::{GoodSet, Goods, NoMemory, Prices};
use std::alloc::Global;
use std::marker::Model;

/// What each bundle of a box is worth to a bidder beyond its cost at the present prices.
#[derive(Debug, Drop)]
pub struct Surplus {
    /// The supply within which the bundles are.
    goods: Goods,
    /// One more than each surplus, or 0 where the surplus is below 0, in order of index. That of the empty bundle is 1.
    worth: Vec<u16>,
    /// The greatest of them.
    best: u16,
}

impl Model for Surplus {
    ghost use Rattle.std.specs.Prelude.{◌≡◌, length, slice_index};
    ghost use Rattle.lot_base.specs.Goods.{box_size, IsSupply};
    ghost use Rattle.valuation.specs.Carried.{Carried, greatest};

    ghost Value = { Carried };

    ghost view = { λ s. record { supply = s.goods; worth = s.worth.items } };

    ghost invariant = { λ s. IsSupply s.goods × (length s.worth.items ≡ box_size s.goods)
        × (slice_index s.worth.items 0 ≡ 1) × (s.best ≡ greatest s.worth.items) };
}

impl Surplus {
    /// The surpluses of the bundles of the goods at these prices. A price that is not there is 0.
    pub fn new(
        alloc: Global,
        goods: &Goods,
        valuation: &Valuation,
        prices: &Prices,
    ) -> Result<Surplus, NoMemory>
        ensures goods { IfOk result (λ s. s.supply ≡ goods.now) }
        ensures carries { IfOk result (λ s. Carries s (valuation_of goods.now valuation.now) prices.now) }
    {
        let _count = goods.count();
        let worth = worth_of(alloc, goods, valuation.as_slice(), prices)?;
        let best = greatest_of(&worth);
        Ok(Surplus {
            goods: *goods,
            worth,
            best,
        })
    }

    /// The prices rose by one on each good of the set, so many times.
    pub fn step(&mut self, set: GoodSet, column: &Column, times: u32)
        requires column { IsColumn self.old.supply set.0 column.now.units.items }
        ensures goods { self.new.supply ≡ self.old.supply }
        ensures carries { (u : List ℕ → ℤ) (p : List ℕ) → length p ≡ length self.old.supply → Carries self.old u p
            → Carries self.new u (raised_by times set.0 p) }
    {
        self.best = pay(&mut self.worth, &column.units, times);
    }

    /// The prices are now those of the costs. Whether the bidder demands the same bundles as before.
    pub fn renew(&mut self, valuation: &Valuation, costs: &Costs) -> bool
        requires whole { length costs.now ≡ box_size self.old.supply }
        requires valued { box_size self.old.supply ≤ length valuation.now }
        ensures goods { self.new.supply ≡ self.old.supply }
        ensures carries { (p : List ℕ) → AreLowCosts self.old.supply p costs.now
            → Carries self.new (valuation_of self.old.supply valuation.now) p }
        ensures same { result ≡ true → (u v : List ℕ → ℤ) (p q : List ℕ) → Carries self.old u p → Carries self.new v q
            → demand self.new.supply v q ≡ demand self.old.supply u p }
        ensures other { result ≡ false → (u v : List ℕ → ℤ) (p q : List ℕ) → Carries self.old u p → Carries self.new v q
            → demand self.new.supply v q ≢ demand self.old.supply u p }
    {
        let before = self.best;
        let values = valuation.as_slice();
        self.best = greatest_left(values, costs.as_slice());
        leave(&mut self.worth, values, costs.as_slice(), before, self.best)
    }

    /// The bundles that the bidder demands at the present prices.
    pub fn demand(&self, alloc: Global) -> Result<Demand, NoMemory>
        ensures { (u : List ℕ → ℤ) (p : List ℕ) → Carries self.now u p → IfOk result (λ d. d ≡ demand self.now.supply u p) }
    {
        demanded(alloc, &self.goods, &self.worth, self.best)
    }

    /// For so many more steps on the set the bidder demands the same bundles; there may be more.
    pub fn steady(&self, set: GoodSet, column: &Column) -> u32
        requires { IsColumn self.now.supply set.0 column.now.units.items }
        ensures few { result < 2 ^ 16 }
        ensures steady { (u : List ℕ → ℤ) (p : List ℕ) → length p ≡ length self.now.supply → Carries self.now u p → (n : ℕ) → n ≤ result →
            demand self.now.supply u (raised_by n set.0 p) ≡ demand self.now.supply u p }
    {
        steady_for(&self.goods, set, &self.worth, self.best, &column.units)
    }
}

/// One more than the surplus of each bundle, or 0 where it is below 0.
fn worth_of(
    alloc: Global,
    goods: &Goods,
    values: &[u16],
    prices: &Prices,
) -> Result<Vec<u16>, NoMemory>
    requires { AreValues values.now }
    ensures whole { IfOk result (λ worth. length worth.items ≡ box_size goods.now) }
    ensures empty { IfOk result (λ worth. slice_index worth.items 0 ≡ 1) }
    ensures carries { IfOk result (λ worth. CarriesAt goods.now worth.items (valuation_of goods.now values.now) prices.now) }
{
    let costs = Costs::new(alloc, goods, prices)?;
    left_of(alloc, values, costs.as_slice())
}

/// One more than each value less its cost, or 0 where that is below 0.
fn left_of(alloc: Global, values: &[u16], costs: &[u16]) -> Result<Vec<u16>, NoMemory>
    requires { AreValues values.now }
    ensures { IfOk result (λ worth. IsLeft values.now costs.now worth.items) }
{
    let mut worth = Vec::with_capacity(alloc, costs.len())?;
    for place in 0..costs.len() {
        worth.push(left_at(value_at(values, place), costs[place]))?;
    }
    Ok(worth)
}

/// The bundles of the greatest surplus.
fn demanded(alloc: Global, goods: &Goods, worth: &[u16], best: u16) -> Result<Demand, NoMemory>
    requires whole { length worth.now ≡ box_size goods.now }
    requires empty { slice_index worth.now 0 ≡ 1 }
    requires best { best ≡ greatest worth.now }
    ensures { (u : List ℕ → ℤ) (p : List ℕ) → CarriesAt goods.now worth.now u p → IfOk result (λ d. d ≡ demand goods.now u p) }
{
    let quantities = collect(alloc, goods, worth, best)?;
    match Demand::read_quantities(alloc, goods, goods.count(), &quantities) {
        Ok(demand) => Ok(demand),
        Err(_) => Err(NoMemory),
    }
}

/// For how many steps on the set the bundles of the greatest surplus stay the same.
fn steady_for(goods: &Goods, set: GoodSet, worth: &[u16], best: u16, units: &[u16]) -> u32
    requires whole { length worth.now ≡ box_size goods.now }
    requires empty { slice_index worth.now 0 ≡ 1 }
    requires best { best ≡ greatest worth.now }
    requires column { IsColumn goods.now set.0 units.now }
    ensures few { result < 2 ^ 16 }
    ensures steady { (u : List ℕ → ℤ) (p : List ℕ) → length p ≡ length goods.now → CarriesAt goods.now worth.now u p →
        (n : ℕ) → n ≤ result →
        demand goods.now u (raised_by n set.0 p) ≡ demand goods.now u p }
{
    let least = fewest_of_best(worth, units, best);
    u32::from(lasts(worth, units, best, least))
}
