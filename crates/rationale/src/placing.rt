//! Observations as numbers at the places of the box.
ghost use Rattle.std.specs.Prelude.{◌≡◌, ◌<◌, ◌≤◌, ◌+◌, ◌*◌, ◌/◌, ◌%◌, ◌^◌, ℕ, List, length, take, slice_index};
ghost use Rattle.lot_base.specs.declared.limits.TheConstants.{MOST_BUNDLES};
ghost use Rattle.lot_base.specs.Goods.{cost, box_size};
ghost use Rattle.lot_base.specs.Box.{bundle_at};
ghost use Rattle.lot_base.specs.Demands.{IsDemand};
ghost use Rattle.rationale.specs.Kept.{AreLow};
ghost use Rattle.rationale.specs.Placed.{bundles_at};

use demand_set::Demand;
use lot_base::{Goods, Prices};

/// Writes what each bundle of the goods costs.
pub(crate) fn show_costs(goods: &Goods, prices: &Prices, costs: &mut [u64])
    requires goods { length prices.now ≡ length goods.now }
    requires low { AreLow prices.now }
    requires long { length costs.old ≡ box_size goods.now }
    ensures long { length costs.new ≡ box_size goods.now }
    ensures costs { (k : ℕ) → k < box_size goods.now → slice_index costs.new k ≡ cost prices.now (bundle_at goods.now k) }
    ensures small { (k : ℕ) → k < box_size goods.now → slice_index costs.new k ≤ 2 ^ 25 }
{
    let strides = goods.strides();
    costs[0] = 0;
    for step in 0..goods.count() {
        let good = goods.count() - 1 - step;
        spread(
            costs,
            strides[good as usize],
            goods.supply(good),
            prices.get(good),
        );
    }
}

/// Writes, after what the first bundles cost, what the same bundles cost with 1 to so many units of one good more in front of
/// them.
fn spread(costs: &mut [u64], size: usize, units: u16, price: u32)
    requires some { 1 ≤ size }
    requires fits { (units + 1) * size ≤ length costs.old }
    requires few { length costs.old ≤ MOST_BUNDLES }
    requires small { (i : ℕ) → i < size → slice_index costs.old i ≤ 2 ^ 25 }
    ensures long { length costs.new ≡ length costs.old }
    ensures spread { (i : ℕ) → i < (units + 1) * size →
        slice_index costs.new i ≡ slice_index costs.old (i % size) + (i / size) * price }
{
    for place in size..size * (units as usize + 1) {
        costs[place] = costs[place - size] + price as u64;
    }
}

/// Writes the place of each bundle of a demand.
pub(crate) fn show_places(goods: &Goods, demand: &Demand, places: &mut [u16])
    requires demand { IsDemand goods.now demand.now }
    requires long { length places.old ≡ box_size goods.now }
    ensures long { length places.new ≡ box_size goods.now }
    ensures few { length demand.now ≤ box_size goods.now }
    ensures inside { (j : ℕ) → j < length demand.now → slice_index places.new j < box_size goods.now }
    ensures bundles { bundles_at goods.now (take (length demand.now) places.new) ≡ demand.now }
{
    let _goods = goods.count();
    for i in 0..demand.len() {
        places[i as usize] = goods.index(&demand.get(i)) as u16;
    }
}

/// Writes 0 at the places of a demand, and 1 at the others.
pub(crate) fn show_gaps(places: &[u16], gaps: &mut [u64])
    requires inside { (j : ℕ) → j < length places.now → slice_index places.now j < length gaps.old }
    ensures long { length gaps.new ≡ length gaps.old }
    ensures there { (j : ℕ) → j < length places.now → slice_index gaps.new (slice_index places.now j) ≡ 0 }
    ensures away { (k : ℕ) → k < length gaps.old →
        ((j : ℕ) → j < length places.now → slice_index places.now j ≡ k → ⊥) → slice_index gaps.new k ≡ 1 }
{
    gaps.fill(1);
    for j in 0..places.len() {
        gaps[places[j] as usize] = 0;
    }
}
