//! What the later demands can still make clear.
ghost use Rattle.std.specs.Prelude.{◌≡◌, ◌<◌, ◌≤◌, ℕ, ◌+◌, ◌^◌, Bool, List, [], ◌∷◌, true, false, find, length, slice_index, slice_index_or, IfOk};
ghost use Rattle.lot_base.specs.Goods.{plus, is_within, box_size, AtMost};
ghost use Rattle.lot_base.specs.Box.{bundle_at, index_of};
ghost use Rattle.lot_base.specs.Choices.{clears};
ghost use Rattle.lot_base.specs.Demands.{IsDemand};
ghost use Rattle.award_assembly.specs.Units.{AreUnits, AreKeys, IsJoined, key_of};
ghost use Rattle.award_assembly.specs.Remaining.{IsWith, AreAllTrue};

use crate::units::Units;
use demand_set::Demand;
use lot_base::{Bundle, Goods, Prices};
use std::alloc::{AllocError, Global};
use std::marker::Model;

/// The key of a total that is not true: two bundles of the box have 4,094 units at most.
const NO_TOTAL: u16 = u16::MAX;

/// A truth value for each bundle of the box, at the bundle's place: whether the later demands can make a choice that
/// clears where the bundle is taken already.
#[derive(Drop)]
pub(crate) struct Reach {
    totals: Vec<bool>,
}

impl Model for Reach {
    ghost use Rattle.std.specs.Prelude.{Bool, List};

    ghost Value = { List Bool };

    ghost view = { λ r. r.totals.items };
}

impl Reach {
    ghost use Rattle.award_assembly.specs.Remaining.{IsReach, has_total};

    /// With no later demand, the totals that clear.
    pub(crate) fn last(
        alloc: Global,
        goods: &Goods,
        opening: &Prices,
        prices: &Prices,
    ) -> Result<Reach, AllocError>
        requires opening { length opening.now ≡ length goods.now }
        requires prices { length prices.now ≡ length goods.now }
        ensures { IfOk result (IsReach goods.now opening.now prices.now []) }
    {
        let mut totals = Vec::new(alloc);
        for place in 0..goods.box_size() {
            totals.push(clears(goods, opening, prices, &goods.bundle(place)))?;
        }
        Ok(Reach { totals })
    }

    /// With this demand before the later ones.
    pub(crate) fn before(
        &self,
        alloc: Global,
        goods: &Goods,
        units: &Units,
        demand: &Demand,
    ) -> Result<Reach, AllocError>
        requires size { length self.now ≡ box_size goods.now }
        requires units { AreUnits goods.now units.now }
        requires demand { IsDemand goods.now demand.now }
        ensures { (opening p : List ℕ) (behind : List (List (List ℕ))) → IsReach goods.now opening p behind self.now →
            IfOk result (IsReach goods.now opening p (demand.now ∷ behind)) }
    {
        let keys = self.keys(alloc, units)?;
        let mut totals = vec![in alloc; false; goods.box_size() as usize]?;
        let mut all = false;
        for number in 0..demand.len() {
            if !all {
                join(goods, units, &keys, &demand.get(number), &mut totals);
                all = are_all_true(&totals);
            }
        }
        Ok(Reach { totals })
    }

    /// The key of each total, at its place: the units of its bundle where it is true.
    fn keys(&self, alloc: Global, units: &Units) -> Result<Vec<u16>, AllocError>
        requires { length units.now ≡ length self.now }
        ensures { IfOk result (λ keys. AreKeys units.now self.now keys.items) }
    {
        let totals = self.totals.as_slice();
        let units = units.as_slice();
        let mut keys = Vec::with_capacity(alloc, totals.len())?;
        for place in 0..totals.len() {
            keys.push(key_of(totals[place], units[place]))?;
        }
        Ok(keys)
    }

    /// The first bundle of a demand that makes a true total with what is taken.
    pub(crate) fn first(&self, goods: &Goods, demand: &Demand, taken: &Bundle) -> Option<Bundle>
        requires size { length self.now ≡ box_size goods.now }
        requires demand { IsDemand goods.now demand.now }
        requires taken { AtMost taken.now goods.now }
        ensures { result ≡ find (λ x. has_total goods.now self.now (plus taken.now x)) demand.now }
    {
        for place in 0..demand.len() {
            let bundle = demand.get(place);
            if self.has_sum(goods, taken, &bundle) {
                return Some(bundle);
            }
        }
        None
    }

    /// Whether the two bundles together are a true total.
    fn has_sum(&self, goods: &Goods, x: &Bundle, y: &Bundle) -> bool
        requires size { length self.now ≡ box_size goods.now }
        requires x { AtMost x.now goods.now }
        requires y { AtMost y.now goods.now }
        ensures { result ≡ has_total goods.now self.now (plus x.now y.now) }
    {
        fit_together(goods, x, y) && self.has(place_of_sum(goods, x, y))
    }

    /// Whether the bundle at a place is a true total.
    pub(crate) fn has(&self, place: u32) -> bool
        requires { place < length self.now }
        ensures { result ≡ slice_index_or self.now place false }
    {
        self.totals[place as usize]
    }
}

/// Whether all totals are true.
fn are_all_true(totals: &[bool]) -> bool
    ensures { result ≡ true → AreAllTrue totals.now }
{
    totals.iter().all(|total| *total)
}

/// Makes true the totals that are true with a bundle more in the table that has these keys.
fn join(goods: &Goods, units: &Units, keys: &[u16], bundle: &Bundle, totals: &mut [bool])
    requires size { (length keys.now ≡ box_size goods.now) × (length totals.old ≡ box_size goods.now) }
    requires units { AreUnits goods.now units.now }
    requires bundle { AtMost bundle.now goods.now }
    ensures { (table : List Bool) → AreKeys units.now table keys.now → IsWith goods.now table bundle.now totals.old totals.new }
{
    let place = goods.index(bundle) as usize;
    let units = units.as_slice();
    let further = keys.split_at(place).1;
    join_matching(totals, further, units, units[place]);
}

/// Makes true those of the first totals whose key is their units and so many more.
fn join_matching(totals: &mut [bool], keys: &[u16], units: &[u16], more: u16)
    requires totals { length keys.now ≤ length totals.old }
    requires units { length keys.now ≤ length units.now }
    requires fit { (place : ℕ) → place < length keys.now → slice_index units.now place + more < 2 ^ 16 }
    ensures { IsJoined keys.now units.now more totals.old totals.new }
{
    for place in 0..keys.len() {
        totals[place] = totals[place] | (keys[place] == units[place] + more);
    }
}

/// The units of a total that is true, and else `NO_TOTAL`.
fn key_of(total: bool, units: u16) -> u16
    ensures { result ≡ key_of total units }
{
    if total { units } else { NO_TOTAL }
}

/// Whether the two bundles together are within the supply.
fn fit_together(goods: &Goods, x: &Bundle, y: &Bundle) -> bool
    requires x { length x.now ≡ length goods.now }
    requires y { length y.now ≡ length goods.now }
    ensures { result ≡ is_within goods.now (plus x.now y.now) }
{
    for good in 0..goods.count() {
        if x.quantity(good) as u32 + y.quantity(good) as u32 > goods.supply(good) as u32 {
            return false;
        }
    }
    true
}

/// The two bundles together.
pub(crate) fn sum_of(goods: &Goods, x: &Bundle, y: &Bundle) -> Bundle
    requires x { AtMost x.now goods.now }
    requires y { AtMost y.now goods.now }
    requires sum { AtMost (plus x.now y.now) goods.now }
    ensures { result ≡ plus x.now y.now }
{
    goods.bundle(place_of_sum(goods, x, y))
}

/// The place of the two bundles together: no digit of the sum is carried.
fn place_of_sum(goods: &Goods, x: &Bundle, y: &Bundle) -> u32
    requires x { AtMost x.now goods.now }
    requires y { AtMost y.now goods.now }
    requires sum { AtMost (plus x.now y.now) goods.now }
    ensures place { result ≡ index_of goods.now (plus x.now y.now) }
    ensures below { result < box_size goods.now }
    ensures inverse { bundle_at goods.now result ≡ plus x.now y.now }
{
    let _goods = goods.count();
    goods.index(x) + goods.index(y)
}

/// Whether a total within the supply is all of it on each good with a price above its opening.
fn clears(goods: &Goods, opening: &Prices, prices: &Prices, total: &Bundle) -> bool
    requires opening { length opening.now ≡ length goods.now }
    requires prices { length prices.now ≡ length goods.now }
    requires total { AtMost total.now goods.now }
    ensures { result ≡ clears opening.now prices.now total.now goods.now }
{
    for good in 0..goods.count() {
        if prices.get(good) > opening.get(good) && total.quantity(good) != goods.supply(good) {
            return false;
        }
    }
    true
}
