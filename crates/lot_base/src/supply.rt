//! The goods on sale.
ghost use Rattle.std.specs.Prelude.{◌≡◌, ◌↔◌, ℕ, ◌+◌, ◌-◌, ◌*◌, ◌^◌, ◌<◌, ◌≤◌, List, length, slice_index, slice_get, Some, IsTrue, ◌==◌, position};
ghost use Rattle.lot_base.specs.declared.limits.TheConstants.{MOST_BUNDLES};
ghost use Rattle.lot_base.specs.Goods.{quantity_in, box_size, is_within, AtMost, IsSupply};
ghost use Rattle.lot_base.specs.Box.{box, index_of, bundle_at};
ghost use Rattle.lot_base.specs.Strides.{AreStrides};
ghost use Rattle.lot_base.specs.Limits.{supply_of};

use crate::bundles::{Bundle, quantity_in};
use crate::limits::{MOST_BUNDLES, MOST_GOODS};
use std::marker::Model;

/// Why a list of supplies is refused.
#[derive(Clone, Copy, Debug, PartialEq, Eq)]
pub enum GoodsFault {
    /// The list is empty.
    NoGoods,
    /// There are more than 6, so many.
    TooManyGoods(u64),
    /// The first good without a unit.
    ZeroSupply(u8),
    /// There are more than 2,048 bundles, so many.
    BoxTooLarge(u128),
}

/// A set of goods: bit k says whether good k is in it.
#[derive(Clone, Copy, Debug, PartialEq, Eq)]
pub struct GoodSet(pub u8);

/// The goods on sale, seen as the list of their supplies.
#[derive(Clone, Copy, Debug)]
pub struct Goods {
    /// The bundle of all units.
    supply: Bundle,
}

impl Model for Goods {
    ghost use Rattle.std.specs.Prelude.{ℕ, List};
    ghost use Rattle.lot_base.specs.Goods.{IsSupply};

    ghost Value = { List ℕ };

    ghost view = { λ g. g.supply };

    ghost invariant = { λ g. IsSupply g.supply };

    ghost inverse = { λ supply. record { supply = supply } };
}

impl Goods {
    /// The goods of these supplies.
    pub fn new(supply: &[u16]) -> Result<Goods, GoodsFault>
        ensures { result ≡ supply_of supply.now }
    {
        if supply.is_empty() {
            return Err(GoodsFault::NoGoods);
        }
        if supply.len() > MOST_GOODS {
            return Err(GoodsFault::TooManyGoods(supply.len() as u64));
        }
        if let Some(good) = first_without_unit(supply) {
            return Err(GoodsFault::ZeroSupply(good as u8));
        }
        let bundles = box_product(supply);
        if bundles > MOST_BUNDLES {
            return Err(GoodsFault::BoxTooLarge(bundles));
        }
        Ok(Goods {
            supply: Bundle::of(supply),
        })
    }

    /// How many goods there are.
    pub fn count(&self) -> u8
        ensures length { result ≡ length self.now }
        ensures supply { IsSupply self.now }
    {
        self.supply.count()
    }

    /// The supply of each good, good 0 first.
    pub fn as_slice(&self) -> &[u16]
        ensures { result.now ≡ self.now }
    {
        self.supply.as_slice()
    }

    /// The supply of a good.
    pub fn supply(&self, good: u8) -> u16
        requires { good < length self.now }
        ensures { result ≡ slice_index self.now good }
    {
        self.supply.quantity(good)
    }

    /// The units of the goods of a set.
    pub fn units(&self, set: GoodSet) -> u32
        ensures { result ≡ quantity_in self.now set.0 }
    {
        quantity_in(&self.supply, set)
    }

    /// The number of sets of goods.
    pub fn set_count(&self) -> u8
        ensures value { result ≡ 2 ^ length self.now }
        ensures small { result ≤ 64 }
        ensures supply { IsSupply self.now }
    {
        1 << self.supply.count()
    }

    /// The number of bundles.
    pub fn box_size(&self) -> u32
        ensures { result ≡ box_size self.now }
    {
        box_product(self.supply.as_slice()) as u32
    }

    /// Whether it is a bundle of these goods, of no more units than there are.
    pub fn fits(&self, x: &Bundle) -> bool
        ensures fits { IsTrue result ↔ AtMost x.now self.now }
        ensures test { result ≡ is_within self.now x.now }
    {
        x.is_within(self.supply.as_slice())
    }

    /// The place of a bundle among all bundles in lexicographic order, from 0.
    pub fn index(&self, x: &Bundle) -> u32
        requires { AtMost x.now self.now }
        ensures place { slice_get (box self.now) result ≡ Some x.now }
        ensures digits { result ≡ index_of self.now x.now }
        ensures inverse { bundle_at self.now result ≡ x.now }
    {
        x.index_within(self.supply.as_slice())
    }

    /// How far apart in the list of the box a bundle and the one with a unit more of a good stand, for each good.
    pub fn strides(&self) -> [usize; 6]
        ensures { AreStrides self.now result }
    {
        strides(self.supply.as_slice())
    }

    /// The bundle at a place among all bundles in lexicographic order.
    pub fn bundle(&self, index: u32) -> Bundle
        requires { index < box_size self.now }
        ensures place { slice_get (box self.now) index ≡ Some result }
        ensures digits { result ≡ bundle_at self.now index }
        ensures inverse { index_of self.now result ≡ index }
        ensures within { AtMost result self.now }
    {
        Bundle::at_index(self.supply.as_slice(), index)
    }
}

/// The first good without a unit.
fn first_without_unit(supply: &[u16]) -> Option<usize>
    ensures { result ≡ position (λ s. s == 0) supply.now }
{
    supply.iter().position(|units| *units == 0)
}

/// The product of each supply and one.
pub(crate) fn box_product(supply: &[u16]) -> u128
    requires { length supply.now ≤ 6 }
    ensures { result ≡ box_size supply.now }
{
    let mut product = 1u128;
    for units in supply {
        product *= *units as u128 + 1;
    }
    product
}

/// The number of bundles of the goods after each good.
fn strides(supply: &[u16]) -> [usize; 6]
    requires few { length supply.now ≤ 6 }
    requires small { box_size supply.now ≤ MOST_BUNDLES }
    ensures { AreStrides supply.now result }
{
    let mut strides = [0; 6];
    let mut size: usize = 1;
    for i in 0..supply.len() {
        let good = supply.len() - 1 - i;
        strides[good] = size;
        size *= usize::from(supply[good]) + 1;
    }
    strides
}

#[tactic(auto, using(crate::proofs::Sums::quantity_in_drop))]
/// The sum of the numbers at the places of a set.
pub(crate) fn sum_in(numbers: &[u16], set: u8) -> u32
    requires { length numbers.now ≤ 6 }
    ensures { result ≡ quantity_in numbers.now set }
{
    let mut total = 0u32;
    let mut rest = set;
    for number in numbers {
        if rest % 2 == 1 {
            total += *number as u32;
        }
        rest /= 2;
    }
    total
}
