//! Bundles.
ghost use Rattle.std.specs.Prelude.{◌≡◌, ◌↔◌, ℕ, ◌<◌, ◌≤◌, List, length, slice_index, IsTrue, IfSome, IfNone, ◌⊎◌, nat_le, zip};
ghost use Rattle.std.specs.List.{list_all};
ghost use Rattle.std.specs.Cmp.Lexicographic.{slice_cmp};
ghost use Rattle.std.specs.Ordering.{nat_cmp};
ghost use Rattle.lot_base.specs.declared.limits.TheConstants.{MOST_BUNDLES};
ghost use Rattle.lot_base.specs.Goods.{quantity_in, cost, is_within, box_size, AtMost, IsSupply};
ghost use Rattle.lot_base.specs.Padded.{padded};
ghost use Rattle.lot_base.specs.Box.{index_of, bundle_at};

use crate::limits::MOST_GOODS;
use crate::supply::{GoodSet, box_product, sum_in};
use std::cmp::Ordering;
use std::marker::Model;

/// A quantity of each of 1 to 6 goods, seen as the list of the quantities.
#[derive(Clone, Copy, Debug)]
pub struct Bundle {
    /// The quantity of each good, good 0 first, and zeros after them.
    cells: [u16; 6],
    /// How many goods there are, 1 to 6: so many cells are seen.
    count: u8,
}

impl Model for Bundle {
    ghost use Rattle.std.specs.Prelude.{ℕ, List, length, take};
    ghost use Rattle.lot_base.specs.Padded.{padded, IsPadded};

    ghost Value = { List ℕ };

    ghost view = { λ b. take b.count b.cells };

    ghost invariant = { λ b. IsPadded b.cells b.count };

    ghost inverse = { λ quantities. record { cells = padded quantities; count = length quantities } };

    ghost inverse_ok = { λ b h i. record { cells = h.zeros i; count = h.count_is i } };
}

impl Bundle {
    /// The bundle of these quantities, of which there are 1 to 6.
    pub fn read(quantities: &[u16]) -> Option<Bundle>
        ensures some { IfSome result (λ x. (x ≡ quantities.now) × (1 ≤ length quantities.now) × (length quantities.now ≤ 6)) }
        ensures none { IfNone result ((length quantities.now ≡ 0) ⊎ (6 < length quantities.now)) }
    {
        if quantities.is_empty() || quantities.len() > MOST_GOODS {
            return None;
        }
        Some(Bundle::of(quantities))
    }

    /// The bundle of these quantities.
    pub(crate) fn of(quantities: &[u16]) -> Bundle
        requires some { 1 ≤ length quantities.now }
        requires few { length quantities.now ≤ 6 }
        ensures { result ≡ quantities.now }
    {
        Bundle {
            cells: six_cells(quantities),
            count: quantities.len() as u8,
        }
    }

    /// The quantities, good 0 first.
    pub fn as_slice(&self) -> &[u16]
        ensures value { result.now ≡ self.now }
        ensures some { 1 ≤ length self.now }
        ensures few { length self.now ≤ 6 }
    {
        &self.cells[..self.count as usize]
    }

    /// The quantity of a good.
    pub fn quantity(&self, good: u8) -> u16
        requires { good < length self.now }
        ensures { result ≡ slice_index self.now good }
    {
        self.cells[good as usize]
    }

    /// How many goods the bundle is of.
    pub fn count(&self) -> u8
        ensures { result ≡ length self.now }
    {
        self.count
    }

    /// Whether each quantity is at most the supply, and there is one for each good.
    pub(crate) fn is_within(&self, supply: &[u16]) -> bool
        ensures { result ≡ is_within supply.now self.now }
    {
        within(supply, self.as_slice())
    }

    /// What the bundle costs at the prices.
    pub(crate) fn cost_at(&self, prices: &[u32]) -> u64
        requires { length prices.now ≤ 6 }
        ensures { result ≡ cost prices.now self.now }
    {
        cost_of(prices, self.as_slice())
    }

    /// The place among the bundles of the supply.
    pub(crate) fn index_within(&self, supply: &[u16]) -> u32
        requires within { AtMost self.now supply.now }
        requires small { box_size supply.now ≤ MOST_BUNDLES }
        ensures { result ≡ index_of supply.now self.now }
    {
        place_of(supply, self.as_slice())
    }

    /// The bundle at a place among the bundles of the supply.
    pub(crate) fn at_index(supply: &[u16], index: u32) -> Bundle
        requires supply { IsSupply supply.now }
        requires below { index < box_size supply.now }
        ensures { result ≡ bundle_at supply.now index }
    {
        Bundle {
            cells: six_digits(supply, index),
            count: supply.len() as u8,
        }
    }
}

/// The numbers, and zeros after them.
fn six_cells(numbers: &[u16]) -> [u16; 6]
    requires { length numbers.now ≤ 6 }
    ensures { result ≡ padded numbers.now }
{
    let mut cells = [0u16; 6];
    cells[..numbers.len()].copy_from_slice(numbers);
    cells
}

/// Whether there is a quantity for each good, and each is at most the supply.
fn within(supply: &[u16], quantities: &[u16]) -> bool
    ensures { result ≡ is_within supply.now quantities.now }
{
    supply.len() == quantities.len() && each_within(supply, quantities)
}

/// Whether each quantity is at most the supply beside it.
fn each_within(supply: &[u16], quantities: &[u16]) -> bool
    ensures { result ≡ list_all (λ p. nat_le p.1 p.0) (zip supply.now quantities.now) }
{
    supply
        .iter()
        .zip(quantities.iter())
        .all(|(units, quantity)| *quantity <= *units)
}

/// The sum of each price times its quantity.
fn cost_of(prices: &[u32], quantities: &[u16]) -> u64
    requires { length prices.now ≤ 6 }
    ensures { result ≡ cost prices.now quantities.now }
{
    let mut total = 0u64;
    for (price, quantity) in prices.iter().zip(quantities) {
        total += *price as u64 * *quantity as u64;
    }
    total
}

/// The place of the quantities among the bundles of the supply: a number with a digit per good, good 0 first.
fn place_of(supply: &[u16], quantities: &[u16]) -> u32
    requires within { AtMost quantities.now supply.now }
    requires small { box_size supply.now ≤ MOST_BUNDLES }
    ensures { result ≡ index_of supply.now quantities.now }
{
    let mut place = 0u32;
    for (units, quantity) in supply.iter().zip(quantities) {
        place = place * (*units as u32 + 1) + *quantity as u32;
    }
    place
}

/// The quantities of the bundle at a place, and zeros after them.
fn six_digits(supply: &[u16], place: u32) -> [u16; 6]
    requires supply { IsSupply supply.now }
    requires below { place < box_size supply.now }
    ensures { result ≡ padded (bundle_at supply.now place) }
{
    let mut cells = six_cells(supply);
    take_digits(&mut cells[..supply.len()], place);
    cells
}

/// Replaces the supply of each good by its quantity in the bundle at a place.
fn take_digits(units: &mut [u16], place: u32)
    requires few { length units.old ≤ 6 }
    requires small { box_size units.old ≤ MOST_BUNDLES }
    requires below { place < box_size units.old }
    ensures { units.new ≡ bundle_at units.old place }
{
    let mut bundles = box_product(units) as u32;
    let mut rest = place;
    for unit in units.iter_mut() {
        bundles /= *unit as u32 + 1;
        *unit = (rest / bundles) as u16;
        rest %= bundles;
    }
}

/// The units of the goods of a set.
pub fn quantity_in(x: &Bundle, set: GoodSet) -> u32
    ensures { result ≡ quantity_in x.now set.0 }
{
    sum_in(x.as_slice(), set.0)
}

/// The lexicographic order, good 0 first.
pub fn compare(x: &Bundle, y: &Bundle) -> Ordering
    ensures { result ≡ slice_cmp nat_cmp x.now y.now }
{
    x.as_slice().cmp(y.as_slice())
}
