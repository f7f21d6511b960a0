//! Prices.
ghost use Rattle.std.specs.Prelude.{◌≡◌, ◌⊎◌, ℕ, nat_le, position, ◌<◌, ◌≤◌, ◌^◌, ◌%◌, ◌/◌, ◌-◌, ◌+◌, ◌*◌, List, length, slice_index, IfSome, IfNone};
ghost use Rattle.lot_base.specs.Goods.{cost, raised, lowered, zeros, AllBelow, AllPriced};
ghost use Rattle.lot_base.specs.Padded.{padded};

use crate::bundles::Bundle;
use crate::limits::MOST_GOODS;
use crate::supply::{GoodSet, Goods};
use std::marker::Model;

/// A price of each of 1 to 6 goods, seen as the list of the prices.
#[derive(Clone, Copy, Debug)]
pub struct Prices {
    /// The price of each good, good 0 first, and zeros after them.
    cells: [u32; 6],
    /// How many goods there are, 1 to 6: so many cells are seen.
    count: u8,
}

impl Model for Prices {
    ghost use Rattle.std.specs.Prelude.{ℕ, List, length, take};
    ghost use Rattle.lot_base.specs.Padded.{padded, IsPadded};

    ghost Value = { List ℕ };

    ghost view = { λ p. take p.count p.cells };

    ghost invariant = { λ p. IsPadded p.cells p.count };

    ghost inverse = { λ prices. record { cells = padded prices; count = length prices } };

    ghost inverse_ok = { λ p h i. record { cells = h.zeros i; count = h.count_is i } };
}

impl Prices {
    /// A price of 0 for each good.
    pub fn zero(goods: &Goods) -> Prices
        ensures { result ≡ zeros goods.now }
    {
        Prices {
            cells: [0; 6],
            count: goods.count(),
        }
    }

    /// These prices, of which there are 1 to 6.
    pub fn read(prices: &[u32]) -> Option<Prices>
        ensures some { IfSome result (λ p. (p ≡ prices.now) × (1 ≤ length prices.now) × (length prices.now ≤ 6)) }
        ensures none { IfNone result ((length prices.now ≡ 0) ⊎ (6 < length prices.now)) }
    {
        if prices.is_empty() || prices.len() > MOST_GOODS {
            return None;
        }
        Some(Prices {
            cells: six_prices(prices),
            count: prices.len() as u8,
        })
    }

    /// The prices, good 0 first.
    pub fn as_slice(&self) -> &[u32]
        ensures value { result.now ≡ self.now }
        ensures some { 1 ≤ length self.now }
        ensures few { length self.now ≤ 6 }
    {
        &self.cells[..self.count as usize]
    }

    /// How many prices there are.
    pub fn count(&self) -> u8
        ensures { result ≡ length self.now }
    {
        self.count
    }

    /// The first good whose price is at least the limit.
    pub fn first_from(&self, limit: u32) -> Option<u8>
        ensures { result ≡ position (λ price. nat_le limit price) self.now }
    {
        match first_from(self.as_slice(), limit) {
            Some(good) => Some(good as u8),
            None => None,
        }
    }

    /// The price of a good.
    pub fn get(&self, good: u8) -> u32
        requires { good < length self.now }
        ensures { result ≡ slice_index self.now good }
    {
        self.cells[good as usize]
    }

    /// One more on each good of the set.
    pub fn raise(&self, set: GoodSet) -> Prices
        requires { AllBelow (2 ^ 32 - 1) self.now set.0 }
        ensures { result ≡ raised self.now set.0 }
    {
        Prices {
            cells: six_raised(self.as_slice(), set.0),
            count: self.count,
        }
    }

    /// One less on each good of the set.
    pub fn lower(&self, set: GoodSet) -> Prices
        requires { AllPriced self.now set.0 }
        ensures { result ≡ lowered self.now set.0 }
    {
        Prices {
            cells: six_lowered(self.as_slice(), set.0),
            count: self.count,
        }
    }
}

/// What a bundle costs at the prices.
pub fn cost(p: &Prices, x: &Bundle) -> u64
    ensures { result ≡ cost p.now x.now }
{
    x.cost_at(p.as_slice())
}

/// The first place of a price that is at least the limit.
fn first_from(prices: &[u32], limit: u32) -> Option<usize>
    ensures value { result ≡ position (λ price. nat_le limit price) prices.now }
    ensures within { IfSome result (λ place. place < length prices.now) }
{
    prices.iter().position(|price| *price >= limit)
}

/// The prices, and zeros after them.
fn six_prices(prices: &[u32]) -> [u32; 6]
    requires { length prices.now ≤ 6 }
    ensures { result ≡ padded prices.now }
{
    let mut cells = [0u32; 6];
    cells[..prices.len()].copy_from_slice(prices);
    cells
}

/// One more at each place of the set, and zeros after them.
fn six_raised(prices: &[u32], set: u8) -> [u32; 6]
    requires few { length prices.now ≤ 6 }
    requires below { AllBelow (2 ^ 32 - 1) prices.now set }
    ensures { result ≡ padded (raised prices.now set) }
{
    let mut cells = [0u32; 6];
    cells[..prices.len()].copy_from_slice(prices);
    raise_each(&mut cells[..prices.len()], set);
    cells
}

/// One more at each place of the set.
fn raise_each(prices: &mut [u32], set: u8)
    requires { AllBelow (2 ^ 32 - 1) prices.old set }
    ensures { prices.new ≡ raised prices.old set }
{
    let mut rest = set;
    for price in prices.iter_mut() {
        if rest % 2 == 1 {
            *price += 1;
        }
        rest /= 2;
    }
}

/// One less at each place of the set, and zeros after them.
fn six_lowered(prices: &[u32], set: u8) -> [u32; 6]
    requires few { length prices.now ≤ 6 }
    requires priced { AllPriced prices.now set }
    ensures { result ≡ padded (lowered prices.now set) }
{
    let mut cells = [0u32; 6];
    cells[..prices.len()].copy_from_slice(prices);
    lower_each(&mut cells[..prices.len()], set);
    cells
}

/// One less at each place of the set.
fn lower_each(prices: &mut [u32], set: u8)
    requires { AllPriced prices.old set }
    ensures { prices.new ≡ lowered prices.old set }
{
    let mut rest = set;
    for price in prices.iter_mut() {
        if rest % 2 == 1 {
            *price -= 1;
        }
        rest /= 2;
    }
}
