//! Valuations.
ghost use Rattle.std.specs.Prelude.{◌≡◌, IfOk, slice_index};
ghost use Rattle.lot_base.specs.Goods.{AtMost};
ghost use Rattle.lot_base.specs.Economy.{demand};
ghost use Rattle.valuation.specs.Values.{valuation_of, AreValues};

use crate::surpluses::Surplus;
use demand_set::Demand;
use lot_base::{Bundle, Goods, NoMemory, Prices};
use std::alloc::Global;
use std::marker::Model;

/// What each bundle of a box is worth to a bidder, seen as the list of the values in order of index. The empty bundle is worth 0,
/// and each bundle is worth less than 10,000. What is after the last value is worth 0.
#[derive(Debug, Drop)]
pub struct Valuation {
    values: Vec<u16>,
}

impl Model for Valuation {
    ghost use Rattle.std.specs.Prelude.{ℕ, List};
    ghost use Rattle.valuation.specs.Values.{AreValues};

    ghost Value = { List ℕ };

    ghost view = { λ v. v.values.items };

    ghost invariant = { λ v. AreValues v.values.items };
}

impl Valuation {
    /// The valuation with these values, in order of index.
    pub fn from_values(values: Vec<u16>) -> Valuation
        requires { AreValues values.items }
        ensures { result ≡ values.items }
    {
        Valuation { values }
    }

    /// The values, in order of index.
    pub fn as_slice(&self) -> &[u16]
        ensures value { result.now ≡ self.now }
        ensures held { AreValues self.now }
    {
        &self.values
    }

    /// What a bundle of the goods is worth.
    pub fn value(&self, goods: &Goods, x: &Bundle) -> i64
        requires { AtMost x.now goods.now }
        ensures { result ≡ valuation_of goods.now self.now x.now }
    {
        value_at(&self.values, goods.index(x) as usize) as i64
    }

    /// All bundles of the goods that the bidder would like best at the prices.
    pub fn demand(&self, alloc: Global, goods: &Goods, prices: &Prices) -> Result<Demand, NoMemory>
        ensures { IfOk result (λ d. d ≡ demand goods.now (valuation_of goods.now self.now) prices.now) }
    {
        Surplus::new(alloc, goods, self, prices)?.demand(alloc)
    }
}

/// The value at a place, 0 after the last one.
pub fn value_at(values: &[u16], place: usize) -> u16
    ensures { result ≡ slice_index values.now place }
{
    if place < values.len() {
        values[place]
    } else {
        0
    }
}
