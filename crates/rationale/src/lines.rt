//! Lines: observations of one demand, at prices that rise by the same step from one to the next.
ghost use Rattle.std.specs.Prelude.{◌≡◌, ◌<◌, ℕ, List, [], ◌∷◌, ◌++◌, length, IfSome, IsTrue, false};
ghost use Rattle.lot_base.specs.Goods.{plus};
ghost use Rattle.rationale.specs.declared.limits.TheConstants.{MOST_OBSERVATIONS};
ghost use Rattle.rationale.specs.Lines.{along};
ghost use Rattle.rationale.specs.Kept.{seen_at, AreLow, IsLine};
ghost use Rattle.rationale.specs.Grown.{IsExtended};

use lot_base::{Goods, Prices};

/// Observations at prices that rise by the same step.
#[derive(Clone, Copy, Debug)]
pub struct Line {
    /// The prices of the first one.
    pub(crate) first: Prices,
    /// How far each price rises from one to the next; of one observation it says nothing.
    pub(crate) step: Prices,
    /// The prices of the last one.
    pub(crate) last: Prices,
    /// How many there are.
    pub(crate) count: u32,
}

impl Line {
    /// The line of one observation.
    pub(crate) fn new(goods: &Goods, prices: &Prices) -> Line
        requires goods { length prices.now ≡ length goods.now }
        requires low { AreLow prices.now }
        ensures line { IsLine goods.now result }
        ensures seen { (bundles : List (List ℕ)) →
            along (seen_at bundles result) result.count ≡ record { prices = prices.now; bundles = bundles } ∷ [] }
    {
        Line {
            first: *prices,
            step: Prices::zero(goods),
            last: *prices,
            count: 1,
        }
    }

    /// Takes the prices of one observation more if they are the next of the line, and tells whether they are.
    pub(crate) fn extend(&mut self, prices: &Prices) -> bool
        requires goods { length self.old.last ≡ length prices.now }
        requires few { self.old.count < MOST_OBSERVATIONS }
        ensures taken { IsTrue result → (supply : List ℕ) → IsLine supply self.old → AreLow prices.now →
            IsExtended supply self.old self.new prices.now }
        ensures left { result ≡ false → self.new ≡ self.old }
    {
        let Some(step) = rise(&self.last, prices) else {
            return false;
        };
        if self.count > 1 && step.as_slice() != self.step.as_slice() {
            return false;
        }
        self.step = step;
        self.last = *prices;
        self.count += 1;
        true
    }
}

/// How far prices are above others of the same goods, where none is below.
fn rise(from: &Prices, to: &Prices) -> Option<Prices>
    requires { length from.now ≡ length to.now }
    ensures goods { IfSome result (λ step. length step ≡ length from.now) }
    ensures sum { IfSome result (λ step. plus from.now step ≡ to.now) }
{
    let mut cells = [0u32; 6];
    let count = from.as_slice().len();
    for good in 0..count {
        let (low, high) = (from.as_slice()[good], to.as_slice()[good]);
        if high < low {
            return None;
        }
        cells[good] = high - low;
    }
    Prices::read(&cells[..count])
}
