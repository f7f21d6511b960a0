//! Prices from which two-way clocks may start.
ghost use Rattle.std.specs.Prelude.{◌≡◌, ◌<◌, length, MatchOption, IsTrue, ◌↔◌};
ghost use Rattle.two_way.specs.Histories.{IsStart, IsOutside, IsFirstOutside};

use lot_base::{Prices, Terms};

/// The first good whose price is below its opening, or not below the ceiling. Where there is none the clocks may start at these prices.
pub fn first_outside(terms: &Terms, start: &Prices) -> Option<u8>
    requires { length start.now ≡ length terms.now.goods }
    ensures { MatchOption result (IsStart terms.now start.now) (IsFirstOutside terms.now start.now) }
{
    for good in 0..start.count() {
        if is_outside(terms, start, good) {
            return Some(good);
        }
    }
    None
}

/// Whether the price of a good is below its opening, or not below the ceiling.
fn is_outside(terms: &Terms, start: &Prices, good: u8) -> bool
    requires count { length start.now ≡ length terms.now.goods }
    requires good { good < length start.now }
    ensures { IsTrue result ↔ IsOutside terms.now start.now good }
{
    let opening = terms.opening.get(good);
    let price = start.get(good);
    price < opening || price >= terms.ceiling
}
