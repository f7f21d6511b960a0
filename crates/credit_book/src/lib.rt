//! What the bidders owe and have clinched: sums over the steps of a clock, and payments.
#![tactic(auto)]

ghost use Rattle.std.specs.Prelude.{◌≡◌, ℕ, ℤ, pos, ◌+ℤ◌, ◌-ℤ◌, FitsSigned};
ghost use Rattle.std.specs.Int.{w64};
ghost use Rattle.lot_base.specs.Goods.{cost};

pub mod account;

pub use account::Account;
use lot_base::{Bundle, Prices};

/// What a bidder pays: the price of its award, and its debit less its credit. It may be negative.
pub fn payment(prices: &Prices, award: &Bundle, debit: i64, credit: i64) -> i64
    requires { FitsSigned w64 ((pos (cost prices.now award.now) +ℤ debit) -ℤ credit) }
    ensures { result ≡ (pos (cost prices.now award.now) +ℤ debit) -ℤ credit }
{
    let price = lot_base::cost(prices, award);
    (price as i128 + debit as i128 - credit as i128) as i64
}

#[cfg(test)]
mod tests;
