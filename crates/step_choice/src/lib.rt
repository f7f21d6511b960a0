//! The set of goods on which a round of demands raises the prices.
#![tactic(auto)]

ghost use Rattle.std.specs.Prelude.{◌≡◌, ◌<◌, ◌^◌, ℕ, length};
ghost use Rattle.std.specs.Ordering.{is_lt, nat_cmp, ordering_then};
ghost use Rattle.lot_base.specs.Goods.{size_of};
ghost use Rattle.lot_base.specs.Steps.{IsStepSet, first_set, set_cmp};
ghost use Rattle.step_choice.specs.Table.{excess_in};

pub mod laws;

use lot_base::{Excess, GoodSet, Goods};

/// The set of greatest excess; among several the one with fewest goods; among these the smallest as a number. It is the
/// least set of goods in excess demand of Gul and Stacchetti and of Ausubel, and empty where nothing is in excess demand.
pub fn choose(goods: &Goods, excess: &Excess) -> GoodSet
    ensures step_set { IsStepSet (length goods.now) (excess_in excess.now.0) result.0 }
    ensures first { result.0 ≡ first_set (excess_in excess.now.0) (length goods.now) }
{
    let mut best = 0;
    for set in 1..goods.set_count() {
        if comes_before(goods, excess, set, best) {
            best = set;
        }
    }
    GoodSet(best)
}

/// Whether a set comes before another one as a step. Their sizes are counted only where the excess is the same.
fn comes_before(goods: &Goods, excess: &Excess, set: u8, other: u8) -> bool
    requires set { set < 2 ^ length goods.now }
    requires other { other < 2 ^ length goods.now }
    ensures { result ≡ is_lt (set_cmp (excess_in excess.now.0) (length goods.now) set other) }
{
    let _sets = goods.set_count();
    if excess.0[set as usize] < excess.0[other as usize] {
        return false;
    }
    excess.0[set as usize] > excess.0[other as usize] || is_less(set, other)
}

/// Whether a set has fewer goods than another one, or as many and is smaller as a number.
fn is_less(set: u8, other: u8) -> bool
    ensures { (goods : ℕ) → set < 2 ^ goods → other < 2 ^ goods →
        result ≡ is_lt (ordering_then (nat_cmp (size_of goods set) (size_of goods other)) (nat_cmp set other)) }
{
    size(set).cmp(&size(other)).then(set.cmp(&other)).is_lt()
}

/// How many goods the set has.
fn size(set: u8) -> u8
    ensures { (goods : ℕ) → set < 2 ^ goods → result ≡ size_of goods set }
{
    set.count_ones() as u8
}

#[cfg(test)]
mod tests;
