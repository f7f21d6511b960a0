//! Sets of goods whose prices rose too far: the members of a clock demand less of them than there is.
ghost use Rattle.std.specs.Prelude.{◌≡◌, ◌↔◌, ◌<◌, ◌≤ℤ◌, ℕ, List, pos, negsuc, IsTrue, length};
ghost use Rattle.lot_base.specs.Demands.{IsDemand, IsTable, greatest};
ghost use Rattle.lyapunov.specs.Excesses.{HasRoom, entry};
ghost use Rattle.clock.specs.Reports.{members_of};
ghost use Rattle.clock.specs.Standing.{last_demands};
ghost use Rattle.overshoot.specs.Shortfall.{AllRisen, AddsMost, AreMost, AreShort, IsMost, IsGreatestShortfall};
ghost use Rattle.overshoot.specs.Explained.{IsGreatest};

use clock::Clock;
use demand_set::Demand;
use lot_base::{Excess, GoodSet, Goods, LeastTable, Prices, Terms};
use lyapunov::{add_table, opening};
use step_choice::choose;

/// Among the sets of goods with prices above their opening the one that is most short of demand in the last round; among several
/// the one with fewest goods, and among these the smallest as a number; and how many units it is short. It is the empty set,
/// which is short of none, exactly where no set overshoots. Takes no memory.
pub fn greatest(terms: &Terms, clock: &Clock) -> (GoodSet, u32)
    requires { clock.now.history.terms ≡ terms.now }
    ensures { IsGreatest clock.now.history result.0.0 result.1 }
{
    let most = most_demanded(terms, clock);
    let look = clock.look();
    most_short(&terms.goods, &terms.opening, &look.prices, &most)
}

/// The same for any members, by how far the most that they demand of each set is above the supply of it.
pub fn most_short(goods: &Goods, opening: &Prices, prices: &Prices, most: &Excess) -> (GoodSet, u32)
    requires opening { length opening.now ≡ length goods.now }
    requires prices { length prices.now ≡ length goods.now }
    requires most { IsMost goods.now most.now.0 }
    ensures { (demands : ℕ → List (List ℕ)) (members : List ℕ) → AreMost goods.now demands members most.now.0 →
        IsGreatestShortfall goods.now opening.now prices.now demands members result.0.0 result.1 }
{
    let _goods = goods.count();
    let table = shortfalls(goods, opening, prices, most);
    let set = choose(goods, &table);
    (set, short_of(&table, set))
}

/// How many units a set is short of demand, by the table.
fn short_of(table: &Excess, set: GoodSet) -> u32
    requires set { set.0 < 64 }
    requires some { pos 0 ≤ℤ entry table.now.0 set.0 }
    requires few { entry table.now.0 set.0 ≤ℤ pos 2047 }
    ensures { pos result ≡ entry table.now.0 set.0 }
{
    table.0[set.0 as usize] as u32
}

/// How far the most that the members of a clock demand of each set in its last round is above the supply of it.
fn most_demanded(terms: &Terms, clock: &Clock) -> Excess
    requires { clock.now.history.terms ≡ terms.now }
    ensures { AreMost terms.now.goods (last_demands clock.now.history) (members_of clock.now.history) result.0 }
{
    let number = clock.number();
    let mut most = opening(&terms.goods);
    for step in 0..terms.bidders {
        let bidder = step + 1;
        if bidder != number {
            add_most(&terms.goods, clock, bidder, &mut most);
        }
    }
    most
}

/// Adds what a bidder demands at most.
fn add_most(goods: &Goods, clock: &Clock, bidder: u8, most: &mut Excess)
    requires goods { clock.now.history.terms.goods ≡ goods.now }
    requires room { HasRoom most.old.0 }
    ensures { AddsMost goods.now (last_demands clock.now.history bidder) most.old.0 most.new.0 }
{
    let _goods = goods.count();
    if let Some(demand) = clock.last_demand(bidder) {
        add_table(goods, most, &most_of(goods, demand));
    }
}

/// The most that a demand has of each set.
fn most_of(goods: &Goods, demand: &Demand) -> LeastTable
    requires { IsDemand goods.now demand.now }
    ensures { IsTable (length goods.now) (greatest demand.now) result.0 }
{
    demand.greatest_table(goods)
}

/// How far each set of risen goods is short of demand; less than 0 for the other sets.
fn shortfalls(goods: &Goods, opening: &Prices, prices: &Prices, most: &Excess) -> Excess
    requires opening { length opening.now ≡ length goods.now }
    requires prices { length prices.now ≡ length goods.now }
    requires low { (set : ℕ) → negsuc 2046 ≤ℤ entry most.now.0 set }
    ensures { AreShort goods.now opening.now prices.now most.now.0 result.0 }
{
    let mut table = Excess([0; 64]);
    for set in 0..goods.set_count() {
        if are_risen(opening.as_slice(), prices.as_slice(), set) {
            table.0[set as usize] = -most.0[set as usize];
        } else {
            table.0[set as usize] = -1;
        }
    }
    table
}

/// Whether the prices of a set are all above their opening.
fn are_risen(opening: &[u32], prices: &[u32], set: u8) -> bool
    requires { length prices.now ≡ length opening.now }
    ensures { IsTrue result ↔ AllRisen opening.now prices.now set }
{
    let mut rest = set;
    for good in 0..opening.len() {
        if rest % 2 == 1 && prices[good] <= opening[good] {
            return false;
        }
        rest /= 2;
    }
    true
}
