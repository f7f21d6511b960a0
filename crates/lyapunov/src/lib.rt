//! Excess demand of each set of goods, from the least quantities that the bidders demand.
//!
//! The step set of a round is a set of greatest excess; raising the prices on it lowers the Lyapunov function of the economy
//! by just this excess.
#![tactic(auto)]

ghost use Rattle.std.specs.Prelude.{◌≡◌, ◌≤◌, ◌<◌, ◌+◌, ◌^◌, ℕ, [], List, length, slice_index, pos, negsuc, ◌+ℤ◌, ◌-ℤ◌, ◌≤ℤ◌};
ghost use Rattle.std.specs.List.{AllByRecursion};
ghost use Rattle.lot_base.specs.declared.limits.TheConstants.{MOST_UNITS};
ghost use Rattle.lot_base.specs.Goods.{quantity_in};
ghost use Rattle.lyapunov.specs.Excesses.{IsExcessOf, IsAdded, IsReplaced, IsSmall, HasRoom, HasRoomWithout};

pub mod laws;

use lot_base::{Excess, Goods, LeastTable};

/// The excess where nobody demands anything: each set lacks its whole supply.
pub fn opening(goods: &Goods) -> Excess
    ensures excess { IsExcessOf goods.now [] result.0 }
    ensures room { HasRoom result.0 }
{
    let mut excess = Excess([0; 64]);
    let units = units_of(goods);
    for set in 0..goods.set_count() {
        excess.0[set as usize] = lack_of(units[set as usize]);
    }
    excess
}

/// The units of each set of goods. The sets with a good are those of the goods before it, with its supply more.
fn units_of(goods: &Goods) -> [u16; 64]
    ensures { (set : ℕ) → set < 2 ^ length goods.now → slice_index result set ≡ quantity_in goods.now set }
{
    let mut units = [0u16; 64];
    let mut sets = 1;
    for good in 0..goods.count() {
        add_good(&mut units, sets, goods.supply(good));
        sets *= 2;
    }
    units
}

/// Fills in as many sets again as there are, each with so many units more.
fn add_good(units: &mut [u16; 64], sets: usize, more: u16)
    requires few { sets ≤ 32 }
    requires small { (set : ℕ) → set < sets → slice_index units.old set + more < 2 ^ 16 }
    ensures before { (set : ℕ) → set < sets → slice_index units.new set ≡ slice_index units.old set }
    ensures more { (set : ℕ) → set < sets → slice_index units.new (sets + set) ≡ slice_index units.old set + more }
{
    for set in 0..sets {
        units[sets + set] = units[set] + more;
    }
}

/// The excess of a set of which nobody demands anything.
fn lack_of(units: u16) -> i16
    requires { units ≤ MOST_UNITS }
    ensures { result ≡ pos 0 -ℤ pos units }
{
    -(units as i16)
}

/// Adds the least quantities of a further bidder.
pub fn add_table(goods: &Goods, excess: &mut Excess, table: &LeastTable)
    requires small { IsSmall table.now.0 }
    requires room { HasRoom excess.old.0 }
    ensures { IsAdded goods.now table.now.0 excess.old.0 excess.new.0 }
{
    for set in 0..goods.set_count() as usize {
        excess.0[set] += table.0[set] as i16;
    }
}

/// Puts the least quantities of a bidder in the place of those that it had.
pub fn replace_table(goods: &Goods, excess: &mut Excess, old: &LeastTable, new: &LeastTable)
    requires small_old { IsSmall old.now.0 }
    requires small_new { IsSmall new.now.0 }
    requires room { HasRoomWithout old.now.0 excess.old.0 }
    ensures { IsReplaced goods.now old.now.0 new.now.0 excess.old.0 excess.new.0 }
{
    for number in 0..goods.set_count() as usize {
        excess.0[number] = replaced(excess.0[number], old.0[number], new.0[number]);
    }
}

/// An entry with so many units in the place of others.
fn replaced(entry: i16, old: u16, new: u16) -> i16
    requires old { old ≤ MOST_UNITS }
    requires new { new ≤ MOST_UNITS }
    requires at_least { negsuc 2046 ≤ℤ entry }
    requires at_most { entry ≤ℤ pos (22517 + old) }
    ensures { result ≡ (entry -ℤ pos old) +ℤ pos new }
{
    entry - old as i16 + new as i16
}

/// The excess where the bidders have these tables.
pub fn excess(goods: &Goods, tables: &[LeastTable]) -> Excess
    requires few { length tables.now ≤ 12 }
    requires small { AllByRecursion (λ table. IsSmall table.0) tables.now }
    ensures { IsExcessOf goods.now tables.now result.0 }
{
    let mut excess = opening(goods);
    for table in tables {
        add_table(goods, &mut excess, table);
    }
    excess
}
