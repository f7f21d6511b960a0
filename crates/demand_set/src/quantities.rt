//! The least and the greatest quantities of a demand on each set of goods.
//! The sums of the goods 0 to 2 and those of the goods 3 to 5, eight each, give the sum of each set by one addition.
ghost use Rattle.std.specs.Prelude.{◌≡◌, ◌^◌, ◌<◌, ◌≤◌, ◌+◌, ◌*◌, ◌%◌, ℕ, length, slice_index, min, max};
ghost use Rattle.std.specs.List.{AllByRecursion};
ghost use Rattle.lot_base.specs.Demands.{IsDemand, IsTable, least, greatest};
ghost use Rattle.demand_set.specs.Reading.{bundles_of};
ghost use Rattle.demand_set.specs.Slopes.{AreFalls, AreRises};
ghost use Rattle.demand_set.specs.Sums.{IsShort, AreSumsOf, AreHalves, KeepsRow, KeepsRows, CopiesSets};

use crate::reading::Demand;
use lot_base::{Goods, LeastTable};

impl Demand {
    /// The least quantity on each set of the goods, in one pass over the bundles.
    pub fn least_table(&self, goods: &Goods) -> LeastTable
        requires { IsDemand goods.now self.now }
        ensures table { IsTable (length goods.now) (least self.now) result.0 }
        ensures falls { AreFalls goods.now self.now result.0 }
    {
        let _count = goods.count();
        let mut table = LeastTable([0; 64]);
        least_of(&self.quantities, self.goods, &mut table.0);
        table
    }

    /// The greatest quantity on each set of the goods, in one pass over the bundles.
    pub fn greatest_table(&self, goods: &Goods) -> LeastTable
        requires { IsDemand goods.now self.now }
        ensures table { IsTable (length goods.now) (greatest self.now) result.0 }
        ensures rises { AreRises goods.now self.now result.0 }
    {
        let _count = goods.count();
        let mut table = LeastTable([0; 64]);
        greatest_of(&self.quantities, self.goods, &mut table.0);
        table
    }
}

/// Writes the least quantity on each set of so many goods where zeros stand.
fn least_of(quantities: &[u16], goods: u8, into: &mut [u16; 64])
    requires some_good { 1 ≤ goods }
    requires few_goods { goods ≤ 6 }
    requires some { 1 ≤ length (bundles_of goods quantities.now) }
    requires whole { length quantities.now % goods ≡ 0 }
    requires short { AllByRecursion IsShort (bundles_of goods quantities.now) }
    requires blank { (set : ℕ) → slice_index into.old set ≡ 0 }
    ensures { IsTable goods (least (bundles_of goods quantities.now)) into.new }
{
    let size = goods as usize;
    let rows = rows_of(goods);
    let mut table = [u16::MAX; 64];
    let mut rest = quantities;
    for _place in 0..quantities.len() / size {
        let (first, others) = rest.split_at(size);
        let halves = halves_of(first);
        keep_least(&mut table, rows, &halves);
        rest = others;
    }
    copy_sets(&table, goods, into);
}

/// Writes the greatest quantity on each set of so many goods where zeros stand.
fn greatest_of(quantities: &[u16], goods: u8, into: &mut [u16; 64])
    requires some_good { 1 ≤ goods }
    requires few_goods { goods ≤ 6 }
    requires some { 1 ≤ length (bundles_of goods quantities.now) }
    requires whole { length quantities.now % goods ≡ 0 }
    requires short { AllByRecursion IsShort (bundles_of goods quantities.now) }
    requires blank { (set : ℕ) → slice_index into.old set ≡ 0 }
    ensures { IsTable goods (greatest (bundles_of goods quantities.now)) into.new }
{
    let size = goods as usize;
    let rows = rows_of(goods);
    let mut table = [0u16; 64];
    let mut rest = quantities;
    for _place in 0..quantities.len() / size {
        let (first, others) = rest.split_at(size);
        let halves = halves_of(first);
        keep_greatest(&mut table, rows, &halves);
        rest = others;
    }
    copy_sets(&table, goods, into);
}

/// How many rows of eight sets so many goods have: one for each set of the goods from 3 on.
fn rows_of(goods: u8) -> usize
    requires { goods ≤ 6 }
    ensures few { result ≤ 8 }
    ensures all { 2 ^ goods ≤ 8 * result }
{
    match goods {
        0..=3 => 1,
        4 => 2,
        5 => 4,
        _ => 8,
    }
}

/// The quantities of a bundle on the sets of the goods 0 to 2, and on those of the goods 3 to 5.
#[derive(Clone, Copy)]
struct Halves {
    /// At s, the units of those of the goods 0 to 2 whose bits s has: bit 0 for good 0. A good that is not there has no units.
    low: [u16; 8],
    /// The same of the goods 3 to 5: bit 0 for good 3.
    high: [u16; 8],
}

/// The quantities of a bundle on the sets of each half of the goods.
fn halves_of(x: &[u16]) -> Halves
    requires few { length x.now ≤ 6 }
    requires short { IsShort x.now }
    ensures { AreHalves x.now result.low result.high }
{
    Halves {
        low: sums_of(quantity_at(x, 0), quantity_at(x, 1), quantity_at(x, 2)),
        high: sums_of(quantity_at(x, 3), quantity_at(x, 4), quantity_at(x, 5)),
    }
}

/// The quantity of a good, 0 where there is no such good.
fn quantity_at(x: &[u16], good: usize) -> u16
    ensures { result ≡ slice_index x.now good }
{
    if good < x.len() { x[good] } else { 0 }
}

/// The sums of the sets of three numbers.
fn sums_of(a: u16, b: u16, c: u16) -> [u16; 8]
    requires { a + b + c < 2 ^ 16 }
    ensures { AreSumsOf a b c result }
{
    [0, a, b, a + b, c, a + c, b + c, a + b + c]
}

/// The lesser number at each place of the first so many rows.
fn keep_least(table: &mut [u16; 64], rows: usize, halves: &Halves)
    requires few { rows ≤ 8 }
    requires fits { (row set : ℕ) → row < 8 → set < 8 → slice_index halves.now.low set + slice_index halves.now.high row < 2 ^ 16 }
    ensures { KeepsRows min rows halves.now.low halves.now.high table.old table.new }
{
    if rows == 1 {
        keep_least_row(table, 0, &halves.low, halves.high[0]);
        return;
    }
    for row in 0..rows {
        keep_least_row(table, row, &halves.low, halves.high[row]);
    }
}

/// The greater number at each place of the first so many rows.
fn keep_greatest(table: &mut [u16; 64], rows: usize, halves: &Halves)
    requires few { rows ≤ 8 }
    requires fits { (row set : ℕ) → row < 8 → set < 8 → slice_index halves.now.low set + slice_index halves.now.high row < 2 ^ 16 }
    ensures { KeepsRows max rows halves.now.low halves.now.high table.old table.new }
{
    if rows == 1 {
        keep_greatest_row(table, 0, &halves.low, halves.high[0]);
        return;
    }
    for row in 0..rows {
        keep_greatest_row(table, row, &halves.low, halves.high[row]);
    }
}

/// The lesser number at each place of a row, where each sum is so much more.
fn keep_least_row(table: &mut [u16; 64], row: usize, sums: &[u16; 8], more: u16)
    requires inside { row < 8 }
    requires fits { (set : ℕ) → set < 8 → slice_index sums.now set + more < 2 ^ 16 }
    ensures { KeepsRow min row sums.now more table.old table.new }
{
    let start = 8 * row;
    for set in 0..8 {
        table[start + set] = table[start + set].min(sums[set] + more);
    }
}

/// The greater number at each place of a row, where each sum is so much more.
fn keep_greatest_row(table: &mut [u16; 64], row: usize, sums: &[u16; 8], more: u16)
    requires inside { row < 8 }
    requires fits { (set : ℕ) → set < 8 → slice_index sums.now set + more < 2 ^ 16 }
    ensures { KeepsRow max row sums.now more table.old table.new }
{
    let start = 8 * row;
    for set in 0..8 {
        table[start + set] = table[start + set].max(sums[set] + more);
    }
}

/// Writes the numbers of the sets of so many goods where zeros stand.
fn copy_sets(table: &[u16; 64], goods: u8, into: &mut [u16; 64])
    requires few { goods ≤ 6 }
    requires blank { (set : ℕ) → slice_index into.old set ≡ 0 }
    ensures { CopiesSets goods table.now into.new }
{
    for set in 0..sets_of(goods) {
        into[set] = table[set];
    }
}

/// How many sets so many goods have.
fn sets_of(goods: u8) -> usize
    requires { goods ≤ 6 }
    ensures sets { result ≡ 2 ^ goods }
    ensures few { result ≤ 64 }
{
    match goods {
        0 => 1,
        1 => 2,
        2 => 4,
        3 => 8,
        4 => 16,
        5 => 32,
        _ => 64,
    }
}
