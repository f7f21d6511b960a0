//! The local exchange test: one pass over the box.
ghost use Rattle.std.specs.Prelude.{◌↔◌, ◌≡◌, ◌≢◌, ◌<◌, ◌≤◌, ◌+◌, ◌⊎◌, List, ℕ, IsTrue, length, slice_index};
ghost use Rattle.lot_base.specs.declared.limits.TheConstants.{MOST_BUNDLES};
ghost use Rattle.lot_base.specs.Goods.{at, one_more, AtMost, box_size, IsSupply};
ghost use Rattle.lot_base.specs.Box.{bundle_at};
ghost use Rattle.lot_base.specs.Economy.{IsStrongSubstitutes};
ghost use Rattle.valuation.specs.Values.{valuation_of};
ghost use Rattle.lot_base.specs.Strides.{AreStrides};
ghost use Rattle.exchange_check.specs.Local.{IsLocalThird, IsLocalPair, IsLocalAt, AreFree};
ghost use Rattle.exchange_check.specs.Tables.{IsTableOf};

use crate::tables::Table;
use valuation::value_at;

/// How many units of each good the bundle at a place leaves.
pub(crate) fn free_units(supply: &[u16], strides: &[usize; 6], index: usize) -> [u16; 6]
    requires goods { length supply.now ≤ 6 }
    requires within { index < box_size supply.now }
    requires strides { AreStrides supply.now strides.now }
    ensures { AreFree supply.now index result }
{
    let mut free = [0; 6];
    let mut rest = index;
    for good in 0..supply.len() {
        free[good] = supply[good] - (rest / strides[good]) as u16;
        rest %= strides[good];
    }
    free
}

/// Whether the values at two places are together at most those at two others.
pub(crate) fn is_no_worse(values: &[u16], x: usize, y: usize, less: usize, more: usize) -> bool
    ensures { IsTrue result ↔ (slice_index values.now x + slice_index values.now y ≤ slice_index values.now less + slice_index values.now
        more) }
{
    u32::from(value_at(values, x)) + u32::from(value_at(values, y))
        <= u32::from(value_at(values, less)) + u32::from(value_at(values, more))
}

/// Whether of units at the distances a and b one changes place with a unit at c at no loss.
fn third_holds(values: &[u16], index: usize, a: usize, b: usize, c: usize) -> bool
    requires ab { index + a + b < MOST_BUNDLES }
    requires ac { index + a + c < MOST_BUNDLES }
    requires bc { index + b + c < MOST_BUNDLES }
    ensures { IsTrue result ↔
        ((slice_index values.now (index + a + b) + slice_index values.now (index + c)
        ≤ slice_index values.now (index + a + c) + slice_index values.now (index + b))
        ⊎ (slice_index values.now (index + a + b) + slice_index values.now (index + c)
        ≤ slice_index values.now (index + b + c) + slice_index values.now (index + a))) }
{
    is_no_worse(values, index + a + b, index + c, index + a + c, index + b)
        || is_no_worse(values, index + a + b, index + c, index + b + c, index + a)
}

/// Whether a unit at the distance a is worth no more beside one at b.
fn falls(values: &[u16], index: usize, a: usize, b: usize) -> bool
    requires { index + a + b < MOST_BUNDLES }
    ensures { IsTrue result ↔ (slice_index values.now (index + a + b) + slice_index values.now index ≤ slice_index values.now
        (index + a) + slice_index values.now (index + b)) }
{
    is_no_worse(values, index + a + b, index, index + a, index + b)
}

/// Whether the bundle of a place leaves a unit of i and one of j.
fn has_room(supply: &[u16], free: &[u16; 6], index: usize, i: usize, j: usize) -> bool
    requires goods { length supply.now ≤ 6 }
    requires within { index < box_size supply.now }
    requires free { AreFree supply.now index free.now }
    requires i { i < length supply.now }
    requires j { j < length supply.now }
    ensures { IsTrue result ↔ AtMost (one_more (one_more (bundle_at supply.now index) i) j) supply.now }
{
    if i == j {
        return free[i] >= 2;
    }
    free[i] >= 1 && free[j] >= 1
}

/// Whether the condition on a third good k holds.
fn third_at(table: &Table, free: &[u16; 6], index: usize, i: usize, j: usize, k: usize) -> bool
    requires table { IsTableOf table.now.supply.now table.now.strides.now }
    requires within { index < box_size table.now.supply.now }
    requires free { AreFree table.now.supply.now index free.now }
    requires i { i < length table.now.supply.now }
    requires j { j < length table.now.supply.now }
    requires k { k < length table.now.supply.now }
    requires pair { AtMost (one_more (one_more (bundle_at table.now.supply.now index) i) j) table.now.supply.now }
    ensures { IsTrue result ↔ IsLocalThird table.now.supply.now (valuation_of table.now.supply.now table.now.values.now)
        (bundle_at table.now.supply.now index) i j k }
{
    if k == i {
        return true;
    }
    if k == j {
        return true;
    }
    if free[k] == 0 {
        return true;
    }
    third_holds(
        table.values,
        index,
        table.strides[i],
        table.strides[j],
        table.strides[k],
    )
}

/// Whether the conditions on the pair i and j hold.
fn pair_at(table: &Table, free: &[u16; 6], index: usize, i: usize, j: usize) -> bool
    requires table { IsTableOf table.now.supply.now table.now.strides.now }
    requires within { index < box_size table.now.supply.now }
    requires free { AreFree table.now.supply.now index free.now }
    requires i { i < length table.now.supply.now }
    requires j { j < length table.now.supply.now }
    ensures { IsTrue result ↔ IsLocalPair table.now.supply.now (valuation_of table.now.supply.now table.now.values.now)
        (bundle_at table.now.supply.now index) i j }
{
    if !has_room(table.supply, free, index, i, j) {
        return true;
    }
    if !falls(table.values, index, table.strides[i], table.strides[j]) {
        return false;
    }
    for k in 0..table.supply.len() {
        if !third_at(table, free, index, i, j, k) {
            return false;
        }
    }
    true
}

/// Whether the conditions hold at the bundle of a place.
fn holds_at(table: &Table, index: usize) -> bool
    requires table { IsTableOf table.now.supply.now table.now.strides.now }
    requires within { index < box_size table.now.supply.now }
    ensures { IsTrue result ↔ IsLocalAt table.now.supply.now (valuation_of table.now.supply.now table.now.values.now)
        (bundle_at table.now.supply.now index) }
{
    let free = free_units(table.supply, table.strides, index);
    for i in 0..table.supply.len() {
        for j in i..table.supply.len() {
            if !pair_at(table, &free, index, i, j) {
                return false;
            }
        }
    }
    true
}

/// Whether the goods are strong substitutes at the values of a table.
pub(crate) fn is_strong(table: &Table, size: usize) -> bool
    requires table { IsTableOf table.now.supply.now table.now.strides.now }
    requires size { box_size table.now.supply.now ≡ size }
    ensures { IsTrue result ↔ IsStrongSubstitutes table.now.supply.now (valuation_of table.now.supply.now table.now.values.now) }
{
    for index in 0..size {
        if !holds_at(table, index) {
            return false;
        }
    }
    true
}
