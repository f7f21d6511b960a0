//! The first triple that breaks the exchange property, by its definition.
ghost use Rattle.std.specs.Prelude.{◌↔◌, ◌≡◌, ◌<◌, ℕ, IsTrue, length, IfSome, IfNone};
ghost use Rattle.lot_base.specs.Goods.{at, box_size};
ghost use Rattle.lot_base.specs.Box.{bundle_at};
ghost use Rattle.lot_base.specs.Economy.{IsStrongSubstitutes};
ghost use Rattle.valuation.specs.Values.{valuation_of};
ghost use Rattle.exchange_check.specs.Exchange.{IsExchangedFor, IsExchanged};
ghost use Rattle.exchange_check.specs.Local.{AreFree, IsFirstPlace};
ghost use Rattle.exchange_check.specs.Tables.{IsTableOf};

use crate::local_test::{free_units, is_no_worse};
use crate::tables::Table;

/// The places of two bundles, and a good of which no unit goes from the first to the second.
#[derive(Clone, Copy, Debug)]
pub(crate) struct Triple {
    /// The index of the first bundle among those within the supply, from 0. It has more of the good than the second.
    pub(crate) x: u32,
    /// The index of the second bundle, counted in the same way.
    pub(crate) y: u32,
    /// From 0.
    pub(crate) good: u8,
}

/// Whether a unit of a good goes from the bundle at x to the one at y against one of another at no loss.
fn goes_for(
    table: &Table,
    x: usize,
    y: usize,
    free_x: &[u16; 6],
    free_y: &[u16; 6],
    good: usize,
    other: usize,
) -> bool
    requires table { IsTableOf table.now.supply.now table.now.strides.now }
    requires x { x < box_size table.now.supply.now }
    requires y { y < box_size table.now.supply.now }
    requires free_x { AreFree table.now.supply.now x free_x.now }
    requires free_y { AreFree table.now.supply.now y free_y.now }
    requires good { good < length table.now.supply.now }
    requires more { at (bundle_at table.now.supply.now y) good < at (bundle_at table.now.supply.now x) good }
    requires other { other < length table.now.supply.now }
    ensures { IsTrue result ↔ IsExchangedFor (valuation_of table.now.supply.now table.now.values.now) (bundle_at table.now.supply.now x)
        (bundle_at table.now.supply.now y) good other }
{
    if free_x[other] <= free_y[other] {
        return false;
    }
    let less = x - table.strides[good] + table.strides[other];
    let more = y + table.strides[good] - table.strides[other];
    is_no_worse(table.values, x, y, less, more)
}

/// Whether a unit of a good goes from the bundle at x to the one at y at no loss.
fn is_exchanged(
    table: &Table,
    x: usize,
    y: usize,
    free_x: &[u16; 6],
    free_y: &[u16; 6],
    good: usize,
) -> bool
    requires table { IsTableOf table.now.supply.now table.now.strides.now }
    requires x { x < box_size table.now.supply.now }
    requires y { y < box_size table.now.supply.now }
    requires free_x { AreFree table.now.supply.now x free_x.now }
    requires free_y { AreFree table.now.supply.now y free_y.now }
    requires good { good < length table.now.supply.now }
    ensures { IsTrue result ↔ IsExchanged (valuation_of table.now.supply.now table.now.values.now) (bundle_at table.now.supply.now x)
        (bundle_at table.now.supply.now y) good }
{
    if free_y[good] <= free_x[good] {
        return true;
    }
    let less = x - table.strides[good];
    let more = y + table.strides[good];
    if is_no_worse(table.values, x, y, less, more) {
        return true;
    }
    for other in 0..table.supply.len() {
        if goes_for(table, x, y, free_x, free_y, good, other) {
            return true;
        }
    }
    false
}

/// The first good that is not exchanged at these bundles.
fn first_good_broken(table: &Table, x: usize, y: usize, free_x: &[u16; 6]) -> Option<u8>
    requires table { IsTableOf table.now.supply.now table.now.strides.now }
    requires x { x < box_size table.now.supply.now }
    requires y { y < box_size table.now.supply.now }
    requires free_x { AreFree table.now.supply.now x free_x.now }
    ensures some { IfSome result (λ good. (good < length table.now.supply.now)
        × (IsExchanged (valuation_of table.now.supply.now table.now.values.now) (bundle_at table.now.supply.now x)
        (bundle_at table.now.supply.now y) good → ⊥)
        × ((c : ℕ) → c < good
        → IsExchanged (valuation_of table.now.supply.now table.now.values.now) (bundle_at table.now.supply.now x)
        (bundle_at table.now.supply.now y) c)) }
    ensures none { IfNone result ((c : ℕ) → c < length table.now.supply.now
        → IsExchanged (valuation_of table.now.supply.now table.now.values.now) (bundle_at table.now.supply.now x)
        (bundle_at table.now.supply.now y) c) }
{
    let free_y = free_units(table.supply, table.strides, y);
    for good in 0..table.supply.len() {
        if !is_exchanged(table, x, y, free_x, &free_y, good) {
            return Some(good as u8);
        }
    }
    None
}

/// The first triple that is not exchanged among those of the bundle at x.
fn first_broken_from(table: &Table, size: u32, x: u32) -> Option<Triple>
    requires table { IsTableOf table.now.supply.now table.now.strides.now }
    requires size { box_size table.now.supply.now ≡ size }
    requires x { x < size }
    ensures at { IfSome result (λ b. b.x ≡ x) }
    ensures some { IfSome result (λ b. (b.y < size) × (b.good < length table.now.supply.now)
        × (IsExchanged (valuation_of table.now.supply.now table.now.values.now) (bundle_at table.now.supply.now x)
        (bundle_at table.now.supply.now b.y) b.good → ⊥)
        × ((c : ℕ) → c < b.good
        → IsExchanged (valuation_of table.now.supply.now table.now.values.now) (bundle_at table.now.supply.now x)
        (bundle_at table.now.supply.now b.y) c)
        × ((y c : ℕ) → y < b.y → c < length table.now.supply.now
        → IsExchanged (valuation_of table.now.supply.now table.now.values.now) (bundle_at table.now.supply.now x)
        (bundle_at table.now.supply.now y) c)) }
    ensures none { IfNone result ((y c : ℕ) → y < size → c < length table.now.supply.now
        → IsExchanged (valuation_of table.now.supply.now table.now.values.now) (bundle_at table.now.supply.now x)
        (bundle_at table.now.supply.now y) c) }
{
    let free_x = free_units(table.supply, table.strides, x as usize);
    for y in 0..size {
        if let Some(good) = first_good_broken(table, x as usize, y as usize, &free_x) {
            return Some(Triple { x, y, good });
        }
    }
    None
}

/// The first triple that is not exchanged.
pub(crate) fn first_broken(table: &Table, size: u32) -> Option<Triple>
    requires table { IsTableOf table.now.supply.now table.now.strides.now }
    requires size { box_size table.now.supply.now ≡ size }
    ensures some { IfSome result (λ b. IsFirstPlace table.now.supply.now (valuation_of table.now.supply.now table.now.values.now)
        b.x b.y b.good) }
    ensures none { IfNone result (IsStrongSubstitutes table.now.supply.now (valuation_of table.now.supply.now table.now.values.now)) }
{
    for x in 0..size {
        let broken = first_broken_from(table, size, x);
        if broken.is_some() {
            return broken;
        }
    }
    None
}
