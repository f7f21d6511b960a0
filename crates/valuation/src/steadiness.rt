//! For how many steps the best bundles stay the same.
ghost use Rattle.std.specs.Prelude.{◌≡◌, ◌<◌, ◌≤◌, ◌+◌, ◌-◌, ◌*◌, ◌^◌, ℕ, length, slice_index, false, if◌then◌else◌};
ghost use Rattle.lot_base.specs.declared.limits.TheConstants.{MOST_UNITS};
ghost use Rattle.valuation.specs.Carried.{AreSteady, IsFewest, StaysApart};

use lot_base::limits::{MOST_STEPS, MOST_UNITS};

/// How many bundles are looked at together.
pub(crate) const GROUP: usize = 32;

/// The fewest units that one of the best bundles has.
pub(crate) fn fewest_of_best(worth: &[u16], units: &[u16], best: u16) -> u16
    requires long { length units.now ≡ length worth.now }
    ensures { IsFewest MOST_UNITS units.now worth.now best result }
{
    let mut fewest = MOST_UNITS;
    for place in 0..worth.len() {
        fewest = fewest.min(units_if(worth[place] == best, units[place]));
    }
    fewest
}

/// The units of one of the best bundles; of another one, as many as there may be.
#[inline(always)]
fn units_if(is_best: bool, units: u16) -> u16
    ensures { result ≡ (if is_best then units else MOST_UNITS) }
{
    if is_best { units } else { MOST_UNITS }
}

/// For how many steps no bundle joins the best, of so many units each, and none of them leaves.
pub(crate) fn lasts(worth: &[u16], units: &[u16], best: u16, least: u16) -> u16
    requires long { length units.now ≡ length worth.now }
    requires bound { (i : ℕ) → i < length worth.now → slice_index worth.now i ≤ best }
    ensures { AreSteady worth.now units.now best least 0 (length worth.now) result }
{
    let mut limit = lasts_empty(best, least);
    let groups = worth.len() / GROUP;
    for group in 0..groups {
        limit = lasts_in(worth, units, group * GROUP, limit, best, least);
    }
    lasts_within(
        worth,
        units,
        groups * GROUP,
        worth.len(),
        limit,
        best,
        least,
    )
}

/// For how many steps the empty bundle, whose number is 1, does not join the best.
fn lasts_empty(best: u16, least: u16) -> u16
    ensures { least * result ≤ best - 2 }
{
    if least == 0 {
        return MOST_STEPS as u16;
    }
    best.saturating_sub(2) / least
}

/// For how many of so many steps this is so of a group of bundles.
fn lasts_in(worth: &[u16], units: &[u16], first: usize, limit: u16, best: u16, least: u16) -> u16
    requires long { length units.now ≡ length worth.now }
    requires bound { (i : ℕ) → i < length worth.now → slice_index worth.now i ≤ best }
    requires within { first + 32 ≤ length worth.now }
    requires fits { least * limit < 2 ^ 16 }
    ensures fewer { result ≤ limit }
    ensures steady { AreSteady worth.now units.now best least first (first + 32) result }
{
    if is_any_near(worth, units, first, limit, best, least) {
        lasts_within(worth, units, first, first + GROUP, limit, best, least)
    } else {
        limit
    }
}

/// Whether in so many steps a bundle of a group may join the best or leave them.
#[inline(always)]
fn is_any_near(
    worth: &[u16],
    units: &[u16],
    first: usize,
    limit: u16,
    best: u16,
    least: u16,
) -> bool
    requires long { length units.now ≡ length worth.now }
    requires bound { (i : ℕ) → i < length worth.now → slice_index worth.now i ≤ best }
    requires within { first + 32 ≤ length worth.now }
    requires fits { least * limit < 2 ^ 16 }
    ensures { result ≡ false → AreSteady worth.now units.now best least first (first + 32) limit }
{
    let mut near = false;
    for place in first..first + GROUP {
        near = near | is_near(limit, best - worth[place], units[place], least);
    }
    near
}

/// Whether in so many steps a bundle may join the best or leave them.
#[inline(always)]
fn is_near(limit: u16, gap: u16, units: u16, least: u16) -> bool
    requires fits { least * limit < 2 ^ 16 }
    ensures { result ≡ false → (n : ℕ) → n ≤ limit → StaysApart gap units least n }
{
    (units != least) & (least.saturating_sub(units) * limit >= gap)
}

/// For how many of so many steps no bundle from the first place to the last joins the best, and none of them leaves.
fn lasts_within(
    worth: &[u16],
    units: &[u16],
    first: usize,
    last: usize,
    most: u16,
    best: u16,
    least: u16,
) -> u16
    requires long { length units.now ≡ length worth.now }
    requires bound { (i : ℕ) → i < length worth.now → slice_index worth.now i ≤ best }
    requires within { last ≤ length worth.now }
    requires fits { least * most < 2 ^ 16 }
    ensures fewer { result ≤ most }
    ensures steady { AreSteady worth.now units.now best least first last result }
{
    let mut limit = most;
    for place in first..last {
        limit = lasts_at(limit, best - worth[place], units[place], least);
    }
    limit
}

/// For how many of so many steps a bundle stays as far from the best.
fn lasts_at(limit: u16, gap: u16, units: u16, least: u16) -> u16
    requires fits { least * limit < 2 ^ 16 }
    ensures fewer { result ≤ limit }
    ensures steady { (n : ℕ) → n ≤ result → StaysApart gap units least n }
{
    if units >= least {
        if gap == 0 && units > least {
            return 0;
        }
        return limit;
    }
    if (least - units) * limit < gap {
        return limit;
    }
    if gap == 0 {
        return 0;
    }
    (gap - 1) / (least - units)
}
