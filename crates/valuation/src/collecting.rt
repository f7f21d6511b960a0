//! The best bundles of a box.
ghost use Rattle.std.specs.Prelude.{◌≡◌, ◌≢◌, ◌<◌, ◌≤◌, ◌+◌, ◌==◌, ◌++◌, ℕ, [], length, slice_index, filter, false, IfOk, OnOk, if◌then◌else◌};
ghost use Rattle.std.specs.List.{concat};
ghost use Rattle.lot_base.specs.Goods.{box_size};
ghost use Rattle.lot_base.specs.Box.{box, index_of, bundle_at};
ghost use Rattle.valuation.specs.Carried.{best_before};

use crate::steadiness::GROUP;
use lot_base::limits::MOST_GOODS;
use lot_base::{Goods, NoMemory};
use std::alloc::Global;

/// The quantities of the bundles with this number, one bundle after another.
pub(crate) fn collect(
    alloc: Global,
    goods: &Goods,
    worth: &[u16],
    best: u16,
) -> Result<Vec<u16>, NoMemory>
    requires { length worth.now ≡ box_size goods.now }
    ensures { IfOk result (λ found. found.items ≡ concat
        (filter (λ x. slice_index worth.now (index_of goods.now x) == best) (box goods.now))) }
{
    let mut found = Vec::new(alloc);
    let groups = worth.len() / GROUP;
    for group in 0..groups {
        collect_group(&mut found, goods, worth, best, group * GROUP)?;
    }
    collect_within(&mut found, goods, worth, best, groups * GROUP, worth.len())?;
    Ok(found)
}

/// Adds the quantities of those of a group.
fn collect_group(
    found: &mut Vec<u16>,
    goods: &Goods,
    worth: &[u16],
    best: u16,
    first: usize,
) -> Result<(), NoMemory>
    requires whole { length worth.now ≡ box_size goods.now }
    requires within { first + 32 ≤ length worth.now }
    requires from { found.old.items ≡ best_before goods.now worth.now best first }
    ensures { OnOk result (found.new.items ≡ best_before goods.now worth.now best (first + 32)) }
{
    if is_any_best(worth, best, first) {
        collect_within(found, goods, worth, best, first, first + GROUP)
    } else {
        Ok(())
    }
}

/// Whether a bundle of a group has this number.
#[inline(always)]
fn is_any_best(worth: &[u16], best: u16, first: usize) -> bool
    requires { first + 32 ≤ length worth.now }
    ensures { result ≡ false → (i : ℕ) → first ≤ i → i < first + 32 → slice_index worth.now i ≢ best }
{
    let mut found = false;
    for place in first..first + GROUP {
        found = found | (worth[place] == best);
    }
    found
}

/// Adds the quantities of those from the first place to the last.
fn collect_within(
    found: &mut Vec<u16>,
    goods: &Goods,
    worth: &[u16],
    best: u16,
    first: usize,
    last: usize,
) -> Result<(), NoMemory>
    requires whole { length worth.now ≡ box_size goods.now }
    requires order { first ≤ last }
    requires within { last ≤ length worth.now }
    requires from { found.old.items ≡ best_before goods.now worth.now best first }
    ensures { OnOk result (found.new.items ≡ best_before goods.now worth.now best last) }
{
    if first == last {
        return Ok(());
    }
    let count = goods.count() as usize;
    let mut cells = [0; MOST_GOODS];
    let quantities = &mut cells[..count];
    quantities.copy_from_slice(goods.bundle(first as u32).as_slice());
    collect_from(found, goods, worth, best, first, last, quantities)
}

/// Adds the quantities of those from the first place to the last, by the quantities of the bundle at the first one.
fn collect_from(
    found: &mut Vec<u16>,
    goods: &Goods,
    worth: &[u16],
    best: u16,
    first: usize,
    last: usize,
    quantities: &mut [u16],
) -> Result<(), NoMemory>
    requires whole { length worth.now ≡ box_size goods.now }
    requires order { first ≤ last }
    requires within { last ≤ length worth.now }
    requires from { found.old.items ≡ best_before goods.now worth.now best first }
    requires at { quantities.old ≡ bundle_at goods.now first }
    ensures { OnOk result (found.new.items ≡ best_before goods.now worth.now best last) }
{
    for place in first..last {
        keep(found, quantities, worth[place] == best)?;
        advance(quantities, goods.as_slice());
    }
    Ok(())
}

/// Adds the quantities of a bundle, if it is one of the best.
fn keep(found: &mut Vec<u16>, quantities: &[u16], is_best: bool) -> Result<(), NoMemory>
    ensures { OnOk result (found.new.items ≡ found.old.items ++ (if is_best then quantities.now else [])) }
{
    if is_best {
        found.extend_from_slice(quantities)?;
    }
    Ok(())
}

/// Leads from the quantities of a bundle of the box to those of the next one, as a number is counted up whose last digit is that of the
/// last good.
fn advance(quantities: &mut [u16], supply: &[u16])
    requires { length quantities.old ≡ length supply.now }
    ensures long { length quantities.new ≡ length quantities.old }
    ensures next { (place : ℕ) → place + 1 < box_size supply.now → quantities.old ≡ bundle_at supply.now place
        → quantities.new ≡ bundle_at supply.now (place + 1) }
{
    for step in 0..supply.len() {
        let good = supply.len() - 1 - step;
        if quantities[good] < supply[good] {
            quantities[good] += 1;
            return;
        }
        quantities[good] = 0;
    }
}
