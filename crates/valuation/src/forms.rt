//! What the bundles are worth in each form of a valuation file.
ghost use Rattle.std.specs.Prelude.{◌≡◌, ◌<◌, ◌≤◌, ◌-◌, ◌^◌, ℕ, length, map, max, nat_le, if◌then◌else◌, slice_index, Ok, IfOk};
ghost use Rattle.lot_base.specs.Goods.{AtMost};
ghost use Rattle.lot_base.specs.Box.{box};
ghost use Rattle.valuation.specs.Forms.{total, marginal_value, unit_value, capped_value};
ghost use Rattle.valuation.specs.Seen.{GivesIfRoom};
ghost use Rattle.valuation.specs.Capping.{IsBestLess, AreBefore};

use crate::costs::costs_at;
use crate::faults::ValuesFault;
use lot_base::Goods;
use std::alloc::{AllocError, Global};

/// The sum of the numbers.
fn total_of(numbers: &[u32]) -> u64
    requires { length numbers.now ≤ 2 ^ 16 }
    ensures value { result ≡ total numbers.now }
    ensures small { result ≤ 2 ^ 48 }
{
    let mut sum = 0u64;
    for number in numbers {
        sum += u64::from(*number);
    }
    sum
}

/// The sum of the quantities.
fn units_of(x: &[u16]) -> u32
    requires { length x.now ≤ 6 }
    ensures { result ≡ total x.now }
{
    let mut sum = 0u32;
    for quantity in x {
        sum += u32::from(*quantity);
    }
    sum
}

/// What a bundle is worth where each unit has its marginal value.
fn marginal_value(supply: &[u16], entries: &[u32], x: &[u16]) -> u64
    requires within { AtMost x.now supply.now }
    requires few { length supply.now ≤ 6 }
    requires count { length entries.now ≡ total supply.now }
    ensures { result ≡ marginal_value supply.now entries.now x.now }
{
    let mut worth = 0u64;
    let mut rest = entries;
    for good in 0..supply.len() {
        worth += total_of(&rest[..x[good] as usize]);
        rest = rest.split_at(supply[good] as usize).1;
    }
    worth
}

/// What each bundle is worth where each unit has its marginal value.
pub(crate) fn marginal_values(
    alloc: Global,
    goods: &Goods,
    entries: &[u32],
) -> Result<Vec<u64>, AllocError>
    requires { length entries.now ≡ total goods.now }
    ensures { IfOk result (λ v. v.items ≡ map (marginal_value goods.now entries.now) (box goods.now)) }
{
    let _count = goods.count();
    let supply = goods.as_slice();
    let mut values = Vec::with_capacity(alloc, goods.box_size() as usize)?;
    for index in 0..goods.box_size() {
        let x = goods.bundle(index);
        values.push(marginal_value(supply, entries, x.as_slice()))?;
    }
    Ok(values)
}

/// What a bundle is worth where one unit counts.
fn unit_value(values: &[u32], x: &[u16]) -> u64
    requires { length x.now ≡ length values.now }
    ensures { result ≡ unit_value values.now x.now }
{
    let mut best = 0;
    for good in 0..values.len() {
        best = better(best, values[good], x[good]);
    }
    u64::from(best)
}

/// The greater of two values, of which the second counts where there is a unit.
fn better(best: u32, value: u32, units: u16) -> u32
    ensures { result ≡ max best (if nat_le 1 units then value else 0) }
{
    if units >= 1 { best.max(value) } else { best }
}

/// What each bundle is worth where one unit counts.
pub(crate) fn unit_values(
    alloc: Global,
    goods: &Goods,
    values: &[u32],
) -> Result<Vec<u64>, AllocError>
    requires { length values.now ≡ length goods.now }
    ensures { IfOk result (λ v. v.items ≡ map (unit_value values.now) (box goods.now)) }
{
    let mut worth = Vec::with_capacity(alloc, goods.box_size() as usize)?;
    for index in 0..goods.box_size() {
        let x = goods.bundle(index);
        worth.push(unit_value(values, x.as_slice()))?;
    }
    Ok(worth)
}

/// What each bundle is worth where at most so many units count.
pub(crate) fn capped_values(
    alloc: Global,
    goods: &Goods,
    values: &[u32],
    cap: u32,
) -> Result<Vec<u64>, ValuesFault>
    ensures { GivesIfRoom (λ v. v.items) result (Ok (map (capped_value values.now cap) (box goods.now))) }
{
    let costs = costs_at(alloc, goods, values)?;
    let steps = goods.strides();
    let mut worth = Vec::with_capacity(alloc, costs.len())?;
    for index in 0..goods.box_size() {
        let x = goods.bundle(index);
        let value = capped_at(x.as_slice(), &steps, &costs, &worth, index as usize, cap);
        worth.push(value)?;
    }
    Ok(worth)
}

/// What the bundle at a place is worth where at most so many units count, and the bundles before it are worth so much.
fn capped_at(
    x: &[u16],
    steps: &[usize; 6],
    costs: &[u64],
    worth: &[u64],
    index: usize,
    cap: u32,
) -> u64
    requires few { length x.now ≤ 6 }
    requires before { AreBefore x.now steps.now index }
    requires here { index < length costs.now }
    requires worth { length worth.now ≡ index }
    ensures all { total x.now ≤ cap → result ≡ slice_index costs.now index }
    ensures less { cap < total x.now → IsBestLess x.now steps.now worth.now index result }
{
    if units_of(x) <= cap {
        costs[index]
    } else {
        best_less(x, steps, worth, index)
    }
}

/// The most of what the bundles with one unit less than the one at a place are worth.
fn best_less(x: &[u16], steps: &[usize; 6], worth: &[u64], index: usize) -> u64
    requires few { length x.now ≤ 6 }
    requires before { AreBefore x.now steps.now index }
    requires worth { length worth.now ≡ index }
    ensures { IsBestLess x.now steps.now worth.now index result }
{
    let mut best = 0;
    for good in 0..x.len() {
        best = more(best, worth, index, steps[good], x[good]);
    }
    best
}

/// The greater of a number and the one that stands a step before a place, of which the second counts where there is a unit.
fn more(best: u64, worth: &[u64], index: usize, step: usize, units: u16) -> u64
    requires before { 0 < units → 1 ≤ step }
    requires inside { 0 < units → step ≤ index }
    requires worth { length worth.now ≡ index }
    ensures more { best ≤ result }
    ensures bound { 0 < units → slice_index worth.now (index - step) ≤ result }
    ensures least { (top : ℕ) → best ≤ top → (0 < units → slice_index worth.now (index - step) ≤ top) → result ≤ top }
{
    if units > 0 {
        best.max(worth[index - step])
    } else {
        best
    }
}
