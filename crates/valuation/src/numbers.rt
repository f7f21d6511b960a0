//! The numbers of a valuation file.
ghost use Rattle.std.specs.Prelude.{◌≡◌, ◌<◌, ◌≤◌, ◌^◌, length, map, Ok, OnOk, IfOk};
ghost use Rattle.lot_base.specs.declared.limits.TheConstants.{MOST_BUNDLES};
ghost use Rattle.lot_base.specs.Goods.{box_size};
ghost use Rattle.toml.specs.View.{view, table_view};
ghost use Rattle.valuation.specs.Forms.{total};
ghost use Rattle.toml_tree.specs.Readers.{integer_of};
ghost use Rattle.toml_tree.specs.Steps.{each_from};
ghost use Rattle.valuation.specs.Tree.{found, integers_of, lists_of, within, ranged};
ghost use Rattle.valuation.specs.ValuesFile.{long, all_long, entries, joined, values_at, lists_at, cap_at};
ghost use Rattle.valuation.specs.Seen.{GivesIfRoom};
ghost use Rattle.valuation.specs.declared.faults.ValuesFault.TheVariants as fault;

use crate::faults::{ValueKey, ValuesFault};
use lot_base::Sequence;
use std::alloc::{AllocError, Global};
use toml::{Table, Value};
use toml_tree::{array_of, integer_at, integer_of, value_at};

/// The number, if it is from 0 to `high`.
fn within(value: i64, high: u32) -> Option<u32>
    ensures { result ≡ within high value }
{
    match u32::try_from(value) {
        Ok(number) if number <= high => Some(number),
        _ => None,
    }
}

/// The integers that the elements of an array are.
fn integers(alloc: Global, elements: &[Value], key: ValueKey) -> Result<Vec<i64>, ValuesFault>
    ensures { GivesIfRoom (λ v. v.items) result (each_from (λ _ v. found (integer_of key (view v))) 0 elements.now) }
{
    let mut numbers = Vec::new(alloc);
    for element in elements {
        let number = integer_of(element, key)?;
        numbers.push(number)?;
    }
    Ok(numbers)
}

/// The integers of an array.
fn integers_of(alloc: Global, value: &Value, key: ValueKey) -> Result<Vec<i64>, ValuesFault>
    ensures { GivesIfRoom (λ v. v.items) result (integers_of key (view value.now)) }
{
    let elements = array_of(value, key)?;
    integers(alloc, elements, key)
}

/// The integers of an array, as one value.
fn list_of(alloc: Global, value: &Value, key: ValueKey) -> Result<Sequence<i64>, ValuesFault>
    ensures { GivesIfRoom (λ s. s) result (integers_of key (view value.now)) }
{
    let numbers = integers_of(alloc, value, key)?;
    Ok(Sequence::from_vec(numbers))
}

/// The lists of integers that the elements of an array are.
fn lists(
    alloc: Global,
    elements: &[Value],
    key: ValueKey,
) -> Result<Vec<Sequence<i64>>, ValuesFault>
    ensures { GivesIfRoom (λ v. v.items) result (each_from (λ _ v. integers_of key (view v)) 0 elements.now) }
{
    let mut lists = Vec::new(alloc);
    for element in elements {
        let list = list_of(alloc, element, key)?;
        lists.push(list)?;
    }
    Ok(lists)
}

/// The lists of integers of an array of arrays.
fn lists_of(alloc: Global, value: &Value, key: ValueKey) -> Result<Vec<Sequence<i64>>, ValuesFault>
    ensures { GivesIfRoom (λ v. v.items) result (lists_of key (view value.now)) }
{
    let elements = array_of(value, key)?;
    lists(alloc, elements, key)
}

/// Refuses a list with another number of entries than it needs.
fn long(bidder: u8, needed: u32, found: usize) -> Result<(), ValuesFault>
    ensures test { result ≡ long bidder needed found }
    ensures count { IfOk result (λ _. found ≡ needed) }
{
    if found != needed as usize {
        return Err(ValuesFault::Length {
            bidder,
            found: found as u64,
            needed,
        });
    }
    Ok(())
}

/// Refuses the first list that has not an entry for each unit of its good.
fn all_long(bidder: u8, supply: &[u16], lists: &[Sequence<i64>]) -> Result<(), ValuesFault>
    requires { length lists.now ≡ length supply.now }
    ensures { result ≡ all_long bidder supply.now lists.now }
{
    for good in 0..supply.len() {
        long(
            bidder,
            u32::from(supply[good]),
            lists[good].as_slice().len(),
        )?;
    }
    Ok(())
}

/// The entries of the lists, one list after another.
fn joined(alloc: Global, lists: &[Sequence<i64>]) -> Result<Vec<i64>, AllocError>
    ensures { IfOk result (λ v. v.items ≡ joined lists.now) }
{
    let mut numbers = Vec::new(alloc);
    for list in lists {
        numbers.extend_from_slice(list.as_slice())?;
    }
    Ok(numbers)
}

/// The numbers, if each is 0 to the limit.
fn entries(alloc: Global, bidder: u8, limit: u32, numbers: &[i64]) -> Result<Vec<u32>, ValuesFault>
    requires { length numbers.now < 2 ^ 32 }
    ensures entries { GivesIfRoom (λ v. v.items) result (entries bidder limit numbers.now) }
    ensures count { IfOk result (λ v. length v.items ≡ length numbers.now) }
{
    let mut entries = Vec::with_capacity(alloc, numbers.len())?;
    for (place, number) in numbers.iter().enumerate() {
        let entry = entry_at(bidder, limit, place as u32, number)?;
        entries.push(entry)?;
    }
    Ok(entries)
}

/// The number at a place, if it is 0 to the limit.
fn entry_at(bidder: u8, limit: u32, place: u32, number: &i64) -> Result<u32, ValuesFault>
    ensures { result ≡ ranged limit (fault.Value bidder place) number.now }
{
    within(*number, limit).ok_or(ValuesFault::Value { bidder, place })
}

/// So many entries at the key `values`.
#[tactic(auto, unfolding(crate::specs::ValuesFile::values_at))]
pub(crate) fn values_at(
    alloc: Global,
    bidder: u8,
    limit: u32,
    needed: u32,
    table: &Table,
) -> Result<Vec<u32>, ValuesFault>
    requires { needed ≤ MOST_BUNDLES }
    ensures values { GivesIfRoom (λ v. v.items) result (values_at bidder limit needed (table_view table.now)) }
    ensures count { IfOk result (λ v. length v.items ≡ needed) }
{
    let key = ValueKey::Values(u32::from(bidder));
    let value = value_at(table, "values", key)?;
    let numbers = integers_of(alloc, value, key)?;
    long(bidder, needed, numbers.len())?;
    entries(alloc, bidder, limit, &numbers)
}

/// The entries of a list for each good at the key `lists`, with an entry for each unit.
#[tactic(auto, unfolding(crate::specs::ValuesFile::lists_at))]
pub(crate) fn lists_at(
    alloc: Global,
    bidder: u8,
    limit: u32,
    supply: &[u16],
    table: &Table,
) -> Result<Vec<u32>, ValuesFault>
    requires few { length supply.now ≤ 6 }
    requires small { box_size supply.now ≤ MOST_BUNDLES }
    ensures entries { GivesIfRoom (λ v. v.items) result (lists_at bidder limit supply.now (table_view table.now)) }
    ensures count { IfOk result (λ v. length v.items ≡ total supply.now) }
{
    let key = ValueKey::Lists(u32::from(bidder));
    let value = value_at(table, "lists", key)?;
    let lists = lists_of(alloc, value, key)?;
    long(bidder, supply.len() as u32, lists.len())?;
    all_long(bidder, supply, &lists)?;
    let numbers = joined(alloc, &lists)?;
    entries(alloc, bidder, limit, &numbers)
}

/// The cap of a bidder for so many goods.
#[tactic(auto, unfolding(crate::specs::ValuesFile::cap_at))]
pub(crate) fn cap_at(bidder: u8, goods: u8, table: &Table) -> Result<u32, ValuesFault>
    ensures { result ≡ cap_at bidder goods (table_view table.now) }
{
    let number = integer_at(table, "cap", ValueKey::Cap(u32::from(bidder)))?;
    entry_at(bidder, 65_535, u32::from(goods), &number)
}
