//! Reading a valuation file.
ghost use Rattle.std.specs.Prelude.{◌≡◌, ◌≢◌, ◌<◌, ◌≤◌, ℕ, length, map, position, nat_le, slice_index, Ok, Err, IfOk, IfErr, IfSome};
ghost use Rattle.std.specs.List.{AllByRecursion};
ghost use Rattle.toml.specs.View.{view, table_view};
ghost use Rattle.lot_base.specs.declared.limits.TheConstants.{GREATEST_CEILING, MOST_BUNDLES};
ghost use Rattle.lot_base.specs.Goods.{box_size, IsSupply};
ghost use Rattle.toml_tree.specs.Steps.{each_from};
ghost use Rattle.valuation.specs.ValuesFile.{document_of, table_form, marginal_form, unit_form, capped_form, in_form, below, valuation_at, values_of};
ghost use Rattle.valuation.specs.Values.{IsTable};
ghost use Rattle.valuation.specs.Seen.{GivesIfRoom};

use crate::faults::{ValueKey, ValuesFault};
use crate::forms::{capped_values, marginal_values, unit_values};
use crate::numbers::{cap_at, lists_at, values_at};
use crate::values::Valuation;
use lot_base::limits::GREATEST_VALUES;
use lot_base::{Goods, Terms};
use std::alloc::{AllocError, Global};
use toml::{Table, Value};
use toml_tree::{array_at, known_keys, string_at, table_of, tree_of};

/// The most bytes of a valuation file.
pub const MOST_BYTES: usize = GREATEST_VALUES as usize;

/// The tree of the document.
#[tactic(auto, unfolding(crate::specs::ValuesFile::document_of))]
fn document_of(alloc: Global, bytes: &[u8]) -> Result<Table, ValuesFault>
    ensures { GivesIfRoom (λ t. table_view t) result (document_of bytes.now) }
{
    match tree_of(alloc, bytes)? {
        Some(table) => Ok(table),
        None => Err(ValuesFault::NotToml),
    }
}

/// The values of a table.
#[tactic(auto, unfolding(crate::specs::ValuesFile::table_form))]
fn table_form(
    alloc: Global,
    bidder: u8,
    limit: u32,
    goods: &Goods,
    table: &Table,
) -> Result<Vec<u64>, ValuesFault>
    ensures { GivesIfRoom (λ v. v.items) result (table_form bidder limit goods.now (table_view table.now)) }
{
    let _count = goods.count();
    known_keys::<ValueKey>(alloc, table, &["form", "values"])?;
    let values = values_at(alloc, bidder, limit, goods.box_size(), table)?;
    if first_of(&values) != 0 {
        return Err(ValuesFault::EmptyNotZero(bidder));
    }
    Ok(widened(alloc, &values)?)
}

/// The first number, 0 where there is none.
fn first_of(values: &[u32]) -> u32
    ensures { result ≡ slice_index values.now 0 }
{
    if values.is_empty() { 0 } else { values[0] }
}

/// The same numbers in more bits.
fn widened(alloc: Global, values: &[u32]) -> Result<Vec<u64>, AllocError>
    ensures { IfOk result (λ v. v.items ≡ values.now) }
{
    values.iter().map(|value| u64::from(*value)).collect(alloc)
}

/// What the bundles are worth by marginal values.
#[tactic(auto, unfolding(crate::specs::ValuesFile::marginal_form))]
fn marginal_form(
    alloc: Global,
    bidder: u8,
    limit: u32,
    goods: &Goods,
    table: &Table,
) -> Result<Vec<u64>, ValuesFault>
    ensures { GivesIfRoom (λ v. v.items) result (marginal_form bidder limit goods.now (table_view table.now)) }
{
    known_keys::<ValueKey>(alloc, table, &["form", "lists"])?;
    let _count = goods.count();
    let entries = lists_at(alloc, bidder, limit, goods.as_slice(), table)?;
    Ok(marginal_values(alloc, goods, &entries)?)
}

/// What the bundles are worth where one unit counts.
#[tactic(auto, unfolding(crate::specs::ValuesFile::unit_form))]
fn unit_form(
    alloc: Global,
    bidder: u8,
    limit: u32,
    goods: &Goods,
    table: &Table,
) -> Result<Vec<u64>, ValuesFault>
    ensures { GivesIfRoom (λ v. v.items) result (unit_form bidder limit goods.now (table_view table.now)) }
{
    known_keys::<ValueKey>(alloc, table, &["form", "values"])?;
    let values = values_at(alloc, bidder, limit, u32::from(goods.count()), table)?;
    Ok(unit_values(alloc, goods, &values)?)
}

/// What the bundles are worth where at most so many units count.
#[tactic(auto, unfolding(crate::specs::ValuesFile::capped_form))]
fn capped_form(
    alloc: Global,
    bidder: u8,
    limit: u32,
    goods: &Goods,
    table: &Table,
) -> Result<Vec<u64>, ValuesFault>
    ensures { GivesIfRoom (λ v. v.items) result (capped_form bidder limit goods.now (table_view table.now)) }
{
    known_keys::<ValueKey>(alloc, table, &["form", "values", "cap"])?;
    let values = values_at(alloc, bidder, limit, u32::from(goods.count()), table)?;
    let cap = cap_at(bidder, goods.count(), table)?;
    capped_values(alloc, goods, &values, cap)
}

/// What the bundles are worth in the form of this name.
fn in_form(
    alloc: Global,
    form: &str,
    bidder: u8,
    limit: u32,
    goods: &Goods,
    table: &Table,
) -> Result<Vec<u64>, ValuesFault>
    ensures { GivesIfRoom (λ v. v.items) result (in_form form.now bidder limit goods.now (table_view table.now)) }
{
    if form == "table" {
        table_form(alloc, bidder, limit, goods, table)
    } else if form == "marginal" {
        marginal_form(alloc, bidder, limit, goods, table)
    } else if form == "unit" {
        unit_form(alloc, bidder, limit, goods, table)
    } else if form == "capped" {
        capped_form(alloc, bidder, limit, goods, table)
    } else {
        Err(ValuesFault::Form(bidder))
    }
}

/// The first place of a value that is at least the ceiling.
fn first_above(values: &[u64], ceiling: u32) -> Option<usize>
    ensures value { result ≡ position (λ value. nat_le ceiling value) values.now }
    ensures within { IfSome result (λ place. place < length values.now) }
{
    values.iter().position(|value| *value >= u64::from(ceiling))
}

/// The same numbers in fewer bits.
pub(crate) fn narrowed(alloc: Global, values: &[u64]) -> Result<Vec<u16>, AllocError>
    requires { (place : ℕ) → slice_index values.now place < GREATEST_CEILING }
    ensures { IfOk result (λ v. v.items ≡ values.now) }
{
    let mut narrow = Vec::with_capacity(alloc, values.len())?;
    for place in 0..values.len() {
        narrow.push(values[place] as u16)?;
    }
    Ok(narrow)
}

/// The valuation with these values, if each is below the ceiling.
fn limited(
    alloc: Global,
    bidder: u8,
    ceiling: u32,
    values: &[u64],
) -> Result<Valuation, ValuesFault>
    requires some { 1 ≤ length values.now }
    requires few { length values.now ≤ MOST_BUNDLES }
    requires empty { slice_index values.now 0 ≡ 0 }
    requires ceiling { 1 ≤ ceiling }
    requires low { ceiling ≤ GREATEST_CEILING }
    ensures { GivesIfRoom (λ v. v) result (below bidder (position (λ value. nat_le ceiling value) values.now) values.now) }
{
    match first_above(values, ceiling) {
        Some(place) => Err(ValuesFault::Above {
            bidder,
            index: place as u32,
        }),
        None => {
            let narrow = narrowed(alloc, values)?;
            Ok(Valuation::from_values(narrow))
        }
    }
}

/// The valuation of a bidder that an element of the array says.
#[tactic(auto, unfolding(crate::specs::ValuesFile::valuation_at))]
fn valuation_at(
    alloc: Global,
    ceiling: u32,
    bidder: u8,
    goods: &Goods,
    element: &Value,
) -> Result<Valuation, ValuesFault>
    requires ceiling { 1 ≤ ceiling }
    requires low { ceiling ≤ GREATEST_CEILING }
    ensures { GivesIfRoom (λ v. v) result (valuation_at ceiling bidder goods.now (view element.now)) }
{
    let _count = goods.count();
    let number = u32::from(bidder);
    let table = table_of(element, ValueKey::Table(number))?;
    let form = string_at(table, "form", ValueKey::Form(number))?;
    let values = in_form(alloc, form, bidder, ceiling - 1, goods, table)?;
    limited(alloc, bidder, ceiling, &values)
}

/// The valuations that the elements of an array say.
fn each_bidder(
    alloc: Global,
    ceiling: u32,
    goods: &Goods,
    elements: &[Value],
) -> Result<Vec<Valuation>, ValuesFault>
    requires few { length elements.now ≤ 12 }
    requires ceiling { 1 ≤ ceiling }
    requires low { ceiling ≤ GREATEST_CEILING }
    ensures { GivesIfRoom (λ v. v.items) result (each_from (λ bidder v. valuation_at ceiling bidder goods.now (view v)) 1 elements.now) }
{
    let mut valuations = Vec::new(alloc);
    for (place, element) in elements.iter().enumerate() {
        let valuation = valuation_at(alloc, ceiling, place as u8 + 1, goods, element)?;
        valuations.push(valuation)?;
    }
    Ok(valuations)
}

/// The valuations that the bytes say, for so many bidders.
#[tactic(auto, unfolding(crate::specs::ValuesFile::values_of))]
fn values_in(
    alloc: Global,
    goods: &Goods,
    bidders: u8,
    ceiling: u32,
    bytes: &[u8],
) -> Result<Vec<Valuation>, ValuesFault>
    requires few { bidders ≤ 12 }
    requires ceiling { 1 ≤ ceiling }
    requires low { ceiling ≤ GREATEST_CEILING }
    ensures { GivesIfRoom (λ v. v.items) result (values_of goods.now bidders ceiling bytes.now) }
{
    let file = document_of(alloc, bytes)?;
    known_keys::<ValueKey>(alloc, &file, &["valuations"])?;
    let elements = array_at(&file, "valuations", ValueKey::Valuations)?;
    if elements.len() != bidders as usize {
        return Err(ValuesFault::Bidders(elements.len() as u64));
    }
    each_bidder(alloc, ceiling, goods, elements)
}

/// The valuations that the bytes of a valuation file say, one for each bidder, or the first fault in the order of the format.
pub fn read(alloc: Global, terms: &Terms, bytes: &[u8]) -> Result<Vec<Valuation>, ValuesFault>
    ensures read { IfOk result (λ v. values_of terms.now.goods terms.now.bidders terms.now.ceiling bytes.now ≡ Ok v.items) }
    ensures refused { IfErr result (λ fault. fault ≢ ValuesFault.NoMemory
        → values_of terms.now.goods terms.now.bidders terms.now.ceiling bytes.now ≡ Err fault) }

    // So there is one for each bidder, and each has a value below the ceiling for each bundle, 0 for the empty one.
    ensures count { IfOk result (λ v. length v.items ≡ terms.now.bidders) }
    ensures tables { IfOk result (λ v. AllByRecursion (IsTable terms.now.goods terms.now.ceiling) v.items) }
{
    let _count = terms.goods.count();
    values_in(alloc, &terms.goods, terms.bidders, terms.ceiling, bytes)
}
