//! The goods of an auction file.
ghost use Rattle.std.specs.Prelude.{◌≡◌, ◌≤◌, map, IfOk};
ghost use Rattle.toml.specs.View.{view, table_view};
ghost use Rattle.auction_file.specs.AuctionFile.{good_number, short_number, supply_at, opening_at, good_keys, good_at, each, goods_of};
ghost use Rattle.toml_tree.specs.Readers.{known_keys};
ghost use Rattle.toml_tree.specs.Seen.{GivesUnless};
ghost use Rattle.toml_tree.specs.declared.faults.TreeFault.TheVariants.{NoMemory};
ghost use Rattle.auction_file.specs.Seen.{GivesIfRoom};

use crate::elements::name_after;
use crate::faults::{AuctionFault, Key};
use crate::naming::Name;
use crate::ranges::within;
use std::alloc::{AllocError, Global};
use toml::{Table, Value};
use toml_tree::{TreeFault, array_at, integer_at, integer_of, known_keys, member, table_of};

/// A good of the file.
#[derive(Drop)]
pub(crate) struct Good {
    /// 1 to 32 bytes, and that of no good before it in the file.
    pub(crate) name: Name,
    /// How many units there are. 0 to 65,535: whether the supplies are those of an auction is judged for all goods together.
    pub(crate) supply: u16,
    /// The price at which each clock opens, below the ceiling. 0 where the file names none.
    pub(crate) opening: u16,
}

/// The goods of a file of this version and ceiling, in order.
#[tactic(auto, unfolding(crate::specs::AuctionFile::goods_of))]
pub(crate) fn goods_of(
    alloc: Global,
    version: u16,
    ceiling: u16,
    file: &Table,
) -> Result<Vec<Good>, AuctionFault>
    requires { 1 ≤ ceiling }
    ensures { GivesIfRoom (λ v. v.items) result (goods_of version ceiling (table_view file.now)) }
{
    let elements = array_at(file, "goods", Key::Goods)?;
    each_good(alloc, version, ceiling, elements)
}

/// The goods that the elements of an array are.
fn each_good(
    alloc: Global,
    version: u16,
    ceiling: u16,
    elements: &[Value],
) -> Result<Vec<Good>, AuctionFault>
    requires { 1 ≤ ceiling }
    ensures { GivesIfRoom (λ v. v.items) result (each (good_at version ceiling) (map view elements.now)) }
{
    let mut goods = Vec::new(alloc);
    for (place, element) in elements.iter().enumerate() {
        let good = good_at(alloc, version, ceiling, &elements[..place], place, element)?;
        goods.push(good)?;
    }
    Ok(goods)
}

/// The good that an element is; these elements stand before it.
#[tactic(auto, unfolding(crate::specs::AuctionFile::good_at))]
fn good_at(
    alloc: Global,
    version: u16,
    ceiling: u16,
    earlier: &[Value],
    place: usize,
    element: &Value,
) -> Result<Good, AuctionFault>
    requires { 1 ≤ ceiling }
    ensures { GivesIfRoom (λ g. g) result (good_at version ceiling (map view earlier.now) place (view element.now)) }
{
    let number = good_number(place);
    let table = table_of(element, Key::GoodTable(number))?;
    known_good_keys(alloc, version, table)?;
    let name = name_after(earlier, table, Key::GoodName(number))?;
    let supply = supply_at(table, place)?;
    let opening = opening_at(ceiling, table, place)?;
    Ok(Good {
        name,
        supply,
        opening,
    })
}

/// Refuses a good with a key that the version does not know.
fn known_good_keys(alloc: Global, version: u16, table: &Table) -> Result<(), TreeFault<Key>>
    ensures { GivesUnless NoMemory (λ u. u) result (known_keys (good_keys version) (table_view table.now)) }
{
    if version == 2 {
        known_keys(alloc, table, &["name", "supply", "opening"])
    } else {
        known_keys(alloc, table, &["name", "supply"])
    }
}

/// The supply of the good at a place.
#[tactic(auto, unfolding(crate::specs::AuctionFile::supply_at))]
fn supply_at(table: &Table, place: usize) -> Result<u16, AuctionFault>
    ensures { result ≡ supply_at place (table_view table.now) }
{
    let value = integer_at(table, "supply", Key::Supply(good_number(place)))?;
    within(value, 0, 65_535).ok_or(AuctionFault::BadSupply {
        good: short_number(place),
        value,
    })
}

/// The opening price of the good at a place, 0 where its table has none.
#[tactic(auto, unfolding(crate::specs::AuctionFile::opening_at))]
fn opening_at(ceiling: u16, table: &Table, place: usize) -> Result<u16, AuctionFault>
    requires { 1 ≤ ceiling }
    ensures { result ≡ opening_at ceiling place (table_view table.now) }
{
    let Some(value) = member(table, "opening") else {
        return Ok(0);
    };
    let good = good_number(place);
    let value = integer_of(value, Key::Opening(good))?;
    within(value, 0, ceiling - 1).ok_or(AuctionFault::Opening { good, value })
}

/// The number of a good in a key, and in the fault of its opening.
fn good_number(place: usize) -> u32
    ensures { result ≡ good_number place }
{
    u32::try_from(place).unwrap_or(u32::MAX)
}

/// The number of a good in the fault of its supply.
fn short_number(place: usize) -> u8
    ensures { result ≡ short_number place }
{
    u8::try_from(place).unwrap_or(u8::MAX)
}

/// The opening prices of the goods.
pub(crate) fn opening_prices(alloc: Global, goods: &[Good]) -> Result<Vec<u32>, AllocError>
    ensures { IfOk result (λ prices. prices.items ≡ map (λ good. good.opening) goods.now) }
{
    goods
        .iter()
        .map(|good| u32::from(good.opening))
        .collect(alloc)
}

/// The names of the goods.
pub(crate) fn good_names(alloc: Global, goods: &[Good]) -> Result<Vec<Name>, AllocError>
    ensures { IfOk result (λ names. names.items ≡ map (λ good. good.name) goods.now) }
{
    goods.iter().map(|good| good.name).collect(alloc)
}
