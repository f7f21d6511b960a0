//! The elements of an array of tables, each of which has a name.
ghost use Rattle.std.specs.Prelude.{◌≡◌, map};
ghost use Rattle.std.specs.List.{list_any};
ghost use Rattle.toml.specs.View.{view, table_view};
ghost use Rattle.auction_file.specs.AuctionFile.{has_name, name_after};

use crate::faults::{AuctionFault, Key};
use crate::naming::Name;
use toml::{Table, Value};
use toml_tree::string_at;

/// The name of an element that stands after these.
#[tactic(auto, unfolding(crate::specs::AuctionFile::name_after))]
pub(crate) fn name_after(earlier: &[Value], table: &Table, key: Key) -> Result<Name, AuctionFault>
    ensures { result ≡ name_after key (map view earlier.now) (table_view table.now) }
{
    let text = string_at(table, "name", key)?;
    let name = Name::read(text.as_bytes()).ok_or(AuctionFault::BadName(key))?;
    if is_taken(earlier, text) {
        return Err(AuctionFault::Repeated(key));
    }
    Ok(name)
}

/// Whether one of the elements has the name.
fn is_taken(earlier: &[Value], name: &str) -> bool
    ensures { result ≡ list_any (λ v. has_name name.now (view v)) earlier.now }
{
    earlier.iter().any(|element| has_name(element, name))
}

/// Whether the element is a table with this name.
fn has_name(element: &Value, name: &str) -> bool
    ensures { result ≡ has_name name.now (view element.now) }
{
    match element.get("name") {
        Some(Value::String(other)) => name == other.as_str(),
        _ => false,
    }
}
