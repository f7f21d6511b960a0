//! The values that a format asks for, each with the key that its fault names.
ghost use Rattle.std.specs.Prelude.{◌≡◌, map};
ghost use Rattle.toml.specs.View.{view, table_view};
ghost use Rattle.toml_tree.specs.Readers.{value_at, integer_of, integer_at, string_at, array_of, array_at, table_of, known_keys};
ghost use Rattle.toml_tree.specs.Seen.{Gives, GivesUnless};
ghost use Rattle.toml_tree.specs.declared.faults.TreeFault.TheVariants.{NoMemory};

use crate::document::{elements_of, member};
use crate::faults::TreeFault;
use crate::keys::unknown_key;
use std::alloc::Global;
use toml::{Table, Value};

/// The value at a key that has to be there.
pub fn value_at<'a, K: Copy>(
    table: &'a Table,
    name: &str,
    key: K,
) -> Result<&'a Value, TreeFault<K>>
    ensures { Gives (λ v. view v.now) result (value_at key name.now (table_view table.now)) }
{
    member(table, name).ok_or(TreeFault::Missing(key))
}

/// The integer that a value is.
pub fn integer_of<K: Copy>(value: &Value, key: K) -> Result<i64, TreeFault<K>>
    ensures { result ≡ integer_of key (view value.now) }
{
    value.as_integer().ok_or(TreeFault::WrongKind(key))
}

/// The integer at a key.
pub fn integer_at<K: Copy>(table: &Table, name: &str, key: K) -> Result<i64, TreeFault<K>>
    ensures { result ≡ integer_at key name.now (table_view table.now) }
{
    let value = value_at(table, name, key)?;
    integer_of(value, key)
}

/// The string at a key.
pub fn string_at<'a, K: Copy>(table: &'a Table, name: &str, key: K) -> Result<&'a str, TreeFault<K>>
    ensures { Gives (λ s. s.now) result (string_at key name.now (table_view table.now)) }
{
    let value = value_at(table, name, key)?;
    value.as_str().ok_or(TreeFault::WrongKind(key))
}

/// The elements of an array.
pub fn array_of<K: Copy>(value: &Value, key: K) -> Result<&[Value], TreeFault<K>>
    ensures { Gives (λ s. map view s.now) result (array_of key (view value.now)) }
{
    elements_of(value).ok_or(TreeFault::WrongKind(key))
}

/// The elements of the array at a key.
pub fn array_at<'a, K: Copy>(
    table: &'a Table,
    name: &str,
    key: K,
) -> Result<&'a [Value], TreeFault<K>>
    ensures { Gives (λ s. map view s.now) result (array_at key name.now (table_view table.now)) }
{
    let value = value_at(table, name, key)?;
    array_of(value, key)
}

/// The table that an element of an array is.
pub fn table_of<K: Copy>(element: &Value, key: K) -> Result<&Table, TreeFault<K>>
    ensures { Gives (λ t. table_view t.now) result (table_of key (view element.now)) }
{
    element.as_table().ok_or(TreeFault::WrongKind(key))
}

/// Refuses a table with a key that is none of the known ones. The fault has the least such key.
pub fn known_keys<K: Drop>(alloc: Global, table: &Table, known: &[&str]) -> Result<(), TreeFault<K>>
    ensures { GivesUnless NoMemory (λ u. u) result (known_keys (map (λ k. k.now) known.now) (table_view table.now)) }
{
    match unknown_key(alloc, table, known)? {
        Some(key) => Err(TreeFault::UnknownKey(key)),
        None => Ok(()),
    }
}
