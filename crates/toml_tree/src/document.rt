//! The tree of a document, and what stands in it.
ghost use Rattle.std.specs.Prelude.{◌≡◌, map, option_map, IfOk};
ghost use Rattle.toml.specs.Data.{get_member};
ghost use Rattle.toml.specs.View.{view, table_view};
ghost use Rattle.toml_tree.specs.Tree.{tree_of, elements_of};

use std::alloc::{AllocError, Global};
use toml::{Table, Value};

/// The tree of the bytes, if they are a TOML document in UTF-8.
pub fn tree_of(alloc: Global, bytes: &[u8]) -> Result<Option<Table>, AllocError>
    ensures { IfOk result (λ tree. option_map (λ t. table_view t) tree ≡ tree_of bytes.now) }
{
    match toml::table_from_slice(alloc, bytes) {
        Ok(table) => Ok(Some(table)),
        Err(error) if error.is_memory() => Err(AllocError),
        Err(_) => Ok(None),
    }
}

/// The value at a key, if it is there.
pub fn member<'a>(table: &'a Table, name: &str) -> Option<&'a Value>
    ensures { option_map (λ v. view v.now) result ≡ get_member name.now (table_view table.now) }
{
    table.get(name)
}

/// The elements of an array, if the value is one.
pub fn elements_of(value: &Value) -> Option<&[Value]>
    ensures { option_map (λ s. map view s.now) result ≡ elements_of (view value.now) }
{
    match value {
        Value::Array(elements) => Some(elements.as_slice()),
        _ => None,
    }
}
