//! The keys of a table that a format does not know.
ghost use Rattle.std.specs.Prelude.{◌≡◌, map, option_map, string_bytes, IfOk};
ghost use Rattle.std.specs.List.{list_any};
ghost use Rattle.std.specs.Str.{bytes_eq};
ghost use Rattle.toml.specs.View.{table_view};
ghost use Rattle.toml_tree.specs.Tree.{least_unknown};

use std::alloc::{AllocError, Global};
use std::fmt;
use std::marker::Model;
use toml::Table;

/// A key as it stands in the file, seen as the list of its bytes.
#[derive(Drop)]
pub struct KeyText {
    text: String,
}

impl Model for KeyText {
    ghost use Rattle.std.specs.Prelude.{ℕ, List, string_bytes};

    ghost Value = { List ℕ };

    ghost view = { λ key. string_bytes key.text };
}

impl KeyText {
    ghost use Rattle.std.specs.Prelude.{◌≡◌, string_bytes};

    /// The key of this text.
    pub fn new(text: String) -> KeyText
        ensures { result ≡ string_bytes text }
    {
        KeyText { text }
    }

    /// The text of the key.
    pub fn as_str(&self) -> &str
        ensures { result.now ≡ self.now }
    {
        self.text.as_str()
    }
}

impl fmt::Debug for KeyText {
    fn fmt<W: fmt::Write>(&self, f: &mut fmt::Formatter<W>) -> fmt::Result {
        fmt::Debug::fmt(self.as_str(), f)
    }
}

/// The least key of the table, in byte order, that is none of the known ones.
pub fn unknown_key(
    alloc: Global,
    table: &Table,
    known: &[&str],
) -> Result<Option<KeyText>, AllocError>
    ensures { IfOk result (λ key. key ≡ least_unknown (map (λ k. k.now) known.now) (table_view table.now)) }
{
    match least_unknown(table, known) {
        Some(key) => Ok(Some(copied(alloc, key.as_str())?)),
        None => Ok(None),
    }
}

/// The key of the same text.
fn copied(alloc: Global, key: &str) -> Result<KeyText, AllocError>
    ensures { IfOk result (λ copy. copy ≡ key.now) }
{
    Ok(KeyText::new(String::from_str(alloc, key)?))
}

/// The least key that is none of the known ones. A table gives its keys in byte order.
fn least_unknown<'a>(table: &'a Table, known: &[&str]) -> Option<&'a String>
    ensures { option_map (λ k. string_bytes k.now) result ≡ least_unknown (map (λ k. k.now) known.now) (table_view table.now) }
{
    table.keys().find(|key| !is_known(key.as_str(), known))
}

/// Whether the key is one of the known ones.
fn is_known(key: &str, known: &[&str]) -> bool
    ensures { result ≡ list_any (λ k. bytes_eq key.now k.now) known.now }
{
    known.iter().any(|other| key == *other)
}
