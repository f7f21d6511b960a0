//! The tree of a TOML document: what stands at a key, in an array, and under a key that a format does not know.
#![tactic(auto)]

pub mod document;
pub mod faults;
pub mod keys;
pub mod readers;

pub use document::{elements_of, member, tree_of};
pub use faults::TreeFault;
pub use keys::{KeyText, unknown_key};
pub use readers::{
    array_at, array_of, integer_at, integer_of, known_keys, string_at, table_of, value_at,
};
