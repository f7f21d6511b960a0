//! Texts of what clocks settle: the plain text of an outcome and its reading, its JSON text, and the standing line of a clock.
#![tactic(auto)]

mod building;
pub mod json;
pub mod laws;
pub mod numerals;
pub mod plain;
pub mod reading;
mod scanning;
pub mod standing;

pub use json::write_json;
pub use numerals::{write_amount, write_bundle, write_prices};
pub use plain::{write_choices, write_plain, write_row, write_rows};
pub use reading::read_plain;
pub use standing::write_standing;
