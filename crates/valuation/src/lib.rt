//! What bundles are worth to bidders, and what bidders with these values demand.
#![tactic(auto)]

mod collecting;
pub mod columns;
pub mod costs;
pub mod faults;
mod forms;
pub mod laws;
mod making;
mod numbers;
mod paying;
pub mod reader;
mod renewing;
mod steadiness;
pub mod surpluses;
pub mod values;

pub use columns::{Column, column_of};
pub use costs::Costs;
pub use faults::{ValueKey, ValuesFault};
pub use reader::{MOST_BYTES, read};
pub use surpluses::Surplus;
pub use toml_tree::KeyText;
pub use values::{Valuation, value_at};
