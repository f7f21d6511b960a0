//! Logs of reports: entries one after another, read piece by piece into the clock of all bidders.
#![tactic(auto)]

mod entries;
pub mod laws;
pub mod pieces;

pub use pieces::{LogFault, read_source};
