//! The reports that a journal's file stands for.
#![tactic(auto)]

pub mod entries;
pub mod faults;
pub mod laws;
mod owners;
pub mod recovering;
pub mod streaming;
mod windows;

pub use entries::read_report;
pub use faults::{Broken, JournalCause, RecoverFault};
pub use recovering::{Recovered, read_reports};
pub use streaming::{Next, Reports};
