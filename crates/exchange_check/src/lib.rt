//! Whether goods are strong substitutes at a valuation.
#![tactic(auto)]

pub mod laws;
mod local_test;
mod scan;
mod tables;
pub mod verdict;

pub use verdict::{Verdict, check};
