//! The demands that bidders report: which bundles they would like best at the prices of a round.
#![tactic(auto)]

pub mod box_order;
pub mod quantities;
pub mod reading;
pub mod reports;
pub mod writing;

pub use reading::{Demand, DemandFault};
pub use reports::Report;
