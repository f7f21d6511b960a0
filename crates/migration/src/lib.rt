//! The journals of an auction moved to another auction file.
#![tactic(auto)]

pub mod auctions;
pub mod faults;
mod fronts;
pub mod journals;
pub mod laws;
mod moving;
mod targets;

pub use auctions::is_same_auction;
pub use faults::MoveFault;
pub use journals::move_journals;
