//! What a bidder reported to the clocks of an auction, as observations of its demand.
#![tactic(auto)]

pub mod observing;

pub use observing::{Observed, Place, observe};
