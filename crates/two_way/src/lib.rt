//! Two-way clocks: from any start prices up, and then down, to prices at which a choice clears.
#![tactic(auto)]

mod awarding;
mod bidding;
mod choosing;
pub mod clocks;
pub mod floating;
pub mod laws;
mod next_step;
mod past;
mod quantities;
mod starting;

pub use clocks::TwoWay;
pub use floating::{FloatFault, Floated, float};
pub use settlement::AwardRow;
pub use starting::first_outside;
