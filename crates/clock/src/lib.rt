//! One clock of an ascending auction: what its reports are judged, where its rounds lead, and how it stands.
#![tactic(auto)]

pub mod clocks;
pub mod judging;
mod kept_quantities;
pub mod last_round;
pub mod laws;
mod next_step;
mod packing;
pub mod repeating;
pub mod replaying;
pub mod rounds;
pub mod same_again;

pub use clocks::{Clock, Look, NotApplied};
pub use judging::{Judgement, Offered};
pub use last_round::last_demands;
pub use replaying::ReplayFault;
pub use rounds::most_reports;
