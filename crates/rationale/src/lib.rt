//! Whether the demands of one bidder come from a valuation.
#![tactic(auto)]

pub mod climbing;
pub mod deciding;
pub mod labels;
pub mod laws;
pub mod limits;
pub mod lines;
pub mod links;
pub mod observing;
pub mod placing;
pub mod rationales;
pub mod settling;
pub mod stretches;
pub mod writing;

pub use deciding::Decision;
pub use limits::MOST_OBSERVATIONS;
pub use links::Link;
pub use rationales::Rationale;
pub use stretches::NotAdded;
