//! Auctions that were worked by hand: what units are worth to their bidders, what they settle, and what a bidder and a house say to
//! one another. For tests alone.
#![tactic(auto)]

pub mod outcomes;
pub mod talks;
pub mod valuations;
