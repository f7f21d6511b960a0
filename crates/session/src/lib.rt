//! Sessions: what the house answers to each frame of a bidder, over a hall that keeps the clocks.
#![tactic(auto)]

mod consulting;
mod digests;
pub mod halls;
pub mod laws;
pub mod list_hall;
pub mod sessions;
mod table;

pub use halls::{Asked, Hall, Question};
pub use list_hall::ListHall;
pub use sessions::{Answer, Session, wire_answer};
