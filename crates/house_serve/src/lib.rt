//! Serving: a session over a link, from the bytes that come to the bytes that go, doors at which one session follows another, and a
//! house that is served at its doors and closed.
#![tactic(auto)]

mod answering;
mod booths;
pub mod doors;
pub mod ends;
pub mod houses;
pub mod links;
mod pieces;
mod reserved;
pub mod serving;

pub use doors::serve_door;
pub use ends::SessionEnd;
pub use houses::{DoorLog, NotServed, Served, serve};
pub use links::serve_link;
pub use serving::serve_hall;
