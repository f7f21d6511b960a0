//! An agent that takes a bidder's part over a link.
#![tactic(auto)]

pub mod agents;
pub mod agreeing;
pub mod hearing;
mod knowing;
mod pausing;
mod talking;
mod visiting;
pub mod wants;

pub use agents::{AgentEnd, Demands, Seen, SeenLook};
pub use agreeing::agree;
pub use hearing::{Heard, read_reply};
pub use wants::Wants;
