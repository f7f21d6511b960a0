//! The frames between the house and its bidders, and the entries of reports: how each is spelled, and how a stream of frames
//! that comes in pieces is read.
#![tactic(auto)]

pub mod entries;
pub mod frames;
mod heads;
pub mod kinds;
pub mod laws;
pub mod messages;
pub mod readers;
pub mod refusals;
mod to_bidder;
mod to_house;

pub use entries::{EntryView, entry_to, read_entry, view_entry, write_entry};
pub use frames::{Frame, WireFault, WireKind};
pub use messages::{ToBidder, ToHouse};
pub use readers::{Feed, Reader};
