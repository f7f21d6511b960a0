//! The auction file: what a seller offers, to whom, and from which price up to which, read from TOML.
#![tactic(auto)]

mod bidders_list;
mod elements;
pub mod faults;
mod goods_list;
pub mod laws;
pub mod listing;
pub mod naming;
mod ranges;
pub mod reader;

pub use faults::{AuctionFault, Key};
pub use listing::Auction;
pub use naming::Name;
pub use reader::{MOST_BYTES, read};
pub use toml_tree::KeyText;
