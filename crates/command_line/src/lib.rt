//! The words of the command line, read into the command that they are.
#![tactic(auto)]

pub mod arguments;
mod digits;
pub mod laws;
mod options;
mod positionals;
pub mod words;

pub use arguments::{Joined, Parted, join_words, part_words};
pub use words::{Bidding, CommandWords, Serving, read_words};
