//! Numbers as bytes, big-endian: one of four bytes or of two, and many of two bytes each, read and written.
#![tactic(auto)]

pub mod laws;
mod reading;
mod writing;

pub use reading::{are_short_numbers, number_of, short_number_of, short_numbers_of};
pub use writing::{
    fill_number, fill_short_number, fill_short_numbers, number_bytes, push_number,
    push_short_number, push_short_numbers,
};

#[cfg(test)]
mod tests;
