//! The limits of what is decided, each declared once.

/// The most observations of one bidder: those of 12 clocks, of a round for each of the most steps and one more, are fewer.
pub const MOST_OBSERVATIONS: u32 = 1_000_000;
