//! The limits of an auction and of its files, each declared once.

/// The most goods.
pub const MOST_GOODS: usize = 6;

/// The most bundles within a supply: the product of each supply and one.
pub const MOST_BUNDLES: u128 = 2048;

/// The most units of a good, since a good has one bundle more than units.
pub const MOST_UNITS: u16 = 2_047;

/// The most bidders; there is at least one.
pub const MOST_BIDDERS: u8 = 12;

/// The least ceiling of the prices.
pub const LEAST_CEILING: u32 = 2;

/// The greatest ceiling of the prices.
pub const GREATEST_CEILING: u32 = 10_000;

/// The most steps of a clock: each raises a price, and no price rises past the ceiling.
pub const MOST_STEPS: u32 = 60_000;

/// The most doors at which a house is open.
pub const MOST_DOORS: u32 = 64;

/// The most sessions at a door, one after another.
pub const MOST_SESSIONS: u32 = 10_000;

/// The most bytes of an auction file.
pub const GREATEST_AUCTION: u32 = 65_536;

/// The most bytes of a file of valuations.
pub const GREATEST_VALUES: u32 = 1_048_576;

/// The most bytes of the payload of a frame, of an entry of a log or of a record of a journal.
pub const GREATEST_PAYLOAD: u32 = 32_768;

/// The most bytes of a log or of a journal.
pub const GREATEST_FILE: u32 = 67_108_864;
