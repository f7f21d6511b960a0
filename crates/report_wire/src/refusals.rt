//! The codes of refusals, and the details of a refused demand, each declared once.

/// No hello came before.
pub const NO_HELLO: u8 = 1;
/// No bidder of the auction has this number and this token; the value is the number.
pub const BAD_TOKEN: u8 = 2;
/// There is no such clock; the value is its number.
pub const UNKNOWN_CLOCK: u8 = 3;
/// The bidder is no member of the clock; the value is its number.
pub const NOT_MEMBER: u8 = 4;
/// The demand is refused; the detail tells why.
pub const BAD_DEMAND: u8 = 5;
/// The round has not begun; the value is the current one.
pub const EARLY: u8 = 6;
/// The bidder has reported another demand in the round, which is the value.
pub const CONFLICT: u8 = 7;
/// The clock has ended or is halted; the value is its last round.
pub const OVER: u8 = 8;
/// The journal is full; the value is where the report would end.
pub const FULL: u8 = 9;
/// The disk failed.
pub const DISK_FAULT: u8 = 10;
/// There was no memory.
pub const NO_MEMORY: u8 = 11;
/// The report names round 0.
pub const NO_ROUND: u8 = 12;
/// The session has a bidder.
pub const SECOND_HELLO: u8 = 13;
/// A payload is too long; the value is its length.
pub const TOO_LONG: u8 = 14;
/// There is no such kind of frame, which is the value.
pub const UNKNOWN_KIND: u8 = 15;
/// A payload is none of its kind, which is the value.
pub const BAD_PAYLOAD: u8 = 16;

/// The details of a refused demand: it has no bundle.
pub const EMPTY: u8 = 1;
/// The bundle at a place, which is the value, is not above the one before it.
pub const NOT_ASCENDING: u8 = 2;
/// The bundle at a place, which is the value, is outside the supply.
pub const OUTSIDE_SUPPLY: u8 = 3;
/// The bundles are of another number of goods, which is the value.
pub const WRONG_GOODS: u8 = 4;
