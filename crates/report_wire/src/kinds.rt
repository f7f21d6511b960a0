//! The kinds of frames, each declared once.

/// To the house: who speaks, with a token.
pub const HELLO: u8 = 1;
/// To the house: where does a clock stand?
pub const LOOK: u8 = 2;
/// To the house: a report of a round.
pub const REPORT: u8 = 3;
/// To the house: the session ends.
pub const QUIT: u8 = 4;

/// To a bidder: the hello is welcome.
pub const WELCOME: u8 = 17;
/// To a bidder: where a clock stands.
pub const PRICE: u8 = 18;
/// To a bidder: the report counts.
pub const TAKEN: u8 = 19;
/// To a bidder: the report counted already.
pub const AGAIN: u8 = 20;
/// To a bidder: what was asked is not done.
pub const REFUSED: u8 = 21;
/// To a bidder: the answer to a quit.
pub const BYE: u8 = 22;
