//! The frames of a talk between bidder 1, whose token is `abc`, and a house of one unit for two bidders. The bidder demands the unit, on
//! the clock of both and on clock 2, where the other is left out.

/// There are one good and three clocks.
pub const WELCOME: &[u8] = b"\x00\x00\x00\x02\x11\x01\x03";

/// Clock 0 runs in round 1, at a price of 0.
pub const RUNNING_0: &[u8] =
    b"\x00\x00\x00\x0c\x12\x00\x00\x00\x00\x01\x00\x00\x01\x00\x00\x00\x00";

/// So does clock 2.
pub const RUNNING_2: &[u8] =
    b"\x00\x00\x00\x0c\x12\x02\x00\x00\x00\x01\x00\x00\x01\x00\x00\x00\x00";

/// The report in round 1 of clock 0 is taken.
pub const TAKEN_0: &[u8] = b"\x00\x00\x00\x05\x13\x00\x00\x00\x00\x01";

/// So is that of clock 2.
pub const TAKEN_2: &[u8] = b"\x00\x00\x00\x05\x13\x02\x00\x00\x00\x01";

/// Clock 0 ended in round 1, at a price of 0.
pub const ENDED_0: &[u8] = b"\x00\x00\x00\x0c\x12\x00\x00\x00\x00\x01\x01\x00\x01\x00\x00\x00\x00";

/// So did clock 2.
pub const ENDED_2: &[u8] = b"\x00\x00\x00\x0c\x12\x02\x00\x00\x00\x01\x01\x00\x01\x00\x00\x00\x00";

/// The house takes its leave.
pub const BYE: &[u8] = b"\x00\x00\x00\x00\x16";

/// The token is not that of bidder 1.
pub const REFUSED: &[u8] = b"\x00\x00\x00\x06\x15\x02\x00\x00\x00\x00\x01";

/// Bidder 1 and the token.
pub const HELLO: &[u8] = b"\x00\x00\x00\x04\x01\x01abc";

/// A look at clock 0.
pub const LOOK_0: &[u8] = b"\x00\x00\x00\x01\x02\x00";

/// A look at clock 2.
pub const LOOK_2: &[u8] = b"\x00\x00\x00\x01\x02\x02";

/// The report in round 1 of clock 0: the unit is demanded.
pub const REPORT_0: &[u8] = b"\x00\x00\x00\x0a\x03\x00\x00\x00\x00\x01\x01\x00\x01\x00\x01";

/// The same on clock 2.
pub const REPORT_2: &[u8] = b"\x00\x00\x00\x0a\x03\x02\x00\x00\x00\x01\x01\x00\x01\x00\x01";

/// The bidder takes its leave.
pub const QUIT: &[u8] = b"\x00\x00\x00\x00\x04";

/// All frames of the bidder in a talk to the end.
pub const ALL: &[&[u8]] = &[
    HELLO, LOOK_0, REPORT_0, LOOK_2, REPORT_2, LOOK_0, LOOK_2, QUIT,
];

/// The replies to these.
pub const REPLIES: &[&[u8]] = &[
    WELCOME, RUNNING_0, TAKEN_0, RUNNING_2, TAKEN_2, ENDED_0, ENDED_2, BYE,
];

/// Replies of which the last shows clock 0 as the look before did.
pub const ONCE: &[&[u8]] = &[WELCOME, RUNNING_0, TAKEN_0, RUNNING_2, TAKEN_2, RUNNING_0];

/// The frames of the bidder to which they answer.
pub const LOOKS: &[&[u8]] = &[HELLO, LOOK_0, REPORT_0, LOOK_2, REPORT_2, LOOK_0];
