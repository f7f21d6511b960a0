//! The messages of both directions.
use lot_base::{Phase, Prices, RawDemand, Sequence};

/// What a bidder sends to the house.
#[derive(Debug, Drop)]
pub enum ToHouse {
    /// Who speaks, and the token that only he knows.
    Hello {
        bidder: u8,
        token: Sequence<u8>,
    },
    /// Where does this clock stand?
    Look {
        clock: u8,
    },
    /// What the bidder would like best at the prices of this round.
    Report {
        clock: u8,
        round: u32,
        demand: RawDemand,
    },
    /// The session ends.
    Quit,
}

/// What the house sends to a bidder.
#[derive(Clone, Copy, Debug)]
pub enum ToBidder {
    /// The token is the bidder's: how many goods and clocks there are.
    Welcome {
        goods: u8,
        clocks: u8,
    },
    /// Where the clock stands.
    Price {
        clock: u8,
        round: u32,
        phase: Phase,
        prices: Prices,
    },
    /// The report counts, and is on the disk.
    Taken {
        clock: u8,
        round: u32,
    },
    /// The report counted already.
    Again {
        clock: u8,
        round: u32,
    },
    /// What was asked is not done; `refusals` has the codes.
    Refused {
        code: u8,
        detail: u8,
        value: u32,
    },
    /// The answer to `Quit`.
    Bye,
}
