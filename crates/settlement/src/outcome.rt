//! What the clocks of an auction settle.
use award_assembly::Choice;
use lot_base::{Bundle, Prices, Sequence};

/// What a bidder is awarded and pays. A negative number is one that the bidder receives.
#[derive(Clone, Copy, Debug)]
pub struct AwardRow {
    /// The units of each good that it gets, good 0 first: its bundle in the choice of the clock of all.
    pub award: Bundle,
    /// Over the steps of the clock without it, the supply of each step's set less what the members demanded at least of it, added up.
    pub debit: i64,
    /// The same over the steps of the clock of all, with the bidder left out.
    pub credit: i64,
    /// The price of the award at the outcome's prices, plus the debit, less the credit.
    pub pays: i64,
}

/// Where a clock ended, and the first choice of its members that clears there.
#[derive(Debug, Drop)]
pub struct ClockRow {
    /// How many steps the clock made: the number of its last round, less one.
    pub steps: u32,
    /// Those of its last round, good 0 first.
    pub prices: Prices,
    /// A bundle for each member, the smallest bidder first.
    pub choices: Choice,
}

/// Prices, a row for each bidder and a row for each clock, both in the order of their numbers.
#[derive(Debug, Drop)]
pub struct Outcome {
    /// Those at which the clock of all ended, good 0 first.
    pub prices: Prices,
    /// The prices at which the clocks opened, where the terms are of the second version.
    pub opening: Option<Prices>,
    /// One for each bidder, that of bidder 1 first.
    pub rows: Sequence<AwardRow>,
    /// One for each clock, that of clock 0 first: one more than there are bidders.
    pub clocks: Sequence<ClockRow>,
}

/// Where the clocks of an auction stand together.
#[derive(Debug, Drop)]
pub enum Settlement {
    /// Every clock has ended, and a choice clears on each.
    Settled(Outcome),
    /// A clock, the first such one, is running in this round; this is its smallest member without a report there.
    Open { clock: u8, round: u32, missing: u8 },
    /// A clock, the first such one, has halted at this good.
    Halted { clock: u8, good: u8 },
    /// No choice of what the members of a clock, the first such one, demand in its last round clears.
    NoAward { clock: u8 },
}
