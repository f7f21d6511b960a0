//! Demands and reports as they come, before they are read.
use crate::sequences::Sequence;

/// The quantities of some bundles, one bundle after another, with this number of goods in each.
#[derive(Debug, Drop)]
pub struct RawDemand {
    /// How many quantities make a bundle. Whether the auction has so many goods is not asked yet.
    pub goods: u8,
    /// Those of the first bundle, good 0 first, then those of the next. None has been compared with a supply yet.
    pub quantities: Sequence<u16>,
}

/// A demand of a bidder in a round, as it comes. Bidders and rounds are numbered from 1.
#[derive(Debug, Drop)]
pub struct RawReport {
    /// The number that was given, which may be that of no bidder.
    pub bidder: u8,
    /// The number that was given, which may be 0 or that of a round to come.
    pub round: u32,
    /// What is demanded, not yet read as bundles of the auction's goods.
    pub demand: RawDemand,
}
