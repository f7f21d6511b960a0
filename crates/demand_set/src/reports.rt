//! Reports.

use crate::reading::Demand;

/// What a bidder demands in a round. Bidders and rounds are numbered from 1.
#[derive(Debug, Drop)]
pub struct Report {
    /// Who reports. A clock judges whether it is a member.
    pub bidder: u8,
    /// In which round. A clock judges whether it has begun, and whether the bidder has reported in it.
    pub round: u32,
    /// The bundles that the bidder would like best at the prices of that round, by its own word.
    pub demand: Demand,
}
