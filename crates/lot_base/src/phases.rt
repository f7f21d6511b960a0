//! How a clock stands.

/// How a clock stands in its last or current round.
#[derive(Clone, Copy, Debug, PartialEq, Eq)]
pub enum Phase {
    /// Some member has not reported in the round.
    Running,
    /// All members have, and no set of goods is in excess demand.
    Ended,
    /// The step set has a good at the ceiling; this is the smallest such good.
    Halted(u8),
}
