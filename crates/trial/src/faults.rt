//! Why there is no trial.
use lot_base::Bundle;

/// Why there is no trial of these valuations.
#[derive(Clone, Copy, Debug)]
pub enum TrialFault {
    /// The goods are no strong substitutes for a bidder, the first such one: no unit of the good can go from `x` to `y`, alone or
    /// against a unit of another good, without loss. It is the first such triple, by index of `x`, index of `y`, and good.
    NotSubstitutes {
        bidder: u8,
        x: Bundle,
        y: Bundle,
        good: u8,
    },
    /// Memory ran out.
    NoMemory,
}
