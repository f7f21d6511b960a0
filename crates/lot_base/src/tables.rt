//! Tables with a number for each set of goods, at the set's number.

/// The least quantity on each set of goods; 0 after the last set.
#[derive(Clone, Copy, Debug)]
pub struct LeastTable(pub [u16; 64]);

/// The excess demand of each set of goods; 0 after the last set.
#[derive(Clone, Copy, Debug)]
pub struct Excess(pub [i16; 64]);
