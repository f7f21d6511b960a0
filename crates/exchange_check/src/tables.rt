//! A valuation as a table over a box.

/// A valuation as a table: the value of each bundle of a box, at its place in lexicographic order.
#[derive(Clone, Copy)]
pub(crate) struct Table<'a> {
    /// The units of each good, at most 6 goods.
    pub(crate) supply: &'a [u16],
    /// For each good, how far apart the places of two bundles are that differ by one unit of it.
    pub(crate) strides: &'a [usize; 6],
    /// The value of the bundle at each place; 0 at those after the last one.
    pub(crate) values: &'a [u16],
}
