//! How a session over a link ends.

use report_wire::WireFault;

/// How a session over a link ended.
#[derive(Clone, Copy, Debug, PartialEq, Eq)]
pub enum SessionEnd {
    /// The bidder quit.
    Quit,
    /// The input ended first.
    Closed {
        /// How many bytes were read at the end that are no whole frame.
        rest: u32,
    },
    /// A hello named no bidder of the auction with this token.
    BadToken,
    /// The stream has this fault in the next frame's place.
    Wire(WireFault),
    /// A call on the link failed.
    LinkFault,
    /// As many bytes were taken as one session may, 1,099,511,627,776.
    Spent,
    /// There was no memory.
    NoMemory,
}
