//! The causes by which calls are made to fail, by the system's numbers.

/// The greatest number of a cause.
pub(crate) const MOST_CAUSES: i32 = 133;

/// No such file or directory.
pub(crate) const ABSENT: i32 = 2;

/// Interrupted system call.
pub(crate) const INTERRUPTED: i32 = 4;

/// Input/output error.
pub(crate) const BROKEN: i32 = 5;

/// Address already in use.
pub(crate) const IN_USE: i32 = 98;

/// Software caused connection abort: it was given up before it was accepted.
pub(crate) const ABORTED: i32 = 103;

/// Connection reset by peer.
pub(crate) const RESET: i32 = 104;

/// Connection refused.
pub(crate) const REFUSED: i32 = 111;
