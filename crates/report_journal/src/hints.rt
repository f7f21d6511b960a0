//! Hints at what a journal is to take next.
ghost use Rattle.std.specs.Prelude.{◌≡◌, ◌≤◌, List, ℕ, [], take};
ghost use Rattle.report_journal.specs.declared.hints.TheConstants.{LONGEST_HINT};

use crate::padding::SHORT;

/// The most bytes of a hint: after another record no longer payload is laid.
pub const LONGEST_HINT: usize = SHORT as usize;

/// Who may know which payload comes next. A journal asks as late as it can: when the bytes of a record are on the disk, and before it opens
/// the gate before them.
pub trait Hint {
    /// What it may say, for the contracts of who asks it.
    ghost says: { Self → List ℕ → Type 0 };

    /// Writes the payload that is likely to be appended next into a front of the buffer, and answers its length. No bytes are none.
    fn next(&self, into: &mut [u8; LONGEST_HINT]) -> usize
        ensures count { result ≤ LONGEST_HINT }
        ensures says { says self.now (take result into.new) };
}

/// Nothing is known of what comes next.
#[derive(Drop)]
pub struct NoHint;

impl Hint for NoHint {
    ghost use Rattle.std.specs.Prelude.{◌≡◌, []};

    ghost says = { λ hint next. next ≡ [] };

    fn next(&self, _into: &mut [u8; LONGEST_HINT]) -> usize {
        0
    }
}
