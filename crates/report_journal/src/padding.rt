//! What is written after a record.
ghost use Rattle.std.specs.Prelude.{◌≡◌, ◌+◌, ◌≤◌};
ghost use Rattle.lot_base.specs.declared.limits.TheConstants.{GREATEST_FILE};
ghost use Rattle.report_journal.specs.Padding.{lays, pad_of};

use lot_base::limits::GREATEST_FILE;

/// The length to which a record is filled up with zeros where its file would end with it, and the length below which a journal is short:
/// such a one is as long as its records.
pub const AHEAD: u32 = 4_096;

/// The longest payload of a record after which the next one is laid, and of one that is laid so.
pub const SHORT: u32 = 1_024;

/// Whether after a record with so many bytes of payload, put at this gate, the next one is laid. 0 bytes are no next one.
pub fn lays_next(gate: u32, size: u32, next: usize) -> bool
    requires { gate + 6 + size ≤ GREATEST_FILE }
    ensures { result ≡ lays gate size next }
{
    gate >= AHEAD
        && next > 0
        && next <= SHORT as usize
        && size <= SHORT
        && gate as usize + 11 + size as usize + next <= GREATEST_FILE as usize
}

/// The zeros after so many bytes of payload, or of payload and next record, put at this gate of a file that has bytes up to `laid`.
pub fn pad_after(gate: u32, laid: u32, size: u32) -> u32
    requires { gate + 6 + size ≤ GREATEST_FILE }
    ensures { result ≡ pad_of gate laid size }
{
    let end = gate + 6 + size;
    if gate >= AHEAD && laid < end {
        AHEAD.saturating_sub(6 + size).min(GREATEST_FILE - end)
    } else {
        0
    }
}
