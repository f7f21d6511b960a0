//! What two bidders send to a house, and what they are answered.
use std::alloc::Global;
use worked_auctions::talks::{HELLO, QUIT, REPORT_0, REPORT_2};

/// Ada wants the unit, and says so to the clock of all and to that without bob.
pub(super) const ADA: &[&[u8]] = &[HELLO, REPORT_0, REPORT_2, QUIT];

/// Bob takes the unit or nothing, and says so to the clock of all and to that without ada.
pub(super) const BOB: &[&[u8]] = &[
    b"\x00\x00\x00\x06\x01\x02hello",
    b"\x00\x00\x00\x0c\x03\x00\x00\x00\x00\x01\x01\x00\x02\x00\x00\x00\x01",
    b"\x00\x00\x00\x0c\x03\x01\x00\x00\x00\x01\x01\x00\x02\x00\x00\x00\x01",
    QUIT,
];

/// A report to the clock without ada was taken, in round 1.
pub(super) const TAKEN_1: &[u8] = b"\x00\x00\x00\x05\x13\x01\x00\x00\x00\x01";

/// A report to the clock of all was taken before, in round 1.
pub(super) const AGAIN_0: &[u8] = b"\x00\x00\x00\x05\x14\x00\x00\x00\x00\x01";

/// The same of a report to the clock without ada.
pub(super) const AGAIN_1: &[u8] = b"\x00\x00\x00\x05\x14\x01\x00\x00\x00\x01";

/// The same of a report to the clock without bob.
pub(super) const AGAIN_2: &[u8] = b"\x00\x00\x00\x05\x14\x02\x00\x00\x00\x01";

/// The journal of the report's clock failed.
pub(super) const FAILED: &[u8] = b"\x00\x00\x00\x06\x15\x0a\x00\x00\x00\x00\x00";

/// Where the reply to a report stands among a session's: the one to the clock of all, and then the one to the bidder's other clock.
pub(super) const FIRST: usize = 1;

pub(super) const SECOND: usize = 2;

/// These frames, one after another. Nothing, here and below, where there is no memory.
pub(super) fn joined(alloc: Global, frames: &[&[u8]]) -> Option<Vec<u8>> {
    let mut all = Vec::new(alloc);
    for frame in frames {
        all.extend_from_slice(frame).ok()?;
    }
    Some(all)
}

/// How many bytes the frame at the front takes, of which each here has a payload of fewer than 256.
fn length_of(frames: &[u8]) -> Option<usize> {
    match frames.get(3) {
        Some(length) => Some(5 + *length as usize),
        None => None,
    }
}

/// The frame of this number, from 0.
pub(super) fn frame_at(frames: &[u8], number: usize) -> Option<&[u8]> {
    let mut rest = frames;
    for _ in 0..number {
        rest = rest.get(length_of(rest)?..)?;
    }
    rest.get(..length_of(rest)?)
}
