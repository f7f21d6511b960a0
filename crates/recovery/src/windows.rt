//! Bytes of a file that are read ahead.
ghost use Rattle.std.specs.Prelude.{◌≡◌, ◌↔◌, ◌+◌, ◌-◌, ◌≤◌, [], List, ℕ, length, take, drop, IsTrue, IfOk, OnOk};
ghost use Rattle.house_io.specs.Disks.{IfDiskTold};
ghost use Rattle.house_io.specs.Faults.{HasCause};
ghost use Rattle.lot_base.specs.declared.limits.TheConstants.{GREATEST_PAYLOAD};
ghost use Rattle.report_journal.specs.Calls.{OnlyReads};
ghost use Rattle.report_journal.specs.Journals.{payload_at};
ghost use Rattle.recovery.specs.Streams.{IsWindow, Covers};

use house_io::{Disk, Failed};
use report_journal::Place;
use std::alloc::{AllocError, Global};
use std::marker::Model;

/// How many bytes are read at once: two of the longest payloads.
const WIDTH: usize = 65_536;

/// Bytes of a file from an offset on.
#[derive(Drop)]
pub(crate) struct Window {
    /// It has room for the longest payload. What stands after the filled bytes says nothing.
    buffer: Vec<u8>,
    /// The offset of the first byte.
    at: u32,
    /// How many bytes of the buffer are the file's.
    filled: usize,
}

impl Model for Window {
    ghost use Rattle.std.specs.Prelude.{◌≤◌, take, vec_len};
    ghost use Rattle.lot_base.specs.declared.limits.TheConstants.{GREATEST_PAYLOAD};
    ghost use Rattle.recovery.specs.Streams.{WindowOf};

    ghost Value = { WindowOf };

    ghost view = { λ w. record { at = w.at; bytes = take w.filled w.buffer.items } };

    ghost invariant = { λ w. (w.filled ≤ vec_len w.buffer) × (GREATEST_PAYLOAD ≤ vec_len w.buffer) };
}

impl Window {
    /// A window of no bytes.
    pub(crate) fn new(alloc: Global) -> Result<Window, AllocError>
        ensures { IfOk result (λ window. window.bytes ≡ []) }
    {
        let buffer = vec![in alloc; 0; WIDTH]?;
        Ok(Window {
            buffer,
            at: 0,
            filled: 0,
        })
    }

    /// Whether it has the payload at this place whole.
    pub(crate) fn has(&self, place: Place) -> bool
        ensures { IsTrue result ↔ Covers self.now place }
    {
        place.at >= self.at && (place.at - self.at) as usize + place.length as usize <= self.filled
    }

    /// The payload at this place.
    pub(crate) fn payload(&self, place: Place) -> &[u8]
        requires { Covers self.now place }
        ensures long { length result.now ≡ place.length }
        ensures payload { (file : List ℕ) → IsWindow self.now file → result.now ≡ payload_at file place }
    {
        let start = (place.at - self.at) as usize;
        &self.buffer[start..start + place.length as usize]
    }

    /// Reads on from this place, where it has not the whole payload there. After a fault it has no bytes.
    pub(crate) fn cover<D: Disk>(&mut self, disk: &mut D, place: Place) -> Result<(), Failed>
        requires { place.length ≤ GREATEST_PAYLOAD }
        ensures window { IfDiskTold (D.shown disk.old) (D.shown disk.new)
            (λ before _. IsWindow self.old before.now.read → IsWindow self.new before.now.read) }
        ensures covers { OnOk result (IfDiskTold (D.shown disk.old) (D.shown disk.new)
            (λ before _. length (payload_at before.now.read place) ≡ place.length → Covers self.new place)) }
        ensures reads { OnlyReads D.shown disk.old disk.new }
        ensures cause { HasCause (D.shown disk.old).faults (D.shown disk.new).faults result }
    {
        if self.has(place) {
            return Ok(());
        }
        match disk.read_at(place.at as u64, &mut self.buffer) {
            Ok(count) => {
                self.at = place.at;
                self.filled = count;
                Ok(())
            }
            Err(Failed) => {
                self.filled = 0;
                Err(Failed)
            }
        }
    }
}
