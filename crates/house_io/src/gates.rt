//! Disks before which a gate is reached.
ghost use Rattle.std.specs.Prelude.{◌≡◌};

use crate::{Disk, Failed};

/// Somewhere that a call waits, or is noted.
pub trait Gate {
    /// The call has come to the gate.
    fn reach(&mut self);
}

/// A disk that reaches its gate before each write, and else is the disk.
#[derive(Drop)]
pub struct GatedDisk<D: Disk, G: Gate> {
    /// The disk that each call goes on to.
    pub disk: D,
    /// It is reached once before each write, and before no other call.
    pub gate: G,
}

impl<D: Disk, G: Gate> Disk for GatedDisk<D, G> {
    ghost shown = { λ gated. D.shown gated.disk };

    ghost reads_an_image = { λ gated told. D.reads_an_image gated.disk told };

    fn size(&mut self) -> Result<u64, Failed> {
        self.disk.size()
    }

    fn read_at(&mut self, at: u64, into: &mut [u8]) -> Result<usize, Failed> {
        self.disk.read_at(at, into)
    }

    fn claim(&mut self) -> Result<(), Failed> {
        self.disk.claim()
    }

    fn write_at(&mut self, at: u64, from: &[u8]) -> Result<(), Failed> {
        self.gate.reach();
        self.disk.write_at(at, from)
    }

    fn sync(&mut self) -> Result<(), Failed> {
        self.disk.sync()
    }
}
