//! Files that are opened by their names.
ghost use Rattle.std.specs.Prelude.{◌≡◌, ℕ, List, Option, IfOk, OnErr, IsSome, Contains};

use crate::{Disk, Source};
use std::alloc::Global;

/// Why a file is not opened.
#[derive(Clone, Copy, Debug, PartialEq, Eq)]
pub enum Refusal {
    /// A call on it failed; the shelf has counted it.
    Failed,
    /// There was no memory for what the shelf keeps of it.
    NoMemory,
}

/// Files that are opened by their names. It counts faults by name, those of closed sources among them.
pub trait Shelf {
    ghost use Rattle.house_io.specs.Disks.{IsFresh};
    ghost use Rattle.house_io.specs.Shelves.{NamedFile, bytes_of, Begins, ChangesNone, ChangesOnly, IfTells, IfWasTold, StandsAs, IsLeftBy, IsOpening, Adds, shelf_state};

    type Source: Source;

    // A thread may own it.
    type Disk: Disk + Send;

    /// The files, where it tells them.
    ghost files: { Self → Option (List NamedFile) };

    /// How often a call on each name has failed.
    ghost faults: { Self → List ℕ → ℕ };

    /// The names that it has opened, or could not open for a fault: each once, in the order in which they came.
    ghost opened: { Self → List (List ℕ) };

    /// Opens a file for reading. An absent one fails, or gives an empty source.
    fn source(&mut self, alloc: Global, name: &str) -> Result<Self::Source, Refusal>
        ensures fresh { IfOk result (λ source. Self.Source.Source.faults source ≡ 0) }
        ensures bytes { IfOk result (λ source. IfTells (files self.new) (λ shelved.
            Begins (bytes_of shelved name.now) (Self.Source.Source.left source))) }
        ensures files { ChangesNone (files self.old) (files self.new) }
        ensures opening { IsOpening result name.now (shelf_state files faults opened self.old) (shelf_state files faults opened self.new) };

    /// Takes a source back. It takes no memory.
    fn close_source(&mut self, name: &str, source: Self::Source)
        requires { Contains (opened self.old) name.now }
        ensures counts { Adds name.now (Self.Source.Source.faults source) (faults self.old) (faults self.new) }
        ensures files { ChangesNone (files self.old) (files self.new) }
        ensures told { IfTells (files self.new) (λ _. IsSome (Self.Source.Source.left source)) }
        ensures names { opened self.new ≡ opened self.old };

    /// Opens a file for reading. The disk stands as the file does; an absent one is opened empty. No file is made or changed: who writes
    /// claims the disk first.
    fn disk(&mut self, alloc: Global, name: &str) -> Result<Self::Disk, Refusal>
        ensures fresh { IfOk result (λ disk. IsFresh (Self.Disk.Disk.shown disk)) }
        ensures stands { IfOk result (λ disk. IfTells (files self.new) (StandsAs name.now (Self.Disk.Disk.shown disk))) }
        ensures files { ChangesNone (files self.old) (files self.new) }
        ensures opening { IsOpening result name.now (shelf_state files faults opened self.old) (shelf_state files faults opened self.new) };

    /// Takes a disk back, and leaves its file as it stands. A file that was absent is there from then on only if the disk was claimed. It
    /// takes no memory.
    fn close_disk(&mut self, name: &str, disk: Self::Disk)
        requires { Contains (opened self.old) name.now }
        ensures counts { Adds name.now (Self.Disk.Disk.shown disk).faults (faults self.old) (faults self.new) }
        ensures left { IfTells (files self.new)
            (λ after. IfWasTold (files self.old) (λ before. IsLeftBy name.now (Self.Disk.Disk.shown disk) before after)) }
        ensures others { ChangesOnly name.now (files self.old) (files self.new) }
        ensures names { opened self.new ≡ opened self.old };
}
