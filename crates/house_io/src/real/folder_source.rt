//! The source on a file in a folder. It counts its faults, says them on standard error, and tells no content.
ghost use Rattle.std.specs.Prelude.{◌≡◌, ◌≤◌, ℕ, None, length, IfOk};
ghost use Rattle.std.specs.Io.KnownBytes.{ReadConsumes};
ghost use Rattle.house_io.specs.Faults.{HasCause, faults_after};

use crate::real::reporting::{Call, Reporter};
use crate::{Failed, Source};
use std::io::Read;
use std::marker::Model;
use std::rt::Files;
use std::sync::ArcStr;

/// A file that is open for reading, seen as the file and the count of its faults.
#[derive(Drop)]
pub struct FolderSource<'a, R: Files> {
    /// The runtime by which a fault is said.
    rt: &'a R,
    /// Its position is where the last pull ended.
    file: R::File,
    /// Counts its faults, and says them.
    reporter: Reporter,
}

impl<'a, R: Files> Model for FolderSource<'a, R> {
    ghost use Rattle.house_io.specs.Opened.{OpenedFile};

    ghost Value = { OpenedFile R.File };

    ghost view = { λ source. record { file = source.file; faults = source.reporter } };
}

impl<'a, R: Files> FolderSource<'a, R> {
    /// A source on an open file. It has not failed yet.
    pub(crate) fn new(rt: &'a R, name: ArcStr, file: R::File) -> FolderSource<'a, R>
        ensures { result ≡ record { file = file; faults = 0 } }
    {
        FolderSource {
            rt,
            file,
            reporter: Reporter::new(name),
        }
    }

    /// How often it has failed.
    pub fn faults(&self) -> u64
        ensures { result ≡ self.now.faults }
    {
        self.reporter.faults()
    }
}

impl<'a, R: Files + Eprint> Source for FolderSource<'a, R> {
    ghost left = { λ _. None };

    ghost faults = { λ source. source.faults };

    fn pull(&mut self, into: &mut [u8]) -> Result<usize, Failed>
        ensures within { IfOk result (λ count. count ≤ length into.new) }
        // Of a file whose bytes are known.
        ensures reads { ReadConsumes (R.File.remaining self.old.file) (R.File.remaining self.new.file) result into.new }
        ensures faults { self.new.faults ≡ faults_after result self.old.faults }
        ensures cause { HasCause self.old.faults self.new.faults result }
    {
        match self.file.read(into) {
            Ok(count) => {
                self.reporter.went_well();
                Ok(count)
            }
            Err(error) => Err(self.reporter.failed(self.rt, Call::Read, &error)),
        }
    }
}
