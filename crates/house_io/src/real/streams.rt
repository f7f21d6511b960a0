//! The real source and sink: an open file, and standard output. They count their faults, and tell no content.
ghost use Rattle.std.specs.Prelude.{◌≡◌, ◌≤◌, ℕ, None, length, IfOk};
ghost use Rattle.std.specs.Io.KnownBytes.{ReadConsumes};
ghost use Rattle.house_io.specs.Faults.{HasCause, faults_after};
ghost use Rattle.house_io.specs.Sinks.{IsPart};

use crate::{Failed, Sink, Source};
use std::io::Read;
use std::marker::Model;

/// A file that is open for reading, seen as the file and the count of its faults.
#[derive(Drop)]
pub struct FileSource<F> {
    /// Its position is where the last pull ended.
    file: F,
    /// How often it has failed, up to the last value of 64 bits.
    faults: u64,
}

impl<F> Model for FileSource<F> {
    ghost use Rattle.house_io.specs.Opened.{OpenedFile};

    ghost Value = { OpenedFile F };

    ghost view = { λ source. record { file = source.file; faults = source.faults } };
}

impl<F> FileSource<F> {
    /// A source on an open file. It has not failed yet.
    pub fn new(file: F) -> FileSource<F>
        ensures { result ≡ record { file = file; faults = 0 } }
    {
        FileSource { file, faults: 0 }
    }

    /// How often it has failed.
    pub fn faults(&self) -> u64
        ensures { result ≡ self.now.faults }
    {
        self.faults
    }
}

impl<F: Read> Source for FileSource<F> {
    ghost left = { λ _. None };

    ghost faults = { λ source. source.faults };

    fn pull(&mut self, into: &mut [u8]) -> Result<usize, Failed>
        ensures within { IfOk result (λ count. count ≤ length into.new) }
        // Of a file whose bytes are known.
        ensures reads { ReadConsumes (F.remaining self.old.file) (F.remaining self.new.file) result into.new }
        ensures faults { self.new.faults ≡ faults_after result self.old.faults }
    {
        match self.file.read(into) {
            Ok(count) => Ok(count),
            Err(_) => {
                self.faults = self.faults.saturating_add(1);
                Err(Failed)
            }
        }
    }
}

/// Standard output, seen as the count of its faults. It keeps no buffer: what a push took has left the process.
#[derive(Drop)]
pub struct StdoutSink<'a, R: Print> {
    /// The runtime whose standard output it is.
    rt: &'a R,
    /// How often it has failed, up to the last value of 64 bits.
    faults: u64,
}

impl<'a, R: Print> Model for StdoutSink<'a, R> {
    ghost Value = { ℕ };

    ghost view = { λ sink. sink.faults };
}

impl<'a, R: Print> StdoutSink<'a, R> {
    /// Standard output of this runtime. It has not failed yet.
    pub fn new(rt: &'a R) -> StdoutSink<'a, R>
        ensures { result ≡ 0 }
    {
        StdoutSink { rt, faults: 0 }
    }
}

impl<'a, R: Print> Sink for StdoutSink<'a, R> {
    ghost written = { λ _. None };

    ghost faults = { λ sink. sink };

    fn push(&mut self, from: &[u8]) -> Result<usize, Failed>
        ensures part { IfOk result (λ count. IsPart count from.now) }
        ensures faults { self.new ≡ faults_after result self.old }
        ensures cause { HasCause self.old self.new result }
    {
        match self.rt.write_some(from) {
            Ok(count) if count > 0 || from.is_empty() => Ok(count),
            _ => {
                self.faults = self.faults.saturating_add(1);
                Err(Failed)
            }
        }
    }
}
