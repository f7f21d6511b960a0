//! A disk over a real file. It counts its faults and tells no content.
ghost use Rattle.std.specs.Prelude.{true, ◌≡◌, ◌<◌, ◌≤◌, ℕ, length, take, Ok, IsOk, IfOk, OnOk};
ghost use Rattle.std.specs.Io.KnownBytes.{Consumes, IsAtEnd};
ghost use Rattle.std.proofs.Common.{rules};
ghost use Rattle.house_io.specs.Faults.{HasCause, faults_after};
ghost use Rattle.house_io.specs.Disks.{untold};
ghost use Rattle.house_io.specs.OpenFiles.{IsLength, ReadsAt, WritesAt};

use crate::{Disk, Failed};
use std::fs::OpenFile;
use std::io::{self, Read, Seek, SeekFrom, Write};
use std::marker::Model;

/// A file that is open for reading and writing, seen as the file and the count of its faults.
#[derive(Drop)]
pub struct FileDisk<F> {
    /// Its position says nothing between two calls: each read and each write goes to its offset first.
    file: F,
    /// How often a call on it has failed, up to the last value of 64 bits.
    faults: u64,
}

impl<F> Model for FileDisk<F> {
    ghost use Rattle.house_io.specs.Opened.{OpenedFile};

    ghost Value = { OpenedFile F };

    ghost view = { λ disk. record { file = disk.file; faults = disk.faults } };
}

impl<F> FileDisk<F> {
    /// A disk on an open file. It has not failed yet.
    pub fn new(file: F) -> FileDisk<F>
        ensures { result ≡ record { file = file; faults = 0 } }
    {
        FileDisk { file, faults: 0 }
    }

    /// How often it has failed.
    pub fn faults(&self) -> u64
        ensures { result ≡ self.now.faults }
    {
        self.faults
    }
}

/// Counts a call that failed.
fn counted<T: Drop>(outcome: io::Result<T>, faults: &mut u64) -> Result<T, Failed>
    ensures answer { IfOk result (λ value. outcome ≡ Ok value) }
    ensures faults { faults.new ≡ faults_after result faults.old }
{
    match outcome {
        Ok(value) => Ok(value),
        Err(_) => {
            *faults = faults.saturating_add(1);
            Err(Failed)
        }
    }
}

/// The file's length.
pub(super) fn end_of<F: Seek>(file: &mut F) -> io::Result<u64>
    ensures { IfOk result (λ n. IsLength (F.stream_position file.old) (F.stream_bytes file.old) n) }
{
    file.seek(SeekFrom::End(0))
}

/// Fills a front of the buffer from this offset on, all of it but at the file's end.
pub(super) fn read_from<F: Read + Seek>(file: &mut F, at: u64, into: &mut [u8]) -> io::Result<usize>
    ensures within { IfOk result (λ n. n ≤ length into.old) }
    ensures reads { IfOk result (λ n. ReadsAt F.stream_position F.remaining at n into.new file.old file.new) }
{
    file.seek(SeekFrom::Start(at))?;
    read_front(file, into)
}

/// Fills a front of the buffer, all of it but at the file's end.
fn read_front<F: Read>(file: &mut F, into: &mut [u8]) -> io::Result<usize>
    ensures within { IfOk result (λ n. n ≤ length into.old) }
    // Of a file whose bytes are known.
    ensures bytes { IfOk result (λ n. Consumes (F.remaining file.old) (F.remaining file.new) (take n into.new)) }
    ensures whole { IfOk result (λ n. n < length into.new → IsAtEnd (F.remaining file.new)) }
{
    let mut done = 0;
    'reads: while done < into.len() {
        let count = file.read(&mut into[done..])?;
        if count == 0 {
            return Ok(done);
        }
        done += count;
    }
    Ok(done)
}

/// Writes the whole piece at this offset.
pub(super) fn write_to<F: Write + Seek>(file: &mut F, at: u64, from: &[u8]) -> io::Result<()>
    ensures { OnOk result (WritesAt F.stream_position F.contents at from.now file.old file.new) }
{
    file.seek(SeekFrom::Start(at))?;
    // One write may take a part (must-fail `a_short_write_is_the_whole`).
    file.write_all(from)
}

/// Lengthens a file that is shorter, as a write of no bytes after its end does.
pub(super) fn lengthen<F: Seek + OpenFile>(file: &mut F, end: u64) -> io::Result<()> {
    if end_of(file)? < end {
        file.set_len(end)?;
    }
    Ok(())
}

impl<F: Read + Write + Seek + OpenFile> Disk for FileDisk<F> {
    // It tells nothing, and is claimed from the start: whoever opened the file has seen to whose it is.
    ghost shown = { λ disk. untold true disk.faults };

    ghost reads_an_image = { λ disk told. Prim.search rules };

    fn size(&mut self) -> Result<u64, Failed>
        ensures size { IfOk result (λ n. IsLength (F.stream_position self.old.file) (F.stream_bytes self.old.file) n) }
        ensures faults { self.new.faults ≡ faults_after result self.old.faults }
    {
        counted(end_of(&mut self.file), &mut self.faults)
    }

    fn read_at(&mut self, at: u64, into: &mut [u8]) -> Result<usize, Failed>
        ensures count { IfOk result (λ n. n ≤ length into.old) }
        ensures reads { IfOk result (λ n. ReadsAt F.stream_position F.remaining at n into.new self.old.file self.new.file) }
        ensures faults { self.new.faults ≡ faults_after result self.old.faults }
    {
        counted(read_from(&mut self.file, at, into), &mut self.faults)
    }

    /// No call on the file.
    fn claim(&mut self) -> Result<(), Failed>
        ensures sure { IsOk result }
        ensures unchanged { self.new ≡ self.old }
    {
        Ok(())
    }

    fn write_at(&mut self, at: u64, from: &[u8]) -> Result<(), Failed>
        ensures writes { OnOk result (0 < length from.now → WritesAt F.stream_position F.contents at from.now self.old.file self.new.file) }
        ensures faults { self.new.faults ≡ faults_after result self.old.faults }
    {
        if from.is_empty() {
            return counted(lengthen(&mut self.file, at), &mut self.faults);
        }
        counted(write_to(&mut self.file, at, from), &mut self.faults)
    }

    /// Syncs the data and the length.
    fn sync(&mut self) -> Result<(), Failed>
        ensures { self.new.faults ≡ faults_after result self.old.faults }
    {
        counted(self.file.sync_data(), &mut self.faults)
    }
}
