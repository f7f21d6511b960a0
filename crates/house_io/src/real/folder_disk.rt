//! The disk of a name in a folder: it is read without leave to write, and made, locked and written once it is claimed. It counts its
//! faults, says them on standard error, and tells no content.
ghost use Rattle.std.specs.Prelude.{false, is_some, ◌≡◌, ◌<◌, ◌≤◌, ℕ, length, IfOk, OnOk, OnErr, IsOk, IsSome, IsTrue};
ghost use Rattle.std.proofs.Common.{rules};
ghost use Rattle.house_io.specs.Faults.{HasCause, faults_after};
ghost use Rattle.house_io.specs.Disks.{untold};
ghost use Rattle.house_io.specs.OpenFiles.{IsLengthOf, ReadsFile, WritesAt, WritesFile};

use crate::real::file_disk::{end_of, lengthen, read_from, write_to};
use crate::real::locks::LockFile;
use crate::real::opening::claim_file;
use crate::real::reporting::{Call, Reporter};
use crate::{Disk, Failed};
use std::fs::OpenFile;
use std::io::{self, Read, Seek, Write};
use std::marker::Model;
use std::rt::Files;
use std::sync::ArcStr;

/// The disk of a name, seen as its file, where it is there, whether it is claimed, and the count of its faults.
#[derive(Drop)]
pub struct FolderDisk<'a, R: Files> {
    /// The runtime by which its file is opened, and a fault is said.
    rt: &'a R,
    /// Counts its faults, and says them.
    reporter: Reporter,
    /// None where the name was absent, as long as it is not claimed.
    file: Option<R::File>,
    /// The file was made, locked, and is open for writing.
    is_claimed: bool,
}

impl<'a, R: Files> Model for FolderDisk<'a, R> {
    ghost use Rattle.std.specs.Prelude.{IsTrue, IsSome};
    ghost use Rattle.house_io.specs.Opened.{OpenedDisk};

    ghost Value = { OpenedDisk R.File };

    ghost view = { λ disk. record { file = disk.file; claimed = disk.is_claimed; faults = disk.reporter } };

    ghost invariant = { λ disk. IsTrue disk.is_claimed → IsSome disk.file };
}

impl<'a, R: Files> FolderDisk<'a, R> {
    /// A disk on a file that was opened for reading, or on none. It is not claimed, and has not failed yet.
    pub(crate) fn new(rt: &'a R, name: ArcStr, file: Option<R::File>) -> FolderDisk<'a, R>
        ensures { result ≡ record { file = file; claimed = false; faults = 0 } }
    {
        FolderDisk {
            rt,
            reporter: Reporter::new(name),
            file,
            is_claimed: false,
        }
    }

    /// Whether its file is there: it was found, or made.
    pub(crate) fn is_there(&self) -> bool
        ensures { result ≡ is_some self.now.file }
    {
        self.file.is_some()
    }

    /// How often it has failed.
    pub fn faults(&self) -> u64
        ensures { result ≡ self.now.faults }
    {
        self.reporter.faults()
    }
}

/// The length of a file, or of none.
fn size_of<F: Seek>(file: &mut Option<F>) -> io::Result<u64>
    ensures size { IfOk result (λ n. IsLengthOf F.stream_position F.stream_bytes n file.old) }
    ensures there { IsSome file.old → IsSome file.new }
{
    match file {
        None => Ok(0),
        Some(file) => end_of(file),
    }
}

/// Reads a file, or none, as a disk does.
fn read_of<F: Read + Seek>(file: &mut Option<F>, at: u64, into: &mut [u8]) -> io::Result<usize>
    ensures count { IfOk result (λ n. n ≤ length into.old) }
    ensures reads { IfOk result (λ n. ReadsFile F.stream_position F.remaining at n into.new file.old file.new) }
    ensures there { IsSome file.old → IsSome file.new }
{
    match file {
        None => Ok(0),
        Some(file) => read_from(file, at, into),
    }
}

/// Writes a file that is there.
fn write_of<F: Write + Seek + OpenFile>(
    file: &mut Option<F>,
    at: u64,
    from: &[u8],
) -> io::Result<()>
    requires { IsSome file.old }
    ensures writes { OnOk result (0 < length from.now → WritesFile F.stream_position F.contents at from.now file.old file.new) }
    ensures there { IsSome file.new }
{
    match file {
        None => unreachable!(),
        Some(file) => write_piece(file, at, from),
    }
}

/// Writes a piece as a disk does, which lengthens the file also where it has no bytes.
fn write_piece<F: Write + Seek + OpenFile>(file: &mut F, at: u64, from: &[u8]) -> io::Result<()>
    ensures { OnOk result (0 < length from.now → WritesAt F.stream_position F.contents at from.now file.old file.new) }
{
    if from.is_empty() {
        return lengthen(file, at);
    }
    write_to(file, at, from)
}

/// Syncs a file, or none.
fn sync_of<F: OpenFile>(file: &Option<F>) -> io::Result<()> {
    match file {
        None => Ok(()),
        Some(file) => file.sync_data(),
    }
}

impl<'a, R: Files + Eprint> Disk for FolderDisk<'a, R>
where
    R::File: LockFile,
{
    // It tells nothing.
    ghost shown = { λ disk. untold disk.claimed disk.faults };

    ghost reads_an_image = { λ disk told. Prim.search rules };

    fn size(&mut self) -> Result<u64, Failed>
        ensures size { IfOk result (λ n. IsLengthOf R.File.stream_position R.File.stream_bytes n self.old.file) }
        ensures claimed { self.new.claimed ≡ self.old.claimed }
        ensures faults { self.new.faults ≡ faults_after result self.old.faults }
        ensures cause { HasCause self.old.faults self.new.faults result }
    {
        let outcome = size_of(&mut self.file);
        self.reporter.ended(self.rt, Call::Size, outcome)
    }

    fn read_at(&mut self, at: u64, into: &mut [u8]) -> Result<usize, Failed>
        ensures count { IfOk result (λ n. n ≤ length into.old) }
        ensures reads { IfOk result (λ n. ReadsFile R.File.stream_position R.File.remaining at n into.new self.old.file self.new.file) }
        ensures claimed { self.new.claimed ≡ self.old.claimed }
        ensures faults { self.new.faults ≡ faults_after result self.old.faults }
        ensures cause { HasCause self.old.faults self.new.faults result }
    {
        let outcome = read_of(&mut self.file, at, into);
        self.reporter.ended(self.rt, Call::Read, outcome)
    }

    /// Opens the file for writing, makes it where it is absent, and locks it. The lock is held until the disk is closed.
    fn claim(&mut self) -> Result<(), Failed>
        ensures claimed { OnOk result (IsTrue self.new.claimed) }
        ensures already { IsTrue self.old.claimed → self.new ≡ self.old }
        ensures failed { OnErr result ((self.new.file ≡ self.old.file) × (self.new.claimed ≡ self.old.claimed)) }
        ensures faults { self.new.faults ≡ faults_after result self.old.faults }
        ensures cause { HasCause self.old.faults self.new.faults result }
    {
        if self.is_claimed {
            return Ok(());
        }
        match claim_file(self.rt, self.reporter.name()) {
            Ok(file) => {
                self.file = Some(file);
                self.is_claimed = true;
                self.reporter.went_well();
                Ok(())
            }
            Err(error) => Err(self.reporter.failed(self.rt, Call::Claim, &error)),
        }
    }

    fn write_at(&mut self, at: u64, from: &[u8]) -> Result<(), Failed>
        requires { IsTrue self.old.claimed }
        ensures writes { OnOk result (0 < length from.now
            → WritesFile R.File.stream_position R.File.contents at from.now self.old.file self.new.file) }
        ensures claimed { self.new.claimed ≡ self.old.claimed }
        ensures faults { self.new.faults ≡ faults_after result self.old.faults }
        ensures cause { HasCause self.old.faults self.new.faults result }
    {
        let outcome = write_of(&mut self.file, at, from);
        self.reporter.ended(self.rt, Call::Write, outcome)
    }

    /// Syncs the data and the length.
    fn sync(&mut self) -> Result<(), Failed>
        ensures file { self.new.file ≡ self.old.file }
        ensures claimed { self.new.claimed ≡ self.old.claimed }
        ensures faults { self.new.faults ≡ faults_after result self.old.faults }
        ensures cause { HasCause self.old.faults self.new.faults result }
    {
        let outcome = sync_of(&self.file);
        self.reporter.ended(self.rt, Call::Sync, outcome)
    }
}
