//! Files in memory that never fail.
ghost use Rattle.std.specs.Prelude.{◌≡◌, false, [], ℕ, List, Some, None, unwrap_or, option_map, IfOk, IfErr, OnErr, IsTrue, MatchOption};
ghost use Rattle.house_io.specs.Shelves.{IsOpening, bytes_of, moments_at};
ghost use Rattle.house_io.specs.ShelvedFiles.{KeepsDisk, shown_files};
ghost use Rattle.house_io.specs.SureFiles.{AnswersDisk, closing, fresh_shelf, as_shelved, files_as_shelved, sure_state};
ghost use Rattle.house_io.specs.Recorded.{moments_of};
ghost use Rattle.house_io.specs.declared.shelves.Refusal.TheVariants as why;

use crate::memory::shelved::{Entry, Files, disk_of, file_named, keep};
use crate::tallies::Tallies;
use crate::{Refusal, Shelf, SureDisk, SureSource};
use lot_base::NoMemory;
use std::alloc::{AllocError, Global};
use std::marker::Model;

/// A named file in memory.
#[derive(Drop)]
pub struct SureFile {
    /// By which it is opened. Of several files of a name the first counts.
    pub name: String,
    /// What it holds at first.
    pub bytes: Vec<u8>,
}

/// Files in memory that never fail. An absent name gives an empty source, and an empty disk. It tells until a disk that
/// ceased to tell is closed.
#[derive(Drop)]
pub struct SureShelf {
    /// The files, and the entries that are reserved for files to be.
    files: Files<SureDisk>,
    /// The names that were opened.
    tallies: Tallies,
    /// The room of each new disk, in bytes and in calls.
    room: u32,
    /// It tells its files.
    told: bool,
}

impl Model for SureShelf {
    ghost use Rattle.house_io.specs.SureFiles.{Shelved};

    ghost Value = { Shelved };

    ghost use Rattle.house_io.specs.Counts.{names_of};

    ghost view = { λ shelf. record {
      files = shelf.files.there.items;
      reserved = shelf.files.reserved.items;
      opened = names_of shelf.tallies;
      room = shelf.room;
      told = shelf.told;
    } };
}

impl SureShelf {
    /// A shelf with these files. The room is that of each disk that is opened on it.
    pub fn new(alloc: Global, files: Vec<SureFile>, room: u32) -> Result<SureShelf, NoMemory>
        ensures { IfOk result (λ shelf. shelf ≡ fresh_shelf (files_as_shelved files.items) room) }
    {
        let files = Files::new(alloc, entries_of(alloc, files)?);
        Ok(SureShelf {
            files,
            tallies: Tallies::new(alloc),
            room,
            told: true,
        })
    }

    /// The bytes of a file.
    pub fn file(&self, name: &str) -> Option<&[u8]>
        ensures { MatchOption result (bytes_of (shown_files self.now.files) name.now ≡ None)
            (λ bytes. bytes_of (shown_files self.now.files) name.now ≡ Some bytes.now) }
    {
        Some(file_named(&self.files.there, name)?.bytes())
    }

    /// A copy of the bytes of a file, or no bytes where it is absent.
    fn copy_of(&self, alloc: Global, name: &str) -> Result<Vec<u8>, NoMemory>
        ensures { IfOk result (λ bytes. bytes.items ≡ unwrap_or (bytes_of (shown_files self.now.files) name.now) []) }
    {
        match self.file(name) {
            Some(bytes) => Ok(bytes.to_vec(alloc)?),
            None => Ok(Vec::new(alloc)),
        }
    }
}

fn entries_of(alloc: Global, files: Vec<SureFile>) -> Result<Vec<Entry<SureDisk>>, AllocError>
    ensures { IfOk result (λ entries. entries.items ≡ files_as_shelved files.items) }
{
    let mut entries = Vec::new(alloc);
    for file in files {
        let SureFile { name, bytes } = file;
        entries.push(Entry::new(name, bytes, Vec::new(alloc)))?;
    }
    Ok(entries)
}

impl Shelf for SureShelf {
    ghost use Rattle.house_io.specs.ShelvedFiles.{told_files};

    type Source = SureSource;

    type Disk = SureDisk;

    ghost files = { λ shelf. told_files shelf.told shelf.files };

    ghost faults = { λ _ _. 0 };

    ghost opened = { λ shelf. shelf.opened };

    fn source(&mut self, alloc: Global, name: &str) -> Result<SureSource, Refusal>
        ensures bytes { IfOk result (λ source. source ≡ unwrap_or (bytes_of (shown_files self.old.files) name.now) []) }
        ensures sure { IfErr result (λ refusal. refusal ≡ why.NoMemory) }
        ensures unchanged { OnErr result (self.new ≡ self.old) }
        ensures rest { self.new ≡ record self.old { opened = self.new.opened } }
        ensures opening { IsOpening result name.now (sure_state self.old) (sure_state self.new) }
    {
        let bytes = match self.copy_of(alloc, name) {
            Ok(bytes) => bytes,
            Err(NoMemory) => return Err(Refusal::NoMemory),
        };
        match self.tallies.begin(alloc, name) {
            Ok(()) => Ok(SureSource::whole(bytes)),
            Err(_) => Err(Refusal::NoMemory),
        }
    }

    fn close_source(&mut self, _name: &str, _source: SureSource)
        ensures unchanged { self.new ≡ self.old }
    {}

    fn disk(&mut self, alloc: Global, name: &str) -> Result<SureDisk, Refusal>
        ensures answer { AnswersDisk self.old name.now result self.new }
        ensures opening { IsOpening result name.now (sure_state self.old) (sure_state self.new) }
        ensures fresh { IfOk result (λ disk. disk.claimed ≡ false) }
        // And so, of what the shelf tells:
        ensures stands { IfOk result (λ disk. IsTrue disk.file.told
            × (moments_of disk.file ≡ moments_at (shown_files self.old.files) name.now)) }
        ensures same { (self.new.told ≡ self.old.told) × (self.new.files ≡ self.old.files) }
    {
        let names = self.tallies.len();
        if let Err(_) = self.tallies.begin(alloc, name) {
            return Err(Refusal::NoMemory);
        }
        match disk_of(alloc, &mut self.files, name, self.room) {
            Ok(disk) => Ok(disk),
            Err(NoMemory) => {
                self.tallies.cut(names);
                Err(Refusal::NoMemory)
            }
        }
    }

    fn close_disk(&mut self, name: &str, disk: SureDisk)
        ensures keeps { KeepsDisk name.now disk.file.told disk.claimed (as_shelved disk) (closing self.old) (closing self.new) }
        ensures rest { (self.new.room ≡ self.old.room) × (self.new.opened ≡ self.old.opened) }
    {
        let is_claimed = disk.claimed;
        // It is to be claimed anew when it is opened again.
        let disk = SureDisk {
            claimed: false,
            ..disk
        };
        self.told = disk.file.told && keep(&mut self.files, name, disk, is_claimed) && self.told;
    }
}
