//! Files in memory of which chosen calls fail.
ghost use Rattle.std.specs.Prelude.{◌≡◌, false, ℕ, List, Some, None, IfOk, OnErr, IsTrue, Contains, MatchOption, option_map};
ghost use Rattle.house_io.specs.Recorded.{moments_of};
ghost use Rattle.house_io.specs.Shelves.{Adds, IsOpening, bytes_of, moments_at};
ghost use Rattle.house_io.specs.Counts.{count_of, names_of};
ghost use Rattle.house_io.specs.ListShelves.{Answers, closing, fresh_shelf, listed_state, source_on};
ghost use Rattle.house_io.specs.ListFiles.{AnswersDisk, disk_as_listed, files_as_listed};
ghost use Rattle.house_io.specs.ShelvedFiles.{KeepsDisk, shelved_file, shown_file, shown_files};

use crate::memory::failing::FailingCalls;
use crate::memory::shelved::{Entry, Files, disk_of, file_named, keep};
use crate::tallies::Tallies;
use crate::{ListDisk, ListSource, Refusal, Shelf};
use lot_base::NoMemory;
use std::alloc::{AllocError, Global};
use std::marker::Model;

/// A named file in memory, with the numbers of the calls that fail on a source that is opened on it.
#[derive(Drop)]
pub struct ListFile {
    /// By which it is opened. Of several files of a name the first counts.
    pub name: String,
    /// What it holds at first.
    pub bytes: Vec<u8>,
    /// The numbers of the calls that fail on a source, or on a new disk, that is opened on it.
    pub failing: Vec<u64>,
}

/// Files in memory, of which chosen calls fail. An absent name fails as a source, and is an empty disk. It tells until a
/// disk that ceased to tell is closed.
#[derive(Drop)]
pub struct ListShelf {
    /// The files, and the entries that are reserved for files to be.
    files: Files<ListDisk>,
    /// Which openings fail.
    plan: FailingCalls,
    /// The names that were opened, and the faults of each.
    tallies: Tallies,
    /// The room of each new disk, in bytes and in calls.
    room: u32,
    /// It tells its files.
    told: bool,
}

impl Model for ListShelf {
    ghost use Rattle.house_io.specs.ListShelves.{ListedShelf};

    ghost Value = { ListedShelf };

    ghost view = { λ shelf. record {
      files = shelf.files.there.items;
      reserved = shelf.files.reserved.items;
      plan = shelf.plan;
      counts = shelf.tallies;
      room = shelf.room;
      told = shelf.told;
    } };
}

impl ListShelf {
    /// A shelf with these files, of which the openings with these numbers fail. The room is that of each disk that
    /// is opened on it.
    pub fn new(
        alloc: Global,
        files: Vec<ListFile>,
        room: u32,
        failing: Vec<u64>,
    ) -> Result<ListShelf, NoMemory>
        ensures { IfOk result (λ shelf. shelf ≡ fresh_shelf (files_as_listed files.items) room failing.items) }
    {
        let files = Files::new(alloc, entries_of(alloc, files)?);
        Ok(ListShelf {
            files,
            plan: FailingCalls::new(failing),
            tallies: Tallies::new(alloc),
            room,
            told: true,
        })
    }

    /// The bytes of a file.
    pub fn file(&self, name: &str) -> Option<&[u8]>
        ensures { MatchOption result (shelved_file self.now.files name.now ≡ None)
            (λ bytes. option_map (λ file. (shown_file file).moments.now.read) (shelved_file self.now.files name.now) ≡ Some bytes.now) }
    {
        Some(file_named(&self.files.there, name)?.bytes())
    }
}

fn entries_of(alloc: Global, files: Vec<ListFile>) -> Result<Vec<Entry<ListDisk>>, AllocError>
    ensures { IfOk result (λ entries. entries.items ≡ files_as_listed files.items) }
{
    let mut entries = Vec::new(alloc);
    for file in files {
        let ListFile {
            name,
            bytes,
            failing,
        } = file;
        entries.push(Entry::new(name, bytes, failing))?;
    }
    Ok(entries)
}

/// A source on a copy of the file of a name, if there is one.
fn source_named(
    alloc: Global,
    files: &[Entry<ListDisk>],
    name: &str,
) -> Result<Option<ListSource>, AllocError>
    ensures source { IfOk result (λ source. source ≡ option_map source_on (shelved_file files.now name.now)) }
    ensures bytes { IfOk result (λ source. MatchOption source (bytes_of (shown_files files.now) name.now ≡ None)
        (λ source. bytes_of (shown_files files.now) name.now ≡ Some source.left)) }
{
    let file = match file_named(files, name) {
        Some(file) => file,
        None => return Ok(None),
    };
    let bytes = file.bytes().to_vec(alloc)?;
    let failing = file.failing.to_vec(alloc)?;
    Ok(Some(ListSource::whole(bytes, failing)))
}

impl Shelf for ListShelf {
    ghost use Rattle.house_io.specs.ShelvedFiles.{told_files};

    type Source = ListSource;

    type Disk = ListDisk;

    ghost files = { λ shelf. told_files shelf.told shelf.files };

    ghost faults = { λ shelf name. count_of shelf.counts name };

    ghost opened = { λ shelf. names_of shelf.counts };

    fn source(&mut self, alloc: Global, name: &str) -> Result<ListSource, Refusal>
        ensures answer { Answers self.old name.now result self.new }
        ensures bytes { IfOk result (λ source. bytes_of (shown_files self.old.files) name.now ≡ Some source.left) }
        ensures opening { IsOpening result name.now (listed_state self.old) (listed_state self.new) }
    {
        // The memory before the plan: an opening that finds none is no call.
        let source = match source_named(alloc, &self.files.there, name) {
            Ok(source) => source,
            Err(_) => return Err(Refusal::NoMemory),
        };
        if let Err(_) = self.tallies.begin(alloc, name) {
            return Err(Refusal::NoMemory);
        }
        if self.plan.next_fails() {
            self.tallies.raise(name, 1);
            return Err(Refusal::Failed);
        }
        match source {
            Some(source) => Ok(source),
            None => {
                self.tallies.raise(name, 1);
                Err(Refusal::Failed)
            }
        }
    }

    fn close_source(&mut self, name: &str, source: ListSource)
        requires { Contains (names_of self.old.counts) name.now }
        ensures added { Adds name.now source.faults (count_of self.old.counts) (count_of self.new.counts) }
        ensures rest { self.new ≡ record self.old { counts = self.new.counts } }
        ensures names { names_of self.new.counts ≡ names_of self.old.counts }
    {
        self.tallies.raise(name, source.faults());
    }

    fn disk(&mut self, alloc: Global, name: &str) -> Result<ListDisk, Refusal>
        ensures answer { AnswersDisk self.old name.now result self.new }
        ensures fresh { IfOk result (λ disk. (disk.claimed ≡ false) × (disk.faults ≡ 0)) }
        ensures opening { IsOpening result name.now (listed_state self.old) (listed_state self.new) }
        // And so, of what the shelf tells:
        ensures stands { IfOk result (λ disk. IsTrue disk.file.told
            × (moments_of disk.file ≡ moments_at (shown_files self.old.files) name.now)) }
        ensures same { (self.new.told ≡ self.old.told) × (self.new.files ≡ self.old.files) }
    {
        let names = self.tallies.len();
        if let Err(_) = self.tallies.begin(alloc, name) {
            return Err(Refusal::NoMemory);
        }
        // Memory may still run out, and then this was no call: so the plan is asked, and moves on below.
        if self.plan.is_failing() {
            let _ = self.plan.next_fails();
            self.tallies.raise(name, 1);
            return Err(Refusal::Failed);
        }
        match disk_of(alloc, &mut self.files, name, self.room) {
            Ok(disk) => {
                let _ = self.plan.next_fails();
                Ok(disk)
            }
            Err(NoMemory) => {
                self.tallies.cut(names);
                Err(Refusal::NoMemory)
            }
        }
    }

    fn close_disk(&mut self, name: &str, disk: ListDisk)
        requires { Contains (names_of self.old.counts) name.now }
        ensures added { Adds name.now disk.faults (count_of self.old.counts) (count_of self.new.counts) }
        ensures keeps { KeepsDisk name.now disk.file.told disk.claimed (disk_as_listed disk) (closing self.old) (closing self.new) }
        ensures rest { (self.new.room ≡ self.old.room) × (self.new.plan ≡ self.old.plan) }
        ensures names { names_of self.new.counts ≡ names_of self.old.counts }
    {
        self.tallies.raise(name, disk.faults);
        let is_claimed = disk.claimed;
        // The shelf has counted them, so the disk counts from 0 when it is opened again; and then it is to be claimed anew.
        let disk = ListDisk {
            claimed: false,
            faults: 0,
            ..disk
        };
        self.told = disk.file.told && keep(&mut self.files, name, disk, is_claimed) && self.told;
    }
}
