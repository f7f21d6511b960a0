//! The files of the folder in which the program runs.
ghost use Rattle.std.specs.Prelude.{◌≡◌, ◌<◌, ◌^◌, None, List, [], Err, IfOk};
ghost use Rattle.house_io.specs.Disks.{IsFresh, untold};
ghost use Rattle.house_io.specs.Counts.{NamedCount, count_of, counted_state, names_of};
ghost use Rattle.house_io.specs.Shelves.{IfTells, ChangesNone, CountsOpening, IsOpening};
ghost use Rattle.house_io.specs.declared.shelves.Refusal.TheVariants as why;

use crate::real::folder_disk::FolderDisk;
use crate::real::folder_source::FolderSource;
use crate::real::locks::LockFile;
use crate::real::opening::find_file;
use crate::real::reporting::{Call, say};
use crate::tallies::Tallies;
use crate::{Refusal, Shelf};
use std::alloc::Global;
use std::fs;
use std::marker::Model;
use std::rt::Files;
use std::sync::ArcStr;

/// Files that are named relative to the working directory, seen as the counts of their faults by name. An absent name fails as a
/// source, and is a disk without bytes, unless its folder is absent too. Each fault is said on standard error, once for each cause
/// in a row.
#[derive(Drop)]
pub struct FolderShelf<'a, R: Files> {
    /// The runtime by which files are opened.
    rt: &'a R,
    /// The names that were opened, and the faults of each.
    tallies: Tallies,
    /// A disk was given out.
    gave_disk: bool,
    /// The file of such a disk was there at its opening, or at its closing.
    found_disk: bool,
}

impl<'a, R: Files> Model for FolderShelf<'a, R> {
    ghost Value = { List NamedCount };

    ghost view = { λ shelf. shelf.tallies };
}

impl<'a, R: Files> FolderShelf<'a, R> {
    /// The files of this runtime, none of which has failed yet.
    pub fn new(alloc: Global, rt: &'a R) -> FolderShelf<'a, R>
        ensures { result ≡ [] }
    {
        FolderShelf {
            rt,
            tallies: Tallies::new(alloc),
            gave_disk: false,
            found_disk: false,
        }
    }

    /// Whether disks were given out, and the file of none of them was there, neither at its opening nor, as a claim leaves it, at its
    /// closing.
    pub fn found_no_disk(&self) -> bool {
        self.gave_disk && !self.found_disk
    }
}

impl<'a, R: Files + Eprint + Sync> Shelf for FolderShelf<'a, R>
where
    R::File: LockFile + Send,
{
    type Source = FolderSource<'a, R>;

    type Disk = FolderDisk<'a, R>;

    ghost files = { λ _. None };

    ghost faults = { λ shelf name. count_of shelf name };

    ghost opened = { λ shelf. names_of shelf };

    fn source(&mut self, alloc: Global, name: &str) -> Result<FolderSource<'a, R>, Refusal>
        // It tells nothing.
        ensures bytes { IfOk result (λ _. IfTells None (λ _. ⊥)) }
        ensures fresh { IfOk result (λ source. source.faults ≡ 0) }
        ensures counting { CountsOpening name.now result (count_of self.old) (count_of self.new) }
        ensures memory { result ≡ Err why.NoMemory → self.new ≡ self.old }
        ensures opening { IsOpening result name.now (counted_state None self.old) (counted_state None self.new) }
    {
        let Ok(own) = ArcStr::from_str(alloc, name) else {
            return Err(Refusal::NoMemory);
        };
        if let Err(_) = self.tallies.begin(alloc, name) {
            return Err(Refusal::NoMemory);
        }
        match fs::open(self.rt, name) {
            Ok(file) => Ok(FolderSource::new(self.rt, own, file)),
            Err(error) => {
                say(self.rt, name, Call::Open, &error);
                self.tallies.raise(name, 1);
                Err(Refusal::Failed)
            }
        }
    }

    fn close_source(&mut self, name: &str, source: FolderSource<'a, R>) {
        self.tallies.raise(name, source.faults());
    }

    fn disk(&mut self, alloc: Global, name: &str) -> Result<FolderDisk<'a, R>, Refusal>
        // It tells nothing.
        ensures stands { IfOk result (λ _. IfTells None (λ _. ⊥)) }
        ensures files { ChangesNone None None }
        ensures fresh { IfOk result (λ disk. IsFresh (untold disk.claimed disk.faults)) }
        ensures counting { CountsOpening name.now result (count_of self.old) (count_of self.new) }
        ensures memory { result ≡ Err why.NoMemory → self.new ≡ self.old }
        ensures opening { IsOpening result name.now (counted_state None self.old) (counted_state None self.new) }
    {
        let Ok(own) = ArcStr::from_str(alloc, name) else {
            return Err(Refusal::NoMemory);
        };
        if let Err(_) = self.tallies.begin(alloc, name) {
            return Err(Refusal::NoMemory);
        }
        match find_file(self.rt, name) {
            Ok(file) => {
                self.gave_disk = true;
                self.found_disk = self.found_disk || file.is_some();
                Ok(FolderDisk::new(self.rt, own, file))
            }
            Err(error) => {
                say(self.rt, name, Call::Open, &error);
                self.tallies.raise(name, 1);
                Err(Refusal::Failed)
            }
        }
    }

    fn close_disk(&mut self, name: &str, disk: FolderDisk<'a, R>) {
        self.found_disk = self.found_disk || disk.is_there();
        self.tallies.raise(name, disk.faults());
    }
}
