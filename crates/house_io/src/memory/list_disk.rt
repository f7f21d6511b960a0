//! A disk in memory, of which chosen calls fail.
ghost use Rattle.std.specs.Prelude.{◌≡◌, ◌↔◌, ◌-◌, true, false, IsTrue, IsOk, IfOk, OnOk, OnErr, IsErr, length, take, drop, min};
ghost use Rattle.house_io.specs.Faults.{faults_after};
ghost use Rattle.house_io.specs.ListForms.{begun, counted, IsToFail};
ghost use Rattle.house_io.specs.Moments.{IsImage, opened, wrote, synced_at};
ghost use Rattle.house_io.specs.Calls.{tore, room_for};
ghost use Rattle.house_io.specs.Fills.{image_of};

use crate::memory::failing::FailingCalls;
use crate::{Disk, Failed, Fill, RecordedFile};
use lot_base::NoMemory;
use std::alloc::Global;

/// A disk in memory, of which the calls with chosen numbers fail: `size`, `read_at`, `claim`, `write_at` and `sync` are counted
/// together. A claim of a disk that is claimed is no call. A write that fails changes no byte that a read gives, but its range is in doubt.
#[derive(Drop)]
pub struct ListDisk {
    /// What a read gives, and the record of the calls.
    pub(crate) file: RecordedFile,
    /// Which calls fail.
    pub(crate) plan: FailingCalls,
    /// The file is this disk's alone.
    pub(crate) claimed: bool,
    /// How often it has failed.
    pub(crate) faults: u64,
}

impl ListDisk {
    ghost use Rattle.house_io.specs.Recorded.{moments_of};

    /// A disk with these bytes, room for so many more and so many calls, and the calls that are to fail. It is not claimed.
    pub fn new(
        alloc: Global,
        bytes: Vec<u8>,
        room: u32,
        failing: Vec<u64>,
    ) -> Result<ListDisk, NoMemory>
        ensures told { IfOk result (λ d. IsTrue d.file.told) }
        ensures moments { IfOk result (λ d. moments_of d.file ≡ opened bytes.items) }
        ensures room { IfOk result (λ d. (d.file.room ≡ room) × (d.file.calls_left ≡ room)) }
        ensures failing { IfOk result (λ d. (d.plan ≡ begun failing.items) × (d.faults ≡ 0)) }
        ensures unclaimed { IfOk result (λ d. d.claimed ≡ false) }
    {
        let file = RecordedFile::new(alloc, bytes, room)?;
        Ok(ListDisk {
            file,
            plan: FailingCalls::new(failing),
            claimed: false,
            faults: 0,
        })
    }

    /// The same disk once more, not claimed and without a fault.
    pub(crate) fn again(&self, alloc: Global) -> Result<ListDisk, NoMemory>
        ensures told { IfOk result (λ d. d.file.told ≡ self.now.file.told) }
        ensures moments { IfOk result (λ d. moments_of d.file ≡ moments_of self.now.file) }
        ensures room { IfOk result (λ d. (d.file.room ≡ self.now.file.room) × (d.file.calls_left ≡ self.now.file.calls_left)) }
        ensures fresh { IfOk result (λ d. (d.plan ≡ self.now.plan) × (d.claimed ≡ false) × (d.faults ≡ 0)) }
    {
        let file = self.file.again(alloc)?;
        let plan = self.plan.again(alloc)?;
        Ok(ListDisk {
            file,
            plan,
            claimed: false,
            faults: 0,
        })
    }

    /// What a read gives.
    pub fn bytes(&self) -> &[u8]
        ensures { result.now ≡ self.now.file.bytes.items }
    {
        &self.file.bytes
    }

    /// An image: what a crash now may leave, with this in the ranges that were written since the last good sync.
    pub fn image(&self, alloc: Global, fill: Fill) -> Result<Vec<u8>, NoMemory>
        ensures image { IfOk result (λ image. IsTrue self.now.file.told → IsImage (moments_of self.now.file).now image.items) }
        ensures fills { IfOk result (λ image. IsTrue self.now.file.told → image.items ≡ image_of fill (moments_of self.now.file).now) }
    {
        self.file.image(alloc, fill)
    }

    /// Counts one call, and its fault where it is to fail.
    fn call(&mut self) -> Result<(), Failed>
        ensures fails { IsErr result ↔ IsToFail self.old.plan }
        ensures plan { self.new.plan ≡ counted self.old.plan }
        ensures faults { self.new.faults ≡ faults_after result self.old.faults }
        ensures claimed { self.new.claimed ≡ self.old.claimed }
        ensures file { self.new.file ≡ self.old.file }
    {
        if self.plan.next_fails() {
            self.faults = self.faults.saturating_add(1);
            return Err(Failed);
        }
        Ok(())
    }
}

impl Disk for ListDisk {
    ghost use Rattle.house_io.specs.Recorded.{moments_of, Takes};
    ghost use Rattle.house_io.specs.Disks.{shown_as, image_shown};

    ghost shown = { λ d. shown_as d.file.told (moments_of d.file) d.claimed d.faults };

    ghost reads_an_image = { λ d told. image_shown d.file.told (moments_of d.file) d.claimed d.faults d.file.readable told };

    fn size(&mut self) -> Result<u64, Failed>
        ensures fails { IsErr result ↔ IsToFail self.old.plan }
        ensures plan { self.new.plan ≡ counted self.old.plan }
        ensures faults { self.new.faults ≡ faults_after result self.old.faults }
        ensures claimed { self.new.claimed ≡ self.old.claimed }
        ensures file { self.new.file ≡ self.old.file }
        ensures size { IfOk result (λ n. n ≡ length self.old.file.bytes.items) }
    {
        self.call()?;
        Ok(self.file.bytes.len() as u64)
    }

    fn read_at(&mut self, at: u64, into: &mut [u8]) -> Result<usize, Failed>
        ensures fails { IsErr result ↔ IsToFail self.old.plan }
        ensures plan { self.new.plan ≡ counted self.old.plan }
        ensures faults { self.new.faults ≡ faults_after result self.old.faults }
        ensures claimed { self.new.claimed ≡ self.old.claimed }
        ensures file { self.new.file ≡ self.old.file }
        ensures count { IfOk result (λ n. n ≡ min (length into.old) (length self.old.file.bytes.items - at)) }
        ensures bytes { IfOk result (λ n. take n into.new ≡ take n (drop at self.old.file.bytes.items)) }
    {
        self.call()?;
        Ok(self.file.read_at(at, into))
    }

    fn claim(&mut self) -> Result<(), Failed>
        ensures again { IsTrue self.old.claimed → IsOk result × (self.new ≡ self.old) }
        ensures fails { self.old.claimed ≡ false → IsErr result ↔ IsToFail self.old.plan }
        ensures plan { self.old.claimed ≡ false → self.new.plan ≡ counted self.old.plan }
        ensures faults { self.new.faults ≡ faults_after result self.old.faults }
        ensures claimed { OnOk result (self.new.claimed ≡ true) }
        ensures unclaimed { OnErr result (self.new.claimed ≡ self.old.claimed) }
        ensures file { self.new.file ≡ self.old.file }
    {
        if self.claimed {
            return Ok(());
        }
        match self.call() {
            Ok(()) => {
                self.claimed = true;
                Ok(())
            }
            Err(Failed) => Err(Failed),
        }
    }

    fn write_at(&mut self, at: u64, from: &[u8]) -> Result<(), Failed>
        ensures fails { IsErr result ↔ IsToFail self.old.plan }
        ensures plan { self.new.plan ≡ counted self.old.plan }
        ensures faults { self.new.faults ≡ faults_after result self.old.faults }
        ensures claimed { self.new.claimed ≡ self.old.claimed }
        ensures whole { OnOk result (Takes (room_for at (length from.now) (length self.old.file.bytes.items)) self.old.file self.new.file) }
        ensures part { OnErr result (Takes 0 self.old.file self.new.file) }
        ensures written { OnOk result (IsTrue self.new.file.told
            → moments_of self.new.file ≡ wrote at from.now (moments_of self.old.file)) }
        ensures torn { OnErr result (IsTrue self.new.file.told
            → moments_of self.new.file ≡ tore at (length from.now) (moments_of self.old.file)) }
    {
        match self.call() {
            Ok(()) => {
                self.file.write_at(at, from);
                Ok(())
            }
            Err(Failed) => {
                // Its whole range is in doubt (must-fail `a_failed_write_is_forgotten`).
                self.file.tear(at, from.len());
                Err(Failed)
            }
        }
    }

    fn sync(&mut self) -> Result<(), Failed>
        ensures fails { IsErr result ↔ IsToFail self.old.plan }
        ensures plan { self.new.plan ≡ counted self.old.plan }
        ensures faults { self.new.faults ≡ faults_after result self.old.faults }
        ensures claimed { self.new.claimed ≡ self.old.claimed }
        ensures takes { OnOk result (Takes 0 self.old.file self.new.file) }
        ensures unchanged { OnErr result (self.new.file ≡ self.old.file) }
        ensures synced { OnOk result (IsTrue self.new.file.told → moments_of self.new.file ≡ synced_at (moments_of self.old.file)) }
    {
        self.call()?;
        self.file.sync();
        Ok(())
    }
}
