//! A disk in memory that never fails.
ghost use Rattle.std.specs.Prelude.{◌≡◌, ◌-◌, true, false, IsTrue, IfOk, IsOk, Ok, length, take, drop, min};
ghost use Rattle.house_io.specs.Moments.{IsImage, opened, wrote, synced_at};
ghost use Rattle.house_io.specs.Calls.{room_for};

use crate::{Disk, Failed, RecordedFile};
use lot_base::NoMemory;
use std::alloc::Global;

/// A disk in memory that never fails. It tells its moments as long as its room suffices.
#[derive(Drop)]
pub struct SureDisk {
    /// What a read gives, and the record of the calls.
    pub(crate) file: RecordedFile,
    /// The file is this disk's alone.
    pub(crate) claimed: bool,
}

impl SureDisk {
    ghost use Rattle.house_io.specs.Recorded.{moments_of};

    /// A disk with these bytes, and room for so many more and so many calls. It is not claimed.
    pub fn new(alloc: Global, bytes: Vec<u8>, room: u32) -> Result<SureDisk, NoMemory>
        ensures told { IfOk result (λ d. IsTrue d.file.told) }
        ensures moments { IfOk result (λ d. moments_of d.file ≡ opened bytes.items) }
        ensures room { IfOk result (λ d. (d.file.room ≡ room) × (d.file.calls_left ≡ room)) }
        ensures unclaimed { IfOk result (λ d. d.claimed ≡ false) }
    {
        let file = RecordedFile::new(alloc, bytes, room)?;
        Ok(SureDisk {
            file,
            claimed: false,
        })
    }

    /// The same disk once more, not claimed.
    pub(crate) fn again(&self, alloc: Global) -> Result<SureDisk, NoMemory>
        ensures told { IfOk result (λ d. d.file.told ≡ self.now.file.told) }
        ensures moments { IfOk result (λ d. moments_of d.file ≡ moments_of self.now.file) }
        ensures room { IfOk result (λ d. (d.file.room ≡ self.now.file.room) × (d.file.calls_left ≡ self.now.file.calls_left)) }
        ensures unclaimed { IfOk result (λ d. d.claimed ≡ false) }
    {
        let file = self.file.again(alloc)?;
        Ok(SureDisk {
            file,
            claimed: false,
        })
    }

    /// What a read gives.
    pub fn bytes(&self) -> &[u8]
        ensures { result.now ≡ self.now.file.bytes.items }
    {
        &self.file.bytes
    }
}

impl Disk for SureDisk {
    ghost use Rattle.house_io.specs.Recorded.{moments_of, Takes};
    ghost use Rattle.house_io.specs.Disks.{shown_as, image_shown};

    ghost shown = { λ d. shown_as d.file.told (moments_of d.file) d.claimed 0 };

    ghost reads_an_image = { λ d told. image_shown d.file.told (moments_of d.file) d.claimed 0 d.file.readable told };

    fn size(&mut self) -> Result<u64, Failed>
        ensures sure { result ≡ Ok (length self.old.file.bytes.items) }
        ensures unchanged { self.new ≡ self.old }
    {
        Ok(self.file.bytes.len() as u64)
    }

    fn read_at(&mut self, at: u64, into: &mut [u8]) -> Result<usize, Failed>
        ensures sure { result ≡ Ok (min (length into.old) (length self.old.file.bytes.items - at)) }
        ensures bytes { IfOk result (λ n. take n into.new ≡ take n (drop at self.old.file.bytes.items)) }
        ensures unchanged { self.new ≡ self.old }
    {
        Ok(self.file.read_at(at, into))
    }

    fn claim(&mut self) -> Result<(), Failed>
        ensures sure { IsOk result }
        ensures claimed { self.new.claimed ≡ true }
        ensures file { self.new.file ≡ self.old.file }
    {
        self.claimed = true;
        Ok(())
    }

    fn write_at(&mut self, at: u64, from: &[u8]) -> Result<(), Failed>
        ensures sure { IsOk result }
        ensures takes { Takes (room_for at (length from.now) (length self.old.file.bytes.items)) self.old.file self.new.file }
        ensures claimed { self.new.claimed ≡ self.old.claimed }
        ensures written { IsTrue self.new.file.told → moments_of self.new.file ≡ wrote at from.now (moments_of self.old.file) }
    {
        self.file.write_at(at, from);
        Ok(())
    }

    fn sync(&mut self) -> Result<(), Failed>
        ensures sure { IsOk result }
        ensures takes { Takes 0 self.old.file self.new.file }
        ensures claimed { self.new.claimed ≡ self.old.claimed }
        ensures synced { IsTrue self.new.file.told → moments_of self.new.file ≡ synced_at (moments_of self.old.file) }
    {
        self.file.sync();
        Ok(())
    }
}
