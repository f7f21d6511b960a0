//! A file that is read and written at offsets, and what a crash may leave of it.
ghost use Rattle.std.specs.Prelude.{◌≡◌, ◌-◌, ◌≤◌, ℕ, List, length, take, drop, min, IsTrue, IfOk, OnOk, OnErr};
ghost use Rattle.house_io.specs.Disks.{DiskShown, IfDiskTells, IfDiskTold, HasTold, IsLater};
ghost use Rattle.house_io.specs.Faults.{HasCause};
ghost use Rattle.house_io.specs.Moments.{IsImage, wrote, synced_at, HasTorn};

use crate::Failed;

/// A disk. Where it tells, contracts see its moments: what a read gives and what a crash may leave. It is opened for reading; who
/// writes it has claimed it.
pub trait Disk {
    /// Its moments, where it tells them, whether it is claimed, and how often it has failed. One that ceased to tell never tells again.
    ghost shown: { Self → DiskShown };

    /// The file's length in bytes.
    fn size(&mut self) -> Result<u64, Failed>
        ensures size { IfOk result (λ n. IfDiskTold (shown self.old) (shown self.new) (λ before _. n ≡ length before.now.read)) }
        ensures moments { IfDiskTold (shown self.old) (shown self.new) (λ before after. after ≡ before) }
        ensures later { IsLater (shown self.old) (shown self.new) }
        ensures cause { HasCause (shown self.old).faults (shown self.new).faults result };

    /// Fills a front of the buffer and answers its length, which is less than the buffer's only at the file's end. What stands in
    /// the buffer after it, or after a failure, is not said.
    fn read_at(&mut self, at: u64, into: &mut [u8]) -> Result<usize, Failed>
        ensures count { IfOk result (λ n. n ≤ length into.old) }
        ensures bytes { IfOk result (λ n. IfDiskTold (shown self.old) (shown self.new)
            (λ before _. (n ≡ min (length into.old) (length before.now.read - at))
            × (take n into.new ≡ take n (drop at before.now.read)))) }
        ensures moments { IfDiskTold (shown self.old) (shown self.new) (λ before after. after ≡ before) }
        ensures later { IsLater (shown self.old) (shown self.new) }
        ensures cause { HasCause (shown self.old).faults (shown self.new).faults result };

    /// Makes the file this disk's alone until it is closed, and makes it where it is absent. It changes nothing else that the disk shows. Of
    /// a disk that is claimed it is no call.
    fn claim(&mut self) -> Result<(), Failed>
        ensures claimed { OnOk result (IsTrue (shown self.new).claimed) }
        ensures failed { OnErr result (IsLater (shown self.old) (shown self.new)) }
        ensures told { HasTold (shown self.old) (shown self.new) }
        ensures moments { IfDiskTold (shown self.old) (shown self.new) (λ before after. after ≡ before) }
        ensures cause { HasCause (shown self.old).faults (shown self.new).faults result };

    /// Writes the whole piece, or fails and may have written anything in its range. A gap after the file's end is filled with
    /// zeros, also before a piece of no bytes.
    fn write_at(&mut self, at: u64, from: &[u8]) -> Result<(), Failed>
        requires { IsTrue (shown self.old).claimed }
        ensures written { OnOk result (IfDiskTold (shown self.old) (shown self.new) (λ before after. after ≡ wrote at from.now before)) }
        ensures torn { OnErr result (IfDiskTold (shown self.old) (shown self.new) (HasTorn at (length from.now))) }
        ensures later { IsLater (shown self.old) (shown self.new) }
        ensures cause { HasCause (shown self.old).faults (shown self.new).faults result };

    /// After it the only image is what a read gives.
    fn sync(&mut self) -> Result<(), Failed>
        ensures synced { OnOk result (IfDiskTold (shown self.old) (shown self.new) (λ before after. after ≡ synced_at before)) }
        ensures failed { OnErr result (IfDiskTold (shown self.old) (shown self.new) (λ before after. after ≡ before)) }
        ensures later { IsLater (shown self.old) (shown self.new) }
        ensures cause { HasCause (shown self.old).faults (shown self.new).faults result };

    /// What a read gives is one of the images.
    ghost reads_an_image: { (disk : Self) → IfDiskTells (shown disk) (λ moments. IsImage moments.now moments.now.read) };
}
