//! A disk that is read in chunks.
ghost use Rattle.std.specs.Prelude.{◌≡◌, ◌+◌, ◌-◌, ◌≤◌, length, take, drop, min, vec_len, IsTrue, IfOk, OnOk};
ghost use Rattle.house_io.specs.Disks.{IfDiskTells, IfDiskTold};
ghost use Rattle.house_io.specs.Faults.{HasCause};
ghost use Rattle.report_journal.specs.Calls.{OnlyReads};
ghost use Rattle.report_journal.specs.Scans.{IsChunk};

use house_io::{Disk, Failed};
use std::alloc::{AllocError, Global};

/// How many bytes are read at once: two of the longest records.
const CHUNK: usize = 65_536;

/// Bytes of a file from an offset on, as many as are filled.
#[derive(Drop)]
pub struct Chunk {
    /// The buffer, whose first bytes are the file's. What stands after them says nothing.
    pub bytes: Vec<u8>,
    /// The offset in the file of the first byte.
    pub at: u64,
    /// How many bytes of the buffer are the file's; 0 before the first load.
    pub filled: usize,
    ghost room: { 5 ≤ vec_len bytes },
    ghost within: { filled ≤ vec_len bytes },
}

impl Chunk {
    /// A chunk of nothing.
    pub fn new(alloc: Global) -> Result<Chunk, AllocError>
        ensures { IfOk result (λ chunk. chunk.filled ≡ 0) }
    {
        let bytes = vec![in alloc; 0; CHUNK]?;
        Ok(Chunk {
            bytes,
            at: 0,
            filled: 0,
        })
    }
}

impl Chunk {
    /// Whether it has the five bytes at this offset.
    fn has(&self, gate: u32) -> bool
        ensures { IsTrue result → (self.now.at ≤ gate) × (gate + 5 ≤ self.now.at + self.now.filled) }
    {
        let gate = gate as u64;
        gate >= self.at && gate - self.at + 5 <= self.filled as u64
    }

    /// Reads the file from this offset on.
    fn load<D: Disk>(&mut self, disk: &mut D, at: u32) -> Result<(), Failed>
        ensures at { OnOk result (self.new.at ≡ at) }
        ensures chunk { OnOk result (IfDiskTold (D.shown disk.old) (D.shown disk.new)
            (λ before _. IsChunk self.new.bytes.items self.new.at self.new.filled before.now.read)) }
        ensures filled { OnOk result (IfDiskTold (D.shown disk.old) (D.shown disk.new)
            (λ before _. self.new.filled ≡ min (vec_len self.new.bytes) (length before.now.read - at))) }
        ensures reads { OnlyReads D.shown disk.old disk.new }
        ensures cause { HasCause (D.shown disk.old).faults (D.shown disk.new).faults result }
    {
        match disk.read_at(at as u64, &mut self.bytes) {
            Ok(count) => {
                self.at = at as u64;
                self.filled = count;
                Ok(())
            }
            Err(Failed) => Err(Failed),
        }
    }

    /// Copies what it has from this offset on, up to five bytes.
    fn copy(&self, gate: u32, head: &mut [u8; 5]) -> usize
        requires { (self.now.at ≤ gate) × (gate ≤ self.now.at + self.now.filled) }
        ensures count { result ≡ min 5 (self.now.filled - (gate - self.now.at)) }
        ensures bytes { take result head.new ≡ take result (drop (gate - self.now.at) (take self.now.filled self.now.bytes.items)) }
    {
        let rest = &self.bytes[(gate as u64 - self.at) as usize..self.filled];
        let count = rest.len().min(5);
        head[..count].copy_from_slice(&rest[..count]);
        count
    }
}

/// The bytes at a gate, up to five, which are fewer only at the file's end. The chunk is read anew where it has not all of
/// them.
pub fn read_head<D: Disk>(
    disk: &mut D,
    chunk: &mut Chunk,
    gate: u32,
    head: &mut [u8; 5],
) -> Result<usize, Failed>
    requires chunk { IfDiskTells (D.shown disk.old) (λ moments. IsChunk chunk.old.bytes.items chunk.old.at chunk.old.filled
        moments.now.read) }
    ensures count { IfOk result (λ n. n ≤ 5) }
    ensures bytes { IfOk result (λ n. IfDiskTold (D.shown disk.old) (D.shown disk.new)
        (λ before _. (n ≡ min 5 (length before.now.read - gate)) × (take n head.new ≡ take n (drop gate before.now.read)))) }
    ensures chunk { OnOk result (IfDiskTold (D.shown disk.old) (D.shown disk.new)
        (λ before _. IsChunk chunk.new.bytes.items chunk.new.at chunk.new.filled before.now.read)) }
    ensures reads { OnlyReads D.shown disk.old disk.new }
    ensures cause { HasCause (D.shown disk.old).faults (D.shown disk.new).faults result }
{
    if chunk.has(gate) {
        return Ok(chunk.copy(gate, head));
    }
    chunk.load(disk, gate)?;
    Ok(chunk.copy(gate, head))
}
