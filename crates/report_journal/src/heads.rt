//! What stands at a gate.
ghost use Rattle.std.specs.Prelude.{◌≡◌, ◌+◌, ◌-◌, ◌^◌, ◌≤◌, ◌↔◌, ℕ, length, take, drop, min, IsTrue, IfOk, OnOk};
ghost use Rattle.house_io.specs.Disks.{IfDiskTells, IfDiskTold};
ghost use Rattle.house_io.specs.Faults.{HasCause};
ghost use Rattle.lot_base.specs.declared.limits.TheConstants.{GREATEST_PAYLOAD, GREATEST_FILE};
ghost use Rattle.report_journal.specs.Calls.{OnlyReads, CountsReading};
ghost use Rattle.report_journal.specs.Scans.{IsChunk, IsNext, AreRead, FollowTo, IsEndOfList};

use crate::chunks::{Chunk, read_head};
use crate::faults::JournalFault;
use crate::places::Place;
use crate::spellings::OPEN;
use byte_numbers::number_of;
use house_io::{Disk, Failed};
use lot_base::limits::{GREATEST_FILE, GREATEST_PAYLOAD};
use std::alloc::Global;

/// What stands at a gate: the end of the list, a record with a payload of this length, or no record.
#[derive(Drop)]
pub enum Next {
    /// The gate is closed: the list ends here.
    Closed,
    /// The gate is open, and a record stands after it.
    Record(u32),
    /// The gate is open or no gate, and no record stands after it.
    Damaged,
}

/// Whether the file has bytes up to this offset. Of a file that another process writes to no size is the last one: where the one
/// that is known does not suffice it is asked again.
fn reaches<D: Disk>(disk: &mut D, known: &mut u64, end: u32) -> Result<bool, Failed>
    requires { IfDiskTells (D.shown disk.old) (λ moments. known.old ≤ length moments.now.read) }
    ensures known { OnOk result (IfDiskTold (D.shown disk.old) (D.shown disk.new) (λ before _. known.new ≤ length before.now.read)) }
    ensures reaches { IfOk result (λ does. IfDiskTold (D.shown disk.old) (D.shown disk.new)
        (λ before _. IsTrue does ↔ end ≤ length before.now.read)) }
    ensures reads { OnlyReads D.shown disk.old disk.new }
    ensures cause { HasCause (D.shown disk.old).faults (D.shown disk.new).faults result }
{
    let end = end as u64;
    if end <= *known {
        return Ok(true);
    }
    match disk.size() {
        Ok(size) => {
            *known = size;
            Ok(end <= size)
        }
        Err(Failed) => Err(Failed),
    }
}

/// The bytes at a gate, as `read_head` has them. Where it is open and they are fewer than five, and the file has more by now, they
/// are read again: its writer puts a record there before it opens the gate.
fn read_whole_head<D: Disk>(
    disk: &mut D,
    chunk: &mut Chunk,
    known: &mut u64,
    gate: u32,
    head: &mut [u8; 5],
) -> Result<usize, Failed>
    requires room { gate + 6 ≤ 2 ^ 32 }
    requires file { IfDiskTells (D.shown disk.old) (λ moments. (known.old ≤ length moments.now.read)
        × IsChunk chunk.old.bytes.items chunk.old.at chunk.old.filled moments.now.read) }
    ensures count { IfOk result (λ n. n ≤ 5) }
    ensures bytes { IfOk result (λ n. IfDiskTold (D.shown disk.old) (D.shown disk.new)
        (λ before _. (n ≡ min 5 (length before.now.read - gate)) × (take n head.new ≡ take n (drop gate before.now.read)))) }
    ensures chunk { OnOk result (IfDiskTold (D.shown disk.old) (D.shown disk.new)
        (λ before _. (known.new ≤ length before.now.read) × IsChunk chunk.new.bytes.items chunk.new.at chunk.new.filled before.now.read)) }
    ensures reads { OnlyReads D.shown disk.old disk.new }
    ensures cause { HasCause (D.shown disk.old).faults (D.shown disk.new).faults result }
{
    let count = read_head(disk, chunk, gate, head)?;
    if count == 0 || count == 5 || head[0] != OPEN || !reaches(disk, known, gate + 5)? {
        return Ok(count);
    }
    read_head(disk, chunk, gate, head)
}

/// What stands at the gate.
pub fn next_record<D: Disk>(
    disk: &mut D,
    chunk: &mut Chunk,
    known: &mut u64,
    gate: u32,
) -> Result<Next, Failed>
    requires room { gate + 1 ≤ GREATEST_FILE }
    requires file { IfDiskTells (D.shown disk.old) (λ moments. (known.old ≤ length moments.now.read)
        × IsChunk chunk.old.bytes.items chunk.old.at chunk.old.filled moments.now.read) }
    ensures found { IfOk result (λ next. IfDiskTold (D.shown disk.old) (D.shown disk.new) (λ before _. IsNext next gate before.now.read)) }
    ensures limits { (n : ℕ) → result ≡ Ok (Next.Record n) → (n ≤ GREATEST_PAYLOAD) × (gate + 6 + n ≤ GREATEST_FILE) }
    ensures chunk { OnOk result (IfDiskTold (D.shown disk.old) (D.shown disk.new)
        (λ before _. (known.new ≤ length before.now.read) × IsChunk chunk.new.bytes.items chunk.new.at chunk.new.filled before.now.read)) }
    ensures reads { OnlyReads D.shown disk.old disk.new }
    ensures cause { HasCause (D.shown disk.old).faults (D.shown disk.new).faults result }
{
    let mut bytes = [0; 5];
    let count = read_whole_head(disk, chunk, known, gate, &mut bytes)?;
    if count == 0 || bytes[0] != OPEN {
        return Ok(Next::Closed);
    }
    if count < 5 {
        return Ok(Next::Damaged);
    }
    let length = number_of(&bytes[1..]);
    if length > GREATEST_PAYLOAD {
        return Ok(Next::Damaged);
    }
    let end = gate + 6 + length;
    if end > GREATEST_FILE {
        return Ok(Next::Damaged);
    }
    if !reaches(disk, known, end)? {
        return Ok(Next::Damaged);
    }
    Ok(Next::Record(length))
}

/// The places of the records of a list, the gate after them, and whether it is closed.
#[derive(Drop)]
pub struct Found {
    /// Those of the payloads, record 1 first.
    pub places: Vec<Place>,
    /// The offset of the gate after the last record, or of the first gate where there is none.
    pub gate: u32,
    /// The list ends there. Where it is false the gate is open, and no record stands after it.
    pub closed: bool,
}

/// Reads records from the first gate on, up to a closed gate, or to an open one with no record.
pub fn read_records<D: Disk>(alloc: Global, disk: &mut D, first: u32) -> Result<Found, JournalFault>
    requires file { IfDiskTells (D.shown disk.old) (λ moments. first + 1 ≤ length moments.now.read) }
    requires limit { first + 1 ≤ GREATEST_FILE }
    ensures found { IfOk result (λ found. IfDiskTold (D.shown disk.old) (D.shown disk.new)
        (λ before _. AreRead first found.places.items found.gate before.now.read × IsEndOfList found.closed found.gate before.now.read)) }
    ensures places { IfOk result (λ found. FollowTo first found.places.items found.gate) }
    ensures reads { OnlyReads D.shown disk.old disk.new }
    ensures faults { CountsReading (D.shown disk.old).faults (D.shown disk.new).faults result }
{
    let mut chunk = Chunk::new(alloc)?;
    let mut places = Vec::new(alloc);
    // How many bytes the file is known to have.
    let mut known = 0;
    let mut gate = first;
    'records: loop {
        match next_record(disk, &mut chunk, &mut known, gate)? {
            Next::Closed => {
                return Ok(Found {
                    places,
                    gate,
                    closed: true,
                });
            }
            Next::Damaged => {
                return Ok(Found {
                    places,
                    gate,
                    closed: false,
                });
            }
            Next::Record(length) => {
                places.push(Place {
                    at: gate + 5,
                    length,
                })?;
                gate += 5 + length;
            }
        }
    }
}
