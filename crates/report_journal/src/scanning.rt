//! A journal's file, read whole.
ghost use Rattle.std.specs.Prelude.{◌≡◌, ◌≤◌, length, take, min, IsTrue, IfOk};
ghost use Rattle.house_io.specs.Disks.{IsLater, IfDiskTells, IfDiskTold};
ghost use Rattle.house_io.specs.Faults.{HasCause};
ghost use Rattle.report_journal.specs.Calls.{OnlyReads, CountsReading, IsSyncedBy};
ghost use Rattle.report_journal.specs.Format.{IsHeader};
ghost use Rattle.report_journal.specs.Fronts.{HasHeader, IsFront, IsFrontInOrder};
ghost use Rattle.report_journal.specs.Scans.{IsScan, IsInOrder};
ghost use Rattle.report_journal.specs.declared.scanning.TheConstants.{LONGEST_FRONT};

use crate::faults::JournalFault;
use crate::headers::{Header, read_header, unread_header};
use crate::heads::read_records;
use crate::places::Places;
use crate::spellings::{OPEN, SHORTEST_FORMED};
use house_io::{Disk, Failed};
use lot_base::limits::MOST_GOODS;
use std::alloc::Global;

/// What a journal's file is.
#[derive(Drop)]
pub enum Scanned {
    /// No journal yet: the file is shorter than any, or its first gate is not open.
    Unformed,
    /// A journal of these records, and the offset of the gate that ends it.
    Formed {
        header: Header,
        records: Places,
        end: u32,
    },
    /// The number of the first damaged record, 0 for the header, and the records before it. A header that cannot be read is of
    /// version 0, with the clock and the digest where they would stand.
    Damaged {
        header: Header,
        records: Places,
        number: u32,
    },
}

/// What the front of a file is.
#[derive(Clone, Copy, Debug)]
enum Front {
    /// No journal yet.
    Unformed,
    /// It begins with no header that has a byte after it.
    Headless(Header),
    /// It begins with this header, whole.
    Headed(Header),
}

/// The bytes of the longest header, with the gates before and after it.
const LONGEST_FRONT: usize = SHORTEST_FORMED + 2 + 4 * MOST_GOODS;

/// Fills a front of the buffer from the file's beginning. Where the file ended there and has more by now, it is read again.
fn read_first<D: Disk>(disk: &mut D, into: &mut [u8; LONGEST_FRONT]) -> Result<usize, Failed>
    ensures count { IfOk result (λ n. n ≤ LONGEST_FRONT) }
    ensures bytes { IfOk result (λ n. IfDiskTold (D.shown disk.old) (D.shown disk.new)
        (λ before _. (n ≡ min LONGEST_FRONT (length before.now.read)) × (take n into.new ≡ take n before.now.read))) }
    ensures reads { OnlyReads D.shown disk.old disk.new }
    ensures cause { HasCause (D.shown disk.old).faults (D.shown disk.new).faults result }
{
    let count = disk.read_at(0, into)?;
    if count == LONGEST_FRONT || disk.size()? == count as u64 {
        return Ok(count);
    }
    disk.read_at(0, into)
}

/// Reads the front of the file.
fn read_front<D: Disk>(disk: &mut D) -> Result<Front, Failed>
    ensures front { IfOk result (λ front. IfDiskTold (D.shown disk.old) (D.shown disk.new) (λ before _. IsFront front before.now.read)) }
    ensures in_order { IfOk result IsFrontInOrder }
    ensures reads { OnlyReads D.shown disk.old disk.new }
    ensures cause { HasCause (D.shown disk.old).faults (D.shown disk.new).faults result }
{
    let mut bytes = [0; LONGEST_FRONT];
    let count = read_first(disk, &mut bytes)?;
    if count < SHORTEST_FORMED || bytes[0] != OPEN {
        return Ok(Front::Unformed);
    }
    let header = &bytes[1..count];
    match read_header(header) {
        None => Ok(Front::Headless(unread_header(header))),
        Some(header) => Ok(Front::Headed(header)),
    }
}

/// Reads the records after this header.
fn scan_records<D: Disk>(
    alloc: Global,
    disk: &mut D,
    header: Header,
) -> Result<Scanned, JournalFault>
    requires header { IsHeader header }
    requires has_it { IfDiskTells (D.shown disk.old) (λ moments. HasHeader header moments.now.read) }
    ensures found { IfOk result (λ s. IfDiskTold (D.shown disk.old) (D.shown disk.new) (λ before _. IsScan s before.now.read)) }
    ensures in_order { IfOk result IsInOrder }
    ensures reads { OnlyReads D.shown disk.old disk.new }
    ensures faults { CountsReading (D.shown disk.old).faults (D.shown disk.new).faults result }
{
    let found = read_records(alloc, disk, header.first_gate())?;
    let number = found.places.len() as u32 + 1;
    let records = Places::from_vec(found.places);
    if found.closed {
        Ok(Scanned::Formed {
            header,
            records,
            end: found.gate,
        })
    } else {
        Ok(Scanned::Damaged {
            header,
            records,
            number,
        })
    }
}

/// Reads what a journal's file is. It syncs first, and changes no byte. Its memory is in proportion to the number of
/// records.
pub fn scan<D: Disk>(alloc: Global, disk: &mut D) -> Result<Scanned, JournalFault>
    ensures found { IfOk result (λ s. IfDiskTold (D.shown disk.old) (D.shown disk.new) (λ before _. IsScan s before.now.read)) }
    ensures in_order { IfOk result IsInOrder }
    ensures synced { IfDiskTold (D.shown disk.old) (D.shown disk.new) (IsSyncedBy result) }
    ensures later { IsLater (D.shown disk.old) (D.shown disk.new) }
    ensures faults { CountsReading (D.shown disk.old).faults (D.shown disk.new).faults result }
{
    disk.sync()?;
    match read_front(disk)? {
        Front::Unformed => Ok(Scanned::Unformed),
        Front::Headless(header) => Ok(Scanned::Damaged {
            header,
            records: Places::from_vec(Vec::new(alloc)),
            number: 0,
        }),
        Front::Headed(header) => scan_records(alloc, disk, header),
    }
}
