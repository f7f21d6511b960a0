//! What no clause says of a disk on a file: which calls on it fail, and that a sync is one.
use crate::disk_tests::{Change, make, read, size};
use expected_values::{equal, equal_in};
use house_io::{Disk, FileDisk};
use std::alloc::Global;
use std::cell::Cell;
use std::fs::{Metadata, OpenFile};
use std::io::{self, ErrorKind, Read, Seek, SeekFrom, Write};
use std::sync::Arc;
use std::sync::atomic::{AtomicU64, Ordering};
use std::test::Fail;

/// A file of ten bytes that gives one at a time, and takes three at a time and lets go of them. One of its calls fails; a
/// flush is none.
#[derive(Drop)]
struct SlowFile {
    at: u64,
    calls_before_the_fault: Cell<u64>,
    /// How often a sync of it was asked for.
    syncs: Arc<AtomicU64>,
}

impl SlowFile {
    fn call(&self) -> io::Result<()> {
        let left = self.calls_before_the_fault.get();
        self.calls_before_the_fault.set(left.wrapping_sub(1));
        if left == 0 {
            return Err(ErrorKind::Other.into());
        }
        Ok(())
    }
}

impl Read for SlowFile {
    fn read(&mut self, into: &mut [u8]) -> io::Result<usize> {
        self.call()?;
        if into.is_empty() || self.at >= 10 {
            return Ok(0);
        }
        into[0] = self.at as u8;
        self.at += 1;
        Ok(1)
    }
}

impl Write for SlowFile {
    fn write(&mut self, from: &[u8]) -> io::Result<usize> {
        self.call()?;
        Ok(from.len().min(3))
    }

    fn flush(&mut self) -> io::Result<()> {
        Ok(())
    }
}

impl Seek for SlowFile {
    fn seek(&mut self, to: SeekFrom) -> io::Result<u64> {
        self.call()?;
        self.at = match to {
            SeekFrom::Start(at) => at,
            _ => 10,
        };
        Ok(self.at)
    }
}

impl OpenFile for SlowFile {
    fn metadata(&self) -> io::Result<Metadata> {
        unsupported()
    }

    fn set_len(&self, _size: u64) -> io::Result<()> {
        self.call()
    }

    fn sync_all(&self) -> io::Result<()> {
        self.syncs.fetch_add(1, Ordering::SeqCst);
        self.call()
    }

    fn sync_data(&self) -> io::Result<()> {
        self.sync_all()
    }
}

fn unsupported<T>() -> io::Result<T> {
    Err(ErrorKind::Unsupported.into())
}

/// A file whose calls go well until this one.
fn slow_file(calls: u64, syncs: &Arc<AtomicU64>) -> io::Result<SlowFile> {
    match Arc::clone(syncs) {
        Ok(syncs) => Ok(SlowFile {
            at: 0,
            calls_before_the_fault: Cell::new(calls),
            syncs,
        }),
        Err(_) => Err(ErrorKind::OutOfMemory.into()),
    }
}

fn counter(alloc: Global) -> Option<Arc<AtomicU64>> {
    Arc::new(alloc, AtomicU64::new(0)).ok()
}

fn slow_disk(calls: u64, syncs: &Arc<AtomicU64>) -> Option<FileDisk<SlowFile>> {
    match slow_file(calls, syncs) {
        Ok(file) => Some(FileDisk::new(file)),
        Err(_) => None,
    }
}

#[test]
fn a_disk_on_a_file_reads_on_after_a_short_read(rt: HostRuntime) -> Result<(), Fail> {
    let syncs = counter(rt.alloc()).ok_or("no memory")?;
    let mut disk = slow_disk(99, &syncs).ok_or("no disk")?;
    let mut front = [0; 4];
    for (at, count, bytes) in [(3, 4, [3, 4, 5, 6]), (8, 2, [8, 9, 5, 6])] {
        equal_in(at, read(&mut disk, at, &mut front), Ok(count))?;
        equal_in(at, front, bytes)?;
    }
    equal(size(&mut disk), Ok(10))?;
    Ok(())
}

/// Which of five calls on a disk fail.
fn failing_calls_of<D: Disk>(disk: &mut D) -> [bool; 5] {
    [
        read(disk, 0, &mut [0; 2]).is_err(),
        size(disk).is_err(),
        make(disk, Change::Write(0, b"lots")).is_err(),
        make(disk, Change::Write(40, b"")).is_err(),
        make(disk, Change::Sync).is_err(),
    ]
}

/// Which calls on a disk fail, where the call of this number on its file does, how many faults it counts, and how often it asks
/// for a sync. Reading two bytes is a seek and two reads; the size is a seek; writing four bytes is a seek and two writes;
/// lengthening is a seek and one more call; and a sync is one.
fn failing_calls(alloc: Global, call: u64) -> Option<([bool; 5], u64, u64)> {
    let syncs = counter(alloc)?;
    let mut disk = slow_disk(call, &syncs)?;
    let failing = failing_calls_of(&mut disk);
    Some((failing, disk.faults(), syncs.load(Ordering::SeqCst)))
}

/// Of five, only that of this number.
fn only(number: u64) -> [bool; 5] {
    [
        number == 0,
        number == 1,
        number == 2,
        number == 3,
        number == 4,
    ]
}

#[test]
fn each_call_of_a_file_that_fails_is_a_counted_fault(rt: HostRuntime) -> Result<(), Fail> {
    for (call, failing) in [
        (0, 0),
        (1, 0),
        (2, 0),
        (3, 1),
        (4, 2),
        (5, 2),
        (6, 2),
        (7, 3),
        (8, 3),
        (9, 4),
    ] {
        equal_in(
            call,
            failing_calls(rt.alloc(), call),
            Some((only(failing), 1, 1)),
        )?;
    }
    Ok(())
}
