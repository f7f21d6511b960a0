//! What no clause says of real disks: a file to which another process writes while it is scanned, and what a mend writes.
use super::fixtures::{
    FILE, PAYLOAD, PRICED, ROOM, Seen, append, claimed, header, mend, plain, seen_on,
};
use expected_values::{equal, equal_in};
use house_io::{Disk, Failed, ListDisk};
use report_journal::{Journal, JournalFault, Mended};
use std::alloc::Global;
use std::test::Fail;

/// A file to which another process writes: the calls before one of them find what a house has left, that call finds a front of what the
/// house leaves then, since a read may end where the file ended when it began, and the calls after it find all of it. It tells nothing,
/// and keeps nothing of a write.
#[derive(Drop)]
struct GrowingFile<'a> {
    before: &'a [u8],
    after: &'a [u8],
    /// How much of the latter the call finds.
    found: usize,
    /// How many calls come before it.
    calls_before: u64,
    calls: u64,
}

impl<'a> GrowingFile<'a> {
    /// What the next call finds.
    fn bytes(&mut self) -> &'a [u8] {
        let call = self.calls;
        self.calls = call.saturating_add(1);
        if call < self.calls_before {
            return self.before;
        }
        if call > self.calls_before {
            return self.after;
        }
        match self.after.split_at_checked(self.found) {
            Some((front, _)) => front,
            None => self.after,
        }
    }
}

impl<'a> Disk for GrowingFile<'a> {
    ghost use Rattle.std.specs.Prelude.{true};
    ghost use Rattle.std.proofs.Common.{rules};
    ghost use Rattle.house_io.specs.Disks.{untold};

    ghost shown = { λ _. untold true 0 };

    ghost reads_an_image = { λ disk told. Prim.search rules };

    fn size(&mut self) -> Result<u64, Failed> {
        Ok(self.bytes().len() as u64)
    }

    fn read_at(&mut self, at: u64, into: &mut [u8]) -> Result<usize, Failed> {
        let bytes = self.bytes();
        let from = at.min(bytes.len() as u64) as usize;
        let rest = &bytes[from..];
        let count = rest.len().min(into.len());
        into[..count].copy_from_slice(&rest[..count]);
        Ok(count)
    }

    fn claim(&mut self) -> Result<(), Failed> {
        Ok(())
    }

    fn write_at(&mut self, _at: u64, _from: &[u8]) -> Result<(), Failed> {
        Ok(())
    }

    fn sync(&mut self) -> Result<(), Failed> {
        Ok(())
    }
}

/// What a house has left of a file up to a gate: that gate is closed, and the file ends there.
fn left(alloc: Global, file: &[u8], gate: usize) -> Option<Vec<u8>> {
    let mut bytes = Vec::new(alloc);
    let (front, _) = file.split_at_checked(gate)?;
    bytes.extend_from_slice(front).ok()?;
    bytes.push(0).ok()?;
    Some(bytes)
}

/// Whether a scan tells a damage where a house writes from this gate on while it reads.
fn tells_damage(
    alloc: Global,
    before: &[u8],
    after: &[u8],
    found: usize,
    calls_before: u64,
) -> Option<bool> {
    let mut file = GrowingFile {
        before,
        after,
        found,
        calls_before,
        calls: 0,
    };
    match seen_on(alloc, &mut file)? {
        Seen::Damaged(_, _) => Some(true),
        _ => Some(false),
    }
}

/// How many of the moments at which a house may go on from this gate lead to a damage that is told.
fn damages(alloc: Global, after: &[u8], gate: usize) -> Option<u32> {
    let before = left(alloc, after, gate)?;
    let mut told: u32 = 0;
    // A house never takes a byte away.
    for found in before.len()..after.len() + 1 {
        for calls in 0..9 {
            if tells_damage(alloc, &before, after, found, calls)? {
                told = told.saturating_add(1);
            }
        }
    }
    Some(told)
}

/// Before a record, a header or the gate after the last is called damaged for want of bytes, the file is asked again.
#[test]
fn a_scan_beside_a_house_tells_no_damage(rt: HostRuntime) -> Result<(), Fail> {
    for gate in [0, 47, 62] {
        equal_in(gate, damages(rt.alloc(), &PRICED, gate), Some(0))?;
    }
    for gate in [0, 41] {
        equal_in(gate, damages(rt.alloc(), &FILE, gate), Some(0))?;
    }
    Ok(())
}

/// A file that another hand cuts is damaged, and is not read for ever.
#[test]
fn a_file_that_is_cut_while_it_is_read_is_told(rt: HostRuntime) {
    let mut told: u32 = 0;
    for calls in 0..9 {
        if tells_damage(rt.alloc(), &PRICED, &PRICED[..70], 80, calls) == Some(true) {
            told = told.saturating_add(1);
        }
    }
    assert!(rt; told > 0);
}

/// A call that writes or syncs.
#[derive(Clone, Copy, Debug, PartialEq, Eq)]
enum Call {
    /// At this offset a piece of this length, and its first byte.
    Write(u64, usize, Option<u8>),
    Sync,
}

/// A disk that notes each write and each sync, and else is the disk.
#[derive(Drop)]
struct NotedDisk<D: Disk> {
    disk: D,
    /// The first come first.
    calls: Vec<Call>,
}

impl<D: Disk> Disk for NotedDisk<D> {
    ghost shown = { λ noted. D.shown noted.disk };

    ghost reads_an_image = { λ noted told. D.reads_an_image noted.disk told };

    fn size(&mut self) -> Result<u64, Failed> {
        self.disk.size()
    }

    fn read_at(&mut self, at: u64, into: &mut [u8]) -> Result<usize, Failed> {
        self.disk.read_at(at, into)
    }

    fn claim(&mut self) -> Result<(), Failed> {
        self.disk.claim()
    }

    fn write_at(&mut self, at: u64, from: &[u8]) -> Result<(), Failed> {
        let _if_room = self
            .calls
            .push(Call::Write(at, from.len(), from.first().copied()));
        self.disk.write_at(at, from)
    }

    fn sync(&mut self) -> Result<(), Failed> {
        let _if_room = self.calls.push(Call::Sync);
        self.disk.sync()
    }
}

/// A journal that is formed on such a disk, whose call of this number fails.
fn noted_journal(alloc: Global, failing: u64) -> Option<Journal<NotedDisk<ListDisk>>> {
    let failing = [failing].to_vec(alloc).ok()?;
    let disk = ListDisk::new(alloc, Vec::new(alloc), ROOM, failing).ok()?;
    let noted = NotedDisk {
        disk,
        calls: Vec::new(alloc),
    };
    Journal::form(alloc, claimed(noted)?, &header(plain())).ok()
}

/// What a mend answers where the call of this number fails, and the calls of it alone.
fn mending(alloc: Global, failing: u64) -> Option<(Result<Mended, JournalFault>, Vec<Call>)> {
    let mut journal = noted_journal(alloc, failing)?;
    if append(alloc, &mut journal, &PAYLOAD, &[])? != Err(JournalFault::DiskFault) {
        return None;
    }
    let answer = mend(&mut journal);
    let NotedDisk { disk: _, calls } = journal.into_disk();
    Some((answer, calls))
}

/// The last calls of that mend, so many of them.
fn mends(alloc: Global, failing: u64, answer: Mended, last: &[Call]) -> Option<bool> {
    let (found, calls) = mending(alloc, failing)?;
    let from = calls.len().checked_sub(last.len())?;
    let (_, end) = calls.as_slice().split_at_checked(from)?;
    Some(found == Ok(answer) && end == last)
}

/// The gate in doubt is at 41, and the record after it ends at 57.
const BODY: [Call; 2] = [Call::Write(42, 15, Some(0)), Call::Sync];

/// An open gate is written once more, before the sync by which its record counts; and of a closed one no byte is.
#[test]
fn a_mend_opens_an_open_gate_once_more(rt: HostRuntime) -> Result<(), Fail> {
    let again = [
        Call::Write(41, 1, Some(0xa5)),
        Call::Sync,
        Call::Sync,
        Call::Write(41, 1, Some(0xa5)),
        Call::Sync,
    ];
    equal(mends(rt.alloc(), 11, Mended::Counted, &again), Some(true))?;
    let [write, sync] = BODY;
    equal(
        mends(rt.alloc(), 9, Mended::Dropped, &[write, sync, Call::Sync]),
        Some(true),
    )?;
    Ok(())
}
