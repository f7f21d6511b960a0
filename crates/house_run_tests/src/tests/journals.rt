//! Journals that are written by the tests.
use super::auctions::digest_of;
use house_io::{Disk, SureDisk};
use lot_base::Prices;
use report_journal::{Header, Journal};
use std::alloc::Global;

/// The room of a journal's disk, in bytes and in calls.
const JOURNAL_ROOM: u32 = 4_000;

/// The journal of a clock without entries.
fn empty_journal(
    alloc: Global,
    clock: u32,
    digest: [u8; 32],
    opening: Option<Prices>,
) -> Option<Journal<SureDisk>> {
    let Ok(mut disk) = SureDisk::new(alloc, Vec::new(alloc), JOURNAL_ROOM) else {
        return None;
    };
    if disk.claim().is_err() {
        return None;
    }
    match Journal::form(alloc, disk, &Header::new(clock, digest, opening)) {
        Ok(journal) => Some(journal),
        Err(_) => None,
    }
}

/// Appends an entry, and tells whether it is in the journal.
fn is_appended(alloc: Global, journal: &mut Journal<SureDisk>, entry: &[u8]) -> bool {
    entry.len() <= 32_768 && journal.append(alloc, entry).is_ok()
}

/// The file of a journal.
fn file_in(alloc: Global, journal: Journal<SureDisk>) -> Option<Vec<u8>> {
    journal.into_disk().bytes().to_vec(alloc).ok()
}

/// The file of a clock's journal with these entries, and with an opening price of each good in version 2.
pub(super) fn journal_of(
    alloc: Global,
    clock: u32,
    digest: [u8; 32],
    opening: Option<Prices>,
    entries: &[&[u8]],
) -> Option<Vec<u8>> {
    let mut journal = empty_journal(alloc, clock, digest, opening)?;
    for entry in entries {
        if !is_appended(alloc, &mut journal, entry) {
            return None;
        }
    }
    file_in(alloc, journal)
}

/// A report of one good: the bidder, the round, and the least and the greatest number of units, which differ by one at most.
pub(super) type Report = [u8; 4];

/// Appends a report of one good, and tells whether it is in the journal.
fn is_reported(alloc: Global, journal: &mut Journal<SureDisk>, report: &Report) -> bool {
    let [bidder, round, least, greatest] = *report;
    if least == greatest {
        let entry = [bidder, 0, 0, 0, round, 1, 0, 1, 0, least];
        is_appended(alloc, journal, &entry)
    } else {
        let entry = [bidder, 0, 0, 0, round, 1, 0, 2, 0, least, 0, greatest];
        is_appended(alloc, journal, &entry)
    }
}

/// The file of a clock's journal with these reports of one good.
pub(super) fn journal_with(
    alloc: Global,
    clock: u32,
    digest: [u8; 32],
    reports: &[Report],
) -> Option<Vec<u8>> {
    let mut journal = empty_journal(alloc, clock, digest, None)?;
    for report in reports {
        if !is_reported(alloc, &mut journal, report) {
            return None;
        }
    }
    file_in(alloc, journal)
}

/// The files of a house: the auction, and the journals of its first clocks.
pub(super) const NAMES: &[&str] = &[
    "a",
    "j/clock-00.ahj",
    "j/clock-01.ahj",
    "j/clock-02.ahj",
    "j/clock-03.ahj",
];

/// The contents of a house without journals.
pub(super) fn only(alloc: Global, auction: Vec<u8>) -> Option<Vec<Vec<u8>>> {
    let mut contents = Vec::new(alloc);
    contents.push(auction).ok()?;
    Some(contents)
}

/// The digest of the first of these contents.
pub(super) fn digest_in(alloc: Global, contents: &[Vec<u8>]) -> Option<[u8; 32]> {
    digest_of(alloc, contents.first()?)
}

/// Adds the journals of the first clocks, each with these reports of one good.
fn push_journals(
    alloc: Global,
    contents: &mut Vec<Vec<u8>>,
    digest: [u8; 32],
    reports: &[&[Report]],
) -> Option<()> {
    let mut clock = 0u32;
    for rows in reports {
        contents
            .push(journal_with(alloc, clock, digest, rows)?)
            .ok()?;
        clock = clock.saturating_add(1);
    }
    Some(())
}

/// The contents of a house of one good, whose first clocks have these reports.
pub(super) fn house_with(
    alloc: Global,
    auction: Vec<u8>,
    reports: &[&[Report]],
) -> Option<Vec<Vec<u8>>> {
    let mut contents = only(alloc, auction)?;
    let digest = digest_in(alloc, &contents)?;
    push_journals(alloc, &mut contents, digest, reports)?;
    Some(contents)
}

/// Adds the journals of the first clocks, each with these entries.
fn push_entries(
    alloc: Global,
    contents: &mut Vec<Vec<u8>>,
    digest: [u8; 32],
    clocks: &[&[&[u8]]],
) -> Option<()> {
    let mut clock = 0u32;
    for entries in clocks {
        contents
            .push(journal_of(alloc, clock, digest, None, entries)?)
            .ok()?;
        clock = clock.saturating_add(1);
    }
    Some(())
}

/// The contents of a house whose first clocks have these entries.
pub(super) fn house_of_entries(
    alloc: Global,
    auction: Vec<u8>,
    clocks: &[&[&[u8]]],
) -> Option<Vec<Vec<u8>>> {
    let mut contents = only(alloc, auction)?;
    let digest = digest_in(alloc, &contents)?;
    push_entries(alloc, &mut contents, digest, clocks)?;
    Some(contents)
}
