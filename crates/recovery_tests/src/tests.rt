//! Journals that were written by hand, and what they are read as.
use expected_values::{equal, equal_in};
use house_io::{Disk, ListDisk, SureDisk};
use lot_base::{Goods, Prices, Terms};
use recovery::{Broken, JournalCause, Next, RecoverFault, Recovered, Reports, read_reports};
use std::alloc::Global;
use std::test::Fail;

/// The file of clock 0's journal of version 1 with one record: bidder 1 reports in round 1 two units of the one good.
const FILE: [u8; 57] = [
    0xa5, 0x41, 0x48, 0x4a, 0x31, 0, 0, 0, 0, 7, 7, 7, 7, 7, 7, 7, 7, 7, 7, 7, 7, 7, 7, 7, 7, 7, 7,
    7, 7, 7, 7, 7, 7, 7, 7, 7, 7, 7, 7, 7, 7, 0xa5, 0, 0, 0, 10, 1, 0, 0, 0, 1, 1, 0, 1, 0, 2, 0,
];

/// The digest of the auction.
const DIGEST: [u8; 32] = [7; 32];

/// The gate of the first record of a journal of version 1.
const FIRST_GATE: usize = 41;

fn goods() -> Option<Goods> {
    Goods::new(&[2]).ok()
}

/// Two units of one good among two bidders.
fn terms() -> Option<Terms> {
    Terms::new(goods()?, 2, 10).ok()
}

/// The terms of such an auction, which opens at these prices.
fn opening_at(goods: Goods, opening: Prices) -> Option<Terms> {
    if opening.count() != goods.count() {
        return None;
    }
    Terms::with_opening(goods, 2, 10, opening).ok()
}

/// The same, opening at 5.
fn priced() -> Option<Terms> {
    opening_at(goods()?, Prices::read(&[5])?)
}

/// What a file is read as.
#[derive(Clone, Copy, Debug, PartialEq, Eq)]
struct Found {
    reports: usize,
    broken: Option<Broken>,
}

fn reports(count: usize) -> Found {
    Found {
        reports: count,
        broken: None,
    }
}

fn broken(reports: usize, number: u32, cause: JournalCause) -> Found {
    Found {
        reports,
        broken: Some(Broken { number, cause }),
    }
}

fn copy_of(alloc: Global, bytes: &[u8]) -> Option<Vec<u8>> {
    bytes.to_vec(alloc).ok()
}

fn disk_of(alloc: Global, file: &[u8]) -> Option<SureDisk> {
    SureDisk::new(alloc, copy_of(alloc, file)?, 8).ok()
}

fn recovered_from<D: Disk>(alloc: Global, disk: &mut D, terms: &Terms) -> Option<Recovered> {
    read_reports(alloc, disk, terms, 0, &DIGEST).ok()
}

fn recovered(alloc: Global, terms: &Terms, file: &[u8]) -> Option<Recovered> {
    let mut disk = disk_of(alloc, file)?;
    recovered_from(alloc, &mut disk, terms)
}

/// What a file is read as under terms.
fn found_under(alloc: Global, terms: &Terms, file: &[u8]) -> Option<Found> {
    let read = recovered(alloc, terms, file)?;
    Some(Found {
        reports: read.reports.len(),
        broken: read.broken,
    })
}

/// What a file is read as.
fn found_in(alloc: Global, file: &[u8]) -> Option<Found> {
    let terms = terms()?;
    found_under(alloc, &terms, file)
}

/// The same under terms that open at 5.
fn found_in_priced(alloc: Global, file: &[u8]) -> Option<Found> {
    let terms = priced()?;
    found_under(alloc, &terms, file)
}

/// What the first so many bytes of the file are read as, with this byte at the first record's gate.
fn found_of_cut(alloc: Global, gate: u8, length: usize) -> Option<Found> {
    let mut file = FILE;
    file[FIRST_GATE] = gate;
    found_in(alloc, file.get(..length)?)
}

#[test]
fn each_cut_of_an_open_record_is_damaged(rt: HostRuntime) -> Result<(), Fail> {
    equal(found_of_cut(rt.alloc(), 0xa5, 57), Some(reports(1)))?;
    for length in 42..57 {
        let found = found_of_cut(rt.alloc(), 0xa5, length);
        equal_in(length, found, Some(broken(0, 1, JournalCause::Damaged)))?;
    }
    Ok(())
}

#[test]
fn each_cut_of_a_closed_record_is_none(rt: HostRuntime) -> Result<(), Fail> {
    for length in 42..58 {
        let found = found_of_cut(rt.alloc(), 0, length);
        equal_in(length, found, Some(reports(0)))?;
    }
    Ok(())
}

#[test]
fn each_shorter_file_is_unformed(rt: HostRuntime) -> Result<(), Fail> {
    for length in 0..42 {
        let found = found_of_cut(rt.alloc(), 0xa5, length);
        equal_in(length, found, Some(reports(0)))?;
    }
    Ok(())
}

/// The bytes of the pieces, one piece after the other.
fn joined(alloc: Global, pieces: &[&[u8]]) -> Option<Vec<u8>> {
    let mut bytes = Vec::new(alloc);
    for piece in pieces {
        if bytes.extend_from_slice(piece).is_err() {
            return None;
        }
    }
    Some(bytes)
}

/// The front of a file without the digest: its gate, a name and a clock.
fn front_of(version: u8, clock: u8) -> [u8; 9] {
    [0xa5, 0x41, 0x48, 0x4a, b'0' + version % 10, 0, 0, 0, clock]
}

/// An empty journal of the first version, or of one that is not known, whose digest is 32 times the same byte.
fn plain(alloc: Global, version: u8, clock: u8, digest: u8) -> Option<Vec<u8>> {
    joined(alloc, &[&front_of(version, clock), &[digest; 32], &[0]])
}

/// These prices as they stand in a journal.
fn spelled(alloc: Global, prices: &[u8]) -> Option<Vec<u8>> {
    let mut bytes = Vec::new(alloc);
    for price in prices {
        if bytes.extend_from_slice(&[0, 0, 0, *price]).is_err() {
            return None;
        }
    }
    Some(bytes)
}

/// An empty journal of the second version, whose goods open at these prices.
fn opened(alloc: Global, clock: u8, digest: u8, opening: &[u8]) -> Option<Vec<u8>> {
    let prices = spelled(alloc, opening)?;
    let counted = [2, (opening.len() % 256) as u8];
    joined(
        alloc,
        &[&front_of(2, clock), &[digest; 32], &counted, &prices, &[0]],
    )
}

/// What an empty journal is read as under terms of the first version.
fn found_plain(alloc: Global, version: u8, clock: u8, digest: u8) -> Option<Found> {
    let file = plain(alloc, version, clock, digest)?;
    found_in(alloc, &file)
}

/// What an empty journal with an opening is read as under terms of the first version.
fn found_opened(alloc: Global, clock: u8, digest: u8, opening: &[u8]) -> Option<Found> {
    let file = opened(alloc, clock, digest, opening)?;
    found_in(alloc, &file)
}

/// What an empty journal with an opening is read as under terms that open at 5.
fn found_priced(alloc: Global, clock: u8, digest: u8, opening: &[u8]) -> Option<Found> {
    let file = opened(alloc, clock, digest, opening)?;
    found_in_priced(alloc, &file)
}

fn header(cause: JournalCause) -> Found {
    broken(0, 0, cause)
}

#[test]
fn a_header_is_broken_for_its_first_cause(rt: HostRuntime) -> Result<(), Fail> {
    for (version, clock, digest, found) in [
        (3, 3, 9, header(JournalCause::Damaged)),
        (1, 3, 9, header(JournalCause::OtherClock(3))),
        (1, 0, 9, header(JournalCause::OtherAuction([9; 32]))),
        (1, 0, 7, reports(0)),
    ] {
        equal_in(
            (version, clock, digest),
            found_plain(rt.alloc(), version, clock, digest),
            Some(found),
        )?;
    }
    Ok(())
}

#[test]
fn a_header_with_an_opening_is_of_another_version(rt: HostRuntime) -> Result<(), Fail> {
    for (clock, digest, found) in [
        (3, 9, header(JournalCause::OtherClock(3))),
        (0, 9, header(JournalCause::OtherAuction([9; 32]))),
        (0, 7, header(JournalCause::OtherVersion(2))),
    ] {
        equal_in(
            (clock, digest),
            found_opened(rt.alloc(), clock, digest, &[5]),
            Some(found),
        )?;
    }
    let old = found_in_priced(rt.alloc(), &FILE);
    equal(old, Some(header(JournalCause::OtherVersion(1))))?;
    Ok(())
}

#[test]
fn an_opening_is_compared_good_by_good(rt: HostRuntime) -> Result<(), Fail> {
    for (digest, opening, found) in [
        (7, [5].as_slice(), reports(0)),
        (7, [6].as_slice(), header(JournalCause::OtherOpening(0))),
        (7, [5, 5].as_slice(), header(JournalCause::OtherOpening(1))),
        (
            9,
            [6].as_slice(),
            header(JournalCause::OtherAuction([9; 32])),
        ),
    ] {
        equal_in(
            (digest, opening),
            found_priced(rt.alloc(), 0, digest, opening),
            Some(found),
        )?;
    }
    Ok(())
}

/// The file with one record more, whose payload is this.
fn with_record(alloc: Global, payload: &[u8]) -> Option<Vec<u8>> {
    let mut file = FILE;
    file[56] = 0xa5;
    let length = [0, 0, 0, (payload.len() % 256) as u8];
    joined(alloc, &[&file, &length, payload, &[0]])
}

/// What the file is read as with one record more.
fn found_with(alloc: Global, payload: &[u8]) -> Option<Found> {
    let file = with_record(alloc, payload)?;
    found_in(alloc, &file)
}

#[test]
fn a_payload_is_that_of_a_report(rt: HostRuntime) -> Result<(), Fail> {
    let next = found_with(rt.alloc(), &[2, 0, 0, 0, 1, 1, 0, 2, 0, 0, 0, 2]);
    equal(next, Some(reports(2)))?;
    let none = Some(broken(1, 2, JournalCause::NotReport));
    for (bidder, goods, bundles, units) in [
        (0, 1, 1, 2),
        (3, 1, 1, 2),
        (2, 2, 1, 2),
        (2, 1, 2, 2),
        (2, 1, 0, 2),
        (2, 1, 1, 3),
    ] {
        let payload = [bidder, 0, 0, 0, 1, goods, 0, bundles, 0, units];
        equal_in(
            (bidder, goods, bundles, units),
            found_with(rt.alloc(), &payload),
            none,
        )?;
    }
    equal(found_with(rt.alloc(), &[]), none)?;
    Ok(())
}

/// What the file is read as with this bidder in its record, and an open gate after it.
fn found_before_damage(alloc: Global, bidder: u8) -> Option<Found> {
    let mut file = FILE;
    file[46] = bidder;
    file[56] = 0xa5;
    found_in(alloc, &file)
}

#[test]
fn the_first_broken_record_counts(rt: HostRuntime) -> Result<(), Fail> {
    for (bidder, found) in [
        (1, broken(1, 2, JournalCause::Damaged)),
        (3, broken(0, 1, JournalCause::NotReport)),
    ] {
        equal_in(bidder, found_before_damage(rt.alloc(), bidder), Some(found))?;
    }
    Ok(())
}

/// A step of a reader, without the demand.
#[derive(Clone, Copy, Debug, PartialEq, Eq)]
enum Step {
    /// A report of this bidder in this round.
    Report(u8, u32),
    Broken(Broken),
    End,
    Fault(RecoverFault),
}

fn step_of(next: Result<Next, RecoverFault>) -> Step {
    match next {
        Ok(Next::Report(report)) => Step::Report(report.bidder, report.round),
        Ok(Next::Broken(broken)) => Step::Broken(broken),
        Ok(Next::End) => Step::End,
        Err(fault) => Step::Fault(fault),
    }
}

/// The one number.
fn one(alloc: Global, number: u64) -> Option<Vec<u64>> {
    [number].to_vec(alloc).ok()
}

fn list_disk_of(alloc: Global, bytes: Vec<u8>, failing: Vec<u64>) -> Option<ListDisk> {
    ListDisk::new(alloc, bytes, 8, failing).ok()
}

/// A disk of which the call with this number fails.
fn failing_disk(alloc: Global, file: &[u8], call: u64) -> Option<ListDisk> {
    list_disk_of(alloc, copy_of(alloc, file)?, one(alloc, call)?)
}

fn begun<D: Disk>(alloc: Global, disk: &mut D, terms: &Terms) -> Result<Reports, RecoverFault> {
    Reports::begin(alloc, disk, terms, 0, &DIGEST)
}

fn next_step<D: Disk>(alloc: Global, reader: &mut Reports, disk: &mut D) -> Step {
    step_of(reader.next(alloc, disk))
}

/// The number, from 0, of the first step of a reader that is another, or that of all of them.
fn first_other<D: Disk>(
    alloc: Global,
    reader: &mut Reports,
    disk: &mut D,
    steps: &[Step],
) -> usize {
    let mut number: usize = 0;
    for step in steps {
        if next_step(alloc, reader, disk) != *step {
            break;
        }
        number = number.saturating_add(1);
    }
    number
}

/// The first step that is another where a disk is read.
fn first_other_on<D: Disk>(alloc: Global, disk: &mut D, steps: &[Step]) -> Option<usize> {
    let terms = terms()?;
    let mut reader = begun(alloc, disk, &terms).ok()?;
    Some(first_other(alloc, &mut reader, disk, steps))
}

/// The first step that is another where a file is read from a disk of which this call fails.
fn first_other_in(alloc: Global, file: &[u8], call: u64, steps: &[Step]) -> Option<usize> {
    let mut disk = failing_disk(alloc, file, call)?;
    first_other_on(alloc, &mut disk, steps)
}

/// The number of the call that reads payloads: after a sync, a read of the header, the size, a read of the first gate, the size after its
/// record, and a read of the second gate.
const PAYLOADS: u64 = 6;

const AFTER_A_FAULT: &[Step] = &[
    Step::Fault(RecoverFault::DiskFault),
    Step::Report(1, 1),
    Step::End,
    Step::End,
];

#[test]
fn a_reader_goes_on_after_a_fault(rt: HostRuntime) -> Result<(), Fail> {
    let other = first_other_in(rt.alloc(), &FILE, PAYLOADS, AFTER_A_FAULT);
    equal(other, Some(4))?;
    Ok(())
}

/// The file with a report of a bidder that there is not.
fn stranger() -> [u8; 57] {
    let mut file = FILE;
    file[46] = 3;
    file
}

const NOT_A_REPORT: Step = Step::Broken(Broken {
    number: 1,
    cause: JournalCause::NotReport,
});

#[test]
fn a_broken_record_is_told_again(rt: HostRuntime) -> Result<(), Fail> {
    let steps = [NOT_A_REPORT, NOT_A_REPORT];
    equal(first_other_in(rt.alloc(), &stranger(), 99, &steps), Some(2))?;
    Ok(())
}

/// Why the beginning fails on a disk, if it does.
fn fault_on<D: Disk>(alloc: Global, disk: &mut D) -> Option<Result<(), RecoverFault>> {
    let terms = terms()?;
    match begun(alloc, disk, &terms) {
        Ok(_) => Some(Ok(())),
        Err(fault) => Some(Err(fault)),
    }
}

/// The same of a disk of which this call fails.
fn fault_at(alloc: Global, call: u64) -> Option<Result<(), RecoverFault>> {
    let mut disk = failing_disk(alloc, &FILE, call)?;
    fault_on(alloc, &mut disk)
}

#[test]
fn each_call_of_a_scan_may_fail(rt: HostRuntime) -> Result<(), Fail> {
    let fault = Some(Err(RecoverFault::DiskFault));
    for call in 0..PAYLOADS {
        equal_in(call, fault_at(rt.alloc(), call), fault)?;
    }
    equal(fault_at(rt.alloc(), PAYLOADS), Some(Ok(())))?;
    Ok(())
}
