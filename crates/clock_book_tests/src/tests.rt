//! Journals that were written by hand, and the clocks that are read from them.
use clock::{Clock, Judgement, Look};
use clock_book::{OpenFault, read_clock};
use expected_values::{equal, equal_in};
use house_io::{ListDisk, SureDisk};
use lot_base::{Goods, Phase, Prices, Terms};
use recovery::{Broken, JournalCause};
use std::alloc::Global;
use std::test::Fail;

/// The digest of the auction.
const DIGEST: [u8; 32] = [7; 32];

/// Two units of one good among two bidders.
fn terms() -> Option<Terms> {
    match Goods::new(&[2]) {
        Ok(goods) => Terms::new(goods, 2, 10).ok(),
        Err(_) => None,
    }
}

/// A report of some units of the one good.
#[derive(Clone, Copy)]
struct Line {
    bidder: u8,
    round: u8,
    units: u8,
}

fn entry(bidder: u8, round: u8, units: u8) -> Line {
    Line {
        bidder,
        round,
        units,
    }
}

/// The front of a journal of version 1: clock 0's, with 32 times this byte.
fn front_of(alloc: Global, digest: u8) -> Option<Vec<u8>> {
    let mut file = Vec::new(alloc);
    file.extend_from_slice(&[0xa5, 0x41, 0x48, 0x4a, 0x31, 0, 0, 0, 0])
        .ok()?;
    file.extend_from_slice(&[digest; 32]).ok()?;
    Some(file)
}

/// Appends a record after an open gate, if there is memory.
fn push_record(file: &mut Vec<u8>, line: Line) -> bool {
    let record = [
        0xa5,
        0,
        0,
        0,
        10,
        line.bidder,
        0,
        0,
        0,
        line.round,
        1,
        0,
        1,
        0,
        line.units,
    ];
    file.extend_from_slice(&record).is_ok()
}

/// The journal of these reports after this front, whose last gate has this byte.
fn with_records(front: Vec<u8>, rows: &[Line], last: u8) -> Option<Vec<u8>> {
    let mut file = front;
    for line in rows {
        if !push_record(&mut file, *line) {
            return None;
        }
    }
    file.push(last).ok()?;
    Some(file)
}

/// The journal of these reports, whose last gate has this byte.
fn journal_of(alloc: Global, rows: &[Line], last: u8) -> Option<Vec<u8>> {
    with_records(front_of(alloc, 7)?, rows, last)
}

/// How a clock stands.
#[derive(Clone, Copy, Debug, PartialEq, Eq)]
struct Seen {
    round: u32,
    phase: Phase,
    missing: u8,
    price: u32,
}

fn seen_of(clock: &Clock) -> Seen {
    let Look {
        round,
        phase,
        prices,
    } = clock.look();
    Seen {
        round,
        phase,
        missing: clock.missing(),
        price: first_of(&prices),
    }
}

fn first_of(prices: &Prices) -> u32 {
    let _some = prices.as_slice();
    prices.get(0)
}

/// What is read as clock 0, or why nothing is.
type Read = Result<Seen, OpenFault>;

fn read_sure(alloc: Global, disk: &mut SureDisk, terms: &Terms) -> Read {
    match read_clock(alloc, disk, terms, 0, &DIGEST) {
        Ok(clock) => Ok(seen_of(&clock)),
        Err(fault) => Err(fault),
    }
}

fn sure_disk(alloc: Global, file: Vec<u8>) -> Option<SureDisk> {
    SureDisk::new(alloc, file, 8).ok()
}

/// What is read from a file.
fn read_from(alloc: Global, file: Option<Vec<u8>>) -> Option<Read> {
    let terms = terms()?;
    match sure_disk(alloc, file?) {
        None => None,
        Some(mut disk) => Some(read_sure(alloc, &mut disk, &terms)),
    }
}

/// What is read from a journal of these reports, whose last gate has this byte.
fn read_rows(alloc: Global, rows: &[Line], last: u8) -> Option<Read> {
    read_from(alloc, journal_of(alloc, rows, last))
}

fn running(round: u32, missing: u8, price: u32) -> Read {
    Ok(Seen {
        round,
        phase: Phase::Running,
        missing,
        price,
    })
}

fn not_acceptable(number: u32, judgement: Judgement) -> Read {
    Err(OpenFault::NotAcceptable { number, judgement })
}

fn broken(number: u32, cause: JournalCause) -> Read {
    Err(OpenFault::Broken(Broken { number, cause }))
}

#[test]
fn a_clock_stands_as_its_journal_says(rt: HostRuntime) -> Result<(), Fail> {
    let none = read_from(rt.alloc(), Some(Vec::new(rt.alloc())));
    equal(none, Some(running(1, 1, 0)))?;
    let one = read_rows(rt.alloc(), &[entry(1, 1, 2)], 0);
    equal(one, Some(running(1, 2, 0)))?;
    let two = read_rows(rt.alloc(), &[entry(1, 1, 2), entry(2, 1, 2)], 0);
    equal(two, Some(running(2, 1, 1)))?;
    Ok(())
}

#[test]
fn the_first_report_that_is_not_taken_is_told(rt: HostRuntime) -> Result<(), Fail> {
    let early = read_rows(rt.alloc(), &[entry(1, 2, 2)], 0);
    equal(early, Some(not_acceptable(1, Judgement::Early(1))))?;
    let again = read_rows(rt.alloc(), &[entry(1, 1, 2), entry(1, 1, 2)], 0);
    equal(again, Some(not_acceptable(2, Judgement::Again)))?;
    let rows = [entry(2, 1, 2), entry(2, 1, 1), entry(1, 9, 1)];
    let conflict = read_rows(rt.alloc(), &rows, 0);
    equal(conflict, Some(not_acceptable(2, Judgement::Conflict(1))))?;
    Ok(())
}

#[test]
fn the_smaller_record_is_told(rt: HostRuntime) -> Result<(), Fail> {
    let before = read_rows(rt.alloc(), &[entry(1, 2, 2)], 0xa5);
    equal(before, Some(not_acceptable(1, Judgement::Early(1))))?;
    let behind = read_rows(rt.alloc(), &[entry(1, 1, 2)], 0xa5);
    equal(behind, Some(broken(2, JournalCause::Damaged)))?;
    let stranger = read_rows(rt.alloc(), &[entry(3, 1, 2), entry(1, 2, 2)], 0);
    equal(stranger, Some(broken(1, JournalCause::NotReport)))?;
    Ok(())
}

/// A journal of no reports, of an auction with 32 times this byte.
fn journal_of_another(alloc: Global, digest: u8) -> Option<Vec<u8>> {
    with_records(front_of(alloc, digest)?, &[], 0)
}

#[test]
fn a_journal_of_another_auction_is_broken(rt: HostRuntime) -> Result<(), Fail> {
    let other = read_from(rt.alloc(), journal_of_another(rt.alloc(), 9));
    equal(other, Some(broken(0, JournalCause::OtherAuction([9; 32]))))?;
    Ok(())
}

/// The number of the one call that fails.
fn one_call(alloc: Global, call: u64) -> Option<Vec<u64>> {
    let mut failing = Vec::new(alloc);
    failing.push(call).ok()?;
    Some(failing)
}

fn list_disk(alloc: Global, file: Vec<u8>, failing: Vec<u64>) -> Option<ListDisk> {
    ListDisk::new(alloc, file, 8, failing).ok()
}

/// A disk of which the call with this number fails, with the journal of one report.
fn failing_disk(alloc: Global, call: u64) -> Option<ListDisk> {
    let failing = one_call(alloc, call)?;
    let file = journal_of(alloc, &[entry(1, 1, 2)], 0)?;
    list_disk(alloc, file, failing)
}

/// The fault of a reading, if there is one.
fn fault_of(alloc: Global, disk: &mut ListDisk, terms: &Terms) -> Option<OpenFault> {
    match read_clock(alloc, disk, terms, 0, &DIGEST) {
        Ok(_) => None,
        Err(fault) => Some(fault),
    }
}

/// The fault of a reading of which the call with this number fails.
fn fault_at(alloc: Global, call: u64) -> Option<Option<OpenFault>> {
    let terms = terms()?;
    match failing_disk(alloc, call) {
        None => None,
        Some(mut disk) => Some(fault_of(alloc, &mut disk, &terms)),
    }
}

#[test]
fn each_call_of_a_reading_may_fail(rt: HostRuntime) -> Result<(), Fail> {
    for call in 0..7 {
        let fault = fault_at(rt.alloc(), call);
        equal_in(call, fault, Some(Some(OpenFault::DiskFault)))?;
    }
    equal(fault_at(rt.alloc(), 7), Some(None))?;
    Ok(())
}
