//! Calls of a disk that fail: what is answered, and what is left at each stop.
use super::fixtures::{
    FILE, LONG, LONGER, PAYLOAD, ROOM, Says, Seen, Step, append, claimed, count, first_other,
    header, mend, one_good, plain, scanned_on, seen_in,
};
use expected_values::{equal, equal_in};
use house_io::{Disk, Fill, ListDisk};
use lot_base::Prices;
use report_journal::{Journal, JournalFault, Mended, NotFormed};
use std::alloc::Global;
use std::test::Fail;

/// The one number.
fn one(alloc: Global, number: u64) -> Option<Vec<u64>> {
    [number].to_vec(alloc).ok()
}

/// The answer of a forming on an empty disk whose calls of these numbers fail, if there is memory for the disk. Its first call is the
/// claim, and is not to fail.
fn form_listed(
    alloc: Global,
    failing: Vec<u64>,
    opening: Option<Prices>,
) -> Option<Result<Journal<ListDisk>, NotFormed<ListDisk>>> {
    match ListDisk::new(alloc, Vec::new(alloc), ROOM, failing) {
        Ok(disk) => Some(Journal::form(alloc, claimed(disk)?, &header(opening))),
        Err(_) => None,
    }
}

/// A journal on a disk whose call of this number fails.
fn listed_journal(
    alloc: Global,
    failing: u64,
    opening: Option<Prices>,
) -> Option<Journal<ListDisk>> {
    form_listed(alloc, one(alloc, failing)?, opening)?.ok()
}

/// Why no journal was formed, if none was, and the disk.
fn fault_and_disk(
    answer: Result<Journal<ListDisk>, NotFormed<ListDisk>>,
) -> (Option<JournalFault>, ListDisk) {
    match answer {
        Ok(journal) => (None, journal.into_disk()),
        Err(NotFormed { disk, fault }) => (Some(fault), disk),
    }
}

/// Why no journal was formed on such a disk, if none was, and what the disk holds.
fn form_failing(
    alloc: Global,
    failing: u64,
    opening: Option<Prices>,
) -> Option<(Option<JournalFault>, Seen)> {
    let answer = form_listed(alloc, one(alloc, failing)?, opening)?;
    let (fault, disk) = fault_and_disk(answer);
    Some((fault, seen_in(alloc, disk.bytes())?))
}

/// The answer of a forming whose call of this number fails.
fn expected_forming(failing: u64) -> (Option<JournalFault>, Seen) {
    match failing {
        1..7 => (Some(JournalFault::DiskFault), Seen::Unformed),
        7 => (Some(JournalFault::DiskFault), Seen::Formed(0)),
        _ => (None, Seen::Formed(0)),
    }
}

#[test]
fn a_forming_tells_each_fault(rt: HostRuntime) -> Result<(), Fail> {
    for failing in 1..9 {
        let expected = Some(expected_forming(failing));
        let found = form_failing(rt.alloc(), failing, plain());
        equal_in(failing, found, expected)?;
        let found = form_failing(rt.alloc(), failing, one_good());
        equal_in(failing, found, expected)?;
    }
    Ok(())
}

/// The first step that goes otherwise where the call of this number fails, and whether the disk has the first record's file then.
fn stepped(alloc: Global, failing: u64, steps: &[Step]) -> Option<(usize, bool)> {
    let mut journal = listed_journal(alloc, failing, plain())?;
    let other = first_other(alloc, &mut journal, steps);
    Some((other, has_first_file(journal)))
}

fn has_first_file(journal: Journal<ListDisk>) -> bool {
    let disk = journal.into_disk();
    disk.bytes() == FILE.as_slice()
}

const COUNTED_ONCE: &[Step] = &[
    Step::Appends(&PAYLOAD, Err(JournalFault::DiskFault)),
    Step::Counts(0),
    Step::Appends(&PAYLOAD, Err(JournalFault::NotMended)),
    Step::Mends(Ok(Mended::Counted)),
    Step::Counts(1),
    Step::Mends(Ok(Mended::Nothing)),
];

#[test]
fn a_record_whose_last_sync_fails_is_counted_once(rt: HostRuntime) -> Result<(), Fail> {
    equal(stepped(rt.alloc(), 11, COUNTED_ONCE), Some((6, true)))?;
    Ok(())
}

const PUT_AGAIN: &[Step] = &[
    Step::Appends(&PAYLOAD, Err(JournalFault::DiskFault)),
    Step::Mends(Ok(Mended::Dropped)),
    Step::Appends(&PAYLOAD, Ok(1)),
];

#[test]
fn a_record_whose_body_fails_is_dropped_and_put_again(rt: HostRuntime) -> Result<(), Fail> {
    equal(stepped(rt.alloc(), 8, PUT_AGAIN), Some((3, true)))?;
    Ok(())
}

/// The second record has zeros after it.
const PADDED_AGAIN: &[Step] = &[
    Step::Appends(&LONG, Ok(1)),
    Step::Appends(&PAYLOAD, Err(JournalFault::DiskFault)),
    Step::Counts(1),
    Step::Mends(Ok(Mended::Dropped)),
    Step::Appends(&PAYLOAD, Ok(2)),
    Step::Holds(1, &LONG),
    Step::Holds(2, &PAYLOAD),
];

/// The third lies after the second, and its append fails.
const LIES_THERE_STILL: &[Step] = &[
    Step::Appends(&LONG, Ok(1)),
    Step::Lays(&PAYLOAD, &PAYLOAD, Ok(2)),
    Step::Appends(&PAYLOAD, Err(JournalFault::DiskFault)),
    Step::Counts(2),
    Step::Mends(Ok(Mended::Counted)),
    Step::Appends(&PAYLOAD, Ok(4)),
    Step::Holds(3, &PAYLOAD),
    Step::Holds(4, &PAYLOAD),
];

#[test]
fn a_record_that_lies_there_and_whose_sync_fails_is_counted_once(
    rt: HostRuntime,
) -> Result<(), Fail> {
    equal(stepped(rt.alloc(), 18, LIES_THERE_STILL), Some((8, false)))?;
    Ok(())
}

/// Its gate was open when the write of the zeros failed, or the sync of both.
const PADDED_ONCE: &[Step] = &[
    Step::Appends(&LONG, Ok(1)),
    Step::Appends(&PAYLOAD, Err(JournalFault::DiskFault)),
    Step::Counts(1),
    Step::Mends(Ok(Mended::Counted)),
    Step::Appends(&LONGER, Ok(3)),
    Step::Holds(2, &PAYLOAD),
    Step::Holds(3, &LONGER),
];

#[test]
fn a_record_with_zeros_after_it_is_dropped_or_counted(rt: HostRuntime) -> Result<(), Fail> {
    for (failing, steps) in [
        (12, PADDED_AGAIN),
        (13, PADDED_AGAIN),
        (14, PADDED_AGAIN),
        (15, PADDED_ONCE),
        (16, PADDED_ONCE),
    ] {
        equal_in(
            failing,
            stepped(rt.alloc(), failing, steps),
            Some((7, false)),
        )?;
    }
    Ok(())
}

/// How far a run came: it forms a journal, appends, mends where that failed, and appends again.
#[derive(Clone, Copy, Debug, PartialEq, Eq)]
enum Came {
    NotFormed,
    /// So many records were acknowledged, and one more may be there.
    Acknowledged(u32),
}

/// What a run appends, each with what is likely to come next: the second has the third and zeros after it, and the third another that does
/// not come.
const THREE: [(&[u8], &[u8]); 3] = [(&LONG, &[]), (&PAYLOAD, &PAYLOAD), (&PAYLOAD, &LONGER)];

/// Appends, until an append fails, and mends.
fn append_and_mend<D: Disk>(alloc: Global, journal: &mut Journal<D>) {
    for (payload, next) in THREE {
        match append(alloc, journal, payload, next) {
            Some(Ok(_)) => {}
            _ => break,
        }
    }
    let _ = mend(journal);
}

/// Runs on with what a forming answered until a call fails for good, and gives the disk back.
fn run(alloc: Global, answer: Result<Journal<ListDisk>, NotFormed<ListDisk>>) -> (ListDisk, Came) {
    match answer {
        Ok(mut journal) => {
            append_and_mend(alloc, &mut journal);
            let count = count(&journal);
            (journal.into_disk(), Came::Acknowledged(count))
        }
        Err(NotFormed { disk, fault: _ }) => (disk, Came::NotFormed),
    }
}

/// Whether a reopened image may be what such a run left.
fn is_left_by(came: Came, image: Seen) -> bool {
    match (came, image) {
        (Came::NotFormed, Seen::Unformed | Seen::Formed(0)) => true,
        (Came::Acknowledged(count), Seen::Formed(found)) => {
            found == count as usize || found == (count as usize).saturating_add(1)
        }
        _ => false,
    }
}

/// What a scan answers of an image.
fn seen_in_image(alloc: Global, disk: &ListDisk, fill: Fill) -> Option<Seen> {
    match disk.image(alloc, fill) {
        Ok(image) => seen_in(alloc, &image),
        Err(_) => None,
    }
}

fn is_left(alloc: Global, disk: &ListDisk, came: Came, fill: Fill) -> bool {
    match seen_in_image(alloc, disk, fill) {
        Some(image) => is_left_by(came, image),
        None => false,
    }
}

/// The first image of the disk that such a run has not left, if there is one.
fn is_not_left(alloc: Global, disk: &ListDisk, came: Came) -> Option<Fill> {
    for fill in [Fill::Old, Fill::New, Fill::Byte(0), Fill::Byte(0xa5)] {
        if !is_left(alloc, disk, came, fill) {
            return Some(fill);
        }
    }
    None
}

/// The same of a run on a disk whose calls of these numbers fail, if there is memory for the disk.
fn lost(alloc: Global, failing: Vec<u64>) -> Option<Option<Fill>> {
    let (disk, came) = run(alloc, form_listed(alloc, failing, one_good())?);
    Some(is_not_left(alloc, &disk, came))
}

/// The numbers of 32 calls from this one on.
fn calls_from(alloc: Global, stop: u64) -> Option<Vec<u64>> {
    let mut calls = Vec::new(alloc);
    for call in 0..32 {
        if calls.push(stop.saturating_add(call)).is_err() {
            return None;
        }
    }
    Some(calls)
}

fn lost_by_a_stop(alloc: Global, stop: u64) -> Option<Option<Fill>> {
    lost(alloc, calls_from(alloc, stop)?)
}

fn lost_by_a_fault(alloc: Global, failing: u64) -> Option<Option<Fill>> {
    lost(alloc, one(alloc, failing)?)
}

#[test]
fn each_stop_leaves_what_was_acknowledged(rt: HostRuntime) -> Result<(), Fail> {
    for stop in 1..21 {
        equal_in(stop, lost_by_a_stop(rt.alloc(), stop), Some(None))?;
    }
    Ok(())
}

#[test]
fn each_failing_call_is_mended(rt: HostRuntime) -> Result<(), Fail> {
    for failing in 1..25 {
        equal_in(failing, lost_by_a_fault(rt.alloc(), failing), Some(None))?;
    }
    Ok(())
}

/// An empty disk whose call of this number fails.
fn listed(alloc: Global, failing: u64) -> Option<ListDisk> {
    ListDisk::new(alloc, Vec::new(alloc), ROOM, one(alloc, failing)?).ok()
}

/// Whether a scan of an empty file fails on such a disk.
fn scan_fails(alloc: Global, failing: u64) -> Option<bool> {
    let mut disk = listed(alloc, failing)?;
    Some(scanned_on(alloc, &mut disk).is_none())
}

#[test]
fn a_scan_hands_on_a_fault(rt: HostRuntime) -> Result<(), Fail> {
    for failing in 0..4 {
        equal_in(failing, scan_fails(rt.alloc(), failing), Some(failing < 3))?;
    }
    Ok(())
}

const READ_AGAIN: &[Step] = &[
    Step::Appends(&PAYLOAD, Ok(1)),
    Step::Fails(1),
    Step::Counts(1),
    Step::Holds(1, &PAYLOAD),
];

/// The first step that goes otherwise in a journal with opening prices where the call of this number fails.
fn first_other_failing(alloc: Global, failing: u64, steps: &[Step]) -> Option<usize> {
    let mut journal = listed_journal(alloc, failing, one_good())?;
    Some(first_other(alloc, &mut journal, steps))
}

/// The third record lies after the second, and the fourth after the third: each takes a write of its gate, one of what is laid after it,
/// if there is any, and a sync.
const LIE_THERE: &[Step] = &[
    Step::Appends(&LONG, Ok(1)),
    Step::Lays(&PAYLOAD, &PAYLOAD, Ok(2)),
    Step::Lays(&PAYLOAD, &PAYLOAD, Ok(3)),
    Step::Appends(&PAYLOAD, Ok(4)),
];

#[test]
fn a_record_that_lies_there_takes_one_sync(rt: HostRuntime) -> Result<(), Fail> {
    for (failing, step) in [
        (12, 1),
        (16, 1),
        (17, 2),
        (19, 2),
        (20, 3),
        (21, 3),
        (22, 4),
    ] {
        equal_in(
            failing,
            first_other_failing(rt.alloc(), failing, LIE_THERE),
            Some(step),
        )?;
    }
    Ok(())
}

/// How often a hint is asked by an append whose call of this number fails, to a journal that has grown.
fn asks(alloc: Global, failing: u64) -> Option<u32> {
    let mut journal = listed_journal(alloc, failing, plain())?;
    append(alloc, &mut journal, &LONG, &[])?.ok()?;
    let hint = Says::new(&PAYLOAD);
    let _ = journal.append_hinted(alloc, &PAYLOAD, &hint);
    Some(hint.asked())
}

#[test]
fn a_hint_is_asked_after_the_sync_of_the_record(rt: HostRuntime) -> Result<(), Fail> {
    for (failing, times) in [(12, 0), (13, 0), (14, 1), (16, 1), (17, 1)] {
        equal_in(failing, asks(rt.alloc(), failing), Some(times))?;
    }
    Ok(())
}

#[test]
fn a_payload_hands_on_a_fault(rt: HostRuntime) -> Result<(), Fail> {
    equal(first_other_failing(rt.alloc(), 12, READ_AGAIN), Some(4))?;
    Ok(())
}
