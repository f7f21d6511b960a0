//! What a journal writes, and what is found there again, in memory and on a real file.
use super::fixtures::{
    FILE, LONG, LONGER, PAYLOAD, PRICED, ROOM, Seen, Step, append, claimed, copy_of, count,
    disk_of, first_other, header, header_in, holds, mend, one_good, plain, scanned, seen_on,
};
use expected_values::{equal, equal_in};
use house_io::{Disk, FolderDisk, FolderShelf, Shelf, SureDisk};
use lot_base::Prices;
use lot_base::limits::GREATEST_PAYLOAD;
use report_journal::{Journal, Mended, Place, Scanned, read_payload, scan};
use std::alloc::Global;
use std::fs;
use std::test::Fail;

/// The file of an empty journal of version 2, whose six goods open at 1, 256, 65,536, 16,777,216, 4,294,967,295 and 0.
const SIX_GOODS: [u8; 68] = [
    0xa5, 0x41, 0x48, 0x4a, 0x32, 0, 0, 0, 3, 7, 7, 7, 7, 7, 7, 7, 7, 7, 7, 7, 7, 7, 7, 7, 7, 7, 7,
    7, 7, 7, 7, 7, 7, 7, 7, 7, 7, 7, 7, 7, 7, 2, 6, 0, 0, 0, 1, 0, 0, 1, 0, 0, 1, 0, 0, 1, 0, 0, 0,
    0xff, 0xff, 0xff, 0xff, 0, 0, 0, 0, 0,
];

fn six_goods() -> Option<Prices> {
    Prices::read(&[1, 256, 65_536, 16_777_216, u32::MAX, 0])
}

/// An empty journal, whose goods open at these prices.
fn empty(alloc: Global, opening: Option<Prices>) -> Option<Journal<SureDisk>> {
    match SureDisk::new(alloc, Vec::new(alloc), ROOM) {
        Ok(disk) => Journal::form(alloc, claimed(disk)?, &header(opening)).ok(),
        Err(_) => None,
    }
}

fn bytes_of(alloc: Global, journal: Journal<SureDisk>) -> Option<Vec<u8>> {
    let disk = journal.into_disk();
    copy_of(alloc, disk.bytes())
}

/// The file of a journal after these steps.
fn file_after(alloc: Global, journal: Journal<SureDisk>, steps: &[Step]) -> Option<Vec<u8>> {
    let mut journal = journal;
    if first_other(alloc, &mut journal, steps) == steps.len() {
        bytes_of(alloc, journal)
    } else {
        None
    }
}

/// The file of a new journal after these steps.
fn new_file(alloc: Global, opening: Option<Prices>, steps: &[Step]) -> Option<Vec<u8>> {
    file_after(alloc, empty(alloc, opening)?, steps)
}

/// Whether the file of a new journal has these bytes after these steps.
fn writes(alloc: Global, opening: Option<Prices>, steps: &[Step], file: &[u8]) -> Option<bool> {
    let found = new_file(alloc, opening, steps)?;
    Some(found.as_slice() == file)
}

const FIRST: &[Step] = &[
    Step::Counts(0),
    Step::Appends(&PAYLOAD, Ok(1)),
    Step::Counts(1),
];

#[test]
fn a_record_is_written_as_the_format_says(rt: HostRuntime) -> Result<(), Fail> {
    equal(writes(rt.alloc(), plain(), FIRST, &FILE), Some(true))?;
    Ok(())
}

/// Two records are reserved, and a third takes its own memory.
const RESERVED: &[Step] = &[
    Step::Reserves(2),
    Step::Appends(&PAYLOAD, Ok(1)),
    Step::Appends(&LONGER, Ok(2)),
    Step::Appends(&PAYLOAD, Ok(3)),
];

/// The first step of a new journal that goes otherwise.
fn first_other_of_new(alloc: Global, steps: &[Step]) -> Option<usize> {
    let mut journal = empty(alloc, plain())?;
    Some(first_other(alloc, &mut journal, steps))
}

#[test]
fn records_are_appended_into_reserved_room(rt: HostRuntime) -> Result<(), Fail> {
    equal(first_other_of_new(rt.alloc(), RESERVED), Some(4))?;
    Ok(())
}

const BOTH: &[Step] = &[
    Step::Appends(&PAYLOAD, Ok(1)),
    Step::Appends(&LONGER, Ok(2)),
];

#[test]
fn a_header_with_opening_prices_is_written_as_the_format_says(rt: HostRuntime) -> Result<(), Fail> {
    let alloc = rt.alloc();
    equal(writes(alloc, one_good(), BOTH, &PRICED), Some(true))?;
    equal(writes(alloc, six_goods(), &[], &SIX_GOODS), Some(true))?;
    Ok(())
}

/// The length of a new journal's file after these steps.
fn length_after(alloc: Global, opening: Option<Prices>, steps: &[Step]) -> Option<usize> {
    let file = new_file(alloc, opening, steps)?;
    Some(file.len())
}

/// From byte 4,096 on a record with which its file would end is filled up to 4,096 bytes, from its gate to the zeros after it. The records that
/// follow lie in these, and one that is longer gets none.
const LENGTHS: [(&[Step], usize); 4] = [
    (&[Step::Appends(&LONG, Ok(1))], 4_138),
    (
        &[Step::Appends(&LONG, Ok(1)), Step::Appends(&PAYLOAD, Ok(2))],
        8_233,
    ),
    (
        &[
            Step::Appends(&LONG, Ok(1)),
            Step::Appends(&PAYLOAD, Ok(2)),
            Step::Appends(&LONGER, Ok(3)),
            Step::Holds(1, &LONG),
            Step::Holds(2, &PAYLOAD),
            Step::Holds(3, &LONGER),
        ],
        8_233,
    ),
    (
        &[
            Step::Appends(&LONG, Ok(1)),
            Step::Appends(&PAYLOAD, Ok(2)),
            Step::Appends(&LONG, Ok(3)),
            Step::Holds(3, &LONG),
        ],
        8_249,
    ),
];

/// The second record, and zeros after it.
const OVER_ZEROS: [u8; 20] = [
    0xa5, 0, 0, 0, 10, 1, 0, 0, 0, 1, 1, 0, 1, 0, 2, 0, 0, 0, 0, 0,
];

/// Whether the file of a new journal has these bytes from this offset on after these steps.
fn has_at(alloc: Global, steps: &[Step], at: usize, bytes: &[u8]) -> Option<bool> {
    let file = new_file(alloc, plain(), steps)?;
    Some(file.get(at..)?.starts_with(bytes))
}

#[test]
fn a_journal_that_has_grown_writes_zeros_after_a_record(rt: HostRuntime) -> Result<(), Fail> {
    equal(
        has_at(rt.alloc(), LENGTHS[1].0, 4_137, &OVER_ZEROS),
        Some(true),
    )?;
    for (steps, length) in LENGTHS {
        equal(length_after(rt.alloc(), plain(), steps), Some(length))?;
    }
    Ok(())
}

/// A record after which the next one is laid, and that one comes.
const COMES: &[Step] = &[
    Step::Appends(&LONG, Ok(1)),
    Step::Lays(&PAYLOAD, &LONGER, Ok(2)),
    Step::Appends(&LONGER, Ok(3)),
    Step::Holds(1, &LONG),
    Step::Holds(2, &PAYLOAD),
    Step::Holds(3, &LONGER),
];

/// Another one comes.
const COMES_NOT: &[Step] = &[
    Step::Appends(&LONG, Ok(1)),
    Step::Lays(&PAYLOAD, &LONGER, Ok(2)),
    Step::Appends(&PAYLOAD, Ok(3)),
    Step::Holds(2, &PAYLOAD),
    Step::Holds(3, &PAYLOAD),
];

/// The second record from its gate on, and the next one laid after its closed gate.
const LAID: [u8; 33] = [
    0xa5, 0, 0, 0, 10, 1, 0, 0, 0, 1, 1, 0, 1, 0, 2, 0, 0, 0, 0, 12, 1, 0, 0, 0, 1, 1, 0, 2, 0, 2,
    0, 3, 0,
];

/// The third record, where that one comes, and where the second comes again.
const CAME: [u8; 18] = [0xa5, 0, 0, 0, 12, 1, 0, 0, 0, 1, 1, 0, 2, 0, 2, 0, 3, 0];

const CAME_AGAIN: [u8; 16] = [0xa5, 0, 0, 0, 10, 1, 0, 0, 0, 1, 1, 0, 1, 0, 2, 0];

#[test]
fn a_journal_that_has_grown_lays_the_next_record(rt: HostRuntime) -> Result<(), Fail> {
    for (steps, at, bytes) in [
        (&COMES[..2], 4_137, LAID.as_slice()),
        (COMES, 4_152, CAME.as_slice()),
        (COMES_NOT, 4_152, CAME_AGAIN.as_slice()),
    ] {
        equal(has_at(rt.alloc(), steps, at, bytes), Some(true))?;
        equal(length_after(rt.alloc(), plain(), steps), Some(8_233))?;
    }
    Ok(())
}

/// The longest payload that is laid, and after which the next one is.
const LONGEST_LAID: [u8; 1_024] = [5; 1_024];

/// One byte more.
const TOO_LONG: [u8; 1_025] = [6; 1_025];

/// What is appended last with what is likely to come next, an offset after its payload, and what is written there.
type Laying = (&'static [Step<'static>], usize, &'static [u8]);

const LAYINGS: [Laying; 4] = [
    (
        &[
            Step::Appends(&LONG, Ok(1)),
            Step::Lays(&PAYLOAD, &LONGEST_LAID, Ok(2)),
        ],
        4_152,
        &[0, 0, 0, 4, 0, 5],
    ),
    (
        &[
            Step::Appends(&LONG, Ok(1)),
            Step::Lays(&PAYLOAD, &TOO_LONG, Ok(2)),
        ],
        4_152,
        &[0, 0, 0, 0, 0, 0],
    ),
    (
        &[
            Step::Appends(&LONG, Ok(1)),
            Step::Lays(&LONGEST_LAID, &PAYLOAD, Ok(2)),
        ],
        5_166,
        &[0, 0, 0, 0, 10, 1],
    ),
    (
        &[
            Step::Appends(&LONG, Ok(1)),
            Step::Lays(&TOO_LONG, &PAYLOAD, Ok(2)),
        ],
        5_167,
        &[0, 0, 0, 0, 0, 0],
    ),
];

#[test]
fn what_is_laid_and_what_it_is_laid_after_have_1024_bytes_at_most(
    rt: HostRuntime,
) -> Result<(), Fail> {
    for (steps, at, bytes) in LAYINGS {
        equal_in(at, has_at(rt.alloc(), steps, at, bytes), Some(true))?;
        equal(length_after(rt.alloc(), plain(), steps), Some(8_233))?;
    }
    Ok(())
}

/// A short journal lays nothing.
const SHORT: &[Step] = &[Step::Lays(&PAYLOAD, &LONGER, Ok(1))];

#[test]
fn a_short_journal_is_as_long_as_its_records(rt: HostRuntime) -> Result<(), Fail> {
    equal(writes(rt.alloc(), plain(), SHORT, &FILE), Some(true))?;
    Ok(())
}

fn end_by(scanned: &Scanned) -> Option<u32> {
    match scanned {
        Scanned::Formed { end, .. } => Some(*end),
        _ => None,
    }
}

/// The offset of the gate that ends the list of records of a file.
fn end_in(alloc: Global, file: &[u8]) -> Option<u32> {
    let found = scanned(alloc, file)?;
    end_by(&found)
}

/// The offset of the gate that ends a new journal's empty list of records.
fn end_of_new(alloc: Global, opening: Option<Prices>) -> Option<u32> {
    let file = new_file(alloc, opening, &[])?;
    end_in(alloc, &file)
}

#[test]
fn each_version_has_its_length_and_its_first_gate(rt: HostRuntime) -> Result<(), Fail> {
    let alloc = rt.alloc();
    equal(end_of_new(alloc, plain()), Some(41))?;
    equal(length_after(alloc, plain(), &[]), Some(42))?;
    equal(length_after(alloc, plain(), BOTH), Some(74))?;
    equal(end_of_new(alloc, one_good()), Some(47))?;
    equal(length_after(alloc, one_good(), &[]), Some(48))?;
    equal(length_after(alloc, one_good(), BOTH), Some(80))?;
    Ok(())
}

#[test]
fn a_scan_finds_the_header(rt: HostRuntime) -> Result<(), Fail> {
    for (file, header) in [
        (FILE.as_slice(), (1, 3, true, None)),
        (PRICED.as_slice(), (2, 3, true, Some(300))),
        (SIX_GOODS.as_slice(), (2, 3, true, Some(1))),
    ] {
        equal(header_in(rt.alloc(), file), Some(header))?;
    }
    Ok(())
}

fn place_by(scanned: &Scanned, number: usize) -> Option<Place> {
    match scanned {
        Scanned::Formed { records, .. } => records.as_slice().get(number).copied(),
        _ => None,
    }
}

/// The place of the record of this number, from 0.
fn place_in(alloc: Global, file: &[u8], number: usize) -> Option<Place> {
    let found = scanned(alloc, file)?;
    place_by(&found, number)
}

#[test]
fn a_scan_finds_the_places(rt: HostRuntime) -> Result<(), Fail> {
    let alloc = rt.alloc();
    let place = place_in(alloc, &FILE, 0);
    equal(place, Some(Place { at: 46, length: 10 }))?;
    let place = place_in(alloc, &PRICED, 1);
    equal(place, Some(Place { at: 67, length: 12 }))?;
    equal(end_in(alloc, &PRICED), Some(79))?;
    Ok(())
}

/// The journal of a disk whose file is formed.
fn attached<D: Disk + Drop>(alloc: Global, disk: D) -> Option<Journal<D>> {
    let mut disk = claimed(disk)?;
    match scan(alloc, &mut disk) {
        Ok(
            Scanned::Formed {
                header,
                records,
                end,
            },
        ) => Some(Journal::attach(
            disk,
            Scanned::Formed {
                header,
                records,
                end,
            },
        )),
        _ => None,
    }
}

/// The journal of a file that is formed.
fn reopened(alloc: Global, file: &[u8]) -> Option<Journal<SureDisk>> {
    attached(alloc, disk_of(alloc, file)?)
}

/// The first step that goes otherwise in the journal of a file.
fn first_other_in(alloc: Global, file: &[u8], steps: &[Step]) -> Option<usize> {
    let mut journal = reopened(alloc, file)?;
    Some(first_other(alloc, &mut journal, steps))
}

/// The length of a file after these steps, and whether it has these bytes from this offset on.
fn taken_up(
    alloc: Global,
    file: &[u8],
    steps: &[Step],
    at: usize,
    bytes: &[u8],
) -> Option<(usize, bool)> {
    let found = file_after(alloc, reopened(alloc, file)?, steps)?;
    Some((found.len(), found.get(at..)? == bytes))
}

const SECOND: &[Step] = &[
    Step::Appends(&LONGER, Ok(2)),
    Step::Counts(2),
    Step::Holds(1, &PAYLOAD),
    Step::Holds(2, &LONGER),
];

const THIRD: &[Step] = &[
    Step::Counts(2),
    Step::Holds(1, &PAYLOAD),
    Step::Holds(2, &LONGER),
    Step::Appends(&[], Ok(3)),
];

#[test]
fn a_file_that_stands_is_taken_up_again(rt: HostRuntime) -> Result<(), Fail> {
    let alloc = rt.alloc();
    equal(first_other_in(alloc, &FILE, SECOND), Some(4))?;
    let found = taken_up(alloc, &PRICED, THIRD, 79, &[0xa5, 0, 0, 0, 0, 0]);
    equal(found, Some((85, true)))?;
    Ok(())
}

fn read_at<D: Disk>(alloc: Global, disk: &mut D, place: Place) -> Option<Vec<u8>> {
    read_payload(alloc, disk, place).ok()
}

/// Whether the longer payload is read at this offset.
fn is_longer_at(alloc: Global, at: u32) -> Option<bool> {
    let mut disk = disk_of(alloc, &PRICED)?;
    let found = read_at(alloc, &mut disk, Place { at, length: 12 })?;
    Some(found.as_slice() == LONGER.as_slice())
}

#[test]
fn a_payload_is_read_at_its_place(rt: HostRuntime) -> Result<(), Fail> {
    equal(is_longer_at(rt.alloc(), 67), Some(true))?;
    Ok(())
}

/// What is read of so many bytes from this offset on.
fn read_from(alloc: Global, at: u32, length: u32) -> Option<Vec<u8>> {
    let mut disk = disk_of(alloc, &PRICED)?;
    read_at(alloc, &mut disk, Place { at, length })
}

/// Whether just these are.
fn reads(alloc: Global, at: u32, bytes: &[u8]) -> Option<bool> {
    let length = u32::try_from(bytes.len()).ok()?;
    let found = read_from(alloc, at, length)?;
    Some(found.as_slice() == bytes)
}

/// The file has 80 bytes.
#[test]
fn bytes_that_a_disk_has_not_are_zeros(rt: HostRuntime) -> Result<(), Fail> {
    equal(reads(rt.alloc(), 77, &[0, 3, 0, 0, 0, 0]), Some(true))?;
    equal(reads(rt.alloc(), 81, &[0, 0]), Some(true))?;
    Ok(())
}

/// The longest payload, of a byte that says which it is.
fn longest(alloc: Global, number: u32) -> Option<Vec<u8>> {
    vec![in alloc; (number % 256) as u8; GREATEST_PAYLOAD as usize].ok()
}

/// Whether the longest payload is appended as the record of this number.
fn append_longest<D: Disk>(alloc: Global, journal: &mut Journal<D>, number: u32) -> bool {
    match longest(alloc, number) {
        Some(payload) => append(alloc, journal, &payload, &[]) == Some(Ok(number)),
        None => false,
    }
}

fn append_three<D: Disk>(alloc: Global, journal: &mut Journal<D>) -> bool {
    append_longest(alloc, journal, 1)
        && append_longest(alloc, journal, 2)
        && append_longest(alloc, journal, 3)
}

/// A journal of three of the longest payloads, which is formed on a real file, and its disk.
fn with_three<'a>(
    alloc: Global,
    disk: FolderDisk<'a, HostRuntime>,
) -> Option<FolderDisk<'a, HostRuntime>> {
    let mut journal = Journal::form(alloc, claimed(disk)?, &header(one_good())).ok()?;
    if append_three(alloc, &mut journal) {
        Some(journal.into_disk())
    } else {
        None
    }
}

fn holds_longest<D: Disk>(alloc: Global, journal: &mut Journal<D>, number: u32) -> bool {
    match longest(alloc, number) {
        Some(payload) => count(journal) == 3 && holds(alloc, journal, number, &payload),
        None => false,
    }
}

/// Whether a journal has just these three, and nothing is in doubt.
fn has_three<D: Disk>(alloc: Global, journal: &mut Journal<D>) -> bool {
    holds_longest(alloc, journal, 1)
        && holds_longest(alloc, journal, 2)
        && holds_longest(alloc, journal, 3)
        && mend(journal) == Ok(Mended::Nothing)
}

/// Whether a journal of these three is formed on a real file, and is found on it again.
fn forms_and_finds_three(alloc: Global, disk: FolderDisk<HostRuntime>) -> Option<bool> {
    let disk = with_three(alloc, disk)?;
    let mut journal = attached(alloc, disk)?;
    Some(has_three(alloc, &mut journal))
}

/// The disk on a file in the folder that the program runs in.
fn real_disk<'a>(rt: &'a HostRuntime, name: &str) -> Option<FolderDisk<'a, HostRuntime>> {
    let mut shelf = FolderShelf::new(rt.alloc(), rt);
    shelf.disk(rt.alloc(), name).ok()
}

/// A file of 98,364 bytes, which no page and no chunk of a scan holds.
#[test]
fn a_real_file_is_formed_appended_to_scanned_and_mended(rt: HostRuntime) -> Result<(), Fail> {
    let name = "a_real_file_of_report_journal";
    let disk = real_disk(&rt, name).ok_or("no disk")?;
    let holds = forms_and_finds_three(rt.alloc(), disk);
    let size = fs::metadata(&rt, name)?.len();
    fs::remove_file(&rt, name)?;
    equal(holds, Some(true))?;
    equal(size, 47 + 3 * (5 + 32_768) + 1)?;
    Ok(())
}

/// The file of a journal with so many records of the same bytes. Its header is the first 41 bytes, and each record takes 15.
fn file_of_many(alloc: Global, count: u32) -> Option<Vec<u8>> {
    let (header, record) = FILE[..56].split_at(41);
    let mut bytes = copy_of(alloc, header)?;
    for _record in 0..count {
        if bytes.extend_from_slice(record).is_err() {
            return None;
        }
    }
    bytes.push(0).ok()?;
    Some(bytes)
}

/// A disk with such a file, and room for the calls that read it.
fn disk_of_many(alloc: Global, count: u32) -> Option<SureDisk> {
    SureDisk::new(alloc, file_of_many(alloc, count)?, 2_000_000).ok()
}

/// How many records a scan finds where so many were written.
fn found_of_many(alloc: Global, count: u32) -> Option<Seen> {
    let mut disk = disk_of_many(alloc, count)?;
    seen_on(alloc, &mut disk)
}

#[test]
fn a_scan_finds_as_many_records_as_there_are(rt: HostRuntime) -> Result<(), Fail> {
    equal(
        found_of_many(rt.alloc(), 70_000),
        Some(Seen::Formed(70_000)),
    )?;
    Ok(())
}
