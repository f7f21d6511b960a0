//! What no clause says of disks: that the calls succeed with ample memory, and what a real file does.
use crate::tests::{bytes_of, list_shelf, one, sure_shelf, text_of};
use expected_values::{equal, equal_in};
use house_io::{
    Disk, Failed, FileDisk, Fill, FolderShelf, ListDisk, ListShelf, Refusal, Shelf, SureDisk,
    SureShelf,
};
use std::alloc::Global;
use std::fs::{self, File};
use std::test::Fail;

fn sure_disk(alloc: Global) -> Option<SureDisk> {
    SureDisk::new(alloc, bytes_of(alloc, b"lot")?, 40).ok()
}

fn list_disk_of(alloc: Global, bytes: Vec<u8>, failing: Vec<u64>) -> Option<ListDisk> {
    ListDisk::new(alloc, bytes, 40, failing).ok()
}

/// A disk of which the third call fails.
fn list_disk(alloc: Global) -> Option<ListDisk> {
    list_disk_of(alloc, bytes_of(alloc, b"lots")?, one(alloc, 2)?)
}

/// A value that a thread may own.
fn moved<T: Send>(value: T) -> T {
    value
}

/// So may a disk on a file, where the file may.
#[test]
fn a_thread_may_own_each_disk(rt: HostRuntime) {
    assert!(rt; moved(sure_disk(rt.alloc())).is_some());
    assert!(rt; moved(list_disk(rt.alloc())).is_some());
    let file: Option<FileDisk<File>> = None;
    assert!(rt; moved(file).is_none());
}

/// A call that may change a disk.
#[derive(Clone, Copy)]
pub(crate) enum Change<'a> {
    Claim,
    /// Claims the disk, which is no call on one that is claimed, and writes this text at this offset.
    Write(u64, &'a [u8]),
    Sync,
}

/// Makes one change.
pub(crate) fn make<D: Disk>(disk: &mut D, change: Change) -> Result<(), Failed> {
    match change {
        Change::Claim => disk.claim(),
        Change::Write(at, text) => match disk.claim() {
            Ok(()) => disk.write_at(at, text),
            Err(Failed) => Err(Failed),
        },
        Change::Sync => disk.sync(),
    }
}

/// Makes the changes, up to one that fails.
fn make_all<D: Disk>(disk: &mut D, changes: &[Change]) -> Result<(), Failed> {
    for change in changes {
        if make(disk, *change).is_err() {
            return Err(Failed);
        }
    }
    Ok(())
}

/// Reads into the buffer from this offset on, and tells how many bytes.
pub(crate) fn read<D: Disk>(disk: &mut D, at: u64, into: &mut [u8]) -> Result<usize, Failed> {
    disk.read_at(at, into)
}

/// The length of a disk's file.
pub(crate) fn size<D: Disk>(disk: &mut D) -> Result<u64, Failed> {
    disk.size()
}

/// How many bytes are read into the buffer from this offset on, and the length, once the changes are made.
pub(crate) fn changed<D: Disk>(
    disk: &mut D,
    changes: &[Change],
    at: u64,
    into: &mut [u8],
) -> Result<(usize, u64), Failed> {
    make_all(disk, changes)?;
    let count = read(disk, at, into)?;
    let size = size(disk)?;
    Ok((count, size))
}

/// What is read from the start and the length, once a text is written after the end.
fn written_after_the_end(alloc: Global, front: &mut [u8]) -> Option<Result<(usize, u64), Failed>> {
    let mut disk = sure_disk(alloc)?;
    let found = changed(&mut disk, &[Change::Write(5, b"s"), Change::Sync], 0, front);
    if disk.bytes() == b"lot\0\0s".as_slice() {
        Some(found)
    } else {
        None
    }
}

#[test]
fn a_write_after_the_end_leaves_zeros(rt: HostRuntime) -> Result<(), Fail> {
    let mut front = [0; 8];
    let found = written_after_the_end(rt.alloc(), &mut front);
    equal(found, Some(Ok((6, 6))))?;
    equal(front, *b"lot\0\0s\0\0")?;
    Ok(())
}

/// A disk that was claimed, on which one write went well, and one failed.
fn torn_disk(alloc: Global) -> Option<ListDisk> {
    let mut disk = list_disk(alloc)?;
    let answers = [
        make(&mut disk, Change::Write(3, b"ted")),
        make(&mut disk, Change::Write(0, b"p")),
    ];
    if answers == [Ok(()), Err(Failed)] {
        Some(disk)
    } else {
        None
    }
}

/// Whether this is the image of such a disk, with such a fill.
fn is_image_of_torn_disk(alloc: Global, fill: Fill, expected: &str) -> Option<bool> {
    let disk = torn_disk(alloc)?;
    match disk.image(alloc, fill) {
        Ok(image) => Some(image.as_slice() == expected.as_bytes()),
        Err(_) => None,
    }
}

#[test]
fn a_failed_write_leaves_its_range_in_doubt(rt: HostRuntime) -> Result<(), Fail> {
    for (fill, image) in [
        (Fill::Old, "lots"),
        (Fill::New, "lotted"),
        (Fill::Byte(b'x'), "xotxxx"),
    ] {
        equal_in(
            fill,
            is_image_of_torn_disk(rt.alloc(), fill, image),
            Some(true),
        )?;
    }
    Ok(())
}

/// Which of some calls on a disk of four bytes fail: the first claim, the second, a third of a disk that is claimed, and the size.
fn failing_claims(disk: &mut ListDisk) -> [bool; 4] {
    [
        make(disk, Change::Claim).is_err(),
        make(disk, Change::Claim).is_err(),
        make(disk, Change::Claim).is_err(),
        size(disk).is_err(),
    ]
}

/// The same of one of which the calls with these numbers fail.
fn claims_failing_at(alloc: Global, failing: &[u64]) -> Option<[bool; 4]> {
    let failing = failing.to_vec(alloc).ok()?;
    let mut disk = list_disk_of(alloc, bytes_of(alloc, b"lots")?, failing)?;
    Some(failing_claims(&mut disk))
}

/// A claim that fails is a call, and so is the one after it. One of a disk that is claimed is none.
#[test]
fn a_disk_is_claimed_once(rt: HostRuntime) -> Result<(), Fail> {
    for (failing, claims) in [
        ([0, 2], [true, false, false, true]),
        ([1, 3], [false, false, false, true]),
        ([0, 1], [true, true, false, false]),
    ] {
        equal_in(
            failing,
            claims_failing_at(rt.alloc(), &failing),
            Some(claims),
        )?;
    }
    Ok(())
}

/// Opens a disk of this name, makes the changes, reads into the buffer from an offset on, and closes the disk. Answers how
/// many bytes were read, and the length.
fn changed_by_name<H: Shelf>(
    alloc: Global,
    shelf: &mut H,
    name: &str,
    changes: &[Change],
    at: u64,
    into: &mut [u8],
) -> Result<Result<(usize, u64), Failed>, Refusal> {
    match shelf.disk(alloc, name) {
        Ok(mut disk) => {
            let found = changed(&mut disk, changes, at, into);
            shelf.close_disk(name, disk);
            Ok(found)
        }
        Err(refusal) => Err(refusal),
    }
}

/// Opens a disk of this name, writes a text at its start, and closes it. Answers the length.
fn write_named<H: Shelf>(
    alloc: Global,
    shelf: &mut H,
    name: &str,
    text: &str,
) -> Result<u64, Refusal> {
    let changes = [Change::Write(0, text.as_bytes()), Change::Sync];
    match changed_by_name(alloc, shelf, name, &changes, 0, &mut [0; 8])? {
        Ok((_, size)) => Ok(size),
        Err(Failed) => Err(Refusal::Failed),
    }
}

/// A name, a text, and what a shelf answers where the text is written at the start of the disk of that name.
type Row<'a> = (&'a str, &'a str, Result<u64, Refusal>);

/// The number, from 0, of the first row for which a shelf answers otherwise, or that of all rows.
fn first_other<H: Shelf>(alloc: Global, shelf: &mut H, rows: &[Row]) -> usize {
    let mut number: usize = 0;
    for (name, text, answer) in rows {
        if write_named(alloc, shelf, name, text) != *answer {
            break;
        }
        number = number.saturating_add(1);
    }
    number
}

/// Whether a file is there and has this text.
fn holds(file: Option<&[u8]>, text: &str) -> bool {
    match file {
        Some(bytes) => bytes == text.as_bytes(),
        None => false,
    }
}

fn sure_shelf_holds(shelf: &SureShelf, name: &str, text: &str) -> bool {
    holds(shelf.file(name), text)
}

/// The first row that does not hold of a shelf, and whether it has these texts then.
fn kept_by_sure_shelf(alloc: Global, rows: &[Row]) -> Option<(usize, bool, bool)> {
    let mut shelf = sure_shelf(alloc)?;
    let other = first_other(alloc, &mut shelf, rows);
    let old = sure_shelf_holds(&shelf, "auction", "plo");
    Some((other, old, sure_shelf_holds(&shelf, "absent", "new")))
}

#[test]
fn a_shelf_keeps_a_closed_disk(rt: HostRuntime) -> Result<(), Fail> {
    let rows = [
        ("auction", "c", Ok(3)),
        ("absent", "new", Ok(3)),
        ("auction", "pl", Ok(3)),
    ];
    equal(kept_by_sure_shelf(rt.alloc(), &rows), Some((3, true, true)))?;
    Ok(())
}

fn list_shelf_holds(shelf: &ListShelf, name: &str, text: &str) -> bool {
    holds(shelf.file(name), text)
}

/// The first row that does not hold of a shelf, and whether it has this text then.
fn kept_by_list_shelf(
    alloc: Global,
    failing: u64,
    rows: &[Row],
    text: &str,
) -> Option<(usize, bool)> {
    let mut shelf = list_shelf(alloc, failing)?;
    let other = first_other(alloc, &mut shelf, rows);
    Some((other, list_shelf_holds(&shelf, "journal", text)))
}

/// A call fails on the disk that is opened a second time: its claim, since it is to be claimed anew, or its sync. And then the third
/// opening fails.
#[test]
fn a_list_shelf_counts_on_with_a_closed_disk(rt: HostRuntime) -> Result<(), Fail> {
    let rows = [
        ("journal", "c", Ok(4)),
        ("journal", "pl", Err(Refusal::Failed)),
        ("journal", "x", Err(Refusal::Failed)),
    ];
    for (failing, text) in [(5, "cots"), (7, "plts")] {
        equal_in(
            failing,
            kept_by_list_shelf(rt.alloc(), failing, &rows, text),
            Some((3, true)),
        )?;
    }
    Ok(())
}

/// Opens a disk of this name, makes the changes, and closes it. Answers the length.
fn sized_by_name<H: Shelf>(
    alloc: Global,
    shelf: &mut H,
    name: &str,
    changes: &[Change],
) -> Option<u64> {
    match changed_by_name(alloc, shelf, name, changes, 0, &mut [0; 8]) {
        Ok(Ok((_, size))) => Some(size),
        _ => None,
    }
}

/// Whether a file is there once a disk of its name was closed on which nothing was asked for but what it holds, and once one was closed
/// that was claimed.
fn absent_in_sure_shelf(alloc: Global) -> Option<[bool; 4]> {
    let mut shelf = sure_shelf(alloc)?;
    let read = sized_by_name(alloc, &mut shelf, "absent", &[Change::Sync]);
    let is_made = shelf.file("absent").is_some();
    let claimed = sized_by_name(alloc, &mut shelf, "absent", &[Change::Claim]);
    let is_there = sure_shelf_holds(&shelf, "absent", "");
    Some([read == Some(0), is_made, claimed == Some(0), is_there])
}

fn absent_in_list_shelf(alloc: Global) -> Option<[bool; 4]> {
    let mut shelf = list_shelf(alloc, 9)?;
    let read = sized_by_name(alloc, &mut shelf, "absent", &[Change::Sync]);
    let is_made = shelf.file("absent").is_some();
    let claimed = sized_by_name(alloc, &mut shelf, "absent", &[Change::Claim]);
    let is_there = list_shelf_holds(&shelf, "absent", "");
    Some([read == Some(0), is_made, claimed == Some(0), is_there])
}

#[test]
fn only_a_claim_makes_a_file(rt: HostRuntime) -> Result<(), Fail> {
    let found = [true, false, true, true];
    equal(absent_in_sure_shelf(rt.alloc()), Some(found))?;
    equal(absent_in_list_shelf(rt.alloc()), Some(found))?;
    Ok(())
}

/// Whether a file in the folder that the program runs in has these bytes. It is removed.
fn is_kept(rt: &HostRuntime, name: &str, bytes: &[u8]) -> Result<bool, Fail> {
    let kept = fs::read(rt, name);
    fs::remove_file(rt, name)?;
    Ok(kept?.as_slice() == bytes)
}

#[test]
fn a_folder_shelf_makes_a_real_file_and_keeps_it(rt: HostRuntime) -> Result<(), Fail> {
    let name = "a_real_journal_of_house_io";
    let mut shelf = FolderShelf::new(rt.alloc(), &rt);
    let rows = [(name, "lots", Ok(4)), (name, "p", Ok(4))];
    equal(first_other(rt.alloc(), &mut shelf, &rows), 2)?;
    assert!(rt; is_kept(&rt, name, b"pots")?);
    let rows = [("no_folder/journal", "x", Err(Refusal::Failed))];
    equal(first_other(rt.alloc(), &mut shelf, &rows), 1)?;
    Ok(())
}

/// The length that a disk of this name shows where nothing is changed.
fn looked_at(rt: &HostRuntime, name: &str) -> Option<u64> {
    let mut shelf = FolderShelf::new(rt.alloc(), rt);
    sized_by_name(rt.alloc(), &mut shelf, name, &[])
}

#[test]
fn a_look_at_an_absent_name_makes_no_file(rt: HostRuntime) -> Result<(), Fail> {
    let name = "an_absent_journal_of_house_io";
    equal(looked_at(&rt, name), Some(0))?;
    assert!(rt; fs::read(&rt, name).is_err());
    Ok(())
}

/// Which claims of two disks of one name fail: that of the first, that of the second beside it, and that of the second once the first is
/// closed.
fn claimed_twice(rt: &HostRuntime, name: &str) -> Option<[bool; 3]> {
    let mut shelf = FolderShelf::new(rt.alloc(), rt);
    let mut one = shelf.disk(rt.alloc(), name).ok()?;
    let mut other = shelf.disk(rt.alloc(), name).ok()?;
    let first = make(&mut one, Change::Claim).is_err();
    let beside = make(&mut other, Change::Claim).is_err();
    shelf.close_disk(name, one);
    let after = make(&mut other, Change::Claim).is_err();
    shelf.close_disk(name, other);
    Some([first, beside, after])
}

#[test]
fn a_file_is_claimed_by_one_disk_at_a_time(rt: HostRuntime) -> Result<(), Fail> {
    let name = "a_claimed_journal_of_house_io";
    let claims = claimed_twice(&rt, name);
    fs::remove_file(&rt, name)?;
    equal(claims, Some([false, true, false]))?;
    Ok(())
}

/// What is read and the length, of a file in the folder that the program runs in, once it is changed.
fn changed_in_folder(
    rt: &HostRuntime,
    name: &str,
    changes: &[Change],
    at: u64,
    into: &mut [u8],
) -> Option<(usize, u64)> {
    let mut shelf = FolderShelf::new(rt.alloc(), rt);
    match changed_by_name(rt.alloc(), &mut shelf, name, changes, at, into) {
        Ok(Ok(found)) => Some(found),
        _ => None,
    }
}

/// The same, and the file is removed.
fn changed_file(
    rt: &HostRuntime,
    name: &str,
    changes: &[Change],
    at: u64,
    into: &mut [u8],
) -> Result<Option<(usize, u64)>, Fail> {
    let found = changed_in_folder(rt, name, changes, at, into);
    fs::remove_file(rt, name)?;
    Ok(found)
}

/// Whether these bytes are zeros and then a text.
fn are_zeros_and(bytes: &[u8], text: &[u8]) -> bool {
    let (gap, rest) = bytes.split_at(bytes.len().saturating_sub(text.len()));
    gap.iter().all(|&byte| byte == 0) && rest == text
}

/// What a file of three bytes is once a text was written at an offset after its end: its length, and whether it has zeros
/// up to the text, and then the text.
fn grown_file(
    rt: &HostRuntime,
    at: u64,
    text: &[u8],
    buffer: &mut [u8],
) -> Result<(u64, bool), Fail> {
    let changes = [Change::Write(0, b"lot"), Change::Write(at, text)];
    let found = changed_file(rt, "a_grown_file_of_house_io", &changes, 3, buffer)?;
    let (count, size) = found.ok_or("a call failed")?;
    let bytes = buffer.get(..count).ok_or("too many bytes")?;
    Ok((size, are_zeros_and(bytes, text)))
}

/// The same of a text of so many bytes.
fn grown_by(rt: &HostRuntime, at: u64, length: usize) -> Result<(u64, bool), Fail> {
    let text = text_of(rt.alloc(), length).ok_or("no memory")?;
    let mut buffer = vec![in rt.alloc(); 1u8; 300_000]?;
    grown_file(rt, at, &text, &mut buffer)
}

/// A byte, about a page, about 65,535, and a piece that is longer than that.
#[test]
fn a_real_file_grows_by_zeros_up_to_a_text(rt: HostRuntime) -> Result<(), Fail> {
    for (at, length) in [
        (3, 1),
        (4, 0),
        (4_095, 0),
        (4_096, 0),
        (4_096, 9),
        (65_535, 4),
        (65_536, 0),
        (70_000, 9),
        (70_000, 150_000),
    ] {
        let found = grown_by(&rt, at, length)?;
        equal_in((length, at), found, (at + length as u64, true))?;
    }
    Ok(())
}

/// What a file of three bytes is once it was lengthened up to this offset: its length, and whether it has zeros up to there.
fn lengthened_to(rt: &HostRuntime, at: u64) -> Result<(u64, bool), Fail> {
    let mut buffer = vec![in rt.alloc(); 1u8; 17_000_000]?;
    grown_file(rt, at, b"", &mut buffer)
}

/// A mebibyte, and sixteen.
#[test]
fn a_real_file_is_lengthened_by_zeros(rt: HostRuntime) -> Result<(), Fail> {
    for at in [1_048_576, 16_777_216] {
        let found = lengthened_to(&rt, at)?;
        equal_in(at, found, (at, true))?;
    }
    Ok(())
}

/// A write of no bytes within a file leaves it as it is.
#[test]
fn a_real_file_is_never_cut(rt: HostRuntime) -> Result<(), Fail> {
    let changes = [
        Change::Write(0, b"lots"),
        Change::Write(4, b""),
        Change::Write(2, b""),
    ];
    let found = changed_file(&rt, "an_uncut_file_of_house_io", &changes, 0, &mut [])?;
    equal(found, Some((0, 4)))?;
    Ok(())
}
