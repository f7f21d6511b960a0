//! A shelf with an auction file, the journals of its three clocks, and what these are moved to. One of the journals may fail.
use super::frames::joined;
use house_io::{ListFile, ListShelf};
use std::alloc::Global;

/// One unit of one good for ada, whose token is `abc`, and bob, whose token is `hello`.
const AUCTION: &str = r#"
[[goods]]
name = "oil"
supply = 1

[[bidders]]
name = "ada"
token = "ba7816bf8f01cfea414140de5dae2223b00361a396177a9cb410ff61f20015ad"

[[bidders]]
name = "bob"
token = "2cf24dba5fb0a30e26e83b2ac5b9e29e1b161e5c1fa7425e73043362938b9824"
"#;

/// The heads of its file, and of the newer one to which it is carried.
const HEADS: &[(&str, &str)] = &[
    ("a", "version = 1\nceiling = 10\n"),
    ("b", "version = 2\nceiling = 10\n"),
];

/// The names of the journals by clock, and then of those under the newer file.
const JOURNALS: &[&str] = &[
    "j/clock-00.ahj",
    "j/clock-01.ahj",
    "j/clock-02.ahj",
    "t/clock-00.ahj",
    "t/clock-01.ahj",
    "t/clock-02.ahj",
];

/// The room of a disk, in bytes and in calls.
const DISK_ROOM: u32 = 2_000;

/// How many calls fail after a kill: more than a life makes.
const CALLS_BEHIND: u64 = 100;

/// Where a run is killed: at the first of these calls on this journal. It is read as one in which that call and all after it fail.
#[derive(Clone, Copy)]
pub(super) struct Kill {
    /// The number of the journal: that of its clock, and 3 more under the newer file.
    pub journal: usize,
    /// The number of the call, from 0.
    pub call: u64,
}

/// The numbers of the calls that fail. Nothing, here and below, where there is no memory.
fn calls_after(alloc: Global, kill: Kill) -> Option<Vec<u64>> {
    let mut calls = Vec::new(alloc);
    for more in 0..CALLS_BEHIND {
        calls.push(kill.call.saturating_add(more)).ok()?;
    }
    Some(calls)
}

/// The calls that fail on the journal of this number: none but on the one that is killed.
fn failing_at(alloc: Global, journal: usize, kill: Option<Kill>) -> Option<Vec<u64>> {
    match kill {
        Some(kill) if kill.journal == journal => calls_after(alloc, kill),
        _ => Some(Vec::new(alloc)),
    }
}

/// A file with these bytes, of which these calls fail.
fn file(alloc: Global, name: &str, bytes: &[u8], failing: Vec<u64>) -> Option<ListFile> {
    let name = String::from_str(alloc, name).ok()?;
    let bytes = bytes.to_vec(alloc).ok()?;
    Some(ListFile {
        name,
        bytes,
        failing,
    })
}

/// The auction's file of this name, with this head.
fn auction_file(alloc: Global, name: &str, head: &str) -> Option<ListFile> {
    let bytes = joined(alloc, &[head.as_bytes(), AUCTION.as_bytes()])?;
    file(alloc, name, &bytes, Vec::new(alloc))
}

/// Both files of the auction.
fn auction_files(alloc: Global) -> Option<Vec<ListFile>> {
    let mut all = Vec::new(alloc);
    for (name, head) in HEADS {
        all.push(auction_file(alloc, name, head)?).ok()?;
    }
    Some(all)
}

/// These files and these journals.
fn files(alloc: Global, journals: &[Vec<u8>], kill: Option<Kill>) -> Option<Vec<ListFile>> {
    let mut all = auction_files(alloc)?;
    for (number, bytes) in journals.iter().enumerate() {
        let failing = failing_at(alloc, number, kill)?;
        all.push(file(alloc, JOURNALS.get(number)?, bytes, failing)?)
            .ok()?;
    }
    Some(all)
}

/// A shelf with these.
pub(super) fn shelf(alloc: Global, journals: &[Vec<u8>], kill: Option<Kill>) -> Option<ListShelf> {
    let files = files(alloc, journals, kill)?;
    ListShelf::new(alloc, files, DISK_ROOM, Vec::new(alloc)).ok()
}

/// Journals without a byte.
pub(super) fn no_journals(alloc: Global) -> Option<Vec<Vec<u8>>> {
    let mut journals = Vec::new(alloc);
    for _ in JOURNALS {
        journals.push(Vec::new(alloc)).ok()?;
    }
    Some(journals)
}

/// What a read gives of the journals.
pub(super) fn journals_in(alloc: Global, shelf: &ListShelf) -> Option<Vec<Vec<u8>>> {
    let mut journals = Vec::new(alloc);
    for name in JOURNALS {
        journals.push(shelf.file(name)?.to_vec(alloc).ok()?).ok()?;
    }
    Some(journals)
}
