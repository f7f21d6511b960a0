//! What no clause says of names: which file is opened as a source, which folders are synced for a claim, and that a shelf tells whether it
//! found a disk.
use crate::causes::{BROKEN, MOST_CAUSES};
use crate::folder_asking::{Asked, Outcome, Question, failures, folder_of, found};
use crate::noted_folder::{Call, FOLDER, MADE, OPENED, Place};
use crate::notes::notes_of;
use expected_values::{equal, equal_in};
use house_io::{FolderShelf, Refusal};
use std::alloc::Global;
use std::test::Fail;

/// The calls by which a claimed disk of a name is opened, where its file is to stand in this folder, and whether that goes well.
fn claimed_in(
    alloc: Global,
    parent: &'static str,
    folder: &'static str,
    name: &'static str,
    failing: &'static [usize],
    code: i32,
) -> Option<Outcome> {
    found(
        alloc,
        &Question {
            parent,
            folder,
            journal: name,
            name,
            stands: false,
            asked: &[Asked::Claims],
            failing,
            code,
        },
    )
}

/// The same: whether it goes well, and how many calls are made.
fn is_claimed_in(
    alloc: Global,
    parent: &'static str,
    folder: &'static str,
    name: &'static str,
) -> Option<(bool, usize)> {
    match claimed_in(alloc, parent, folder, name, &[], BROKEN) {
        Some(found) => Some((found.outcome == Ok(0), found.calls.len())),
        None => None,
    }
}

/// The folder that is looked at and synced is the one in which the file stands, and the folder that names this one is synced as well.
/// Where the file's folder is absent, nothing is opened.
#[test]
fn a_claim_syncs_the_folder_of_its_name(rt: HostRuntime) -> Result<(), Fail> {
    for (parent, folder, name, claimed) in [
        ("no parent", ".", "journal", (true, 7)),
        ("no parent", ".", " journal ", (true, 7)),
        (
            "no parent",
            ".",
            "the-journal-of-an-auction-of-forty-eight-letters",
            (true, 7),
        ),
        (".", "k", "k/journal", (true, 9)),
        (".", "..", "../journal", (true, 9)),
        ("kept", "kept/..", "kept/../journal", (true, 9)),
        (".", "kept", "kept/journal", (true, 9)),
        (".", "kept ", "kept / journal", (true, 9)),
        ("a", "a/b", "a/b/journal", (true, 9)),
        ("/a", "/a/b", "/a/b/journal", (true, 9)),
        ("/", "/a", "/a/journal", (true, 9)),
        (
            "a-folder-with-the-journals",
            "a-folder-with-the-journals/of-an-auction-of-which-the-name-is-long",
            "a-folder-with-the-journals/of-an-auction-of-which-the-name-is-long/journal",
            (true, 9),
        ),
        ("no parent", "/", "/journal", (true, 7)),
        (".", "kept", "absent/journal", (false, 2)),
    ] {
        equal_in(
            (name, folder, parent),
            is_claimed_in(rt.alloc(), parent, folder, name),
            Some(claimed),
        )?;
    }
    Ok(())
}

/// The same of a source of a name: whether just the file of this name is opened, to be read, and read once.
fn is_read_as(alloc: Global, name: &'static str) -> Option<(bool, bool)> {
    let found = found(
        alloc,
        &Question {
            parent: "no parent",
            folder: ".",
            journal: name,
            name,
            stands: true,
            asked: &[Asked::Pulls(9)],
            failing: &[],
            code: BROKEN,
        },
    )?;
    let is_read = found.calls.as_slice() == [OPENED, Call::Read(9)].as_slice();
    Some((found.outcome == Ok(0), is_read))
}

#[test]
fn a_source_is_the_file_of_its_name(rt: HostRuntime) -> Result<(), Fail> {
    for name in [
        "log",
        " log ",
        "kept / log",
        "/a/b/log",
        "the-auction-file-of-an-auction-of-forty-eight-letters",
    ] {
        equal_in(name, is_read_as(rt.alloc(), name), Some((true, true)))?;
    }
    Ok(())
}

const KEPT: [Call; 9] = [
    OPENED,
    FOLDER,
    MADE,
    Call::Lock,
    Call::SyncAll(Place::Journal),
    FOLDER,
    Call::SyncAll(Place::Folder),
    Call::Open(Place::Parent, true, false, false),
    Call::SyncAll(Place::Parent),
];

/// Whether a journal in a folder of the working directory is claimed by the first so many of these calls, and how often that fails. The calls that
/// fail do so by this cause.
fn is_kept_by(
    alloc: Global,
    count: usize,
    failing: &'static [usize],
    code: i32,
) -> Option<(bool, Result<usize, Refusal>)> {
    match claimed_in(alloc, ".", "kept", "kept/journal", failing, code) {
        Some(found) => Some((
            Some(found.calls.as_slice()) == KEPT.get(..count),
            found.outcome,
        )),
        None => None,
    }
}

#[test]
fn a_claim_fails_where_a_folder_is_not_synced(rt: HostRuntime) -> Result<(), Fail> {
    let failing: [(usize, &'static [usize], usize); 5] = [
        (9, &[], 0),
        (6, &[5], 1),
        (7, &[6], 1),
        (8, &[7], 1),
        (9, &[8], 1),
    ];
    for (count, failing, failed) in failing {
        for code in 1..MOST_CAUSES + 1 {
            equal_in(
                (count, code),
                is_kept_by(rt.alloc(), count, failing, code),
                Some((true, Ok(failed))),
            )?;
        }
    }
    Ok(())
}

/// A look at a journal in the working directory, or a claim of it.
fn question_of(stands: bool, asked: &'static [Asked]) -> Question {
    Question {
        parent: "/",
        folder: ".",
        journal: "journal",
        name: "journal",
        stands,
        asked,
        failing: &[],
        code: BROKEN,
    }
}

/// Whether a shelf has found no disk, before anything is asked of it and after that.
fn finds_no_disk(alloc: Global, stands: bool, asked: &'static [Asked]) -> Option<(bool, bool)> {
    let question = question_of(stands, asked);
    let folder = folder_of(alloc, &question, notes_of(alloc, &[], BROKEN)?)?;
    let mut shelf = FolderShelf::new(alloc, &folder);
    let before = shelf.found_no_disk();
    let _outcome = failures(alloc, &mut shelf, question.name, asked, &mut []);
    Some((before, shelf.found_no_disk()))
}

#[test]
fn a_shelf_tells_that_it_found_no_disk(rt: HostRuntime) -> Result<(), Fail> {
    equal(
        finds_no_disk(rt.alloc(), false, &[Asked::Size]),
        Some((false, true)),
    )?;
    equal(
        finds_no_disk(rt.alloc(), true, &[Asked::Size]),
        Some((false, false)),
    )?;
    equal(
        finds_no_disk(rt.alloc(), false, &[Asked::Claims]),
        Some((false, false)),
    )?;
    Ok(())
}
