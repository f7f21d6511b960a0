//! What no clause says of the files of a folder: each call that is made of them, one by one, with its arguments, what is said of one that
//! fails, and that what is closed is let go of.
use crate::causes::{ABSENT, BROKEN, INTERRUPTED, MOST_CAUSES};
use crate::folder_asking::{Asked, Outcome, Question, found};
use crate::noted_folder::Call;
use house_io::Refusal;
use std::alloc::Global;
use std::test::Fail;

mod claiming;
mod faults;
mod pieces;
mod reading;

/// An offset far past the end of the file.
const FAR: u64 = 1_048_576;

/// What is asked of a journal in the working directory, and what comes of it.
#[derive(Clone, Copy)]
struct Row {
    /// Whether the journal stands.
    stands: bool,
    /// What is asked of the disk or the source, in order.
    asked: &'static [Asked],
    /// The calls that fail, by their numbers from 0 on.
    failing: &'static [usize],
    /// How many of what was asked for fail, or why nothing is opened.
    outcome: Result<usize, Refusal>,
    /// The calls that are to be made, in order.
    calls: &'static [Call],
    /// What is to be said, but for the cause.
    said: &'static str,
}

/// What a row asks, where its calls fail by this cause.
fn question_of(row: &Row, code: i32) -> Question {
    Question {
        parent: "/",
        folder: ".",
        journal: "journal",
        name: "journal",
        stands: row.stands,
        asked: row.asked,
        failing: row.failing,
        code,
    }
}

/// Whether a row holds, and all is let go of.
fn holds(alloc: Global, row: &Row) -> bool {
    match found(alloc, &question_of(row, BROKEN)) {
        Some(found) => {
            found.outcome == row.outcome
                && found.open == 0
                && found.calls.as_slice() == row.calls
                && found.said.as_str() == row.said
        }
        None => false,
    }
}

/// The number, from 0, of the first row that does not hold, or that of all rows.
fn first_other(alloc: Global, rows: &[Row]) -> usize {
    rows.iter()
        .position(|row| !holds(alloc, row))
        .unwrap_or(rows.len())
}

/// What is found of the row of this number.
fn found_at(alloc: Global, rows: &[Row], number: usize) -> Option<Outcome> {
    found(alloc, &question_of(rows.get(number)?, BROKEN))
}

/// Whether another cause is another case: an absent name is one, and a write that was interrupted is made once more by the standard library.
fn is_another_case(row: &Row, code: i32) -> bool {
    match row.asked {
        [Asked::Writes(_, _), ..] => code == INTERRUPTED,
        _ => code == ABSENT && row.failing == [0].as_slice(),
    }
}

/// Whether a row holds where its calls fail by this cause: as many fail, the same calls are made, and something is said or nothing.
fn holds_by(alloc: Global, row: &Row, code: i32) -> bool {
    match found(alloc, &question_of(row, code)) {
        Some(found) => {
            found.outcome == row.outcome
                && found.calls.as_slice() == row.calls
                && found.said.is_empty() == row.said.is_empty()
        }
        None => false,
    }
}

/// The first cause by which a row with calls that fail does not hold.
fn other_cause(alloc: Global, row: &Row) -> Option<i32> {
    if row.failing.is_empty() {
        return None;
    }
    for code in 1..MOST_CAUSES + 1 {
        if !is_another_case(row, code) && !holds_by(alloc, row, code) {
            return Some(code);
        }
    }
    None
}

#[test]
fn a_call_that_fails_is_a_fault_whatever_its_cause(rt: HostRuntime) -> Result<(), Fail> {
    for rows in [
        reading::READING.as_slice(),
        &claiming::CLAIMING,
        &faults::FAULTS,
        &pieces::PIECES,
    ] {
        for row in rows {
            assert_eq!(rt; other_cause(rt.alloc(), row), None, "{:?}", row.asked);
        }
    }
    Ok(())
}
