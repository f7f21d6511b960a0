//! What no clause says of real doors and links: each call that is made of them, one by one, with its arguments, what is said of one that
//! fails, and that what is closed is let go of.
use crate::causes::{ABORTED, BROKEN, MOST_CAUSES};
use crate::link_asking::{Asked, failures, most_asked};
use crate::noted_net::{Call, NotedNet};
use crate::notes::notes_of;
use expected_values::equal;
use std::alloc::Global;
use std::sync::Arc;
use std::test::Fail;

mod closing;
mod doors;
mod links;
mod talks;

/// What is asked for, of a peer that sends so many bytes over each connection, which calls fail, by which error, and what comes of it.
#[derive(Clone, Copy)]
struct Row {
    /// What is asked for, in order.
    asked: &'static [Asked],
    /// How many bytes the peer sends.
    sent: u64,
    /// The calls that fail, by their numbers from 0 on.
    failing: &'static [usize],
    /// The system's number of the error by which they fail.
    code: i32,
    /// How many of what was asked for failed, and how many listeners and connections are open at the end.
    outcome: (usize, usize),
    /// The calls that are to be made, in order.
    calls: &'static [Call],
    /// What is to be said on standard error.
    said: &'static str,
}

/// The same as it was found.
#[derive(Debug, Drop)]
struct Outcome {
    /// How many of what was asked for failed, and how many listeners and connections are open at the end.
    outcome: (usize, usize),
    /// The calls that were made, in order.
    calls: Vec<Call>,
    /// What was said on standard error.
    said: String,
}

/// What is found where a row asks.
fn found(alloc: Global, row: &Row) -> Option<Outcome> {
    let mut room = vec![in alloc; 7; most_asked(row.asked)].ok()?;
    let calls = notes_of(alloc, row.failing, row.code)?;
    let net = NotedNet {
        calls: Arc::clone(&calls).ok()?,
        sent: row.sent,
    };
    let outcome = failures(alloc, &net, row.asked, &mut room);
    Some(Outcome {
        outcome,
        calls: calls.taken(),
        said: calls.said(),
    })
}

/// Whether a row holds.
fn holds(alloc: Global, row: &Row) -> bool {
    match found(alloc, row) {
        Some(found) => {
            found.outcome == row.outcome
                && found.calls.as_slice() == row.calls
                && found.said.as_str() == row.said
        }
        None => false,
    }
}

/// The number, from 0, of the first row that does not hold, or that of all rows.
fn first_other(alloc: Global, rows: &[Row]) -> usize {
    rows.iter()
        .position(|row| !holds(alloc, row))
        .unwrap_or(rows.len())
}

/// What is found of the row of this number.
fn found_at(alloc: Global, rows: &[Row], number: usize) -> Option<Outcome> {
    found(alloc, rows.get(number)?)
}

/// Where doors are opened, and links dialled.
const ADDRESS: &str = "127.0.0.1:4747";

/// The call that binds there.
const BIND: Call = Call::Bind([127, 0, 0, 1], 4_747);

/// The call that connects there.
const CONNECT: Call = Call::Connect([127, 0, 0, 1], 4_747);

/// Whether a row holds where its calls fail by this cause: as many fail, and the same calls are made.
fn holds_by(alloc: Global, row: &Row, code: i32) -> bool {
    match found(alloc, &Row { code, ..*row }) {
        Some(found) => found.outcome == row.outcome && found.calls.as_slice() == row.calls,
        None => false,
    }
}

/// The first cause by which a row with calls that fail does not hold. A connection that was given up before it was accepted is another case.
fn other_cause(alloc: Global, row: &Row) -> Option<i32> {
    if row.failing.is_empty() || row.code == ABORTED {
        return None;
    }
    for code in 1..MOST_CAUSES + 1 {
        if code != ABORTED && !holds_by(alloc, row, code) {
            return Some(code);
        }
    }
    None
}

/// The first cause by which one of these rows does not hold.
fn other_cause_in(alloc: Global, rows: &[Row]) -> Option<i32> {
    for row in rows {
        if let Some(code) = other_cause(alloc, row) {
            return Some(code);
        }
    }
    None
}

#[test]
fn a_call_that_fails_is_one_call_whatever_its_cause(rt: HostRuntime) -> Result<(), Fail> {
    equal(other_cause_in(rt.alloc(), doors::DOORS.as_slice()), None)?;
    equal(other_cause_in(rt.alloc(), links::LINKS.as_slice()), None)?;
    equal(other_cause_in(rt.alloc(), talks::TALKS.as_slice()), None)?;
    equal(
        other_cause_in(rt.alloc(), closing::CLOSING.as_slice()),
        None,
    )?;
    Ok(())
}
