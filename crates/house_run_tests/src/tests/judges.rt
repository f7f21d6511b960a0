//! The command `judge`.
use super::auctions::{FIRST_VERSION, ONE_UNIT, auction_of};
use super::fixtures::{joined, named};
use super::journals::{NAMES, Report, house_with, only};
use super::runs::{runs_over, runs_so};
use expected_values::equal_in;
use std::alloc::Global;
use std::sync::Wait;
use std::test::Fail;
use std::thread::Threads;
use std::time::Clock;

/// What was reported to the clocks of an auction of one unit for ada and bob, the words over it, the status and the text.
type Row = (
    &'static [&'static [Report]],
    &'static [&'static str],
    u8,
    &'static str,
);

/// Ada always wants the unit, and bob cares for it or not.
const SERVED: &[&[Report]] = &[
    &[[1, 1, 1, 1], [2, 1, 0, 1]],
    &[[2, 1, 0, 1]],
    &[[1, 1, 1, 1]],
];

/// At one price ada wants the unit on a clock, and on another she wants none.
const TORN: &[&[Report]] = &[&[[1, 1, 1, 1]], &[], &[[1, 1, 0, 0]]];

const ROWS: &[Row] = &[
    (
        SERVED,
        &["judge", "a", "j", "1"],
        0,
        "rational bidder 1 bundles 2
value 0 0
value 1 1
",
    ),
    (
        SERVED,
        &["judge", "a", "j", "2"],
        0,
        "rational bidder 2 bundles 2
value 0 0
value 1 0
",
    ),
    (
        TORN,
        &["judge", "a", "j", "1"],
        0,
        "irrational bidder 1 links 2
clock 0 round 1 x 1 y 0
clock 2 round 1 x 0 y 1
",
    ),
    (
        TORN,
        &["judge", "a", "j", "2"],
        0,
        "rational bidder 2 bundles 2
value 0 0
value 1 0
",
    ),
    (SERVED, &["judge", "a", "j", "3"], 19, "no bidder 3\n"),
];

/// Whether these words over that auction end so.
fn is_judged(rt: &(impl Threads + Wait + Sync + Clock), alloc: Global, row: &Row) -> Option<bool> {
    let (reports, words, status, text) = row;
    let auction = auction_of(alloc, FIRST_VERSION, ONE_UNIT, 2)?;
    let contents = house_with(alloc, auction, reports)?;
    runs_over(rt, alloc, words, NAMES, &contents, *status, text)
}

#[test]
fn bidders_are_judged(rt: HostRuntime) -> Result<(), Fail> {
    for row in ROWS {
        let told = is_judged(&rt, rt.alloc(), row);
        equal_in(row.3, told, Some(true))?;
    }
    Ok(())
}

/// The bytes of a journal that is damaged in its header.
const DAMAGED: &[u8] = &[0xa5; 64];

/// Whether these words over that auction, with a damaged journal, end so.
fn ends_over_damage(
    rt: &(impl Threads + Wait + Sync + Clock),
    alloc: Global,
    words: &[&str],
    status: u8,
    text: &str,
) -> Option<bool> {
    let mut contents = only(alloc, auction_of(alloc, FIRST_VERSION, ONE_UNIT, 2)?)?;
    contents.push(joined(alloc, &[DAMAGED])?).ok()?;
    let files = named(alloc, NAMES, &contents)?;
    runs_so(rt, alloc, words, &files, status, text)
}

#[test]
fn the_bidder_is_looked_for_before_a_journal_is_read(rt: HostRuntime) -> Result<(), Fail> {
    for (words, status, text) in [
        (["judge", "a", "j", "3"], 19, "no bidder 3\n"),
        (
            ["judge", "a", "j", "2"],
            8,
            "bad journal clock 0 record 0 fault 3\n",
        ),
    ] {
        let told = ends_over_damage(&rt, rt.alloc(), &words, status, text);
        equal_in(text, told, Some(true))?;
    }
    Ok(())
}
