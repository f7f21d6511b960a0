//! The command `explain`.
use super::auctions::{FIRST_VERSION, ONE_UNIT, THREE_UNITS, TO_TWO, TWO_GOODS, auction_of};
use super::journals::{NAMES, house_of_entries};
use super::runs::runs_over;
use expected_values::equal_in;
use std::alloc::Global;
use std::sync::Wait;
use std::test::Fail;
use std::thread::Threads;
use std::time::Clock;

/// The head and the goods of an auction of two bidders, the entries of its clocks, and how they are explained.
type Row = (
    &'static str,
    &'static str,
    &'static [&'static [&'static [u8]]],
    &'static str,
);

/// What both goods in one unit each are demanded by a bidder who wants both or none, in rounds 1 and 2, and none of them in round 3.
const BOTH_1: &[u8] = &[1, 0, 0, 0, 1, 2, 0, 1, 0, 1, 0, 1];

const BOTH_2: &[u8] = &[1, 0, 0, 0, 2, 2, 0, 1, 0, 1, 0, 1];

const NONE_3: &[u8] = &[1, 0, 0, 0, 3, 2, 0, 1, 0, 0, 0, 0];

/// What a bidder demands who wants one of them: any, then one, then one or none.
const ONE_1: &[u8] = &[2, 0, 0, 0, 1, 2, 0, 3, 0, 0, 0, 1, 0, 1, 0, 0, 0, 1, 0, 1];

const ONE_2: &[u8] = &[2, 0, 0, 0, 2, 2, 0, 2, 0, 0, 0, 1, 0, 1, 0, 0];

const ONE_3: &[u8] = &[2, 0, 0, 0, 3, 2, 0, 3, 0, 0, 0, 0, 0, 0, 0, 1, 0, 1, 0, 0];

/// Three units of one good, and then two of them or none.
const THREE: &[&[u8]] = &[
    &[1, 0, 0, 0, 1, 1, 0, 1, 0, 3],
    &[2, 0, 0, 0, 1, 1, 0, 1, 0, 3],
    &[1, 0, 0, 0, 2, 1, 0, 2, 0, 0, 0, 2],
    &[2, 0, 0, 0, 2, 1, 0, 2, 0, 0, 0, 2],
];

/// One unit, which both want in each round.
const ALWAYS_ONE: &[&[u8]] = &[
    &[1, 0, 0, 0, 1, 1, 0, 1, 0, 1],
    &[2, 0, 0, 0, 1, 1, 0, 1, 0, 1],
    &[1, 0, 0, 0, 2, 1, 0, 1, 0, 1],
    &[2, 0, 0, 0, 2, 1, 0, 1, 0, 1],
    &[1, 0, 0, 0, 3, 1, 0, 1, 0, 1],
    &[2, 0, 0, 0, 3, 1, 0, 1, 0, 1],
];

const ROWS: &[Row] = &[
    (
        FIRST_VERSION,
        TWO_GOODS,
        &[
            &[BOTH_1, ONE_1, BOTH_2, ONE_2, NONE_3, ONE_3],
            &[ONE_1],
            &[BOTH_1],
        ],
        "clock 0 ended overshoot 3 short 1
clock 1 ended award
clock 2 ended award
",
    ),
    (
        FIRST_VERSION,
        THREE_UNITS,
        &[THREE],
        "clock 0 ended broken 1 x 2 y 0 good 0
clock 1 running
clock 2 running
",
    ),
    (
        TO_TWO,
        ONE_UNIT,
        &[ALWAYS_ONE],
        "clock 0 halted
clock 1 running
clock 2 running
",
    ),
];

const EXPLAIN: &[&str] = &["explain", "a", "j"];

/// Whether the clocks of an auction are explained so.
fn is_explained(
    rt: &(impl Threads + Wait + Sync + Clock),
    alloc: Global,
    row: &Row,
) -> Option<bool> {
    let (head, goods, clocks, text) = row;
    let auction = auction_of(alloc, head, goods, 2)?;
    let contents = house_of_entries(alloc, auction, clocks)?;
    runs_over(rt, alloc, EXPLAIN, NAMES, &contents, 0, text)
}

#[test]
fn clocks_are_explained(rt: HostRuntime) -> Result<(), Fail> {
    for row in ROWS {
        let told = is_explained(&rt, rt.alloc(), row);
        equal_in(row.3, told, Some(true))?;
    }
    Ok(())
}
