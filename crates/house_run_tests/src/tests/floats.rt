//! The command `float`.
use super::auctions::{ONE_UNIT, TO_HUNDRED, TWO_GOODS, TWO_UNITS, auction_of};
use super::fixtures::joined_text;
use super::runs::runs_over;
use expected_values::equal_in;
use std::alloc::Global;
use std::sync::Wait;
use std::test::Fail;
use std::thread::Threads;
use std::time::Clock;
use worked_auctions::valuations;

/// The head of a file in version 2, with a ceiling of 100.
const SECOND_TO_HUNDRED: &str = "version = 2\nceiling = 100\n";

/// Two units of one good, neither sold below 5.
const TWO_FROM_FIVE: &str = r#"
[[goods]]
name = "oil"
supply = 2
opening = 5
"#;

/// The first bidder wants both goods or nothing, and the second one of them.
const COMPLEMENTS: &str = r#"[[valuations]]
form = "table"
values = [0, 0, 0, 3]
[[valuations]]
form = "table"
values = [0, 2, 2, 2]
"#;

/// The head and the goods of an auction, how many bidders there are, their valuations, the start, and the status and the text.
type Row = (
    &'static str,
    &'static str,
    usize,
    &'static str,
    &'static str,
    u8,
    &'static str,
);

const ROWS: &[Row] = &[
    (
        TO_HUNDRED,
        TWO_UNITS,
        3,
        valuations::THREE_BIDDERS,
        "10",
        0,
        "floated goods 1 bidders 3 start 10
prices 8
bidder 1 award 1 debit -6 credit -4 pays 6
bidder 2 award 1 debit -4 credit -2 pays 6
bidder 3 award 0 debit -2 credit -2 pays 0
clock 0 up 0 down 2 prices 8
choice 0 1 1
choice 0 2 1
choice 0 3 0
clock 1 up 0 down 4 prices 6
choice 1 2 1
choice 1 3 1
clock 2 up 0 down 4 prices 6
choice 2 1 1
choice 2 3 1
clock 3 up 0 down 2 prices 8
choice 3 1 1
choice 3 2 1
",
    ),
    (
        TO_HUNDRED,
        TWO_UNITS,
        2,
        valuations::UNEVEN,
        "0",
        0,
        "floated goods 1 bidders 2 start 0
prices 8
bidder 1 award 2 debit 0 credit 5 pays 11
bidder 2 award 0 debit 0 credit 0 pays 0
clock 0 up 8 down 0 prices 8
choice 0 1 2
choice 0 2 0
clock 1 up 0 down 0 prices 0
choice 1 2 2
clock 2 up 0 down 0 prices 0
choice 2 1 2
",
    ),
    (
        TO_HUNDRED,
        TWO_GOODS,
        2,
        COMPLEMENTS,
        "0,0",
        13,
        "not substitutes bidder 1 x 1 1 y 0 0 good 0\n",
    ),
];

/// Starts at which no clock opens are told before the valuations are read, which are none here.
const NO_STARTS: &[Row] = &[
    (TO_HUNDRED, ONE_UNIT, 2, "", "10,10", 24, "start count 2\n"),
    (
        TO_HUNDRED,
        ONE_UNIT,
        2,
        "",
        "100",
        25,
        "start good 0 value 100\n",
    ),
    (
        SECOND_TO_HUNDRED,
        TWO_FROM_FIVE,
        2,
        "",
        "4",
        25,
        "start good 0 value 4\n",
    ),
    (
        TO_HUNDRED,
        TWO_GOODS,
        2,
        "",
        "99,10000",
        25,
        "start good 1 value 10000\n",
    ),
    (TO_HUNDRED, ONE_UNIT, 2, "", "99", 12, "bad values 2\n"),
];

const NAMES: &[&str] = &["a", "v"];

/// Whether an auction floats so.
fn floats(rt: &(impl Threads + Wait + Sync + Clock), alloc: Global, row: &Row) -> Option<bool> {
    let (head, goods, bidders, values, start, status, text) = row;
    let mut contents = Vec::new(alloc);
    contents
        .push(auction_of(alloc, head, goods, *bidders)?)
        .ok()?;
    contents.push(joined_text(alloc, &[*values])?).ok()?;
    let words = ["float", "a", "v", *start];
    runs_over(rt, alloc, &words, NAMES, &contents, *status, text)
}

#[test]
fn auctions_float(rt: HostRuntime) -> Result<(), Fail> {
    for row in ROWS {
        let told = floats(&rt, rt.alloc(), row);
        equal_in(row.6, told, Some(true))?;
    }
    Ok(())
}

#[test]
fn starts_are_refused(rt: HostRuntime) -> Result<(), Fail> {
    for row in NO_STARTS {
        let told = floats(&rt, rt.alloc(), row);
        equal_in(row.6, told, Some(true))?;
    }
    Ok(())
}
