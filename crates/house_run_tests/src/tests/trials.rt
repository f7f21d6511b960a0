//! The commands `trial` and `make`: auctions that were worked by hand, told by valuations, and the market of the number 7.
use super::auctions::{ONE_UNIT, TO_HUNDRED, TWO_GOODS, TWO_UNITS, auction_of};
use super::fixtures::{Outside, joined_text, named};
use super::runs::{FailingRow, fails_so, runs_over, runs_so};
use expected_values::{equal, equal_in};
use std::alloc::Global;
use std::sync::Wait;
use std::test::Fail;
use std::thread::Threads;
use std::time::Clock;
use worked_auctions::{outcomes, valuations};

const SEVEN: &str =
    "make 7 goods 3 bidders 12 clocks 13 steps 1280 revenue 680 outcome 3fc0eb098f54fb2d09de7849f1cf2db34b42ff2adfcf16c1001b1e6d35cd14aa\n";

/// The head of a file in version 2, with a ceiling of 100.
const SECOND_TO_HUNDRED: &str = "version = 2\nceiling = 100\n";

/// One unit of a good, and two of another.
const ONE_AND_TWO: &str = r#"
[[goods]]
name = "north"
supply = 1

[[goods]]
name = "south"
supply = 2
"#;

/// Two units of one good, neither sold below 5.
const TWO_FROM_FIVE: &str = r#"
[[goods]]
name = "oil"
supply = 2
opening = 5
"#;

/// The same below 9.
const TWO_FROM_NINE: &str = r#"
[[goods]]
name = "oil"
supply = 2
opening = 9
"#;

/// The head and the goods of an auction, how many bidders there are, and their valuations.
type Told = (&'static str, &'static str, usize, &'static str);

/// An auction that is told, and the status and the text of its trial.
type Row = (Told, u8, &'static str);

const NAMES: &[&str] = &["a", "v"];

/// The auction and the valuations that are told.
fn contents_of(alloc: Global, told: &Told) -> Option<Vec<Vec<u8>>> {
    let (head, goods, bidders, values) = told;
    let mut contents = Vec::new(alloc);
    contents
        .push(auction_of(alloc, head, goods, *bidders)?)
        .ok()?;
    contents.push(joined_text(alloc, &[*values])?).ok()?;
    Some(contents)
}

const TRIAL: &[&str] = &["trial", "a", "v"];

/// Whether the trial of an auction that is told ends with this status and text.
fn tries(
    rt: &(impl Threads + Wait + Sync + Clock),
    alloc: Global,
    told: &Told,
    status: u8,
    text: &str,
) -> Option<bool> {
    let contents = contents_of(alloc, told)?;
    runs_over(rt, alloc, TRIAL, NAMES, &contents, status, text)
}

/// Whether these words over two empty files end with this status and text.
fn ends_over_nothing(
    rt: &(impl Threads + Wait + Sync + Clock),
    alloc: Global,
    words: &[&str],
    status: u8,
    text: &str,
) -> Option<bool> {
    runs_so(rt, alloc, words, &[("a", b""), ("v", b"")], status, text)
}

const FIRST_TOLD: Told = (TO_HUNDRED, TWO_UNITS, 3, valuations::THREE_BIDDERS);

const ONE_GOOD: &[Row] = &[
    (FIRST_TOLD, 0, outcomes::THREE_BIDDERS),
    (
        (TO_HUNDRED, TWO_UNITS, 2, valuations::UNEVEN),
        0,
        outcomes::UNEVEN,
    ),
    (
        (TO_HUNDRED, TWO_UNITS, 1, valuations::ONE_BIDDER),
        0,
        outcomes::ONE_BIDDER,
    ),
    (
        (TO_HUNDRED, ONE_UNIT, 2, valuations::WORTHLESS),
        0,
        outcomes::WORTHLESS,
    ),
    ((TO_HUNDRED, ONE_UNIT, 2, valuations::TIE), 0, outcomes::TIE),
];

#[test]
fn trials_of_one_good_settle(rt: HostRuntime) -> Result<(), Fail> {
    for (told, status, text) in ONE_GOOD {
        let ends = tries(&rt, rt.alloc(), told, *status, text);
        equal_in(text, ends, Some(true))?;
    }
    Ok(())
}

const BY_UNITS: &[Row] = &[
    (
        (TO_HUNDRED, TWO_GOODS, 2, valuations::ONE_EACH),
        0,
        outcomes::ONE_EACH,
    ),
    (
        (TO_HUNDRED, ONE_AND_TWO, 2, valuations::FIRST_GOOD),
        0,
        outcomes::FIRST_GOOD,
    ),
];

#[test]
fn trials_of_two_goods_settle(rt: HostRuntime) -> Result<(), Fail> {
    for (told, status, text) in BY_UNITS {
        let ends = tries(&rt, rt.alloc(), told, *status, text);
        equal_in(text, ends, Some(true))?;
    }
    Ok(())
}

/// The first bidder wants both goods or nothing, and the second one of them.
const COMPLEMENTS: &str = r#"[[valuations]]
form = "table"
values = [0, 0, 0, 3]
[[valuations]]
form = "table"
values = [0, 2, 2, 2]
"#;

/// A form that is none.
const OTHER_FORM: &str = r#"[[valuations]]
form = "other"
x = 1
"#;

const REFUSED: &[Row] = &[
    (
        (TO_HUNDRED, TWO_GOODS, 2, COMPLEMENTS),
        13,
        "not substitutes bidder 1 x 1 1 y 0 0 good 0\n",
    ),
    ((TO_HUNDRED, ONE_UNIT, 1, OTHER_FORM), 12, "bad values 10\n"),
];

#[test]
fn trials_are_refused(rt: HostRuntime) -> Result<(), Fail> {
    for (told, status, text) in REFUSED {
        let ends = tries(&rt, rt.alloc(), told, *status, text);
        equal_in(text, ends, Some(true))?;
    }
    let usage = ends_over_nothing(&rt, rt.alloc(), &["trial", "a"], 2, "usage\n");
    equal(usage, Some(true))?;
    Ok(())
}

const RESERVED: &[Row] = &[
    (
        (
            SECOND_TO_HUNDRED,
            TWO_FROM_FIVE,
            3,
            valuations::THREE_BIDDERS,
        ),
        0,
        outcomes::FROM_FIVE,
    ),
    (
        (
            SECOND_TO_HUNDRED,
            TWO_FROM_NINE,
            3,
            valuations::THREE_BIDDERS,
        ),
        0,
        outcomes::FROM_NINE,
    ),
];

#[test]
fn trials_open_at_reserves(rt: HostRuntime) -> Result<(), Fail> {
    for (told, status, text) in RESERVED {
        let ends = tries(&rt, rt.alloc(), told, *status, text);
        equal_in(text, ends, Some(true))?;
    }
    Ok(())
}

const MADE: &[(&[&str], u8, &str)] = &[
    (&["make", "7"], 0, SEVEN),
    (&["make", "7", "--workers", "8"], 0, SEVEN),
    (&["make", "--workers=8", "7"], 0, SEVEN),
    (&["make", "07"], 2, "usage\n"),
];

#[test]
fn seven_is_made_by_any_number_of_workers(rt: HostRuntime) -> Result<(), Fail> {
    for (words, status, text) in MADE {
        let made = ends_over_nothing(&rt, rt.alloc(), words, *status, text);
        equal_in(words, made, Some(true))?;
    }
    Ok(())
}

const BY_EIGHT: &[&str] = &["trial", "a", "v", "--workers", "8"];

/// Where a call fails, the number of the call, and the status and the text. The auction is the first file, and the valuations are
/// the second.
const FAILING: &[(Outside, u64, u8, &str)] = &[
    (Outside::Opening, 0, 4, "read fault\n"),
    (Outside::Opening, 1, 4, "read fault\n"),
    (Outside::Opening, 2, 0, outcomes::THREE_BIDDERS),
    (Outside::File(0), 0, 4, "read fault\n"),
    (Outside::File(1), 0, 4, "read fault\n"),
    (Outside::File(1), 1, 4, "read fault\n"),
    (Outside::Sink, 0, 5, ""),
    (Outside::Sink, 1, 0, outcomes::THREE_BIDDERS),
];

/// Whether the words of a row over these contents end as it says.
fn fails_over(
    rt: &(impl Threads + Wait + Sync + Clock),
    alloc: Global,
    contents: &[Vec<u8>],
    row: &FailingRow,
) -> Option<bool> {
    let files = named(alloc, NAMES, contents)?;
    fails_so(rt, alloc, &files, row)
}

/// Whether the trial of the first auction ends as the row says, by one worker and by eight.
fn fails_by_any(
    rt: &(impl Threads + Wait + Sync + Clock),
    alloc: Global,
    row: &(Outside, u64, u8, &'static str),
) -> Option<bool> {
    let (place, call, status, text) = *row;
    let contents = contents_of(alloc, &FIRST_TOLD)?;
    let by_one = fails_over(rt, alloc, &contents, &(place, call, TRIAL, status, text))?;
    let by_eight = fails_over(rt, alloc, &contents, &(place, call, BY_EIGHT, status, text))?;
    Some(by_one && by_eight)
}

#[test]
fn failing_calls_end_trials_by_any_number_of_workers(rt: HostRuntime) -> Result<(), Fail> {
    for row in FAILING {
        equal_in(row, fails_by_any(&rt, rt.alloc(), row), Some(true))?;
    }
    Ok(())
}
