//! The commands `standing` and `settle`.
use super::auctions::{TO_HUNDRED, TWO_GOODS, TWO_UNITS, auction_of};
use super::fixtures::{Outside, named, sure_shelf};
use super::journals::{
    NAMES, Report, digest_in, house_of_entries, house_with, journal_of, journal_with, only,
};
use super::runs::{FailingRow, ends_over, fails_so, has_kept, runs_over};
use expected_values::{equal, equal_in};
use house_io::SureShelf;
use std::alloc::Global;
use std::sync::Wait;
use std::test::Fail;
use std::thread::Threads;
use std::time::Clock;
use worked_auctions::outcomes;

/// The reports of each clock where no, one and two units are worth 0, 10 and 14, then 0, 8 and 11, then 0, 6 and 7.
const ALL: &[Report] = &[
    [1, 1, 2, 2],
    [2, 1, 2, 2],
    [3, 1, 2, 2],
    [1, 2, 2, 2],
    [2, 2, 2, 2],
    [3, 2, 1, 2],
    [1, 3, 2, 2],
    [2, 3, 2, 2],
    [3, 3, 1, 1],
    [1, 4, 2, 2],
    [2, 4, 1, 2],
    [3, 4, 1, 1],
    [1, 5, 1, 2],
    [2, 5, 1, 1],
    [3, 5, 1, 1],
    [1, 6, 1, 1],
    [2, 6, 1, 1],
    [3, 6, 1, 1],
    [1, 7, 1, 1],
    [2, 7, 1, 1],
    [3, 7, 0, 1],
];

const WITHOUT_FIRST: &[Report] = &[
    [2, 1, 2, 2],
    [3, 1, 2, 2],
    [2, 2, 2, 2],
    [3, 2, 1, 2],
    [2, 3, 2, 2],
    [3, 3, 1, 1],
    [2, 4, 1, 2],
    [3, 4, 1, 1],
];

const WITHOUT_SECOND: &[Report] = &[
    [1, 1, 2, 2],
    [3, 1, 2, 2],
    [1, 2, 2, 2],
    [3, 2, 1, 2],
    [1, 3, 2, 2],
    [3, 3, 1, 1],
    [1, 4, 2, 2],
    [3, 4, 1, 1],
    [1, 5, 1, 2],
    [3, 5, 1, 1],
];

const WITHOUT_THIRD: &[Report] = &[
    [1, 1, 2, 2],
    [2, 1, 2, 2],
    [1, 2, 2, 2],
    [2, 2, 2, 2],
    [1, 3, 2, 2],
    [2, 3, 2, 2],
    [1, 4, 2, 2],
    [2, 4, 1, 2],
    [1, 5, 1, 2],
    [2, 5, 1, 1],
];

/// The contents of a house of two units for so many bidders, whose clocks have these reports.
fn house_of(alloc: Global, bidders: usize, reports: &[&[Report]]) -> Option<Vec<Vec<u8>>> {
    let auction = auction_of(alloc, TO_HUNDRED, TWO_UNITS, bidders)?;
    house_with(alloc, auction, reports)
}

const SETTLE: &[&str] = &["settle", "a", "j"];

const STANDING: &[&str] = &["standing", "a", "j"];

const EXPLAIN: &[&str] = &["explain", "a", "j"];

const JUDGE: &[&str] = &["judge", "a", "j", "2"];

/// Whether these words over an auction of two units for so many bidders, with these reports, end so.
fn units_end_so(
    rt: &(impl Threads + Wait + Sync + Clock),
    alloc: Global,
    words: &[&str],
    bidders: usize,
    reports: &[&[Report]],
    status: u8,
    text: &str,
) -> Option<bool> {
    let contents = house_of(alloc, bidders, reports)?;
    runs_over(rt, alloc, words, NAMES, &contents, status, text)
}

const THREE_BIDDERS: &[&[Report]] = &[ALL, WITHOUT_FIRST, WITHOUT_SECOND, WITHOUT_THIRD];

#[test]
fn settles_two_units_among_three_bidders(rt: HostRuntime) -> Result<(), Fail> {
    let told = units_end_so(
        &rt,
        rt.alloc(),
        SETTLE,
        3,
        THREE_BIDDERS,
        0,
        outcomes::THREE_BIDDERS,
    );
    equal(told, Some(true))?;
    Ok(())
}

const ENDED: &str = "clock 0 round 7 ended prices 6
clock 1 round 4 ended prices 3
clock 2 round 5 ended prices 4
clock 3 round 5 ended prices 4
";

const OPENED: &str = "clock 0 round 2 running prices 1 missing 2
clock 1 round 1 running prices 0 missing 2
clock 2 round 1 running prices 0 missing 1
clock 3 round 1 running prices 0 missing 1
";

/// The first four reports of the clock of all bidders.
const FIRST_FOUR: &[Report] = &[[1, 1, 2, 2], [2, 1, 2, 2], [3, 1, 2, 2], [1, 2, 2, 2]];

#[test]
fn tells_how_each_clock_stands(rt: HostRuntime) -> Result<(), Fail> {
    for (rows, text) in [(THREE_BIDDERS, ENDED), (&[FIRST_FOUR], OPENED)] {
        let told = units_end_so(&rt, rt.alloc(), STANDING, 3, rows, 0, text);
        equal_in(text, told, Some(true))?;
    }
    Ok(())
}

/// The reports of one bidder's auction, who demands both units.
const ONE_BIDDER: &[&[Report]] = &[&[[1, 1, 2, 2]]];

const WITH_JSON: &[&[&str]] = &[
    &["settle", "a", "j", "--json"],
    &["settle", "a", "--json", "j"],
    &["settle", "--json", "a", "j"],
];

const NO_SETTLE: &[&[&str]] = &[
    &["--json", "settle", "a", "j"],
    &["settle", "a", "j", "--json", "--json"],
    &["settle", "a", "j", "--"],
    &["settle", "a", "j", "--json=1"],
    &["settle", "a", "j", "--jso"],
    &["settle", "a", "--json"],
    &["settle", "a", "j", "k", "--json"],
    &["settle", "a", "", "--json"],
    &["settle", "--json"],
    &["settle"],
    &["standing", "a", "j", "--json"],
    &["standing", "a"],
    &["standing", "a", "j", "k"],
    &["check", "a", "--json"],
];

/// The place, from 0, of the first words of a table that end otherwise over one bidder's auction.
fn first_other(
    rt: &(impl Threads + Wait + Sync + Clock),
    alloc: Global,
    table: &[&[&str]],
    status: u8,
    text: &str,
) -> Option<usize> {
    for (place, words) in table.iter().enumerate() {
        if units_end_so(rt, alloc, words, 1, ONE_BIDDER, status, text) != Some(true) {
            return Some(place);
        }
    }
    None
}

#[test]
fn takes_json_anywhere_and_once(rt: HostRuntime) -> Result<(), Fail> {
    let others = first_other(&rt, rt.alloc(), WITH_JSON, 0, outcomes::ONE_BIDDER_JSON);
    let commands = first_other(&rt, rt.alloc(), NO_SETTLE, 2, "usage\n");
    equal((others, commands), (None, None))?;
    Ok(())
}

const FIRST: &[u8] = &[1, 0, 0, 0, 1, 2, 0, 2, 0, 1, 0, 0, 0, 1, 0, 1];

const SECOND: &[u8] = &[2, 0, 0, 0, 1, 2, 0, 2, 0, 1, 0, 0, 0, 1, 0, 1];

const DEARER: &[u8] = &[1, 0, 0, 0, 2, 2, 0, 3, 0, 0, 0, 1, 0, 1, 0, 0, 0, 1, 0, 1];

const AGAIN: &[u8] = &[2, 0, 0, 0, 2, 2, 0, 2, 0, 1, 0, 0, 0, 1, 0, 1];

/// The entries of each clock of two goods in one unit each, of which the first bidder wants one, and the second one the first alone.
/// The bundle of both goods is the last of each.
const TWO_GOODS_ENTRIES: &[&[&[u8]]] = &[&[FIRST, SECOND, DEARER, AGAIN], &[SECOND], &[FIRST]];

/// The contents of their house.
fn house_of_two_goods(alloc: Global) -> Option<Vec<Vec<u8>>> {
    let auction = auction_of(alloc, TO_HUNDRED, TWO_GOODS, 2)?;
    house_of_entries(alloc, auction, TWO_GOODS_ENTRIES)
}

/// Whether the auction of two goods settles so.
fn two_goods_settle(rt: &(impl Threads + Wait + Sync + Clock), alloc: Global) -> Option<bool> {
    let contents = house_of_two_goods(alloc)?;
    runs_over(rt, alloc, SETTLE, NAMES, &contents, 0, outcomes::ONE_EACH)
}

#[test]
fn settles_one_of_two_goods_each(rt: HostRuntime) -> Result<(), Fail> {
    equal(two_goods_settle(&rt, rt.alloc()), Some(true))?;
    Ok(())
}

/// The reports of two bidders' auction, and the line of the first clock that is open.
const OPEN: &[(&[&[Report]], &str)] = &[
    (&[], "open clock 0 round 1 missing 1\n"),
    (&[&[[1, 1, 2, 2]]], "open clock 0 round 1 missing 2\n"),
    (
        &[&[[1, 1, 1, 1], [2, 1, 1, 1]]],
        "open clock 1 round 1 missing 2\n",
    ),
];

#[test]
fn tells_the_first_clock_that_is_open(rt: HostRuntime) -> Result<(), Fail> {
    for (rows, line) in OPEN {
        let told = units_end_so(&rt, rt.alloc(), SETTLE, 2, rows, 9, line);
        equal_in(line, told, Some(true))?;
    }
    Ok(())
}

const UNBEGUN: &str = "clock 0 round 1 running prices 0 missing 1
clock 1 round 1 running prices 0 missing 2
clock 2 round 1 running prices 0 missing 1
";

const UNEXPLAINED: &str = "clock 0 running
clock 1 running
clock 2 running
";

const UNJUDGED: &str = "rational bidder 2 bundles 3
value 0 0
value 1 0
value 2 0
";

/// Whether a shelf has no file of any of these names.
fn has_none(shelf: &SureShelf, names: &[&str]) -> bool {
    for name in names {
        if shelf.file(name).is_some() {
            return false;
        }
    }
    true
}

/// Whether these words over two bidders' auction without journals end so, leave its file as it was, and make no other.
fn makes_no_file(
    rt: &(impl Threads + Wait + Sync + Clock),
    alloc: Global,
    words: &[&str],
    status: u8,
    text: &str,
) -> Option<bool> {
    let contents = house_of(alloc, 2, &[])?;
    let files = named(alloc, NAMES, &contents)?;
    let mut shelf = sure_shelf(alloc, &files)?;
    let told = ends_over(rt, alloc, words, &mut shelf, status, text)?;
    Some(told && has_kept(&shelf, &files) && has_none(&shelf, &NAMES[1..]))
}

#[test]
fn a_look_at_absent_journals_makes_no_file(rt: HostRuntime) -> Result<(), Fail> {
    for (words, status, text) in [
        (STANDING, 0, UNBEGUN),
        (EXPLAIN, 0, UNEXPLAINED),
        (JUDGE, 0, UNJUDGED),
        (SETTLE, 9, "open clock 0 round 1 missing 1\n"),
    ] {
        let told = makes_no_file(&rt, rt.alloc(), words, status, text);
        equal_in(text, told, Some(true))?;
    }
    Ok(())
}

/// How a journal is not that of clock 0 of the auction.
#[derive(Clone, Copy)]
enum Wrong {
    Clock,
    Auction,
    Name,
    Cut,
    Payload,
    Twice,
}

/// The bytes with one in the place of another.
fn altered(alloc: Global, bytes: &[u8], place: usize, byte: u8) -> Option<Vec<u8>> {
    let mut copy = bytes.to_vec(alloc).ok()?;
    *copy.get_mut(place)? = byte;
    Some(copy)
}

/// The journal of a clock with two reports.
fn two_reports(alloc: Global, clock: u32, digest: [u8; 32], second: u8) -> Option<Vec<u8>> {
    journal_with(alloc, clock, digest, &[[1, 1, 2, 2], [second, 1, 2, 2]])
}

/// A journal that is wrong so.
fn wrong_journal(alloc: Global, wrong: Wrong, digest: [u8; 32]) -> Option<Vec<u8>> {
    let good = two_reports(alloc, 0, digest, 2)?;
    match wrong {
        Wrong::Clock => two_reports(alloc, 1, digest, 2),
        Wrong::Auction => two_reports(alloc, 0, [7; 32], 2),
        Wrong::Name => altered(alloc, &good, 1, 0),
        Wrong::Cut => good[..good.len().min(60)].to_vec(alloc).ok(),
        Wrong::Payload => altered(alloc, &good, 51, 9),
        Wrong::Twice => two_reports(alloc, 0, digest, 1),
    }
}

const WRONG: &[(Wrong, &str)] = &[
    (Wrong::Clock, "bad journal clock 0 record 0 fault 1\n"),
    (Wrong::Auction, "bad journal clock 0 record 0 fault 2\n"),
    (Wrong::Name, "bad journal clock 0 record 0 fault 3\n"),
    (Wrong::Cut, "bad journal clock 0 record 2 fault 3\n"),
    (Wrong::Payload, "bad journal clock 0 record 1 fault 4\n"),
    (Wrong::Twice, "bad journal clock 0 record 2 fault 6\n"),
];

/// The contents of two bidders' house, of which the only journal is wrong so.
fn wrong_house(alloc: Global, wrong: Wrong) -> Option<Vec<Vec<u8>>> {
    let mut contents = only(alloc, auction_of(alloc, TO_HUNDRED, TWO_UNITS, 2)?)?;
    let digest = digest_in(alloc, &contents)?;
    contents.push(wrong_journal(alloc, wrong, digest)?).ok()?;
    Some(contents)
}

/// Whether these words refuse such a journal with this line.
fn is_refused(
    rt: &(impl Threads + Wait + Sync + Clock),
    alloc: Global,
    words: &[&str],
    wrong: Wrong,
    line: &str,
) -> Option<bool> {
    let contents = wrong_house(alloc, wrong)?;
    runs_over(rt, alloc, words, NAMES, &contents, 8, line)
}

#[test]
fn tells_the_record_at_which_a_journal_is_refused(rt: HostRuntime) -> Result<(), Fail> {
    for (wrong, line) in WRONG {
        for words in [SETTLE, STANDING] {
            let told = is_refused(&rt, rt.alloc(), words, *wrong, line);
            equal_in((words, line), told, Some(true))?;
        }
    }
    Ok(())
}

/// The second file is the journal of clock 1.
const FAILING: &[FailingRow] = &[
    (Outside::File(1), 0, SETTLE, 6, "disk fault clock 1\n"),
    (Outside::File(1), 0, STANDING, 6, "disk fault clock 1\n"),
    (Outside::Opening, 1, SETTLE, 6, "disk fault clock 0\n"),
    (Outside::Opening, 2, SETTLE, 6, "disk fault clock 1\n"),
    (Outside::Opening, 0, SETTLE, 4, "read fault\n"),
];

/// Whether the words of a row over one bidder's auction end as it says.
fn fails_over_house(
    rt: &(impl Threads + Wait + Sync + Clock),
    alloc: Global,
    row: &FailingRow,
) -> Option<bool> {
    let auction = auction_of(alloc, TO_HUNDRED, TWO_UNITS, 1)?;
    let files = [("a", auction.as_slice()), ("j/clock-01.ahj", b"")];
    fails_so(rt, alloc, &files, row)
}

#[test]
fn tells_the_clock_whose_journal_fails(rt: HostRuntime) -> Result<(), Fail> {
    for row in FAILING {
        let told = fails_over_house(&rt, rt.alloc(), row);
        equal_in(row, told, Some(true))?;
    }
    Ok(())
}
