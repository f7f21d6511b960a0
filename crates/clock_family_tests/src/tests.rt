//! Two passes of a house over disks in memory.
ghost use Rattle.clock_family_tests.specs.Ready.{IsReady};

use auction_file::{Auction, MOST_BYTES, read};
use clock::{Judgement, Look, Offered};
use clock_book::ClockBook;
use clock_family::{House, HousePass, NotOpen};
use demand_set::Demand;
use expected_values::equal;
use house_io::{Disk, ListDisk};
use lot_base::{Phase, Terms};
use std::alloc::Global;
use std::sync::Wait;
use std::test::Fail;

/// Two units of one good for two bidders.
const FILE: &str = r#"
version = 1
ceiling = 10

[[goods]]
name = "oil"
supply = 2

[[bidders]]
name = "ada"
token = "ba7816bf8f01cfea414140de5dae2223b00361a396177a9cb410ff61f20015ad"

[[bidders]]
name = "bob"
token = "2cf24dba5fb0a30e26e83b2ac5b9e29e1b161e5c1fa7425e73043362938b9824"
"#;

/// Two units of one good for twelve bidders, the most that there can be. Nobody knows their tokens.
const TWELVE: &str = r#"
version = 1
ceiling = 10

[[goods]]
name = "oil"
supply = 2

[[bidders]]
name = "bidder-1"
token = "0000000000000000000000000000000000000000000000000000000000000001"

[[bidders]]
name = "bidder-2"
token = "0000000000000000000000000000000000000000000000000000000000000002"

[[bidders]]
name = "bidder-3"
token = "0000000000000000000000000000000000000000000000000000000000000003"

[[bidders]]
name = "bidder-4"
token = "0000000000000000000000000000000000000000000000000000000000000004"

[[bidders]]
name = "bidder-5"
token = "0000000000000000000000000000000000000000000000000000000000000005"

[[bidders]]
name = "bidder-6"
token = "0000000000000000000000000000000000000000000000000000000000000006"

[[bidders]]
name = "bidder-7"
token = "0000000000000000000000000000000000000000000000000000000000000007"

[[bidders]]
name = "bidder-8"
token = "0000000000000000000000000000000000000000000000000000000000000008"

[[bidders]]
name = "bidder-9"
token = "0000000000000000000000000000000000000000000000000000000000000009"

[[bidders]]
name = "bidder-10"
token = "000000000000000000000000000000000000000000000000000000000000000a"

[[bidders]]
name = "bidder-11"
token = "000000000000000000000000000000000000000000000000000000000000000b"

[[bidders]]
name = "bidder-12"
token = "000000000000000000000000000000000000000000000000000000000000000c"
"#;

fn auction(alloc: Global, text: &str) -> Option<Auction> {
    if text.len() > MOST_BYTES {
        return None;
    }
    match read(alloc, text.as_bytes()) {
        Ok(auction) => Some(auction),
        Err(_) => None,
    }
}

/// The number of the one call that fails, if one is given.
fn plan_of(alloc: Global, failing: Option<u64>) -> Option<Vec<u64>> {
    let mut plan = Vec::new(alloc);
    match failing {
        None => Some(plan),
        Some(call) => match plan.push(call) {
            Ok(()) => Some(plan),
            Err(_) => None,
        },
    }
}

fn disk_of(alloc: Global, plan: Vec<u64>) -> Option<ListDisk> {
    ListDisk::new(alloc, Vec::new(alloc), 600, plan).ok()
}

/// An empty disk, of which the call with this number fails, if one is given.
fn empty_disk(alloc: Global, failing: Option<u64>) -> Option<ListDisk> {
    match plan_of(alloc, failing) {
        None => None,
        Some(plan) => disk_of(alloc, plan),
    }
}

/// Puts an empty disk after others, if there is memory.
fn push_disk(alloc: Global, disks: &mut Vec<ListDisk>, failing: Option<u64>) -> bool {
    match empty_disk(alloc, failing) {
        None => false,
        Some(disk) => disks.push(disk).is_ok(),
    }
}

/// So many empty disks. A call on the first may be chosen to fail.
fn empty_disks(alloc: Global, count: usize, failing: Option<u64>) -> Option<Vec<ListDisk>> {
    let mut disks = Vec::new(alloc);
    let mut planned = failing;
    for _ in 0..count {
        if !push_disk(alloc, &mut disks, planned.take()) {
            return None;
        }
    }
    Some(disks)
}

/// A report of some units of the one good, and the clock to which a pass offers it.
#[derive(Clone, Copy, Debug, PartialEq, Eq)]
struct Line {
    pass: usize,
    clock: u8,
    bidder: u8,
    round: u32,
    units: u16,
}

fn report(pass: usize, clock: u8, bidder: u8, round: u32, units: u16) -> Line {
    Line {
        pass,
        clock,
        bidder,
        round,
        units,
    }
}

/// What is shown of a clock: its round, its phase and the price of the one good.
#[derive(Clone, Copy, Debug, PartialEq, Eq)]
struct Seen {
    round: u32,
    phase: Phase,
    price: Option<u32>,
}

/// A report, what a pass is shown before it offers it, what is answered, and what the other pass is shown then.
#[derive(Clone, Copy, Debug, PartialEq, Eq)]
struct Turn {
    line: Line,
    before: Option<Seen>,
    answer: Option<Offered>,
    after: Option<Seen>,
}

fn seen_of(look: &Look) -> Seen {
    Seen {
        round: look.round,
        phase: look.phase,
        price: look.prices.as_slice().first().copied(),
    }
}

/// Offers the report of a line. Nothing is answered where memory ran out, or where there is no such pass, clock or bidder.
fn offer<D: Disk, T: Wait>(
    rt: &T,
    alloc: Global,
    terms: &Terms,
    house: &House<D>,
    passes: &mut Vec<HousePass<D>>,
    line: Line,
) -> Option<Offered>
    requires { IsReady terms.now house.now passes.old.items }
    ensures { IsReady terms.now house.now passes.new.items }
{
    let Line {
        pass,
        clock,
        bidder,
        round,
        units,
    } = line;
    if pass >= passes.len() || clock > terms.bidders || bidder < 1 || bidder > terms.bidders {
        return None;
    }
    match Demand::read_quantities(alloc, &terms.goods, 1, &[units]) {
        Err(_) => None,
        Ok(demand) => {
            Some(house.offer(rt, alloc, &mut passes[pass], clock, bidder, round, demand))
        }
    }
}

/// Looks at a clock. Nothing is shown where there is no such pass or clock.
fn look<D: Disk, T: Wait>(
    rt: &T,
    terms: &Terms,
    house: &House<D>,
    passes: &mut Vec<HousePass<D>>,
    pass: usize,
    clock: u8,
) -> Option<Seen>
    requires { IsReady terms.now house.now passes.old.items }
    ensures { IsReady terms.now house.now passes.new.items }
{
    if pass >= passes.len() || clock > terms.bidders {
        return None;
    }
    Some(seen_of(&house.look(rt, &mut passes[pass], clock)))
}

/// Looks by a pass, offers the report of a line by it, and looks by the other pass.
fn take_turn<D: Disk, T: Wait>(
    rt: &T,
    alloc: Global,
    terms: &Terms,
    house: &House<D>,
    passes: &mut Vec<HousePass<D>>,
    line: Line,
) -> Turn
    requires { IsReady terms.now house.now passes.old.items }
    ensures { IsReady terms.now house.now passes.new.items }
{
    let before = look(rt, terms, house, passes, line.pass, line.clock);
    let answer = offer(rt, alloc, terms, house, passes, line);
    let other = 1usize.saturating_sub(line.pass);
    let after = look(rt, terms, house, passes, other, line.clock);
    Turn {
        line,
        before,
        answer,
        after,
    }
}

/// Takes these turns, and tells the first that went otherwise than it should.
fn first_other<D: Disk, T: Wait>(
    rt: &T,
    alloc: Global,
    terms: &Terms,
    house: &House<D>,
    passes: &mut Vec<HousePass<D>>,
    turns: &[Turn],
) -> Option<Turn>
    requires { IsReady terms.now house.now passes.old.items }
    ensures { IsReady terms.now house.now passes.new.items }
{
    let mut other = None;
    for turn in turns {
        let found = take_turn(rt, alloc, terms, house, passes, turn.line);
        if other.is_none() && found != *turn {
            other = Some(found);
        }
    }
    other
}

/// Takes these turns, and closes the house.
fn take_turns<D: Disk, T: Wait>(
    rt: &T,
    alloc: Global,
    terms: &Terms,
    house: House<D>,
    mut passes: Vec<HousePass<D>>,
    turns: &[Turn],
) -> (Option<Turn>, Vec<ClockBook<D>>)
    requires { IsReady terms.now house passes.items }
{
    let other = first_other(rt, alloc, terms, &house, &mut passes, turns);
    (other, house.close(passes))
}

/// Opens a house of two passes over these disks, one for each clock, takes these turns, and closes it.
fn run_turns<T: Wait>(
    rt: &T,
    alloc: Global,
    auction: &Auction,
    disks: Vec<ListDisk>,
    turns: &[Turn],
) -> Option<(Option<Turn>, Vec<ClockBook<ListDisk>>)> {
    if disks.len() != auction.terms.bidders as usize + 1 {
        return None;
    }
    match House::open(alloc, auction, disks, 2) {
        Err(
            NotOpen {
                disks: _disks,
                clock: _clock,
                fault: _fault,
            },
        ) => None,
        Ok((house, passes)) => Some(take_turns(rt, alloc, &auction.terms, house, passes, turns)),
    }
}

fn standing(round: u32, phase: Phase, price: u32) -> Seen {
    Seen {
        round,
        phase,
        price: Some(price),
    }
}

fn running(round: u32, price: u32) -> Seen {
    standing(round, Phase::Running, price)
}

fn ended(round: u32, price: u32) -> Seen {
    standing(round, Phase::Ended, price)
}

fn went(line: Line, before: Seen, answer: Offered, after: Seen) -> Turn {
    Turn {
        line,
        before: Some(before),
        answer: Some(answer),
        after: Some(after),
    }
}

/// How a book ends: what is shown of it, how many entries its history has, and how many bytes its journal.
#[derive(Clone, Copy, Debug, PartialEq, Eq)]
struct Ending {
    seen: Seen,
    entries: u64,
    bytes: usize,
}

fn ends_with(seen: Seen, entries: u64, bytes: usize) -> Ending {
    Ending {
        seen,
        entries,
        bytes,
    }
}

fn ending_of(book: ClockBook<ListDisk>) -> Ending {
    let seen = seen_of(&book.look());
    let entries = book.length();
    let (_clock, disk) = book.into_parts();
    Ending {
        seen,
        entries,
        bytes: disk.bytes().len(),
    }
}

/// How these books end, in their order.
fn endings_of(alloc: Global, books: Vec<ClockBook<ListDisk>>) -> Option<Vec<Ending>> {
    let mut ends = Vec::new(alloc);
    for book in books {
        if ends.push(ending_of(book)).is_err() {
            return None;
        }
    }
    Some(ends)
}

/// Whether the books end so.
fn end_so(alloc: Global, books: Vec<ClockBook<ListDisk>>, wanted: &[Ending]) -> bool {
    match endings_of(alloc, books) {
        None => false,
        Some(ends) => ends.as_slice() == wanted,
    }
}

/// Takes these turns in an auction over empty disks. It tells the first that went otherwise, and whether the books end as wanted.
fn outcome_in<T: Wait>(
    rt: &T,
    alloc: Global,
    auction: &Auction,
    failing: Option<u64>,
    turns: &[Turn],
    wanted: &[Ending],
) -> Option<(Option<Turn>, bool)> {
    let disks = empty_disks(alloc, auction.terms.bidders as usize + 1, failing)?;
    match run_turns(rt, alloc, auction, disks, turns) {
        None => None,
        Some((other, books)) => Some((other, end_so(alloc, books, wanted))),
    }
}

/// The same in the auction of this text.
fn outcome<T: Wait>(
    rt: &T,
    alloc: Global,
    text: &str,
    failing: Option<u64>,
    turns: &[Turn],
    wanted: &[Ending],
) -> Option<(Option<Turn>, bool)> {
    match auction(alloc, text) {
        None => None,
        Some(auction) => outcome_in(rt, alloc, &auction, failing, turns, wanted),
    }
}

/// A turn at which a report is refused, and all stays as it is shown.
fn refused(line: Line, seen: Seen, judgement: Judgement) -> Turn {
    went(line, seen, Offered::Refused(judgement), seen)
}

/// The turns of two passes, one after the other.
fn turns_in_turn() -> [Turn; 10] {
    let opened = running(1, 0);
    [
        went(report(0, 0, 1, 1, 2), opened, Offered::Taken, opened),
        went(report(1, 0, 1, 1, 2), opened, Offered::Again, opened),
        refused(report(1, 0, 1, 1, 1), opened, Judgement::Conflict(1)),
        went(report(1, 0, 2, 1, 2), opened, Offered::Taken, running(2, 1)),
        refused(report(1, 2, 2, 1, 2), opened, Judgement::NotMember),
        went(report(1, 2, 1, 1, 2), opened, Offered::Taken, ended(1, 0)),
        went(
            report(1, 0, 1, 2, 1),
            running(2, 1),
            Offered::Taken,
            running(2, 1),
        ),
        went(
            report(0, 0, 2, 2, 1),
            running(2, 1),
            Offered::Taken,
            ended(2, 1),
        ),
        refused(report(1, 0, 1, 3, 1), ended(2, 1), Judgement::Over(2)),
        refused(report(0, 1, 2, 2, 2), opened, Judgement::Early(1)),
    ]
}

#[test]
fn each_pass_is_shown_what_the_other_offered(rt: HostRuntime) -> Result<(), Fail> {
    let wanted = [
        ends_with(ended(2, 1), 4, 102),
        ends_with(running(1, 0), 0, 42),
        ends_with(ended(1, 0), 1, 57),
    ];
    let found = outcome(&rt, rt.alloc(), FILE, None, &turns_in_turn(), &wanted);
    equal(found, Some((None, true)))?;
    Ok(())
}

/// The number, from 0, of the last call of a disk in the opening of an empty file.
const OPENING: u64 = 10;

/// How many calls an append makes.
const APPEND: u64 = 4;

/// The first report in doubt, one to another clock, and then the same and the other's report by the other pass.
fn same_again(answer: Offered) -> [Turn; 5] {
    let opened = running(1, 0);
    [
        went(report(0, 0, 1, 1, 2), opened, Offered::DiskFault, opened),
        went(report(1, 2, 1, 1, 2), opened, Offered::Taken, ended(1, 0)),
        went(report(1, 0, 1, 1, 2), opened, answer, opened),
        went(report(0, 0, 1, 1, 2), opened, Offered::Again, opened),
        went(report(1, 0, 2, 1, 2), opened, Offered::Taken, running(2, 1)),
    ]
}

/// The first report in doubt, and then the other's report by the other pass, which ends the round where the first was counted.
fn other_first(counted: Seen) -> [Turn; 5] {
    let opened = running(1, 0);
    [
        went(report(0, 0, 1, 1, 2), opened, Offered::DiskFault, opened),
        went(report(1, 2, 1, 1, 2), opened, Offered::Taken, ended(1, 0)),
        went(report(1, 0, 2, 1, 2), opened, Offered::Taken, counted),
        went(report(1, 0, 2, 1, 2), counted, Offered::Again, counted),
        went(report(0, 0, 2, 1, 2), counted, Offered::Again, counted),
    ]
}

/// Whether these turns go as they should where this call on the disk of clock 0 fails, and its book ends so, and the others as ever.
fn goes<T: Wait>(rt: &T, alloc: Global, failing: u64, turns: &[Turn], end: Ending) -> bool {
    let wanted = [
        end,
        ends_with(running(1, 0), 0, 42),
        ends_with(ended(1, 0), 1, 57),
    ];
    outcome(rt, alloc, FILE, Some(failing), turns, &wanted) == Some((None, true))
}

#[test]
fn a_report_in_doubt_is_counted_once(rt: HostRuntime) {
    let first_write = OPENING + 1;
    let last_sync = OPENING + APPEND;
    // With the mark of the fault.
    let both = ends_with(running(2, 1), 3, 72);
    let one = ends_with(running(1, 0), 2, 57);
    let cases = [
        (first_write, same_again(Offered::Taken), both),
        (last_sync, same_again(Offered::Again), both),
        (first_write, other_first(running(1, 0)), one),
        (last_sync, other_first(running(2, 1)), both),
    ];
    for (failing, turns, end) in cases {
        assert!(rt;
            goes(&rt, rt.alloc(), failing, &turns, end),
            "call {failing} {end:?}"
        );
    }
}

/// A report of one unit in round 1 to this clock, which no other follows.
fn first_at(clock: u8, bidder: u8) -> Turn {
    let opened = running(1, 0);
    went(
        report(1, clock, bidder, 1, 1),
        opened,
        Offered::Taken,
        opened,
    )
}

/// One such report to each of thirteen clocks.
fn one_to_each() -> [Turn; 13] {
    [
        first_at(0, 1),
        first_at(1, 2),
        first_at(2, 1),
        first_at(3, 1),
        first_at(4, 1),
        first_at(5, 1),
        first_at(6, 1),
        first_at(7, 1),
        first_at(8, 1),
        first_at(9, 1),
        first_at(10, 1),
        first_at(11, 1),
        first_at(12, 1),
    ]
}

#[test]
fn each_of_thirteen_clocks_is_looked_at(rt: HostRuntime) -> Result<(), Fail> {
    let wanted = [ends_with(running(1, 0), 1, 57); 13];
    let found = outcome(&rt, rt.alloc(), TWELVE, None, &one_to_each(), &wanted);
    equal(found, Some((None, true)))?;
    Ok(())
}
