//! Books over disks of which chosen calls fail.
ghost use Rattle.std.specs.Prelude.{◌≡◌, IfSome};
ghost use Rattle.lot_base.specs.Demands.{IsDemand};

use clock::{Judgement, Offered};
use clock_book::{ClockBook, OpenFault, Unopened};
use demand_set::Demand;
use expected_values::{equal, equal_in};
use house_io::{Disk, Fill, ListDisk};
use lot_base::{Goods, Prices, Terms};
use report_journal::{Hint, LONGEST_HINT};
use std::alloc::Global;
use std::test::Fail;

/// The digest of the auction.
const DIGEST: [u8; 32] = [7; 32];

/// The byte of an open gate. With any other a gate is closed.
const OPEN: u8 = 0xa5;

/// The number, from 0, of the last call of a disk in the opening of an empty file.
const OPENING: u64 = 10;

/// How many calls an append makes.
const APPEND: u64 = 4;

/// Two units of one good among two bidders.
fn plain_terms() -> Option<Terms> {
    match Goods::new(&[2]) {
        Ok(goods) => Terms::new(goods, 2, 10).ok(),
        Err(_) => None,
    }
}

/// The same, up to a price of 1,000.
fn long_terms() -> Option<Terms> {
    match Goods::new(&[2]) {
        Ok(goods) => Terms::new(goods, 2, 1_000).ok(),
        Err(_) => None,
    }
}

/// Those of which a clock has the most reports, and room for the most quantities.
fn greatest_terms() -> Option<Terms> {
    match Goods::new(&[2, 2, 2, 2, 2, 2]) {
        Ok(goods) => Terms::new(goods, 12, 10_000).ok(),
        Err(_) => None,
    }
}

/// The same as the first, from a price of 3 on.
fn priced_terms() -> Option<Terms> {
    let goods = Goods::new(&[2]).ok()?;
    let opening = Prices::read(&[3])?;
    if opening.count() != goods.count() {
        return None;
    }
    Terms::with_opening(goods, 2, 10, opening).ok()
}

/// The calls of a disk that fail: so many from the one with this number on.
#[derive(Clone, Copy)]
struct Failing {
    /// Counted from 0.
    first: u64,
    /// No call fails where it is 0.
    count: u64,
}

/// No call fails.
const NEVER: Failing = Failing { first: 1, count: 0 };

/// The call with this number fails alone.
fn once(first: u64) -> Failing {
    Failing { first, count: 1 }
}

/// The calls from this one on fail, as many as these tests make.
fn from_on(first: u64) -> Failing {
    Failing { first, count: 40 }
}

/// The numbers of the calls that fail.
fn numbers_of(alloc: Global, failing: Failing) -> Option<Vec<u64>> {
    let mut numbers = Vec::new(alloc);
    for more in 0..failing.count {
        numbers.push(failing.first.saturating_add(more)).ok()?;
    }
    Some(numbers)
}

fn bytes_of(alloc: Global, file: &[u8]) -> Option<Vec<u8>> {
    file.to_vec(alloc).ok()
}

fn disk_of(alloc: Global, bytes: Vec<u8>, numbers: Vec<u64>) -> Option<ListDisk> {
    ListDisk::new(alloc, bytes, 10_000, numbers).ok()
}

/// A disk with a file, of which some calls fail.
fn disk_with(alloc: Global, file: &[u8], failing: Failing) -> Option<ListDisk> {
    let bytes = bytes_of(alloc, file)?;
    let numbers = numbers_of(alloc, failing)?;
    disk_of(alloc, bytes, numbers)
}

/// The demand of so many units of the one good.
fn demand_of(alloc: Global, goods: &Goods, units: u16) -> Option<Demand>
    ensures { IfSome result (λ d. IsDemand goods.now d) }
{
    match Demand::read_quantities(alloc, goods, 1, &[units]) {
        Ok(demand) => Some(demand),
        Err(_) => None,
    }
}

/// A report of some units of the one good.
#[derive(Clone, Copy)]
struct Line {
    /// Its number, from 1.
    bidder: u8,
    /// From 1.
    round: u32,
    /// How many are demanded: the demand has this one bundle.
    units: u16,
}

fn report(bidder: u8, round: u32, units: u16) -> Line {
    Line {
        bidder,
        round,
        units,
    }
}

/// Offers the report of a demand to a book.
fn offer_to(
    alloc: Global,
    book: &mut ClockBook<ListDisk>,
    bidder: u8,
    round: u32,
    demand: Demand,
) -> Offered
    requires { IsDemand book.old.origin.terms.goods demand }
    ensures { book.new.origin ≡ book.old.origin }
{
    let _kept = book.clock();
    book.offer(alloc, bidder, round, demand)
}

/// A hint at this payload.
#[derive(Drop)]
struct Says<'a> {
    payload: &'a [u8],
}

impl<'a> Hint for Says<'a> {
    ghost says = { λ hint next. Unit {0} };

    fn next(&self, into: &mut [u8; LONGEST_HINT]) -> usize {
        let length = self.payload.len();
        if length > LONGEST_HINT {
            return 0;
        }
        into[..length].copy_from_slice(self.payload);
        length
    }
}

/// Offers the report of a demand to a book, with a hint at this payload.
fn offer_hinted_to(
    alloc: Global,
    book: &mut ClockBook<ListDisk>,
    line: Line,
    demand: Demand,
    next: &[u8],
) -> Offered
    requires { IsDemand book.old.origin.terms.goods demand }
    ensures { book.new.origin ≡ book.old.origin }
{
    let _kept = book.clock();
    book.offer_hinted(
        alloc,
        line.bidder,
        line.round,
        demand,
        &Says { payload: next },
    )
}

/// A book of clock 0 beside its terms.
#[derive(Drop)]
struct Stand {
    /// For the demands that are offered.
    alloc: Global,
    /// Those that the book was opened with.
    terms: Terms,
    /// Of clock 0, over a disk of which chosen calls fail.
    book: ClockBook<ListDisk>,
    ghost same: { book.origin.terms ≡ terms },
}

impl Stand {
    /// A book on a disk.
    fn open(alloc: Global, disk: ListDisk, terms: Terms) -> Option<Stand> {
        match ClockBook::open(alloc, disk, &terms, 0, &DIGEST) {
            Ok(book) => Some(Stand { alloc, terms, book }),
            Err(_) => None,
        }
    }

    /// What is answered to the offer of a report. There is no answer where there is no memory for its demand.
    fn offer(&mut self, line: Line) -> Option<Offered> {
        match demand_of(self.alloc, &self.terms.goods, line.units) {
            None => None,
            Some(demand) => Some(offer_to(
                self.alloc,
                &mut self.book,
                line.bidder,
                line.round,
                demand,
            )),
        }
    }

    /// The same with a hint at the payload of the report that comes next.
    fn offer_hinted(&mut self, line: Line, next: &[u8]) -> Option<Offered> {
        match demand_of(self.alloc, &self.terms.goods, line.units) {
            None => None,
            Some(demand) => Some(offer_hinted_to(self.alloc, &mut self.book, line, demand, next)),
        }
    }

    fn round(&self) -> u32 {
        self.book.look().round
    }

    fn entries(&self) -> u64 {
        self.book.length()
    }

    fn is_pending(&self) -> bool {
        self.book.is_pending()
    }

    fn into_disk(self) -> ListDisk {
        let Stand {
            alloc: _,
            terms: _,
            book,
        } = self;
        book.into_parts().1
    }
}

/// A book on a file, of whose disk some calls fail.
fn stand_with(alloc: Global, terms: Option<Terms>, file: &[u8], failing: Failing) -> Option<Stand> {
    let terms = terms?;
    let disk = disk_with(alloc, file, failing)?;
    Stand::open(alloc, disk, terms)
}

/// What is asked of a book, and what it answers.
#[derive(Clone, Copy)]
enum Step {
    /// The report of this bidder in this round, of so many units, is answered so.
    Offers(u8, u32, u16, Offered),
    /// Whether a report is pending.
    Pends(bool),
    /// How many entries there are.
    Counts(u64),
    /// The round of the clock.
    Stands(u32),
}

/// Whether a step goes as it says.
fn goes(stand: &mut Stand, step: Step) -> bool {
    match step {
        Step::Offers(bidder, round, units, answer) => {
            stand.offer(report(bidder, round, units)) == Some(answer)
        }
        Step::Pends(pending) => stand.is_pending() == pending,
        Step::Counts(entries) => stand.entries() == entries,
        Step::Stands(round) => stand.round() == round,
    }
}

/// The number, from 1, of the first step that goes otherwise.
fn first_other(stand: &mut Stand, steps: &[Step]) -> Option<u32> {
    let mut number: u32 = 0;
    for step in steps {
        number = number.saturating_add(1);
        if !goes(stand, *step) {
            return Some(number);
        }
    }
    None
}

/// The same for a book that may not have been opened, which gives 0, and the file after these steps.
fn first_other_and_file(
    alloc: Global,
    stand: Option<Stand>,
    steps: &[Step],
) -> (Option<u32>, Option<Vec<u8>>) {
    match stand {
        None => (Some(0), None),
        Some(mut stand) => {
            let other = first_other(&mut stand, steps);
            (other, file_of(alloc, &stand.into_disk()))
        }
    }
}

fn file_of(alloc: Global, disk: &ListDisk) -> Option<Vec<u8>> {
    bytes_of(alloc, disk.bytes())
}

/// What goes otherwise on a new book, and on the book that is opened on its file after these steps.
fn others(
    alloc: Global,
    failing: Failing,
    steps: &[Step],
    again: &[Step],
) -> (Option<u32>, Option<u32>) {
    let stand = stand_with(alloc, plain_terms(), &[], failing);
    let (other, file) = first_other_and_file(alloc, stand, steps);
    match file {
        None => (other, Some(0)),
        Some(file) => (other, other_on(alloc, &file, again)),
    }
}

/// The number, from 1, of the first step that goes otherwise on the book that is opened on a file.
fn other_on(alloc: Global, file: &[u8], steps: &[Step]) -> Option<u32> {
    let stand = stand_with(alloc, plain_terms(), file, NEVER);
    first_other_and_file(alloc, stand, steps).0
}

const TOLD: &[Step] = &[
    Step::Offers(1, 1, 2, Offered::Taken),
    Step::Offers(1, 1, 2, Offered::Again),
    Step::Offers(1, 1, 1, Offered::Refused(Judgement::Conflict(1))),
    Step::Offers(2, 1, 2, Offered::Taken),
    Step::Offers(1, 1, 2, Offered::Again),
    Step::Offers(1, 1, 1, Offered::Refused(Judgement::Conflict(1))),
    Step::Offers(1, 3, 1, Offered::Refused(Judgement::Early(2))),
    Step::Offers(1, 0, 1, Offered::Refused(Judgement::NoRound)),
    Step::Offers(1, 2, 1, Offered::Taken),
    Step::Offers(2, 2, 1, Offered::Taken),
    Step::Offers(1, 3, 1, Offered::Refused(Judgement::Over(2))),
    Step::Offers(1, 2, 0, Offered::Refused(Judgement::Conflict(2))),
    Step::Offers(1, 1, 2, Offered::Again),
    Step::Offers(2, 2, 1, Offered::Again),
    Step::Counts(4),
];

#[test]
fn repeats_conflicts_and_late_reports_are_told(rt: HostRuntime) -> Result<(), Fail> {
    let again = [Step::Counts(4), Step::Stands(2)];
    let found = others(rt.alloc(), NEVER, TOLD, &again);
    equal(found, (None, None))?;
    Ok(())
}

#[test]
fn a_report_in_doubt_is_counted_or_dropped(rt: HostRuntime) -> Result<(), Fail> {
    // The call that fails, the last sync or the first write of an append, and what the second offer is answered.
    for (failing, second) in [
        (OPENING + APPEND, Offered::Again),
        (OPENING + 1, Offered::Taken),
    ] {
        let steps = [
            Step::Offers(1, 1, 2, Offered::DiskFault),
            Step::Pends(true),
            Step::Offers(1, 1, 2, second),
            Step::Counts(2),
        ];
        let found = others(rt.alloc(), once(failing), &steps, &[Step::Counts(1)]);
        equal_in(failing, found, (None, None))?;
    }
    Ok(())
}

/// The file of a journal of version 1 of clock 0 with one report.
const ONE_REPORT: [u8; 57] = [
    OPEN, 0x41, 0x48, 0x4a, 0x31, 0, 0, 0, 0, 7, 7, 7, 7, 7, 7, 7, 7, 7, 7, 7, 7, 7, 7, 7, 7, 7, 7,
    7, 7, 7, 7, 7, 7, 7, 7, 7, 7, 7, 7, 7, 7, OPEN, 0, 0, 0, 10, 1, 0, 0, 0, 1, 1, 0, 1, 0, 2, 0,
];

const NO_STEPS: &[Step] = &[];

const ONE_STEP: &[Step] = &[Step::Offers(1, 1, 2, Offered::Taken)];

/// The file of a new book after these steps.
fn file_behind(alloc: Global, terms: Option<Terms>, steps: &[Step]) -> Option<Vec<u8>> {
    let stand = stand_with(alloc, terms, &[], NEVER);
    first_other_and_file(alloc, stand, steps).1
}

/// Whether a file has just these bytes.
fn has_bytes(file: Option<Vec<u8>>, wanted: &[u8]) -> bool {
    match file {
        None => false,
        Some(bytes) => bytes.as_slice() == wanted,
    }
}

/// How many bytes a file has, and its byte at a place.
fn length_and_byte(file: Option<Vec<u8>>, place: usize) -> (usize, Option<u8>) {
    match file {
        None => (0, None),
        Some(bytes) => (bytes.len(), bytes.get(place).copied()),
    }
}

#[test]
fn an_unformed_file_is_formed_in_the_version_of_the_terms(rt: HostRuntime) -> Result<(), Fail> {
    let alloc = rt.alloc();
    let empty = file_behind(alloc, plain_terms(), NO_STEPS);
    equal(length_and_byte(empty, 0).0, 42)?;
    let one = file_behind(alloc, plain_terms(), ONE_STEP);
    assert!(rt; has_bytes(one, &ONE_REPORT));
    let priced = file_behind(alloc, priced_terms(), NO_STEPS);
    equal(length_and_byte(priced, 0).0, 48)?;
    let one = file_behind(alloc, priced_terms(), ONE_STEP);
    equal(length_and_byte(one, 47), (63, Some(OPEN)))?;
    Ok(())
}

/// Why no book is opened on a file of whose disk the claim fails, and whether that disk is not claimed then and has the file.
fn unclaimed(alloc: Global, file: &[u8]) -> Option<(OpenFault, bool, bool)> {
    let terms = plain_terms()?;
    let failing = Failing { first: 0, count: 2 };
    let disk = disk_with(alloc, file, failing)?;
    match ClockBook::open(alloc, disk, &terms, 0, &DIGEST) {
        Ok(_) => None,
        Err(Unopened { mut disk, fault }) => {
            // Of a disk that is claimed a claim is no call, and cannot fail.
            let is_unclaimed = disk.claim().is_err();
            Some((fault, is_unclaimed, disk.bytes() == file))
        }
    }
}

#[test]
fn no_book_is_opened_on_a_disk_whose_claim_fails(rt: HostRuntime) -> Result<(), Fail> {
    equal(
        unclaimed(rt.alloc(), &ONE_REPORT),
        Some((OpenFault::DiskFault, true, true)),
    )?;
    Ok(())
}

/// The four reports that are to be taken.
fn four() -> [Line; 4] {
    [
        report(1, 1, 2),
        report(2, 1, 2),
        report(1, 2, 1),
        report(2, 2, 1),
    ]
}

/// How many of the four reports are answered `Taken`, in their order.
fn taken_of(stand: &mut Stand) -> u64 {
    let mut taken = 0u64;
    for line in four() {
        if stand.offer(line) == Some(Offered::Taken) {
            taken = taken.saturating_add(1);
        }
    }
    taken
}

/// Whether the four reports are answered `Again`, as many as these, and `Taken` from then on.
fn goes_on_after(stand: &mut Stand, found: u64) -> bool {
    let mut left = found;
    let mut as_wanted = true;
    for line in four() {
        let wanted = wanted_with(left);
        left = left.saturating_sub(1);
        as_wanted = stand.offer(line) == Some(wanted) && as_wanted;
    }
    as_wanted
}

/// The answer to a report where so many are left that were found.
fn wanted_with(left: u64) -> Offered {
    if left > 0 {
        Offered::Again
    } else {
        Offered::Taken
    }
}

/// What a crash may leave in the ranges that were written since the last good sync.
const FILLS: [Fill; 4] = [Fill::Old, Fill::New, Fill::Byte(0), Fill::Byte(OPEN)];

/// How many of the four reports are answered `Taken` by a book of whose disk the calls fail from this one on, and the disk then.
fn stopped_at(alloc: Global, first: u64) -> Option<(u64, ListDisk)> {
    match stand_with(alloc, plain_terms(), &[], from_on(first)) {
        None => None,
        Some(mut stand) => {
            let taken = taken_of(&mut stand);
            Some((taken, stand.into_disk()))
        }
    }
}

/// How many of the four reports are answered `Taken` where the calls fail from this one on, and what a crash may leave then.
fn crashed_at(alloc: Global, first: u64, fill: Fill) -> Option<(u64, Vec<u8>)> {
    match stopped_at(alloc, first) {
        None => None,
        Some((taken, disk)) => match image_of(alloc, &disk, fill) {
            None => None,
            Some(image) => Some((taken, image)),
        },
    }
}

fn image_of(alloc: Global, disk: &ListDisk, fill: Fill) -> Option<Vec<u8>> {
    disk.image(alloc, fill).ok()
}

/// How many entries a book has that is opened on a file, whether it takes the four reports after those, and how many it has then.
fn found_on(alloc: Global, file: &[u8]) -> Option<(u64, bool, u64)> {
    match stand_with(alloc, plain_terms(), file, NEVER) {
        None => None,
        Some(mut stand) => {
            let found = stand.entries();
            let goes_on = goes_on_after(&mut stand, found);
            Some((found, goes_on, stand.entries()))
        }
    }
}

/// Whether what a crash may leave, opened anew, has every report that was taken and at most the one in hand, and takes the others.
fn keeps_what_was_taken(alloc: Global, first: u64, fill: Fill) -> bool {
    let Some((taken, image)) = crashed_at(alloc, first, fill) else {
        return false;
    };
    match found_on(alloc, &image) {
        None => false,
        Some((found, goes_on, entries)) => {
            goes_on && entries == 4 && taken <= found && found <= taken.saturating_add(1)
        }
    }
}

/// How many reports are answered `Taken` where the calls fail from this one on.
fn taken_until(alloc: Global, first: u64) -> Option<u64> {
    match stopped_at(alloc, first) {
        None => None,
        Some((taken, _)) => Some(taken),
    }
}

#[test]
fn each_crash_after_a_stop_leaves_what_was_taken(rt: HostRuntime) -> Result<(), Fail> {
    // The first call that no run makes.
    let end = OPENING + 4 * APPEND + 1;
    for first in OPENING + 1..=end {
        for fill in FILLS {
            let kept = keeps_what_was_taken(rt.alloc(), first, fill);
            assert!(rt; kept, "call {first} {fill:?}");
        }
    }
    equal(taken_until(rt.alloc(), end - 1), Some(3))?;
    equal(taken_until(rt.alloc(), end), Some(4))?;
    Ok(())
}

/// Whether both bidders' reports of so many rounds are taken, each of both units, so that the price rises.
fn takes_rounds(stand: &mut Stand, rounds: u32) -> bool {
    for before in 0..rounds {
        for bidder in [1, 2] {
            if stand.offer(report(bidder, before + 1, 2)) != Some(Offered::Taken) {
                return false;
            }
        }
    }
    true
}

/// The file of a book that has grown, after one report more, with a hint at this payload, or without one.
fn file_after_a_hint(alloc: Global, next: Option<&[u8]>) -> Option<Vec<u8>> {
    let mut stand = stand_with(alloc, long_terms(), &[], NEVER)?;
    if !takes_rounds(&mut stand, 140) {
        return None;
    }
    let answer = match next {
        None => stand.offer(report(1, 141, 2)),
        Some(next) => stand.offer_hinted(report(1, 141, 2), next),
    };
    if answer != Some(Offered::Taken) {
        return None;
    }
    file_of(alloc, &stand.into_disk())
}

/// Whether these bytes stand there after the 281 records of 15 bytes.
fn stand_after(alloc: Global, next: Option<&[u8]>, bytes: &[u8]) -> Option<bool> {
    let file = file_after_a_hint(alloc, next)?;
    Some(file.get(4_256..)?.starts_with(bytes))
}

/// The payload of the other bidder's report in round 141, and how it is laid after a closed gate.
const NEXT: [u8; 10] = [2, 0, 0, 0, 141, 1, 0, 1, 0, 2];

const LAID: [u8; 16] = [0, 0, 0, 0, 10, 2, 0, 0, 0, 141, 1, 0, 1, 0, 2, 0];

#[test]
fn a_hint_is_handed_on_to_the_journal(rt: HostRuntime) -> Result<(), Fail> {
    let alloc = rt.alloc();
    equal(stand_after(alloc, Some(&NEXT), &LAID), Some(true))?;
    equal(stand_after(alloc, None, &[0; 16]), Some(true))?;
    Ok(())
}

#[test]
fn a_book_is_opened_with_the_greatest_room(rt: HostRuntime) {
    let stand = stand_with(rt.alloc(), greatest_terms(), &[], NEVER);
    assert!(rt; stand.is_some());
}
