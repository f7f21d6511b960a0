//! Two clocks' reports, moved over disks in memory.
ghost use Rattle.std.specs.Prelude.{◌≡◌, ◌+◌, ◌≤◌, IfOk};
ghost use Rattle.clock.specs.Reports.{histories};
ghost use Rattle.migration.specs.Moving.{AreAlike, AreClocksAs};
ghost use Rattle.migration_tests.specs.Sellers.{AreClocksOf};

use clock::Clock;
use clock_book::{OpenFault, read_clock};
use expected_values::equal;
use house_io::ListDisk;
use lot_base::{Goods, Terms};
use migration::{MoveFault, move_journals};
use std::alloc::Global;
use std::test::Fail;

/// The digests of the two files.
const OLD: [u8; 32] = [7; 32];

const NEW: [u8; 32] = [9; 32];

/// The number, from 0, of the last call of a disk in the opening of an empty file.
const OPENING: u64 = 10;

/// How many calls an append makes.
const APPEND: u64 = 4;

/// A report of some units of the one good.
#[derive(Clone, Copy, Debug)]
struct Line {
    bidder: u8,
    round: u8,
    units: u8,
}

fn report(bidder: u8, round: u8, units: u8) -> Line {
    Line {
        bidder,
        round,
        units,
    }
}

/// Two units of one good among two bidders, in the first version.
fn old_terms() -> Result<Terms, Fail> {
    Ok(Terms::new(Goods::new(&[2])?, 2, 10)?)
}

/// The same in the second version.
fn new_terms(old: &Terms) -> Result<Terms, Fail>
    ensures { IfOk result (λ t. AreAlike old.now t) }
{
    let terms = Terms::with_opening(old.goods, old.bidders, old.ceiling, old.opening)?;
    Ok(terms)
}

/// The journal of version 1 of a clock with these reports.
fn journal_of(alloc: Global, clock: u8, lines: &[Line]) -> Result<Vec<u8>, Fail> {
    let mut file = Vec::new(alloc);
    file.extend_from_slice(&[0xa5, 0x41, 0x48, 0x4a, 0x31, 0, 0, 0, clock])?;
    file.extend_from_slice(&OLD)?;
    for line in lines {
        file.extend_from_slice(&[0xa5, 0, 0, 0, 10])?;
        file.extend_from_slice(&[line.bidder, 0, 0, 0, line.round, 1, 0, 1, 0, line.units])?;
    }
    file.push(0)?;
    Ok(file)
}

/// A disk with a file, of which one call fails.
fn disk_with(alloc: Global, file: &[u8], failing: u64) -> Result<ListDisk, Fail> {
    let mut calls = Vec::new(alloc);
    calls.push(failing)?;
    Ok(ListDisk::new(alloc, file.to_vec(alloc)?, 2_000, calls)?)
}

/// The clock of a journal with these reports.
fn clock_of(alloc: Global, terms: &Terms, number: u8, lines: &[Line]) -> Result<Clock, Fail>
    requires { number ≤ terms.now.bidders }
    ensures { IfOk result (λ c. (c.history.terms ≡ terms.now) × (c.history.number ≡ number)) }
{
    let file = journal_of(alloc, number, lines)?;
    let mut disk = disk_with(alloc, &file, 1_000)?;
    match read_clock(alloc, &mut disk, terms, number, &OLD) {
        Ok(clock) => Ok(clock),
        Err(_) => Err("no clock".into()),
    }
}

/// The clocks of an auction: clock 0 with the first reports, clock 1 with the second, and the others with none.
fn clocks_of(
    alloc: Global,
    terms: &Terms,
    first: &[Line],
    second: &[Line],
) -> Result<Vec<Clock>, Fail>
    ensures { IfOk result (λ clocks. AreClocksOf terms.now (terms.now.bidders + 1) (histories clocks.items)) }
{
    let mut clocks = Vec::new(alloc);
    for number in 0..terms.bidders + 1 {
        let lines = lines_for(number, first, second);
        let clock = clock_of(alloc, terms, number, lines)?;
        clocks.push(clock)?;
    }
    Ok(clocks)
}

fn lines_for<'a>(number: u8, first: &'a [Line], second: &'a [Line]) -> &'a [Line] {
    match number {
        0 => first,
        1 => second,
        _ => &[],
    }
}

/// The clocks of the old journals, and the terms of the new ones.
#[derive(Drop)]
struct Seller {
    terms: Terms,
    clocks: Vec<Clock>,
    ghost are: { AreClocksAs terms (histories clocks.items) },
}

fn seller_of(alloc: Global, first: &[Line], second: &[Line]) -> Result<Seller, Fail> {
    let old = old_terms()?;
    let terms = new_terms(&old)?;
    let clocks = clocks_of(alloc, &old, first, second)?;
    Ok(Seller { terms, clocks })
}

impl Seller {
    fn move_to(&self, alloc: Global, disks: Vec<ListDisk>) -> Result<Moved, Fail> {
        if disks.len() != self.clocks.len() {
            return Err("a disk is wanting".into());
        }
        let (answer, disks) = move_journals(alloc, &self.clocks, &self.terms, &NEW, disks);
        Ok(Moved { answer, disks })
    }
}

/// What a move answered, and the targets after it.
#[derive(Drop)]
struct Moved {
    answer: Result<(), MoveFault>,
    disks: Vec<ListDisk>,
}

impl Moved {
    fn file(&self, clock: usize) -> Result<&[u8], Fail> {
        match self.disks.get(clock) {
            Some(disk) => Ok(disk.bytes()),
            None => Err("no such disk".into()),
        }
    }

    fn is_done(&self) -> bool {
        self.answer.is_ok()
    }
}

/// Disks with the files of three targets; one call of clock 1's fails.
fn targets(alloc: Global, files: [&[u8]; 3], failing: u64) -> Result<Vec<ListDisk>, Fail> {
    let [first, second, third] = files;
    let mut disks = Vec::new(alloc);
    disks.push(disk_with(alloc, first, 1_000)?)?;
    disks.push(disk_with(alloc, second, failing)?)?;
    disks.push(disk_with(alloc, third, 1_000)?)?;
    Ok(disks)
}

/// A move to these files.
fn moved_to(
    alloc: Global,
    seller: &Seller,
    files: [&[u8]; 3],
    failing: u64,
) -> Result<Moved, Fail> {
    seller.move_to(alloc, targets(alloc, files, failing)?)
}

/// A move to empty targets, of which this call on clock 1's fails.
fn stopped_at(alloc: Global, seller: &Seller, failing: u64) -> Result<Moved, Fail> {
    moved_to(alloc, seller, [&[], &[], &[]], failing)
}

/// A move to the files that another one left.
fn moved_on(alloc: Global, seller: &Seller, before: &Moved) -> Result<Moved, Fail> {
    moved_to(
        alloc,
        seller,
        [before.file(0)?, before.file(1)?, before.file(2)?],
        1_000,
    )
}

/// Whether two moves left the same files.
fn are_alike(one: &Moved, other: &Moved) -> Result<bool, Fail> {
    Ok(
        one.file(0)? == other.file(0)?
            && one.file(1)? == other.file(1)?
            && one.file(2)? == other.file(2)?,
    )
}

/// How many reports are read from a target under the new file, and the clock's round.
fn shown(alloc: Global, seller: &Seller, moved: &Moved, clock: u8) -> Result<(u32, u32), Fail> {
    if clock > seller.terms.bidders {
        return Err("no such clock".into());
    }
    let mut disk = disk_with(alloc, moved.file(clock as usize)?, 1_000)?;
    match read_clock(alloc, &mut disk, &seller.terms, clock, &NEW) {
        Ok(clock) => Ok((clock.count(), clock.look().round)),
        Err(_) => Err("no clock".into()),
    }
}

fn first_lines() -> [Line; 3] {
    [report(1, 1, 2), report(2, 1, 2), report(1, 2, 1)]
}

#[test]
fn a_move_gives_each_target_its_reports(rt: HostRuntime) -> Result<(), Fail> {
    let alloc = rt.alloc();
    let lines = first_lines();
    let all = seller_of(alloc, &lines, &[report(2, 1, 1)])?;
    let done = stopped_at(alloc, &all, 1_000)?;
    assert!(rt; done.is_done());
    equal(shown(alloc, &all, &done, 0)?, (3, 2))?;
    equal(shown(alloc, &all, &done, 1)?, (1, 1))?;
    equal(shown(alloc, &all, &done, 2)?, (0, 1))?;
    let again = moved_on(alloc, &all, &done)?;
    assert!(rt; again.is_done() && are_alike(&done, &again)?);
    let fewer = seller_of(alloc, &lines[..2], &[])?;
    let front = stopped_at(alloc, &fewer, 1_000)?;
    let rest = moved_on(alloc, &all, &front)?;
    assert!(rt; rest.is_done() && are_alike(&done, &rest)?);
    Ok(())
}

#[test]
fn a_move_that_was_stopped_goes_on(rt: HostRuntime) -> Result<(), Fail> {
    let alloc = rt.alloc();
    let all = seller_of(alloc, &first_lines(), &[report(2, 1, 1)])?;
    let done = stopped_at(alloc, &all, 1_000)?;
    let not_opened = MoveFault::NotOpened {
        clock: 1,
        fault: OpenFault::DiskFault,
    };
    // The claim, the first sync, a write of the first record, and its last sync.
    let table = [
        (0, not_opened),
        (1, not_opened),
        (OPENING + 1, MoveFault::DiskFault(1)),
        (OPENING + APPEND, MoveFault::DiskFault(1)),
    ];
    for (failing, fault) in table {
        let stopped = stopped_at(alloc, &all, failing)?;
        equal(stopped.answer, Err(fault))?;
        let rest = moved_on(alloc, &all, &stopped)?;
        assert!(rt; rest.is_done() && are_alike(&done, &rest)?);
    }
    Ok(())
}

#[test]
fn targets_of_other_reports_are_refused(rt: HostRuntime) -> Result<(), Fail> {
    let alloc = rt.alloc();
    let all = seller_of(alloc, &first_lines(), &[report(2, 1, 1)])?;
    let other = seller_of(alloc, &[report(1, 1, 1)], &[])?;
    let before = stopped_at(alloc, &other, 1_000)?;
    let after = moved_on(alloc, &all, &before)?;
    equal(
        after.answer,
        Err(MoveFault::NotFront {
            clock: 0,
            number: 1,
        }),
    )?;
    assert!(rt; are_alike(&before, &after)?);
    Ok(())
}
