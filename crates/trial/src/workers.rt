//! The clocks and bidders of a trial, shared among workers.
ghost use Rattle.std.specs.Prelude.{◌≡◌, ◌≢◌, ◌≤◌, ◌<◌, ◌+◌, ◌*◌, length, IfOk, IfErr, IfSome, OnOk};
ghost use Rattle.std.specs.List.{AllByRecursion, AllZip};
ghost use Rattle.lot_base.specs.Economy.{AllStrongSubstitutes};
ghost use Rattle.clock.specs.Reports.{all_bidders, histories};
ghost use Rattle.exchange_check.specs.Verdicts.{IsRight};
ghost use Rattle.settlement.specs.Found.{IsFoundOf};
ghost use Rattle.trial.specs.Bidding.{bidders_of};
ghost use Rattle.trial.specs.Refusals.{IsRefusal};
ghost use Rattle.trial.specs.Rounds.{AreColumns};
ghost use Rattle.trial.specs.Trials.{IsTrial};
ghost use Rattle.trial.specs.Workers.{IsPieceOf, AreParts, AreTold, AreRight, ArePlaced, IsToldOf};

use crate::carrying::no_columns;
use crate::faults::TrialFault;
use crate::rounds::run_clock;
use clock::Clock;
use exchange_check::{Verdict, check};
use lot_base::{NoMemory, Terms};
use settlement::{ClockRow, row_of};
use std::alloc::Global;
use std::sync::atomic::AtomicU32;
use std::sync::atomic::Ordering::SeqCst;
use std::thread;
use std::thread::Threads;
use valuation::{Column, Valuation};

/// A clock that was run to its end, and its row.
#[derive(Drop)]
struct Told {
    /// It has ended, or was halted at the ceiling.
    clock: Clock,
    /// None where no choice clears. Of a clock that was halted it says nothing.
    row: Option<ClockRow>,
}

/// A piece of the work.
#[derive(Drop)]
enum Piece {
    /// The clock of this number.
    Clock(u8, Told),
    /// Whether the goods are strong substitutes for the bidder of this number.
    Bidder(u8, Verdict),
}

/// The pieces of all workers, each at its place.
#[derive(Drop)]
struct Placed {
    /// The clocks, clock 0 first. None where no worker ran it.
    told: Vec<Option<Told>>,
    /// The verdicts on the bidders, bidder 1 first. None where no worker checked it.
    verdicts: Vec<Option<Verdict>>,
}

/// The clocks of a trial, and the row of each.
#[derive(Drop)]
pub(crate) struct Run {
    /// Clock 0 first.
    pub clocks: Vec<Clock>,
    /// The row of each clock, in the same order.
    pub rows: Vec<Option<ClockRow>>,
}

/// All clocks of a trial, in the order of their numbers, with the rows of each, or the first bidder for whom the goods are no strong
/// substitutes. So many workers run the clocks and check the bidders, but no more than there are clocks: each takes the next piece that
/// no worker has taken. Where no thread can be made they work one after another.
///
/// More than one worker have a thread each, and the calling one has the call after them, which does nothing: on a thread that went on
/// working, the first thread that it made would wait for its processor, for some milliseconds on Linux, until another takes it over.
pub(crate) fn run_workers<T: Threads + Sync>(
    rt: &T,
    alloc: Global,
    terms: &Terms,
    valuations: &[Valuation],
    workers: u32,
) -> Result<Run, TrialFault>
    requires count { length valuations.now ≡ terms.now.bidders }
    ensures substitutes { IfOk result (λ _. AllStrongSubstitutes terms.now.goods (bidders_of terms.now.goods valuations.now)
        (all_bidders terms.now.bidders)) }
    ensures trial { IfOk result (λ run. IsTrial terms.now (bidders_of terms.now.goods valuations.now) (histories run.clocks.items)) }
    ensures rows { IfOk result (λ run. AllZip IsFoundOf (histories run.clocks.items) run.rows.items) }
    ensures refused { IfErr result (IsRefusal terms.now (bidders_of terms.now.goods valuations.now)) }
{
    let workers = (workers as usize).min(terms.bidders as usize + 1);
    let calls = match workers {
        1 => 1,
        many => many + 1,
    };
    let next = AtomicU32::new(0);
    match thread::map_indices(
        rt,
        alloc,
        calls,
        &|call| { part_of(alloc, terms, valuations, &next, call < workers) },
    ) {
        Ok(parts) => conclude(alloc, terms, valuations, parts),
        Err(_) => Err(TrialFault::NoMemory),
    }
}

/// What a call does: that of a worker its pieces, and the one after them nothing.
fn part_of(
    alloc: Global,
    terms: &Terms,
    valuations: &[Valuation],
    next: &AtomicU32,
    works: bool,
) -> Vec<Piece>
    requires count { length valuations.now ≡ terms.now.bidders }
    ensures { AllByRecursion (IsPieceOf terms.now (bidders_of terms.now.goods valuations.now)) result.items }
{
    match works {
        true => work(alloc, terms, valuations, next),
        false => Vec::new(alloc),
    }
}

/// The pieces that a worker did, until none was left or memory ran out.
fn work(alloc: Global, terms: &Terms, valuations: &[Valuation], next: &AtomicU32) -> Vec<Piece>
    requires count { length valuations.now ≡ terms.now.bidders }
    ensures { AllByRecursion (IsPieceOf terms.now (bidders_of terms.now.goods valuations.now)) result.items }
{
    let mut pieces = Vec::new(alloc);
    let Ok(mut columns) = no_columns(alloc, &terms.goods) else {
        return pieces;
    };
    let count = terms.bidders as u32 * 2 + 1;
    for _ in 0..count {
        let number = next.fetch_add(1, SeqCst);
        if number >= count {
            return pieces;
        }
        let Ok(piece) = do_piece(alloc, terms, valuations, &mut columns, number as u8) else {
            return pieces;
        };
        let Ok(()) = pieces.push(piece) else {
            return pieces;
        };
    }
    pieces
}

/// The piece of this number: clock after clock, and then bidder after bidder, so that the short ones come last.
fn do_piece(
    alloc: Global,
    terms: &Terms,
    valuations: &[Valuation],
    columns: &mut Vec<Option<Column>>,
    number: u8,
) -> Result<Piece, NoMemory>
    requires columns { AreColumns terms.now.goods columns.old.items }
    requires count { length valuations.now ≡ terms.now.bidders }
    requires number { number ≤ terms.now.bidders * 2 }
    ensures piece { IfOk result (IsPieceOf terms.now (bidders_of terms.now.goods valuations.now)) }
    ensures columns { AreColumns terms.now.goods columns.new.items }
{
    if number <= terms.bidders {
        let told = run_told(alloc, terms, valuations, columns, number)?;
        return Ok(Piece::Clock(number, told));
    }
    let bidder = number - terms.bidders;
    Ok(Piece::Bidder(bidder, verdict_of(terms, valuations, bidder)))
}

/// The clock of this number and its row.
fn run_told(
    alloc: Global,
    terms: &Terms,
    valuations: &[Valuation],
    columns: &mut Vec<Option<Column>>,
    number: u8,
) -> Result<Told, NoMemory>
    requires columns { AreColumns terms.now.goods columns.old.items }
    requires count { length valuations.now ≡ terms.now.bidders }
    requires number { number ≤ terms.now.bidders }
    ensures told { IfOk result (λ told. IsToldOf terms.now (bidders_of terms.now.goods valuations.now) number told) }
    ensures columns { AreColumns terms.now.goods columns.new.items }
{
    let clock = run_clock(alloc, terms, valuations, columns, number)?;
    let row = row_of(alloc, terms, &clock)?;
    Ok(Told { clock, row })
}

/// Whether the goods are strong substitutes for this bidder.
fn verdict_of(terms: &Terms, valuations: &[Valuation], bidder: u8) -> Verdict
    requires count { length valuations.now ≡ terms.now.bidders }
    requires bidder { (1 ≤ bidder) × (bidder ≤ terms.now.bidders) }
    ensures { IsRight terms.now.goods (bidders_of terms.now.goods valuations.now bidder) result }
{
    check(&terms.goods, &valuations[bidder as usize - 1])
}

/// What the pieces of all workers come to. What no worker did is done here.
fn conclude(
    alloc: Global,
    terms: &Terms,
    valuations: &[Valuation],
    parts: Vec<Vec<Piece>>,
) -> Result<Run, TrialFault>
    requires count { length valuations.now ≡ terms.now.bidders }
    requires parts { AreParts terms.now (bidders_of terms.now.goods valuations.now) parts.items }
    ensures substitutes { IfOk result (λ _. AllStrongSubstitutes terms.now.goods (bidders_of terms.now.goods valuations.now)
        (all_bidders terms.now.bidders)) }
    ensures trial { IfOk result (λ run. IsTrial terms.now (bidders_of terms.now.goods valuations.now) (histories run.clocks.items)) }
    ensures rows { IfOk result (λ run. AllZip IsFoundOf (histories run.clocks.items) run.rows.items) }
    ensures refused { IfErr result (IsRefusal terms.now (bidders_of terms.now.goods valuations.now)) }
{
    let Ok(Placed { told, verdicts }) = place(alloc, terms, valuations, parts) else {
        return Err(TrialFault::NoMemory);
    };
    judge(terms, valuations, verdicts.as_slice())?;
    match in_order(alloc, terms, valuations, told) {
        Ok(run) => Ok(run),
        Err(NoMemory) => Err(TrialFault::NoMemory),
    }
}

/// The pieces of all workers, each at its place.
fn place(
    alloc: Global,
    terms: &Terms,
    valuations: &[Valuation],
    mut parts: Vec<Vec<Piece>>,
) -> Result<Placed, NoMemory>
    requires parts { AreParts terms.now (bidders_of terms.now.goods valuations.now) parts.items }
    ensures { IfOk result (ArePlaced terms.now (bidders_of terms.now.goods valuations.now)) }
{
    let mut told = Vec::new(alloc);
    for _ in 0..terms.bidders + 1 {
        told.push(None)?;
    }
    let mut verdicts = Vec::new(alloc);
    for _ in 0..terms.bidders {
        verdicts.push(None)?;
    }
    let mut placed = Placed { told, verdicts };
    while let Some(part) = parts.pop() {
        place_part(terms, valuations, part, &mut placed);
    }
    Ok(placed)
}

/// The pieces of one worker, each at its place.
fn place_part(terms: &Terms, valuations: &[Valuation], mut part: Vec<Piece>, placed: &mut Placed)
    requires part { AllByRecursion (IsPieceOf terms.now (bidders_of terms.now.goods valuations.now)) part.items }
    requires placed { ArePlaced terms.now (bidders_of terms.now.goods valuations.now) placed.old }
    ensures { ArePlaced terms.now (bidders_of terms.now.goods valuations.now) placed.new }
{
    while let Some(piece) = part.pop() {
        match piece {
            Piece::Clock(number, told) => placed.told[number as usize] = Some(told),
            Piece::Bidder(number, verdict) => {
                placed.verdicts[number as usize - 1] = Some(verdict);
            }
        }
    }
}

/// The first bidder for whom the goods are no strong substitutes, as why there is no trial. A bidder without a verdict is checked here.
fn judge(
    terms: &Terms,
    valuations: &[Valuation],
    verdicts: &[Option<Verdict>],
) -> Result<(), TrialFault>
    requires count { length valuations.now ≡ terms.now.bidders }
    requires verdicts { AreRight terms.now (bidders_of terms.now.goods valuations.now) verdicts.now }
    ensures substitutes { OnOk result (AllStrongSubstitutes terms.now.goods (bidders_of terms.now.goods valuations.now)
        (all_bidders terms.now.bidders)) }
    ensures refused { IfErr result (λ fault. (fault ≢ TrialFault.NoMemory)
        × IsRefusal terms.now (bidders_of terms.now.goods valuations.now) fault) }
{
    for place in 0..terms.bidders {
        let bidder = place + 1;
        let verdict = match verdicts[place as usize] {
            Some(verdict) => verdict,
            None => verdict_of(terms, valuations, bidder),
        };
        if let Verdict::Breaks { x, y, good } = verdict {
            return Err(TrialFault::NotSubstitutes { bidder, x, y, good });
        }
    }
    Ok(())
}

/// The clocks of a trial and their rows, each by itself. A clock that no worker ran is run here.
fn in_order(
    alloc: Global,
    terms: &Terms,
    valuations: &[Valuation],
    mut told: Vec<Option<Told>>,
) -> Result<Run, NoMemory>
    requires count { length valuations.now ≡ terms.now.bidders }
    requires told { AreTold terms.now (bidders_of terms.now.goods valuations.now) told.items }
    ensures trial { IfOk result (λ run. IsTrial terms.now (bidders_of terms.now.goods valuations.now) (histories run.clocks.items)) }
    ensures rows { IfOk result (λ run. AllZip IsFoundOf (histories run.clocks.items) run.rows.items) }
{
    let mut clocks = Vec::new(alloc);
    let mut rows = Vec::new(alloc);
    for number in 0..terms.bidders + 1 {
        let slot = told[number as usize].take();
        let one = told_of(alloc, terms, valuations, slot, number)?;
        clocks.push(one.clock)?;
        rows.push(one.row)?;
    }
    Ok(Run { clocks, rows })
}

/// The clock of this number, which is run here where no worker ran it.
fn told_of(
    alloc: Global,
    terms: &Terms,
    valuations: &[Valuation],
    slot: Option<Told>,
    number: u8,
) -> Result<Told, NoMemory>
    requires count { length valuations.now ≡ terms.now.bidders }
    requires number { number ≤ terms.now.bidders }
    requires slot { IfSome slot (IsToldOf terms.now (bidders_of terms.now.goods valuations.now) number) }
    ensures { IfOk result (IsToldOf terms.now (bidders_of terms.now.goods valuations.now) number) }
{
    match slot {
        Some(told) => Ok(told),
        None => {
            let mut columns = no_columns(alloc, &terms.goods)?;
            run_told(alloc, terms, valuations, &mut columns, number)
        }
    }
}
