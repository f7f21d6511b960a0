//! A house that is killed at each call on a journal in turn, and started again.
use super::frames::{ADA, AGAIN_2, FAILED, SECOND};
use super::runs::life;
use super::shelves::{Kill, no_journals};
use expected_values::equal;
use std::alloc::Global;
use std::sync::Wait;
use std::test::Fail;
use std::thread::Threads;
use std::time::Clock;
use worked_auctions::talks::TAKEN_2;

/// How many calls on the journal are tried: more than a life with one report makes.
const CALLS: u64 = 20;

/// What became of a report in a life that was killed, and in the next one.
#[derive(Clone, Copy, Debug, PartialEq, Eq)]
enum Fate {
    /// Nobody was served, and the report was taken in the next life.
    Unserved,
    /// It was answered by a fault, and taken in the next life.
    Dropped,
    /// It was answered by a fault, and was there in the next life.
    Counted,
    /// It was acknowledged, and was there in the next life.
    Kept,
    /// Anything else.
    Lost,
}

/// What two replies to the report make of it.
fn fate_of(first: Option<&[u8]>, second: Option<&[u8]>) -> Fate {
    match (first, second) {
        (None, Some(reply)) if reply == TAKEN_2 => Fate::Unserved,
        (Some(failed), Some(reply)) if failed == FAILED && reply == TAKEN_2 => Fate::Dropped,
        (Some(failed), Some(reply)) if failed == FAILED && reply == AGAIN_2 => Fate::Counted,
        (Some(taken), Some(reply)) if taken == TAKEN_2 && reply == AGAIN_2 => Fate::Kept,
        _ => Fate::Lost,
    }
}

/// The fate of ada's report to the clock without bob where the house is killed at this call on the clock's journal, and started again.
/// Nothing, here and below, where there is no memory.
fn fate_at(rt: &(impl Threads + Wait + Sync + Clock), alloc: Global, call: u64) -> Option<Fate> {
    let journals = no_journals(alloc)?;
    let first = life(
        rt,
        alloc,
        &journals,
        Some(Kill { journal: 2, call }),
        &[ADA],
    )?;
    let second = life(rt, alloc, &first.journals, None, &[ADA])?;
    Some(fate_of(first.reply(0, SECOND), second.reply(0, SECOND)))
}

/// Its fate for each call in turn.
fn fates(rt: &(impl Threads + Wait + Sync + Clock), alloc: Global) -> Option<Vec<Fate>> {
    let mut fates = Vec::new(alloc);
    for call in 0..CALLS {
        fates.push(fate_at(rt, alloc, call)?).ok()?;
    }
    Some(fates)
}

/// How many of these are so.
fn count(fates: &[Fate], wanted: Fate) -> usize {
    let mut count = 0usize;
    for fate in fates {
        if *fate == wanted {
            count = count.saturating_add(1);
        }
    }
    count
}

/// How often the report was dropped, counted though a fault was answered, and lost, and whether it was kept at the last call.
fn counts(
    rt: &(impl Threads + Wait + Sync + Clock),
    alloc: Global,
) -> Option<(usize, usize, usize, bool)> {
    let fates = fates(rt, alloc)?;
    let kept = matches!(fates.last(), Some(Fate::Kept));
    Some((
        count(&fates, Fate::Dropped),
        count(&fates, Fate::Counted),
        count(&fates, Fate::Lost),
        kept,
    ))
}

/// An append writes the record, syncs it, opens the gate before it and syncs that. A report is there where the gate was opened.
#[test]
fn a_report_that_was_acknowledged_outlives_a_kill(rt: HostRuntime) -> Result<(), Fail> {
    let found = counts(&rt, rt.alloc());
    equal(found, Some((3, 1, 0, true)))?;
    Ok(())
}
