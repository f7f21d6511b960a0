//! The house of three lives is carried to a newer auction file, and lives once more under it. Then it is settled by that file.
use super::frames::{ADA, AGAIN_0, AGAIN_1, AGAIN_2, BOB};
use super::runs::{Lived, Moved, life_on, migrated, settled, settled_on};
use super::shelves::Kill;
use super::three_lives::{FILLS, SETTLED, lived, was_answered};
use expected_values::{equal, equal_in};
use std::alloc::Global;
use std::sync::Wait;
use std::test::Fail;
use std::thread::Threads;
use std::time::Clock;

/// What a migration tells that is done.
const DONE: &str = "migrated clock 0 reports 2
migrated clock 1 reports 1
migrated clock 2 reports 1
";

/// What the text of the settlement by the newer file begins with.
const SETTLED_ON: &str = "settled goods 1 bidders 2
prices 0
opening 0
bidder 1 award 1 debit 0 credit 0 pays 0
bidder 2 award 0 debit 0 credit 0 pays 0
clock 0 steps 0 prices 0
";

/// The journal of the clock without ada under the newer file.
const TARGET: usize = 4;

/// How many calls on it are tried: more than a migration makes.
const CALLS: u64 = 20;

/// What is left of a text after this front, if it begins with it. Nothing, here and below, where there is no memory.
fn rest_after<'a>(text: &'a [u8], front: &str) -> Option<&'a [u8]> {
    if text.starts_with(front.as_bytes()) {
        text.get(front.len()..)
    } else {
        None
    }
}

/// Whether both files settle, and alike after these fronts.
fn settle_alike(
    rt: &(impl Threads + Wait + Sync + Clock),
    alloc: Global,
    journals: &[Vec<u8>],
) -> Option<bool> {
    let (before, old) = settled(rt, alloc, journals)?;
    let (after, new) = settled_on(rt, alloc, journals)?;
    let done = before == 0 && after == 0;
    Some(done && rest_after(&old, SETTLED)? == rest_after(&new, SETTLED_ON)?)
}

/// In the life under the newer file both came back: whether all was there that was acknowledged before the move.
fn was_carried(life: &Lived) -> bool {
    was_answered(life, 0, (AGAIN_0, AGAIN_2)) && was_answered(life, 1, (AGAIN_0, AGAIN_1))
}

/// Whether a migration is done.
fn is_done(moved: &Moved) -> bool {
    moved.status == 0 && moved.text.as_slice() == DONE.as_bytes()
}

/// Whether the journals are moved, the house lives on under the newer file, and it settles.
fn ends_well(
    rt: &(impl Threads + Wait + Sync + Clock),
    alloc: Global,
    journals: &[Vec<u8>],
) -> Option<bool> {
    let moved = migrated(rt, alloc, journals, None)?;
    let life = life_on(rt, alloc, &moved.journals, &[ADA, BOB])?;
    Some(is_done(&moved) && was_carried(&life) && settle_alike(rt, alloc, &life.journals)?)
}

/// Whether it goes so with these bytes where the power went.
fn goes_well(rt: &(impl Threads + Wait + Sync + Clock), alloc: Global, fill: u8) -> Option<bool> {
    let (told, journals) = lived(rt, alloc, fill)?;
    Some(told && ends_well(rt, alloc, &journals)?)
}

#[test]
fn what_was_acknowledged_before_a_move_settles_after_it(rt: HostRuntime) -> Result<(), Fail> {
    for fill in FILLS {
        equal_in(fill, goes_well(&rt, rt.alloc(), *fill), Some(true))?;
    }
    Ok(())
}

/// Whether a migration is stopped where it is killed so, and one after it is done and leaves these journals.
fn outlives(
    rt: &(impl Threads + Wait + Sync + Clock),
    alloc: Global,
    journals: &[Vec<u8>],
    wanted: &[Vec<u8>],
    kill: Kill,
) -> Option<(bool, bool)> {
    let first = migrated(rt, alloc, journals, Some(kill))?;
    let second = migrated(rt, alloc, &first.journals, None)?;
    Some((
        first.status != 0,
        is_done(&second) && second.journals.as_slice() == wanted,
    ))
}

/// Whether it is so wherever a migration is killed on the journal that it writes: it is stopped at some of the calls, and then at none.
fn outlives_each(
    rt: &(impl Threads + Wait + Sync + Clock),
    alloc: Global,
    journals: &[Vec<u8>],
) -> Option<bool> {
    let wanted = migrated(rt, alloc, journals, None)?.journals;
    for call in 0..CALLS {
        let kill = Kill {
            journal: TARGET,
            call,
        };
        let (stops, well) = outlives(rt, alloc, journals, &wanted, kill)?;
        if !well || !stops {
            return Some(well && call > 0);
        }
    }
    Some(false)
}

/// The same after the three lives.
fn outlives_all(rt: &(impl Threads + Wait + Sync + Clock), alloc: Global) -> Option<bool> {
    let (told, journals) = lived(rt, alloc, 0)?;
    Some(told && outlives_each(rt, alloc, &journals)?)
}

#[test]
fn a_move_that_was_killed_is_done_again(rt: HostRuntime) -> Result<(), Fail> {
    equal(outlives_all(&rt, rt.alloc()), Some(true))?;
    Ok(())
}
