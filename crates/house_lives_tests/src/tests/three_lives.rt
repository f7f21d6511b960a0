//! A house of three lives: one was killed within an append, of one the power went, and one ended. Then it is settled.
use super::frames::{ADA, AGAIN_0, BOB, FAILED, FIRST, SECOND, TAKEN_1};
use super::runs::{Lived, life, settled};
use super::shelves::{Kill, no_journals};
use expected_values::equal_in;
use std::alloc::Global;
use std::sync::Wait;
use std::test::Fail;
use std::thread::Threads;
use std::time::Clock;
use worked_auctions::talks::{TAKEN_0, TAKEN_2};

/// What the text of the settlement begins with.
pub(super) const SETTLED: &str = "settled goods 1 bidders 2
prices 0
bidder 1 award 1 debit 0 credit 0 pays 0
bidder 2 award 0 debit 0 credit 0 pays 0
clock 0 steps 0 prices 0
";

/// How many calls after the one that writes a record the gate before it is opened: a sync is between.
const TO_GATE: u64 = 2;

/// How many calls on a journal a life makes at most before its first append.
const MOST_CALLS: u64 = 20;

/// How many bytes bob's record takes after its gate: its length, its payload and the next gate.
const BEHIND: usize = 17;

/// The call on a journal that writes the record of a bidder's second report: the first at which a kill makes a fault of it.
fn record_call(
    rt: &(impl Threads + Wait + Sync + Clock),
    alloc: Global,
    journals: &[Vec<u8>],
    journal: usize,
    sessions: &[&[&[u8]]],
) -> Option<u64> {
    for call in 0..MOST_CALLS {
        let lived = life(rt, alloc, journals, Some(Kill { journal, call }), sessions)?;
        if lived.reply(0, SECOND) == Some(FAILED) {
            return Some(call);
        }
    }
    None
}

/// In its first life the house was killed as it opened the gate before ada's second report: one was acknowledged.
fn first(rt: &(impl Threads + Wait + Sync + Clock), alloc: Global) -> Option<Lived> {
    let journals = no_journals(alloc)?;
    let call = record_call(rt, alloc, &journals, 2, &[ADA])?.saturating_add(TO_GATE);
    life(
        rt,
        alloc,
        &journals,
        Some(Kill { journal: 2, call }),
        &[ADA],
    )
}

/// In its second life the power went as it wrote bob's second report: one was acknowledged.
fn second(
    rt: &(impl Threads + Wait + Sync + Clock),
    alloc: Global,
    journals: &[Vec<u8>],
) -> Option<Lived> {
    let call = record_call(rt, alloc, journals, 1, &[BOB])?;
    life(rt, alloc, journals, Some(Kill { journal: 1, call }), &[BOB])
}

/// What the power left of the journal: these bytes in the range of the write.
fn torn(mut journals: Vec<Vec<u8>>, fill: u8) -> Option<Vec<Vec<u8>>> {
    let journal = journals.get_mut(1)?;
    for _ in 0..BEHIND {
        journal.push(fill).ok()?;
    }
    Some(journals)
}

/// Whether a session of a life was answered so to its two reports.
pub(super) fn was_answered(lived: &Lived, session: usize, replies: (&[u8], &[u8])) -> bool {
    lived.reply(session, FIRST) == Some(replies.0)
        && lived.reply(session, SECOND) == Some(replies.1)
}

/// Whether the journals settle.
fn do_settle(
    rt: &(impl Threads + Wait + Sync + Clock),
    alloc: Global,
    journals: &[Vec<u8>],
) -> Option<bool> {
    let (status, text) = settled(rt, alloc, journals)?;
    Some(status == 0 && text.as_slice().starts_with(SETTLED.as_bytes()))
}

/// In its third life both came back: what was acknowledged was there, and the rest was taken.
fn was_kept(third: &Lived) -> bool {
    was_answered(third, 0, (AGAIN_0, TAKEN_2)) && was_answered(third, 1, (AGAIN_0, TAKEN_1))
}

/// The journals after the three lives, with these bytes where the power went, and whether they go so.
pub(super) fn lived(
    rt: &(impl Threads + Wait + Sync + Clock),
    alloc: Global,
    fill: u8,
) -> Option<(bool, Vec<Vec<u8>>)> {
    let first = first(rt, alloc)?;
    let second = second(rt, alloc, &first.journals)?;
    let told = was_answered(&first, 0, (TAKEN_0, FAILED))
        && was_answered(&second, 0, (TAKEN_0, FAILED));
    let Lived { journals, .. } = second;
    let journals = torn(journals, fill)?;
    let third = life(rt, alloc, &journals, None, &[ADA, BOB])?;
    let kept = was_kept(&third);
    let Lived { journals, .. } = third;
    Some((told && kept, journals))
}

/// Whether the three lives go so, and settle.
fn go_well(rt: &(impl Threads + Wait + Sync + Clock), alloc: Global, fill: u8) -> Option<bool> {
    let (told, journals) = lived(rt, alloc, fill)?;
    Some(told && do_settle(rt, alloc, &journals)?)
}

/// The bytes that are tried where the power went.
pub(super) const FILLS: &[u8] = &[0x00, 0xa5, 0xff];

#[test]
fn what_was_acknowledged_in_three_lives_settles(rt: HostRuntime) -> Result<(), Fail> {
    for fill in FILLS {
        equal_in(fill, go_well(&rt, rt.alloc(), *fill), Some(true))?;
    }
    Ok(())
}
