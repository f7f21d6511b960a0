//! Threads that wait for their turns: after turns that last, and after many short ones, which end while threads fall asleep.
ghost use Rattle.std.specs.Prelude.{◌≡◌, ◌≤◌, None};
ghost use Rattle.turn_desk.specs.Passes.{AreAll};

use crate::tests::{Notes, write_numbers};
use std::alloc::Global;
use std::hint::spin_loop;
use std::rt::Clock;
use std::sync::Wait;
use std::sync::atomic::AtomicU64;
use std::sync::atomic::Ordering::SeqCst;
use std::thread;
use std::thread::Threads;
use std::time::{CpuClock, Duration};
use turn_desk::{Desk, Pass};

/// How many short turns of each pass go before. The desk has 64 bells: with 60 tickets before, the next six go past the last bell.
const BEFORE: u32 = 10;

/// The most processor time that all waits after turns that last may take together, in microseconds. Six threads that looked on would take
/// some 200,000 on four processors; those that sleep take 2,000.
const WAITS_TAKE: u64 = 20_000;

/// How long the first turn of each thread lasts, in milliseconds. A thread that waits for it has fallen asleep long before, and all wait before
/// a short one begins.
const LASTS: u64 = 30;

/// A short turn has fewer pauses than this, each a moment.
const PAUSES: u32 = 64;

/// The turns that each thread takes: the first one lasts, the others are short.
#[derive(Drop)]
struct Plan {
    /// How many.
    turns: u32,
    /// The processor time of all waits for the turns that last, in microseconds.
    spent: AtomicU64,
}

/// The processor time that this thread has used, in microseconds. 0 where it cannot be read.
fn used<T: CpuClock>(rt: &T) -> u64 {
    match rt.thread_cpu_time() {
        Ok(time) => u64::try_from(time.as_micros()).unwrap_or(0),
        Err(_) => 0,
    }
}

/// Lasts for as long as a turn of this number does, from 0.
fn dwell<T: Clock>(rt: &T, turn: u32) {
    if turn == 0 {
        thread::sleep(rt, Duration::from_millis(LASTS));
    }
    for _pause in 0..turn % PAUSES {
        spin_loop();
    }
}

/// Adds the pass's number in a turn of this number, and counts the processor time of the wait for the first.
fn take_turn<T: Wait + Clock + CpuClock>(
    rt: &T,
    desk: &Desk<Notes>,
    pass: &mut Pass<Notes>,
    plan: &Plan,
    turn: u32,
)
    requires desk { pass.old.desk ≡ desk.now.id }
    requires rests { pass.old.turn ≡ None }
    ensures desk { pass.new.desk ≡ pass.old.desk }
    ensures rests { pass.new.turn ≡ None }
    ensures made { pass.new.made ≡ pass.old.made }
{
    let before = used(rt);
    let mut book = desk.take(rt, pass);
    if turn == 0 {
        plan.spent.fetch_add(used(rt).wrapping_sub(before), SeqCst);
    }
    dwell(rt, turn);
    let _added = book.add(pass.number());
    desk.give(pass, book);
}

/// Takes all turns of the plan.
fn take_turns<T: Wait + Clock + CpuClock>(
    rt: &T,
    desk: &Desk<Notes>,
    pass: &mut Pass<Notes>,
    plan: &Plan,
)
    requires desk { pass.old.desk ≡ desk.now.id }
    requires rests { pass.old.turn ≡ None }
    ensures desk { pass.new.desk ≡ pass.old.desk }
    ensures rests { pass.new.turn ≡ None }
    ensures made { pass.new.made ≡ pass.old.made }
{
    for turn in 0..plan.turns {
        take_turn(rt, desk, pass, plan, turn);
    }
}

/// Takes all turns of the plan by each pass, each on a thread of its own.
fn side_by_side<T: Threads + Wait + Clock + CpuClock + Sync>(
    rt: &T,
    desk: &Desk<Notes>,
    passes: &mut Vec<Pass<Notes>>,
    plan: &Plan,
)
    requires all { AreAll desk.now.id passes.old.items }
    ensures all { AreAll desk.now.id passes.new.items }
{
    let threads = passes.len().max(1);
    thread::for_each_mut(
        rt,
        passes,
        threads,
        &|_, pass|
            requires { (pass.now.desk ≡ desk.now.id) × (pass.now.turn ≡ None) }
        { take_turns(rt, desk, pass, plan) },
    );
}

/// What six threads write, after short turns of one of them. None where there is no memory.
fn six_threads<T: Threads + Wait + Clock + CpuClock + Sync>(
    rt: &T,
    alloc: Global,
    plan: &Plan,
) -> Option<Notes> {
    let Ok((desk, mut passes)) = Desk::new(alloc, Notes::empty(alloc), 6) else {
        return None;
    };
    for _turn in 0..BEFORE {
        write_numbers(rt, &desk, &mut passes);
    }
    side_by_side(rt, &desk, &mut passes, plan);
    Some(desk.close(passes))
}

/// Whether six threads take so many turns, each of which leaves its entry, and the waits for those that last take no processor time to speak of.
fn goes_well<T: Threads + Wait + Clock + CpuClock + Sync>(
    rt: &T,
    alloc: Global,
    turns: u32,
) -> bool {
    let plan = Plan {
        turns,
        spent: AtomicU64::new(0),
    };
    let Some(book) = six_threads(rt, alloc, &plan) else {
        return false;
    };
    for number in 0..6 {
        let times = book.notes.iter().filter(|&&note| note == number).count();
        if times != turns as usize + BEFORE as usize {
            return false;
        }
    }
    plan.spent.load(SeqCst) <= WAITS_TAKE
}

#[test]
fn who_waits_sleeps_and_is_woken(rt: HostRuntime) {
    for turns in [1, 3_000] {
        assert!(rt; goes_well(&rt, rt.alloc(), turns), "{turns} turns");
    }
}
