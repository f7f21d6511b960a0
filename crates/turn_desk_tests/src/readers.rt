//! Notes that one thread takes while another leaves them.
use crate::tests::Notes;
use expected_values::equal;
use std::alloc::Global;
use std::sync::Wait;
use std::sync::atomic::Ordering::SeqCst;
use std::sync::atomic::{AtomicBool, AtomicU64};
use std::test::Fail;
use std::thread;
use std::thread::Threads;
use turn_desk::{Desk, LONGEST_NOTE};

/// How often the note is looked for that was begun last.
const LOOKS: u32 = 200_000;

/// A note lies until so many more were begun.
const KEPT: u64 = 16;

/// How far the one who leaves notes has come.
#[derive(Drop)]
struct Progress {
    /// The number of the note that was begun last.
    begun: AtomicU64,
    /// Nobody looks any more.
    is_done: AtomicBool,
}

/// The note of this number: its bytes are alike, and others than those of the note that lay in its place before.
fn note_of(number: u64) -> [u8; LONGEST_NOTE] {
    [(number % 251) as u8; LONGEST_NOTE]
}

/// Leaves one note after another until nobody looks any more.
fn leave_all<T: Wait>(rt: &T, desk: &Desk<Notes>, progress: &Progress) {
    let mut number: u64 = 0;
    for _note in rt.forever() {
        if progress.is_done.load(SeqCst) {
            return;
        }
        progress.begun.store(number, SeqCst);
        let _number = desk.leave_note(&note_of(number), LONGEST_NOTE);
        number = number.wrapping_add(1);
    }
}

/// Takes the note that was begun last, and tells whether it is there and not whole. One over which another may have been written says nothing.
fn is_torn(desk: &Desk<Notes>, progress: &Progress) -> bool {
    let mut found = [0; LONGEST_NOTE];
    let number = progress.begun.load(SeqCst);
    let length = desk.next_note(number.wrapping_sub(1), &mut found);
    let behind = progress.begun.load(SeqCst).wrapping_sub(number);
    length > 0 && behind < KEPT && found != note_of(number)
}

/// How many notes were torn of those that were looked for.
fn look_for_all(desk: &Desk<Notes>, progress: &Progress) -> u64 {
    let mut torn: u64 = 0;
    for _look in 0..LOOKS {
        if is_torn(desk, progress) {
            torn = torn.saturating_add(1);
        }
    }
    progress.is_done.store(true, SeqCst);
    torn
}

/// How many notes are torn, of those that one thread looks for while another leaves them. None where there is no memory.
fn torn_notes<T: Threads + Wait + Sync>(rt: &T, alloc: Global) -> Option<u64> {
    let Ok((desk, passes)) = Desk::new(alloc, Notes::empty(alloc), 1) else {
        return None;
    };
    let progress = Progress {
        begun: AtomicU64::new(0),
        is_done: AtomicBool::new(false),
    };
    let (shared, shown) = (&desk, &progress);
    let (torn, ()) = thread::join(
        rt,
        move || look_for_all(shared, shown),
        move || leave_all(rt, shared, shown),
    );
    let _book = desk.close(passes);
    Some(torn)
}

#[test]
fn a_note_that_is_taken_is_whole(rt: HostRuntime) -> Result<(), Fail> {
    equal(torn_notes(&rt, rt.alloc()), Some(0))?;
    Ok(())
}

/// How many notes each of two threads leaves.
const LEFT: u64 = 200_000;

/// Leaves so many notes.
fn leave_many(desk: &Desk<Notes>) {
    for number in 0..LEFT {
        let _number = desk.leave_note(&note_of(number), 8);
    }
}

/// The number of the note after those that two threads leave at once. None where there is no memory.
fn number_after_two<T: Threads>(rt: &T, alloc: Global) -> Option<u64> {
    let Ok((desk, passes)) = Desk::new(alloc, Notes::empty(alloc), 1) else {
        return None;
    };
    let shared = &desk;
    let ((), ()) = thread::join(rt, move || leave_many(shared), move || leave_many(shared));
    let number = desk.leave_note(&note_of(0), 8);
    let _book = desk.close(passes);
    Some(number)
}

#[test]
fn each_note_has_a_number_of_its_own(rt: HostRuntime) -> Result<(), Fail> {
    equal(number_after_two(&rt, rt.alloc()), Some(2 * LEFT))?;
    Ok(())
}
