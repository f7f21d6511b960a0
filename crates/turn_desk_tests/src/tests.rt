//! The desk with one thread, with two, and with each number of passes that it can have.
ghost use Rattle.std.specs.Prelude.{◌≡◌, ◌≤◌, List, None, length};
ghost use Rattle.turn_desk.specs.Histories.{GoesOn};
ghost use Rattle.turn_desk.specs.Passes.{AreAll};

use expected_values::{equal, equal_in};
use std::alloc::Global;
use std::sync::Wait;
use std::test::Fail;
use std::thread;
use std::thread::Threads;
use turn_desk::{Book, Desk, LONGEST_NOTE, Pass};

/// Numbers, the oldest first. Its origin is the number that was written on its cover.
#[derive(Drop)]
pub(crate) struct Notes {
    cover: u32,
    pub(crate) notes: Vec<u32>,
}

impl Book for Notes {
    type Entry = u32;

    type Origin = u32;

    ghost history = { λ b. b.notes.items };

    ghost origin = { λ b. b.cover };

    fn length(&self) -> u64 {
        self.notes.len() as u64
    }

    ghost gauge = { λ cover notes. length notes };

    fn gauge(&self) -> u64 {
        self.notes.len() as u64
    }
}

impl Notes {
    pub(crate) fn empty(alloc: Global) -> Notes {
        Notes {
            cover: 5,
            notes: Vec::new(alloc),
        }
    }

    /// Adds a note, if there is memory.
    pub(crate) fn add(&mut self, note: u32) -> bool
        ensures history { GoesOn self.old.notes.items self.new.notes.items }
        ensures cover { self.new.cover ≡ self.old.cover }
    {
        self.notes.push(note).is_ok()
    }
}

/// Adds a note in one turn, and answers how many there were.
fn write<T: Wait>(rt: &T, desk: &Desk<Notes>, pass: &mut Pass<Notes>, note: u32) -> usize
    requires desk { pass.old.desk ≡ desk.now.id }
    requires rests { pass.old.turn ≡ None }
    ensures desk { pass.new.desk ≡ pass.old.desk }
    ensures rests { pass.new.turn ≡ None }
    ensures made { pass.new.made ≡ pass.old.made }
{
    let mut book = desk.take(rt, pass);
    let before = book.notes.len();
    let _added = book.add(note);
    desk.give(pass, book);
    before
}

/// Looks at the desk in one turn, and answers how many notes there are.
fn look<T: Wait>(rt: &T, desk: &Desk<Notes>, pass: &mut Pass<Notes>) -> usize
    requires desk { pass.old.desk ≡ desk.now.id }
    requires rests { pass.old.turn ≡ None }
    ensures desk { pass.new.desk ≡ pass.old.desk }
    ensures rests { pass.new.turn ≡ None }
    ensures made { pass.new.made ≡ pass.old.made }
{
    let book = desk.take(rt, pass);
    let found = book.notes.len();
    desk.give(pass, book);
    found
}

/// Adds the numbers from `first` to below `end`, each in a turn of its own.
fn write_all<T: Wait>(
    rt: &T,
    desk: &Desk<Notes>,
    mut pass: Pass<Notes>,
    first: u32,
    end: u32,
) -> Pass<Notes>
    requires desk { pass.desk ≡ desk.now.id }
    requires rests { pass.turn ≡ None }
    ensures desk { result.desk ≡ pass.desk }
    ensures rests { result.turn ≡ None }
    ensures made { result.made ≡ pass.made }
{
    for note in first..end {
        let _before = write(rt, desk, &mut pass, note);
    }
    pass
}

/// Each pass adds its number, one after the other.
pub(crate) fn write_numbers<T: Wait>(rt: &T, desk: &Desk<Notes>, passes: &mut Vec<Pass<Notes>>)
    requires all { AreAll desk.now.id passes.old.items }
    ensures all { AreAll desk.now.id passes.new.items }
{
    for place in 0..passes.len() {
        let number = passes[place].number();
        let _before = write(rt, desk, &mut passes[place], number);
    }
}

/// What one thread with one pass writes, and how many notes it found at the last look.
fn alone<T: Wait>(rt: &T, notes: Notes, alloc: Global) -> Result<(Notes, usize), Fail> {
    let Ok((desk, mut passes)) = Desk::new(alloc, notes, 1) else {
        return Err(Fail::from("memory"));
    };
    let pass = passes.pop().unwrap();
    let mut pass = write_all(rt, &desk, pass, 7, 10);
    let found = look(rt, &desk, &mut pass);
    let pass = write_all(rt, &desk, pass, 10, 12);
    passes.push_reserved(pass);
    Ok((desk.close(passes), found))
}

#[test]
fn one_pass_takes_turn_after_turn(rt: HostRuntime) -> Result<(), Fail> {
    let mut notes = Notes::empty(rt.alloc());
    assert!(rt; notes.add(4) && notes.add(4));
    let (book, found) = alone(&rt, notes, rt.alloc())?;
    equal(found, 5)?;
    equal(book.cover, 5)?;
    equal(book.notes.as_slice(), [4, 4, 7, 8, 9, 10, 11].as_slice())?;
    Ok(())
}

/// The notes that the first pass found, those that the second found, and the book at the end.
fn one_after_the_other<T: Wait>(rt: &T, alloc: Global) -> Result<(usize, usize, Notes), Fail> {
    let Ok((desk, mut passes)) = Desk::new(alloc, Notes::empty(alloc), 2) else {
        return Err(Fail::from("memory"));
    };
    let mut second = passes.pop().unwrap();
    let mut first = passes.pop().unwrap();
    let before = write(rt, &desk, &mut first, 3);
    let seen = look(rt, &desk, &mut second);
    passes.push_reserved(first);
    passes.push_reserved(second);
    Ok((before, seen, desk.close(passes)))
}

/// The gauges that the second pass finds at the start, while the first has the turn with one note more in its hand, and at the end.
fn glances<T: Wait>(rt: &T, alloc: Global, notes: Notes) -> Result<(u64, u64, u64), Fail> {
    let Ok((desk, mut passes)) = Desk::new(alloc, notes, 2) else {
        return Err(Fail::from("memory"));
    };
    let mut second = passes.pop().unwrap();
    let mut first = passes.pop().unwrap();
    let before = desk.glance(&mut second);
    let mut book = desk.take(rt, &mut first);
    let _added = book.add(9);
    let within = desk.glance(&mut second);
    desk.give(&mut first, book);
    let after = desk.glance(&mut second);
    passes.push_reserved(first);
    passes.push_reserved(second);
    let _book = desk.close(passes);
    Ok((before, within, after))
}

#[test]
fn a_glance_tells_what_the_last_turn_left(rt: HostRuntime) -> Result<(), Fail> {
    let mut notes = Notes::empty(rt.alloc());
    assert!(rt; notes.add(4) && notes.add(4));
    equal(glances(&rt, rt.alloc(), notes)?, (2, 2, 3))?;
    Ok(())
}

/// What a pass finds by a glance and in a turn, once it has heard what another one saw that wrote a note.
fn hears<T: Wait>(rt: &T, alloc: Global, notes: Notes) -> Result<(u64, usize), Fail> {
    let Ok((desk, mut passes)) = Desk::new(alloc, notes, 2) else {
        return Err(Fail::from("memory"));
    };
    let mut second = passes.pop().unwrap();
    let mut first = passes.pop().unwrap();
    let _before = write(rt, &desk, &mut first, 9);
    let seen = desk.witness(&mut first);
    desk.hear(&mut second, seen);
    let glanced = desk.glance(&mut second);
    let found = look(rt, &desk, &mut second);
    passes.push_reserved(first);
    passes.push_reserved(second);
    let _book = desk.close(passes);
    Ok((glanced, found))
}

#[test]
fn a_pass_that_heard_of_a_note_finds_it(rt: HostRuntime) -> Result<(), Fail> {
    let mut notes = Notes::empty(rt.alloc());
    assert!(rt; notes.add(4));
    equal(hears(&rt, rt.alloc(), notes)?, (2, 2))?;
    Ok(())
}

#[test]
fn the_second_pass_sees_what_the_first_appended(rt: HostRuntime) -> Result<(), Fail> {
    let (before, seen, book) = one_after_the_other(&rt, rt.alloc())?;
    equal(before, 0)?;
    equal(seen, 1)?;
    equal(book.notes.as_slice(), [3].as_slice())?;
    Ok(())
}

/// What two threads write, each in fifty turns: one the even hundred, the other the odd.
fn two_threads<T: Threads + Wait + Sync>(rt: &T, alloc: Global) -> Result<Notes, Fail> {
    let Ok((desk, mut passes)) = Desk::new(alloc, Notes::empty(alloc), 2) else {
        return Err(Fail::from("memory"));
    };
    let second = passes.pop().unwrap();
    let first = passes.pop().unwrap();
    let shared = &desk;
    let (first, second) = thread::join(
        rt,
        move || write_all(rt, shared, first, 0, 50),
        move || write_all(rt, shared, second, 50, 100),
    );
    passes.push_reserved(first);
    passes.push_reserved(second);
    Ok(desk.close(passes))
}

#[test]
fn two_threads_write_one_history_with_every_entry_once(rt: HostRuntime) -> Result<(), Fail> {
    let book = two_threads(&rt, rt.alloc())?;
    equal(book.notes.len(), 100)?;
    for want in 0..100 {
        let times = book.notes.iter().filter(|&&note| note == want).count();
        equal_in(want, times, 1)?;
    }
    Ok(())
}

/// What so many passes write, in two rounds. None where there is no memory.
fn two_rounds<T: Wait>(rt: &T, alloc: Global, passes: u32) -> Option<Notes>
    requires { (1 ≤ passes) × (passes ≤ 64) }
{
    let Ok((desk, mut passes)) = Desk::new(alloc, Notes::empty(alloc), passes) else {
        return None;
    };
    write_numbers(rt, &desk, &mut passes);
    write_numbers(rt, &desk, &mut passes);
    Some(desk.close(passes))
}

/// Whether so many passes can be made, and write their numbers in order, twice.
fn writes_twice<T: Wait>(rt: &T, alloc: Global, passes: u32) -> bool
    requires { (1 ≤ passes) × (passes ≤ 64) }
{
    let Some(book) = two_rounds(rt, alloc, passes) else {
        return false;
    };
    let count = passes as usize;
    for (place, &note) in book.notes.iter().enumerate() {
        if note as usize != place % count {
            return false;
        }
    }
    book.notes.len() == 2 * count
}

#[test]
fn as_many_passes_as_are_asked_for_write_their_numbers_in_two_rounds(rt: HostRuntime) {
    for passes in 1..65 {
        assert!(rt; writes_twice(&rt, rt.alloc(), passes), "{passes} passes");
    }
}

/// The length of the note after that of this number, where so many were left before, each of as many bytes as its number says, which all are
/// its number. Nothing where other bytes are found.
fn length_behind(alloc: Global, left: u8, number: u64) -> Option<usize> {
    let Ok((desk, passes)) = Desk::new(alloc, Notes::empty(alloc), 1) else {
        return None;
    };
    for note in 0..left {
        let _number = desk.leave_note(&[note; LONGEST_NOTE], note as usize);
    }
    let mut found = [0; LONGEST_NOTE];
    let length = desk.next_note(number, &mut found);
    let _book = desk.close(passes);
    for byte in found[..length].iter() {
        if u64::from(*byte) != number.wrapping_add(1) {
            return None;
        }
    }
    Some(length)
}

#[test]
fn a_note_is_found_by_who_stands_before_it(rt: HostRuntime) -> Result<(), Fail> {
    // Notes are numbered from 0, the last sixteen are kept, and one of more than 120 bytes is none.
    for (left, number, length) in [
        (0, 0, 0),
        (3, 0, 1),
        (3, 1, 2),
        (3, 2, 0),
        (20, 2, 0),
        (20, 3, 4),
        (20, 18, 19),
        (122, 119, 120),
        (122, 120, 0),
        // Those of 256, 65,536 and 4,294,967,296 notes before are others.
        (20, 274, 0),
        (20, 65_554, 0),
        (20, 4_294_967_314, 0),
    ] {
        equal_in(
            (left, number),
            length_behind(rt.alloc(), left, number),
            Some(length),
        )?;
    }
    Ok(())
}
