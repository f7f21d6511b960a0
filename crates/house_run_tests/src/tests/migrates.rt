//! The command `migrate`: the journals of an auction of two bidders that was worked by hand, moved to a file of it in version 2.
use super::auctions::{FIRST_VERSION, ONE_UNIT, SECOND_VERSION, TWO_UNITS, auction_of, digest_of};
use super::fixtures::{Failing, Outside, joined, list_shelf, list_sink, named, sure_shelf};
use super::journals::journal_of;
use super::runs::{answer_over, ends_over, failing_status, has_kept};
use expected_values::{equal, equal_in};
use house_io::{ListShelf, SureShelf};
use lot_base::Prices;
use std::alloc::Global;
use std::sync::Wait;
use std::test::Fail;
use std::thread::Threads;
use std::time::Clock;

const THIRD_VERSION: &str = "version = 3\nceiling = 10\n";

const FROM_ONE: &str = r#"
[[goods]]
name = "oil"
supply = 1
opening = 1
"#;

/// Ada wants the unit in round 1.
const ADA: &[u8] = &[1, 0, 0, 0, 1, 1, 0, 1, 0, 1];

/// Bob takes it or nothing.
const BOB: &[u8] = &[2, 0, 0, 0, 1, 1, 0, 2, 0, 0, 0, 1];

const MIGRATE: &[&str] = &["migrate", "a", "j", "b", "t"];

const MOVED: &str = "migrated clock 0 reports 2
migrated clock 1 reports 1
migrated clock 2 reports 1
";

const STANDING: &str = "clock 0 round 1 ended prices 0
clock 1 round 1 ended prices 0
clock 2 round 1 ended prices 0
";

/// What the text of the settlement begins with.
const SETTLED: &str = "settled goods 1 bidders 2
prices 0
";

/// The files that a migration has to do with: both auction files, the journals and the targets.
const NAMES: &[&str] = &[
    "a",
    "b",
    "j/clock-00.ahj",
    "j/clock-01.ahj",
    "j/clock-02.ahj",
    "t/clock-00.ahj",
    "t/clock-01.ahj",
    "t/clock-02.ahj",
];

/// The auction file with this head and this good, for two bidders.
fn file_of(alloc: Global, head: &str, good: &str) -> Option<Vec<u8>> {
    auction_of(alloc, head, good, 2)
}

/// The digest of the auction file of one unit with this head.
fn digest_with(alloc: Global, head: &str) -> Option<[u8; 32]> {
    digest_of(alloc, &file_of(alloc, head, ONE_UNIT)?)
}

/// The file of a clock's journal in version 1.
fn old_journal(alloc: Global, clock: u32, entries: &[&[u8]]) -> Option<Vec<u8>> {
    let digest = digest_with(alloc, FIRST_VERSION)?;
    journal_of(alloc, clock, digest, None, entries)
}

/// The file of clock 0's target with these entries.
fn target_of(alloc: Global, entries: &[&[u8]]) -> Option<Vec<u8>> {
    let digest = digest_with(alloc, SECOND_VERSION)?;
    journal_of(alloc, 0, digest, Prices::read(&[0]), entries)
}

/// What keeps journals from being moved, if anything does.
#[derive(Clone, Copy, Debug)]
enum Hindrance {
    Nothing,
    OtherSupply,
    OtherOpening,
    FirstVersion,
    NoAuction,
    OtherTarget,
    DamagedTarget,
    DamagedJournal,
}

/// The new file.
fn new_file(alloc: Global, hindrance: Hindrance) -> Option<Vec<u8>> {
    match hindrance {
        Hindrance::OtherSupply => file_of(alloc, SECOND_VERSION, TWO_UNITS),
        Hindrance::OtherOpening => file_of(alloc, SECOND_VERSION, FROM_ONE),
        Hindrance::FirstVersion => file_of(alloc, FIRST_VERSION, ONE_UNIT),
        Hindrance::NoAuction => file_of(alloc, THIRD_VERSION, ONE_UNIT),
        _ => file_of(alloc, SECOND_VERSION, ONE_UNIT),
    }
}

/// A journal whose header is damaged.
fn damaged(mut journal: Vec<u8>) -> Vec<u8> {
    if let Some(byte) = journal.get_mut(1) {
        *byte = 0;
    }
    journal
}

/// Clock 1's journal.
fn second_journal(alloc: Global, hindrance: Hindrance) -> Option<Vec<u8>> {
    let journal = old_journal(alloc, 1, &[BOB])?;
    match hindrance {
        Hindrance::DamagedJournal => Some(damaged(journal)),
        _ => Some(journal),
    }
}

/// Clock 0's target.
fn first_target(alloc: Global, hindrance: Hindrance) -> Option<Vec<u8>> {
    match hindrance {
        Hindrance::OtherTarget => target_of(alloc, &[BOB]),
        Hindrance::DamagedTarget => Some(damaged(target_of(alloc, &[ADA])?)),
        _ => Some(Vec::new(alloc)),
    }
}

/// The bytes of the file of this place among the names.
fn content_of(alloc: Global, place: usize, hindrance: Hindrance) -> Option<Vec<u8>> {
    match place {
        0 => file_of(alloc, FIRST_VERSION, ONE_UNIT),
        1 => new_file(alloc, hindrance),
        2 => old_journal(alloc, 0, &[ADA, BOB]),
        3 => second_journal(alloc, hindrance),
        4 => old_journal(alloc, 2, &[ADA]),
        5 => first_target(alloc, hindrance),
        _ => Some(Vec::new(alloc)),
    }
}

/// The bytes of each file.
fn contents_of(alloc: Global, hindrance: Hindrance) -> Option<Vec<Vec<u8>>> {
    let mut contents = Vec::new(alloc);
    for place in 0..NAMES.len() {
        contents.push(content_of(alloc, place, hindrance)?).ok()?;
    }
    Some(contents)
}

/// A shelf of these files, where nothing fails.
fn shelf_of(alloc: Global, contents: &[Vec<u8>]) -> Option<SureShelf> {
    let files = named(alloc, NAMES, contents)?;
    sure_shelf(alloc, &files)
}

/// A copy of a file, and no bytes where it is absent.
fn copy_of(alloc: Global, file: Option<&[u8]>) -> Option<Vec<u8>> {
    match file {
        Some(bytes) => bytes.to_vec(alloc).ok(),
        None => Some(Vec::new(alloc)),
    }
}

/// The bytes of each file of a shelf where nothing failed.
fn sure_bytes(alloc: Global, shelf: &SureShelf) -> Option<Vec<Vec<u8>>> {
    let mut all = Vec::new(alloc);
    for name in NAMES {
        all.push(copy_of(alloc, shelf.file(name))?).ok()?;
    }
    Some(all)
}

/// The same of one where calls failed.
fn list_bytes(alloc: Global, shelf: &ListShelf) -> Option<Vec<Vec<u8>>> {
    let mut all = Vec::new(alloc);
    for name in NAMES {
        all.push(copy_of(alloc, shelf.file(name))?).ok()?;
    }
    Some(all)
}

/// Whether a shelf has these files.
fn has_all(alloc: Global, shelf: &SureShelf, contents: &[Vec<u8>]) -> Option<bool> {
    let files = named(alloc, NAMES, contents)?;
    Some(has_kept(shelf, &files))
}

/// The bytes of each file once the journals were moved, if they were.
fn moved_bytes(rt: &(impl Threads + Wait + Sync + Clock), alloc: Global) -> Option<Vec<Vec<u8>>> {
    let contents = contents_of(alloc, Hindrance::Nothing)?;
    let mut shelf = shelf_of(alloc, &contents)?;
    if !ends_over(rt, alloc, MIGRATE, &mut shelf, 0, MOVED)? {
        return None;
    }
    sure_bytes(alloc, &shelf)
}

/// Whether a migration over these files is done, with those files at its end.
fn is_moved(
    rt: &(impl Threads + Wait + Sync + Clock),
    alloc: Global,
    contents: &[Vec<u8>],
    moved: &[Vec<u8>],
) -> Option<bool> {
    let mut shelf = shelf_of(alloc, contents)?;
    let done = ends_over(rt, alloc, MIGRATE, &mut shelf, 0, MOVED)?;
    Some(done && has_all(alloc, &shelf, moved)?)
}

/// Whether a migration over journals that were moved is done and changes nothing.
fn moves_nothing(rt: &(impl Threads + Wait + Sync + Clock), alloc: Global) -> Option<bool> {
    let moved = moved_bytes(rt, alloc)?;
    is_moved(rt, alloc, &moved, &moved)
}

/// A shelf of which the journals were moved.
fn moved_shelf(rt: &(impl Threads + Wait + Sync + Clock), alloc: Global) -> Option<SureShelf> {
    shelf_of(alloc, &moved_bytes(rt, alloc)?)
}

/// Whether these words tell how the clocks stand.
fn tells_standing(
    rt: &(impl Threads + Wait + Sync + Clock),
    alloc: Global,
    words: &[&str],
) -> Option<bool> {
    let mut shelf = moved_shelf(rt, alloc)?;
    ends_over(rt, alloc, words, &mut shelf, 0, STANDING)
}

/// The text that these words write.
fn text_of(
    rt: &(impl Threads + Wait + Sync + Clock),
    alloc: Global,
    words: &[&str],
    shelf: &mut SureShelf,
) -> Option<Vec<u8>> {
    let (_, text) = answer_over(rt, alloc, words, shelf)?;
    Some(text)
}

/// The text of a settlement with the line of the opening price, which an auction of version 2 has.
fn with_opening(alloc: Global, text: &[u8]) -> Option<Vec<u8>> {
    let rest = &text[SETTLED.len().min(text.len())..];
    joined(alloc, &[SETTLED.as_bytes(), b"opening 0\n", rest])
}

/// Whether the first text is that of a settlement, and the second one is it with that line.
fn has_opening(alloc: Global, before: &[u8], after: &[u8]) -> Option<bool> {
    let wanted = with_opening(alloc, before)?;
    Some(before.starts_with(SETTLED.as_bytes()) && wanted.as_slice() == after)
}

/// Whether the old auction settles, and the new one does so too, with the line of the opening price.
fn settles_twice(rt: &(impl Threads + Wait + Sync + Clock), alloc: Global) -> Option<bool> {
    let mut shelf = moved_shelf(rt, alloc)?;
    let before = text_of(rt, alloc, &["settle", "a", "j"], &mut shelf)?;
    let after = text_of(rt, alloc, &["settle", "b", "t"], &mut shelf)?;
    has_opening(alloc, &before, &after)
}

const STANDING_WORDS: &[&[&str]] = &[&["standing", "a", "j"], &["standing", "b", "t"]];

#[test]
fn journals_are_moved_once(rt: HostRuntime) -> Result<(), Fail> {
    for words in STANDING_WORDS {
        let told = tells_standing(&rt, rt.alloc(), words);
        equal_in(words, told, Some(true))?;
    }
    let moved = [
        moves_nothing(&rt, rt.alloc()),
        settles_twice(&rt, rt.alloc()),
    ];
    equal(moved, [Some(true); 2])?;
    Ok(())
}

/// Whether a migration over files where this keeps journals from being moved ends so.
fn is_told(
    rt: &(impl Threads + Wait + Sync + Clock),
    alloc: Global,
    hindrance: Hindrance,
    status: u8,
    line: &str,
) -> Option<bool> {
    let contents = contents_of(alloc, hindrance)?;
    let mut shelf = shelf_of(alloc, &contents)?;
    ends_over(rt, alloc, MIGRATE, &mut shelf, status, line)
}

const HINDRANCES: &[(Hindrance, u8, &str)] = &[
    (Hindrance::OtherSupply, 20, "other terms\n"),
    (Hindrance::OtherOpening, 20, "other terms\n"),
    (Hindrance::FirstVersion, 20, "other terms\n"),
    (Hindrance::NoAuction, 3, "bad auction 10\n"),
    (Hindrance::OtherTarget, 21, "not prefix clock 0 record 1\n"),
    (
        Hindrance::DamagedTarget,
        23,
        "bad target clock 0 record 0 fault 3\n",
    ),
    (
        Hindrance::DamagedJournal,
        8,
        "bad journal clock 1 record 0 fault 3\n",
    ),
];

/// Whether a migration of a folder to itself is no command, over no files.
fn is_usage(rt: &(impl Threads + Wait + Sync + Clock), alloc: Global) -> Option<bool> {
    let mut shelf = shelf_of(alloc, &[])?;
    let words = ["migrate", "a", "j", "b", "j"];
    ends_over(rt, alloc, &words, &mut shelf, 2, "usage\n")
}

#[test]
fn what_can_not_be_moved_is_told(rt: HostRuntime) -> Result<(), Fail> {
    for (hindrance, status, line) in HINDRANCES {
        let told = is_told(&rt, rt.alloc(), *hindrance, *status, line);
        equal_in(line, told, Some(true))?;
    }
    equal(is_usage(&rt, rt.alloc()), Some(true))?;
    Ok(())
}

/// A shelf of these files, where calls may fail.
fn failing_shelf(alloc: Global, contents: &[Vec<u8>], failing: Failing) -> Option<ListShelf> {
    let files = named(alloc, NAMES, contents)?;
    list_shelf(alloc, &files, failing)
}

/// The statuses that a fault there may have.
fn may_tell(place: Outside, status: u8) -> bool {
    match place {
        Outside::Opening => status == 4 || status == 6,
        Outside::File(file) => status == if file < 2 { 4 } else { 6 },
        Outside::Sink => status == 5,
    }
}

/// The status of a migration on such a shelf.
fn migration_status(
    rt: &(impl Threads + Wait + Sync + Clock),
    alloc: Global,
    shelf: &mut ListShelf,
    failing: Failing,
) -> Option<u8> {
    let mut out = list_sink(alloc, failing)?;
    failing_status(rt, alloc, MIGRATE, shelf, &mut out)
}

/// Whether a migration over what that shelf has is done where nothing fails, with those files at its end.
fn goes_on(
    rt: &(impl Threads + Wait + Sync + Clock),
    alloc: Global,
    shelf: &ListShelf,
    moved: &[Vec<u8>],
) -> Option<bool> {
    let left = list_bytes(alloc, shelf)?;
    is_moved(rt, alloc, &left, moved)
}

/// Runs a migration where these calls fail, and then one where none does. Whether the first was done, as one that has no such call
/// is; nothing where the second was not, or the first told another fault.
fn is_done_on(
    rt: &(impl Threads + Wait + Sync + Clock),
    alloc: Global,
    shelf: &mut ListShelf,
    moved: &[Vec<u8>],
    failing: Failing,
) -> Option<bool> {
    let status = migration_status(rt, alloc, shelf, failing)?;
    if !goes_on(rt, alloc, shelf, moved)? {
        return None;
    }
    match status {
        0 => Some(true),
        _ if may_tell(failing.place, status) => Some(false),
        _ => None,
    }
}

/// The same over these files.
fn is_done(
    rt: &(impl Threads + Wait + Sync + Clock),
    alloc: Global,
    contents: &[Vec<u8>],
    moved: &[Vec<u8>],
    failing: Failing,
) -> Option<bool> {
    let mut shelf = failing_shelf(alloc, contents, failing)?;
    is_done_on(rt, alloc, &mut shelf, moved, failing)
}

/// Whether there is a number of calls from which on a migration is done, with so many calls in a row failing from there on.
fn ends_done(
    rt: &(impl Threads + Wait + Sync + Clock),
    alloc: Global,
    contents: &[Vec<u8>],
    moved: &[Vec<u8>],
    place: Outside,
    count: u64,
) -> Option<bool> {
    for first in 0..40 {
        let failing = Failing {
            place,
            first,
            count,
        };
        if is_done(rt, alloc, contents, moved, failing)? {
            return Some(true);
        }
    }
    Some(false)
}

/// The same over the files that nothing keeps from being moved.
fn goes_on_from_each(
    rt: &(impl Threads + Wait + Sync + Clock),
    alloc: Global,
    place: Outside,
    count: u64,
) -> Option<bool> {
    let contents = contents_of(alloc, Hindrance::Nothing)?;
    let moved = moved_bytes(rt, alloc)?;
    ends_done(rt, alloc, &contents, &moved, place, count)
}

/// Where calls fail, and how many: one, or all from it on.
const FAILING: &[(Outside, u64)] = &[
    (Outside::Opening, 1),
    (Outside::Opening, 60),
    (Outside::File(1), 1),
    (Outside::File(4), 1),
    (Outside::File(5), 1),
    (Outside::File(5), 60),
    (Outside::File(7), 1),
    (Outside::Sink, 1),
];

#[test]
fn a_migration_that_failed_goes_on(rt: HostRuntime) -> Result<(), Fail> {
    for (place, count) in FAILING {
        let done = goes_on_from_each(&rt, rt.alloc(), *place, *count);
        equal_in((place, count), done, Some(true))?;
    }
    Ok(())
}
