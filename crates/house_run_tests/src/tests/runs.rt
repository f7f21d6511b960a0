//! The call of a run, and what it answers.
use super::fixtures::{
    Failing, Named, Outside, list_shelf, list_sink, named, sure_shelf, sure_sink, words_of,
};
use super::nets::no_net;
use house_io::{ListShelf, ListSink, Net, Shelf, Sink, SureShelf, SureSink};
use house_run::run;
use std::alloc::Global;
use std::sync::Wait;
use std::thread::Threads;
use std::time::Clock;

/// How a run of these words ends.
fn ended<H: Shelf, S: Sink, N: Net>(
    rt: &(impl Threads + Wait + Sync + Clock),
    alloc: Global,
    words: &[String],
    shelf: &mut H,
    out: &mut S,
    net: &mut N,
) -> u8 {
    run(rt, alloc, words, shelf, out, net).status()
}

/// The status that these words end with. Nothing, here and below, where there is no memory.
fn status_of<H: Shelf, S: Sink, N: Net>(
    rt: &(impl Threads + Wait + Sync + Clock),
    alloc: Global,
    words: &[&str],
    shelf: &mut H,
    out: &mut S,
    net: &mut N,
) -> Option<u8> {
    let words = words_of(alloc, words)?;
    Some(ended(rt, alloc, &words, shelf, out, net))
}

/// The status that a run ended with, and the text that it wrote.
pub(super) type Answer = (u8, Vec<u8>);

/// Whether an answer has this status and text.
pub(super) fn is_answer(answer: &Answer, status: u8, text: &str) -> bool {
    answer.0 == status && answer.1.as_slice() == text.as_bytes()
}

/// This status, with the text in a sink.
fn with_text(alloc: Global, status: u8, out: &SureSink) -> Option<Answer> {
    let text = out.written().to_vec(alloc).ok()?;
    Some((status, text))
}

/// What these words answer over a shelf and a net, where no write fails.
pub(super) fn answer_of<H: Shelf, N: Net>(
    rt: &(impl Threads + Wait + Sync + Clock),
    alloc: Global,
    words: &[&str],
    shelf: &mut H,
    net: &mut N,
) -> Option<Answer> {
    let mut out = sure_sink(alloc)?;
    let status = status_of(rt, alloc, words, shelf, &mut out, net)?;
    with_text(alloc, status, &out)
}

/// Whether these words end with this status and text over a shelf and a net.
pub(super) fn ends_so<H: Shelf, N: Net>(
    rt: &(impl Threads + Wait + Sync + Clock),
    alloc: Global,
    words: &[&str],
    shelf: &mut H,
    net: &mut N,
    status: u8,
    text: &str,
) -> Option<bool> {
    let answer = answer_of(rt, alloc, words, shelf, net)?;
    Some(is_answer(&answer, status, text))
}

/// What these words answer over a shelf where nothing fails, and no net.
pub(super) fn answer_over(
    rt: &(impl Threads + Wait + Sync + Clock),
    alloc: Global,
    words: &[&str],
    shelf: &mut SureShelf,
) -> Option<Answer> {
    let mut net = no_net(alloc)?;
    answer_of(rt, alloc, words, shelf, &mut net)
}

/// Whether these words end with this status and text over such a shelf.
pub(super) fn ends_over(
    rt: &(impl Threads + Wait + Sync + Clock),
    alloc: Global,
    words: &[&str],
    shelf: &mut SureShelf,
    status: u8,
    text: &str,
) -> Option<bool> {
    let mut net = no_net(alloc)?;
    let answer = answer_of(rt, alloc, words, shelf, &mut net)?;
    Some(is_answer(&answer, status, text))
}

/// Whether a shelf has these files.
pub(super) fn has_kept(shelf: &SureShelf, files: &[Named]) -> bool {
    for (name, bytes) in files {
        match shelf.file(name) {
            Some(kept) if kept == *bytes => {}
            _ => return false,
        }
    }
    true
}

/// Whether these words over these files, where nothing fails, end with this status and text, and leave the files as they were.
pub(super) fn runs_so(
    rt: &(impl Threads + Wait + Sync + Clock),
    alloc: Global,
    words: &[&str],
    files: &[Named],
    status: u8,
    text: &str,
) -> Option<bool> {
    let mut shelf = sure_shelf(alloc, files)?;
    let told = ends_over(rt, alloc, words, &mut shelf, status, text)?;
    Some(told && has_kept(&shelf, files))
}

/// The same over these contents, each with its name.
pub(super) fn runs_over(
    rt: &(impl Threads + Wait + Sync + Clock),
    alloc: Global,
    words: &[&str],
    names: &[&str],
    contents: &[Vec<u8>],
    status: u8,
    text: &str,
) -> Option<bool> {
    let files = named(alloc, names, contents)?;
    runs_so(rt, alloc, words, &files, status, text)
}

/// The status that these words end with over a shelf and a sink where calls fail, and no net.
pub(super) fn failing_status(
    rt: &(impl Threads + Wait + Sync + Clock),
    alloc: Global,
    words: &[&str],
    shelf: &mut ListShelf,
    out: &mut ListSink,
) -> Option<u8> {
    let mut net = no_net(alloc)?;
    status_of(rt, alloc, words, shelf, out, &mut net)
}

/// Whether a shelf where calls fail has these files.
fn has_listed(shelf: &ListShelf, files: &[Named]) -> bool {
    for (name, bytes) in files {
        match shelf.file(name) {
            Some(kept) if kept == *bytes => {}
            _ => return false,
        }
    }
    true
}

/// Where a call fails, the number of the call, the words, and the status and the text.
pub(super) type FailingRow = (Outside, u64, &'static [&'static str], u8, &'static str);

/// The call of a row that fails.
fn failing_in(row: &FailingRow) -> Failing {
    Failing {
        place: row.0,
        first: row.1,
        count: 1,
    }
}

/// Whether the words of a row over a shelf and a sink end as it says.
fn fails_on(
    rt: &(impl Threads + Wait + Sync + Clock),
    alloc: Global,
    row: &FailingRow,
    shelf: &mut ListShelf,
    out: &mut ListSink,
) -> Option<bool> {
    let (_, _, words, status, text) = row;
    let found = failing_status(rt, alloc, words, shelf, out)?;
    Some(found == *status && out.written() == text.as_bytes())
}

/// Whether they do so over a shelf of these files, and leave the files as they were.
fn fails_over(
    rt: &(impl Threads + Wait + Sync + Clock),
    alloc: Global,
    files: &[Named],
    row: &FailingRow,
    shelf: &mut ListShelf,
) -> Option<bool> {
    let mut out = list_sink(alloc, failing_in(row))?;
    let told = fails_on(rt, alloc, row, shelf, &mut out)?;
    Some(told && has_listed(shelf, files))
}

/// Whether the words of a row over these files end as it says, and leave the files as they were.
pub(super) fn fails_so(
    rt: &(impl Threads + Wait + Sync + Clock),
    alloc: Global,
    files: &[Named],
    row: &FailingRow,
) -> Option<bool> {
    let mut shelf = list_shelf(alloc, files, failing_in(row))?;
    fails_over(rt, alloc, files, row, &mut shelf)
}
