//! Words, files on a shelf, and sinks, some of which fail.
use house_io::{ListFile, ListShelf, ListSink, SureFile, SureShelf, SureSink};
use std::alloc::Global;

/// The room of a sink, in bytes.
const SINK_ROOM: u32 = 2_000;

/// The room of a disk, in bytes and in calls.
const DISK_ROOM: u32 = 2_000;

/// The name of a file and its bytes.
pub(super) type Named<'a> = (&'a str, &'a [u8]);

/// Copies of these words. Nothing, here and below, where there is no memory.
pub(super) fn words_of(alloc: Global, words: &[&str]) -> Option<Vec<String>> {
    let mut copies = Vec::new(alloc);
    for word in words {
        copies.push(String::from_str(alloc, word).ok()?).ok()?;
    }
    Some(copies)
}

/// The bytes of these pieces, one after another.
pub(super) fn joined(alloc: Global, pieces: &[&[u8]]) -> Option<Vec<u8>> {
    let mut all = Vec::new(alloc);
    for piece in pieces {
        all.extend_from_slice(piece).ok()?;
    }
    Some(all)
}

/// The bytes of these texts, one after another.
pub(super) fn joined_text(alloc: Global, texts: &[&str]) -> Option<Vec<u8>> {
    let mut all = Vec::new(alloc);
    for text in texts {
        all.extend_from_slice(text.as_bytes()).ok()?;
    }
    Some(all)
}

/// These contents, each with its name.
pub(super) fn named<'a>(
    alloc: Global,
    names: &'a [&'a str],
    contents: &'a [Vec<u8>],
) -> Option<Vec<Named<'a>>> {
    let mut files = Vec::new(alloc);
    for (name, bytes) in names.iter().zip(contents) {
        files.push((*name, bytes.as_slice())).ok()?;
    }
    Some(files)
}

/// A file that never fails.
fn sure_file(alloc: Global, file: &Named) -> Option<SureFile> {
    let name = String::from_str(alloc, file.0).ok()?;
    let bytes = file.1.to_vec(alloc).ok()?;
    Some(SureFile { name, bytes })
}

/// Files that never fail.
fn sure_files(alloc: Global, files: &[Named]) -> Option<Vec<SureFile>> {
    let mut all = Vec::new(alloc);
    for file in files {
        all.push(sure_file(alloc, file)?).ok()?;
    }
    Some(all)
}

/// A shelf of these files, where nothing fails.
pub(super) fn sure_shelf(alloc: Global, files: &[Named]) -> Option<SureShelf> {
    let files = sure_files(alloc, files)?;
    SureShelf::new(alloc, files, DISK_ROOM).ok()
}

/// A sink that never fails.
pub(super) fn sure_sink(alloc: Global) -> Option<SureSink> {
    SureSink::new(alloc, SINK_ROOM).ok()
}

/// Where calls fail: at the openings of a shelf, at the file of a place on it, or at the sink.
#[derive(Clone, Copy, Debug)]
pub(super) enum Outside {
    Opening,
    File(usize),
    Sink,
}

/// Calls that fail: where, the number of the first, and how many there are in a row.
#[derive(Clone, Copy)]
pub(super) struct Failing {
    pub place: Outside,
    pub first: u64,
    pub count: u64,
}

/// Whether openings fail.
fn is_at_opening(failing: Failing) -> bool {
    matches!(failing.place, Outside::Opening)
}

/// Whether calls on the file of this place fail.
fn is_at_file(failing: Failing, place: usize) -> bool {
    matches!(failing.place, Outside::File(chosen) if chosen == place)
}

/// Whether calls on the sink fail.
fn is_at_sink(failing: Failing) -> bool {
    matches!(failing.place, Outside::Sink)
}

/// The numbers of so many calls from the first on.
pub(super) fn calls_from(alloc: Global, first: u64, count: u64) -> Option<Vec<u64>> {
    let mut numbers = Vec::new(alloc);
    for more in 0..count {
        numbers.push(first.saturating_add(more)).ok()?;
    }
    Some(numbers)
}

/// The numbers of the calls that fail, and no numbers where others do.
fn calls_of(alloc: Global, failing: Failing, chosen: bool) -> Option<Vec<u64>> {
    let count = if chosen { failing.count } else { 0 };
    calls_from(alloc, failing.first, count)
}

/// The file of this place.
fn list_file(alloc: Global, place: usize, file: &Named, failing: Failing) -> Option<ListFile> {
    let SureFile { name, bytes } = sure_file(alloc, file)?;
    let failing = calls_of(alloc, failing, is_at_file(failing, place))?;
    Some(ListFile {
        name,
        bytes,
        failing,
    })
}

/// These files, of which one may fail.
fn list_files(alloc: Global, files: &[Named], failing: Failing) -> Option<Vec<ListFile>> {
    let mut all = Vec::new(alloc);
    for (place, file) in files.iter().enumerate() {
        all.push(list_file(alloc, place, file, failing)?).ok()?;
    }
    Some(all)
}

/// A shelf of these files, where calls may fail.
pub(super) fn list_shelf(alloc: Global, files: &[Named], failing: Failing) -> Option<ListShelf> {
    let files = list_files(alloc, files, failing)?;
    let openings = calls_of(alloc, failing, is_at_opening(failing))?;
    ListShelf::new(alloc, files, DISK_ROOM, openings).ok()
}

/// A sink at which calls may fail.
pub(super) fn list_sink(alloc: Global, failing: Failing) -> Option<ListSink> {
    let pushes = calls_of(alloc, failing, is_at_sink(failing))?;
    ListSink::new(alloc, SINK_ROOM, pushes).ok()
}
