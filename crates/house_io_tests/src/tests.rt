//! What no clause says: that the calls succeed with ample memory, and what the real streams do.
use crate::causes::{BROKEN, MOST_CAUSES};
use expected_values::{equal, equal_in};
use house_io::{
    Failed, FileSource, FolderShelf, ListFile, ListShelf, ListSink, ListSource, ReadWhole, Refusal,
    Shelf, Sink, Source, StdoutSink, SureFile, SureShelf, SureSink, SureSource, read_whole,
    write_whole,
};
use std::alloc::Global;
use std::cell::Cell;
use std::fmt::Display;
use std::fs;
use std::io::{self, Read};
use std::test::Fail;

/// More than two of the pieces in which a source is read.
const LONG: usize = 150_000;

/// The bytes, in memory of their own.
pub(crate) fn bytes_of(alloc: Global, bytes: &[u8]) -> Option<Vec<u8>> {
    bytes.to_vec(alloc).ok()
}

fn fill(text: &mut [u8]) {
    for (place, byte) in text.iter_mut().enumerate() {
        *byte = (place % 251) as u8;
    }
}

/// A text of so many bytes.
pub(crate) fn text_of(alloc: Global, length: usize) -> Option<Vec<u8>> {
    let mut text = vec![in alloc; 0u8; length].ok()?;
    fill(&mut text);
    Some(text)
}

/// The one number.
pub(crate) fn one(alloc: Global, number: u64) -> Option<Vec<u64>> {
    [number].to_vec(alloc).ok()
}

fn list_source(alloc: Global, text: Vec<u8>, failing: Vec<u64>) -> Option<ListSource> {
    ListSource::new(alloc, text, failing).ok()
}

/// A source of a long text of which the call of this number fails.
fn long_source(alloc: Global, failing: u64) -> Option<ListSource> {
    list_source(alloc, text_of(alloc, LONG)?, one(alloc, failing)?)
}

fn length_of(read: Result<Vec<u8>, ReadWhole>) -> Result<usize, ReadWhole> {
    match read {
        Ok(text) => Ok(text.len()),
        Err(error) => Err(error),
    }
}

/// How many bytes are read up to a limit.
fn count_read<S: Source>(alloc: Global, source: &mut S, limit: u64) -> Result<usize, ReadWhole> {
    length_of(read_whole(alloc, source, limit))
}

/// How many bytes are read up to a limit, and how many are left to be read then.
type Counts = (Result<usize, ReadWhole>, Result<usize, ReadWhole>);

fn counts_read<S: Source>(alloc: Global, source: &mut S, limit: u64) -> Counts {
    let read = count_read(alloc, source, limit);
    (read, count_read(alloc, source, u64::MAX))
}

fn read_up_to(alloc: Global, failing: u64, limit: u64) -> Option<Counts> {
    let mut source = long_source(alloc, failing)?;
    Some(counts_read(alloc, &mut source, limit))
}

#[test]
fn a_source_is_read_up_to_a_limit_or_a_fault(rt: HostRuntime) -> Result<(), Fail> {
    for (failing, limit, read, rest) in [
        (9, u64::MAX, Ok(LONG), 0),
        (9, 150_000, Ok(LONG), 0),
        (9, 149_999, Err(ReadWhole::TooLong), 0),
        (9, 3, Err(ReadWhole::TooLong), LONG - 4),
        (0, u64::MAX, Err(ReadWhole::Failed), LONG),
        (1, u64::MAX, Err(ReadWhole::Failed), LONG - 65_536),
        (3, u64::MAX, Err(ReadWhole::Failed), 0),
    ] {
        equal_in(
            (failing, limit),
            read_up_to(rt.alloc(), failing, limit),
            Some((read, Ok(rest))),
        )?;
    }
    Ok(())
}

/// The powers of two up to 32 MiB.
const LENGTHS: [usize; 26] = [
    1, 2, 4, 8, 16, 32, 64, 128, 256, 512, 1_024, 2_048, 4_096, 8_192, 16_384, 32_768, 65_536,
    131_072, 262_144, 524_288, 1_048_576, 2_097_152, 4_194_304, 8_388_608, 16_777_216, 33_554_432,
];

/// A text of so many bytes, all of them alike.
fn even_text(alloc: Global, length: usize) -> Option<Vec<u8>> {
    vec![in alloc; 7u8; length].ok()
}

fn even_source(alloc: Global, length: usize) -> Option<SureSource> {
    SureSource::new(alloc, even_text(alloc, length)?).ok()
}

/// How many bytes are read of a source of so many.
fn read_of(alloc: Global, length: usize) -> Option<Result<usize, ReadWhole>> {
    let mut source = even_source(alloc, length)?;
    Some(count_read(alloc, &mut source, u64::MAX))
}

#[test]
fn a_source_is_read_whole_whatever_its_length(rt: HostRuntime) -> Result<(), Fail> {
    for length in LENGTHS {
        equal_in(length, read_of(rt.alloc(), length), Some(Ok(length)))?;
    }
    Ok(())
}

fn sure_source(alloc: Global) -> Option<SureSource> {
    SureSource::new(alloc, text_of(alloc, 9)?).ok()
}

fn sure_source_gives(alloc: Global) -> Option<Result<usize, ReadWhole>> {
    let mut source = sure_source(alloc)?;
    Some(count_read(alloc, &mut source, 9))
}

/// A text, and what a sink answers to it.
type Push<'a> = (&'a str, Result<(), Failed>);

/// The number, from 0, of the first text to which a sink answers otherwise, or that of all of them.
fn first_other_push<S: Sink>(sink: &mut S, pushes: &[Push]) -> usize {
    let mut number: usize = 0;
    for (text, answer) in pushes {
        if write_whole(sink, text.as_bytes()) != *answer {
            break;
        }
        number = number.saturating_add(1);
    }
    number
}

fn sure_sink(alloc: Global) -> Option<SureSink> {
    SureSink::new(alloc, 5).ok()
}

fn sure_sink_keeps(alloc: Global) -> Option<bool> {
    let mut sink = sure_sink(alloc)?;
    let other = first_other_push(&mut sink, &[("lots", Ok(()))]);
    Some(other == 1 && sink.written() == b"lots".as_slice())
}

/// A sink of which the second piece fails.
fn list_sink(alloc: Global) -> Option<ListSink> {
    ListSink::new(alloc, 20, one(alloc, 1)?).ok()
}

fn list_sink_keeps(alloc: Global) -> Option<bool> {
    let mut sink = list_sink(alloc)?;
    let other = first_other_push(
        &mut sink,
        &[
            ("seven ", Ok(())),
            ("eight ", Err(Failed)),
            ("lots", Ok(())),
        ],
    );
    Some(other == 3 && sink.written() == b"seven lots".as_slice())
}

#[test]
fn streams_in_memory_answer(rt: HostRuntime) -> Result<(), Fail> {
    equal(sure_source_gives(rt.alloc()), Some(Ok(9)))?;
    equal(sure_sink_keeps(rt.alloc()), Some(true))?;
    equal(list_sink_keeps(rt.alloc()), Some(true))?;
    Ok(())
}

/// The bytes of a source, of which there are at most 100.
fn bytes_in<S: Source>(alloc: Global, source: &mut S) -> Result<Vec<u8>, ReadWhole> {
    read_whole(alloc, source, 100)
}

/// What a shelf gives for a name: the file's bytes, or why there are none.
fn shelved<S: Shelf>(alloc: Global, shelf: &mut S, name: &str) -> Result<Vec<u8>, ReadWhole> {
    let mut source = match shelf.source(alloc, name) {
        Ok(source) => source,
        Err(Refusal::Failed) => return Err(ReadWhole::Failed),
        Err(Refusal::NoMemory) => return Err(ReadWhole::NoMemory),
    };
    let read = bytes_in(alloc, &mut source);
    shelf.close_source(name, source);
    read
}

/// Whether a shelf gives this text for a name.
fn gives<S: Shelf>(alloc: Global, shelf: &mut S, name: &str, text: &str) -> bool {
    match shelved(alloc, shelf, name) {
        Ok(bytes) => bytes.as_slice() == text.as_bytes(),
        Err(_) => false,
    }
}

/// Whether a shelf answers a fault for a name.
fn fails<S: Shelf>(alloc: Global, shelf: &mut S, name: &str) -> bool {
    length_of(shelved(alloc, shelf, name)) == Err(ReadWhole::Failed)
}

/// A name, and the text that a shelf gives for it, or none where it answers a fault.
type Row<'a> = (&'a str, Option<&'a str>);

/// The number, from 0, of the first row that does not hold of a shelf, or that of all rows.
fn first_other<S: Shelf>(alloc: Global, shelf: &mut S, rows: &[Row]) -> usize {
    let mut number: usize = 0;
    for (name, text) in rows {
        let holds = match text {
            Some(text) => gives(alloc, shelf, name, text),
            None => fails(alloc, shelf, name),
        };
        if !holds {
            break;
        }
        number = number.saturating_add(1);
    }
    number
}

fn name_of(alloc: Global, name: &str) -> Option<String> {
    String::from_str(alloc, name).ok()
}

fn sure_file(alloc: Global, name: &str, text: &str) -> Option<SureFile> {
    let name = name_of(alloc, name)?;
    let bytes = bytes_of(alloc, text.as_bytes())?;
    Some(SureFile { name, bytes })
}

/// Adds a file, and tells whether it could.
fn add_sure_file(alloc: Global, files: &mut Vec<SureFile>, name: &str, text: &str) -> bool {
    match sure_file(alloc, name, text) {
        Some(file) => files.push(file).is_ok(),
        None => false,
    }
}

fn sure_files(alloc: Global) -> Option<Vec<SureFile>> {
    let mut files = Vec::new(alloc);
    let are_added = add_sure_file(alloc, &mut files, "log", "one")
        && add_sure_file(alloc, &mut files, "auction", "two")
        && add_sure_file(alloc, &mut files, "log", "three");
    if are_added { Some(files) } else { None }
}

/// A shelf of three files, of which the first and the last are named `log`.
pub(crate) fn sure_shelf(alloc: Global) -> Option<SureShelf> {
    SureShelf::new(alloc, sure_files(alloc)?, 40).ok()
}

/// The first row that does not hold of such a shelf.
fn first_other_in_sure_shelf(alloc: Global, rows: &[Row]) -> Option<usize> {
    let mut shelf = sure_shelf(alloc)?;
    Some(first_other(alloc, &mut shelf, rows))
}

#[test]
fn a_sure_shelf_gives_its_files_and_nothing_for_an_absent_name(
    rt: HostRuntime,
) -> Result<(), Fail> {
    let rows = [
        ("auction", Some("two")),
        ("log", Some("one")),
        ("journal", Some("")),
    ];
    equal(first_other_in_sure_shelf(rt.alloc(), &rows), Some(3))?;
    Ok(())
}

fn list_file(alloc: Global, name: &str, failing: u64) -> Option<ListFile> {
    let name = name_of(alloc, name)?;
    let bytes = bytes_of(alloc, b"lots")?;
    let failing = one(alloc, failing)?;
    Some(ListFile {
        name,
        bytes,
        failing,
    })
}

/// Adds a file of which the call of this number fails, and tells whether it could.
fn add_list_file(alloc: Global, files: &mut Vec<ListFile>, name: &str, failing: u64) -> bool {
    match list_file(alloc, name, failing) {
        Some(file) => files.push(file).is_ok(),
        None => false,
    }
}

fn list_files(alloc: Global, failing: u64) -> Option<Vec<ListFile>> {
    let mut files = Vec::new(alloc);
    let are_added = add_list_file(alloc, &mut files, "sound", 9)
        && add_list_file(alloc, &mut files, "torn", 1)
        && add_list_file(alloc, &mut files, "journal", failing);
    if are_added { Some(files) } else { None }
}

fn list_shelf_of(alloc: Global, files: Vec<ListFile>, failing: Vec<u64>) -> Option<ListShelf> {
    ListShelf::new(alloc, files, 40, failing).ok()
}

/// A shelf of which the third opening fails, and the call of this number on the disk of its journal.
pub(crate) fn list_shelf(alloc: Global, failing: u64) -> Option<ListShelf> {
    list_shelf_of(alloc, list_files(alloc, failing)?, one(alloc, 2)?)
}

/// The first row that does not hold of such a shelf.
fn first_other_in_list_shelf(alloc: Global, rows: &[Row]) -> Option<usize> {
    let mut shelf = list_shelf(alloc, 9)?;
    Some(first_other(alloc, &mut shelf, rows))
}

#[test]
fn a_list_shelf_fails_at_chosen_calls_and_absent_names(rt: HostRuntime) -> Result<(), Fail> {
    let rows = [
        ("sound", Some("lots")),
        ("torn", None),
        ("sound", None),
        ("absent", None),
        ("sound", Some("lots")),
    ];
    equal(first_other_in_list_shelf(rt.alloc(), &rows), Some(5))?;
    Ok(())
}

/// Whether the folder gives this text for a name, and then, the file removed, a fault.
fn gives_then_fails(rt: &HostRuntime, name: &str, text: &str) -> Result<(bool, bool), Fail> {
    let mut shelf = FolderShelf::new(rt.alloc(), rt);
    let found = gives(rt.alloc(), &mut shelf, name, text);
    fs::remove_file(rt, name)?;
    Ok((found, fails(rt.alloc(), &mut shelf, name)))
}

#[test]
fn a_folder_shelf_reads_a_real_file_and_fails_at_an_absent_one(
    rt: HostRuntime,
) -> Result<(), Fail> {
    let name = "a_real_file_of_house_io";
    fs::write(&rt, name, "lots")?;
    equal(gives_then_fails(&rt, name, "lots")?, (true, true))?;
    Ok(())
}

/// A reader that fails at its second call, and goes on after it.
#[derive(Drop)]
struct FailsOnce {
    calls: u8,
}

impl Read for FailsOnce {
    fn read(&mut self, into: &mut [u8]) -> io::Result<usize> {
        self.calls = self.calls.saturating_add(1);
        if self.calls == 2 {
            return Err(io::ErrorKind::Other.into());
        }
        Ok(if self.calls < 4 { into.len().min(1) } else { 0 })
    }
}

/// How many bytes are read, and how many faults are counted then.
fn read_and_faults(
    alloc: Global,
    source: &mut FileSource<FailsOnce>,
) -> (Result<usize, ReadWhole>, u64) {
    let read = count_read(alloc, source, 9);
    (read, source.faults())
}

#[test]
fn a_read_that_fails_in_mid_stream_is_a_counted_fault(rt: HostRuntime) -> Result<(), Fail> {
    let mut source = FileSource::new(FailsOnce { calls: 0 });
    for read in [Err(ReadWhole::Failed), Ok(1)] {
        equal(read_and_faults(rt.alloc(), &mut source), (read, 1))?;
    }
    Ok(())
}

/// An output that takes at most so many bytes a call, and so many in all. A full stop it refuses, by this cause.
#[derive(Drop)]
struct SmallOutput {
    a_call: usize,
    room: Cell<usize>,
    /// The system's number of it.
    code: i32,
}

impl Print for SmallOutput {
    fn print<D: Display + Drop>(&self, _value: D) -> io::Result<()> {
        Ok(())
    }

    fn println<D: Display + Drop>(&self, _value: D) -> io::Result<()> {
        Ok(())
    }

    fn write_all(&self, _bytes: &[u8]) -> io::Result<()> {
        Ok(())
    }

    fn write_some(&self, bytes: &[u8]) -> io::Result<usize> {
        if !bytes.is_empty() && bytes[0] == b'.' {
            return Err(io::Error::from_raw_os_error(self.code));
        }
        let room = self.room.get();
        let count = bytes.len().min(self.a_call).min(room);
        self.room.set(room - count);
        Ok(count)
    }
}

#[test]
fn a_write_that_takes_nothing_is_a_fault(rt: HostRuntime) -> Result<(), Fail> {
    let output = SmallOutput {
        a_call: 1,
        room: Cell::new(4),
        code: BROKEN,
    };
    let rows = [
        (".", Err(Failed)),
        ("lots", Ok(())),
        ("!", Err(Failed)),
        ("", Ok(())),
    ];
    let mut sink = StdoutSink::new(&output);
    equal(first_other_push(&mut sink, &rows), 4)?;
    equal(output.room.get(), 0)?;
    Ok(())
}

/// Whether a push that the output refuses by this cause is a fault.
fn is_fault_by(code: i32) -> bool {
    let output = SmallOutput {
        a_call: 1,
        room: Cell::new(4),
        code,
    };
    let mut sink = StdoutSink::new(&output);
    sink.push(b".") == Err(Failed)
}

#[test]
fn a_write_that_fails_is_a_fault_whatever_its_cause(rt: HostRuntime) {
    for code in 1..MOST_CAUSES + 1 {
        assert!(rt; is_fault_by(code), "{code}");
    }
}

/// How much of a text of so many bytes one push takes.
fn taken<S: Sink>(alloc: Global, sink: &mut S, length: usize) -> Option<Result<usize, Failed>> {
    let text = even_text(alloc, length)?;
    Some(sink.push(&text))
}

/// How much of a text one push takes, and how much of it came to an output that takes all.
fn pushed(alloc: Global, length: usize) -> Option<(Result<usize, Failed>, usize)> {
    let output = SmallOutput {
        a_call: usize::MAX,
        room: Cell::new(usize::MAX),
        code: BROKEN,
    };
    let mut sink = StdoutSink::new(&output);
    let taken = taken(alloc, &mut sink, length)?;
    Some((taken, usize::MAX.saturating_sub(output.room.get())))
}

#[test]
fn an_output_that_takes_all_is_given_a_long_piece_whole(rt: HostRuntime) -> Result<(), Fail> {
    for length in LENGTHS {
        equal_in(
            length,
            pushed(rt.alloc(), length),
            Some((Ok(length), length)),
        )?;
    }
    Ok(())
}

#[test]
fn standard_output_takes_a_long_text(rt: HostRuntime) -> Result<(), Fail> {
    let text = vec![in rt.alloc(); b'l'; 5_000]?;
    let mut sink = StdoutSink::new(&rt);
    equal(write_whole(&mut sink, &text), Ok(()))?;
    Ok(())
}
