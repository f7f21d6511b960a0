//! Bytes that nobody honest sends: each reader answers the fault that stands there first, and takes no more memory than its limit.
use super::auctions::{FIRST_VERSION, ONE_UNIT, auction_of, digest_of};
use super::fixtures::{Named, joined, sure_shelf};
use super::nets::{net_with_doors, written_at};
use super::runs::{Answer, answer_of, answer_over};
use auction_file::{MOST_BYTES, read as read_auction};
use expected_values::equal_in;
use house_io::{SureNet, SureShelf};
use lot_base::{Goods, Terms};
use report_wire::{Reader, ToHouse};
use std::alloc::Global;
use std::sync::Wait;
use std::test::Fail;
use std::thread::Threads;
use std::time::Clock;
use valuation::read as read_values;
use worked_auctions::talks::HELLO;

/// What a journal's file begins with, but for the digest of the auction file.
const GATE_AND_FORMAT: &[u8] = b"\xa5AHJ1\x00\x00\x00\x00";

/// Who reads the bytes.
#[derive(Clone, Copy, Debug)]
enum By {
    /// The frames of a link.
    Frames,
    /// A session after ada's hello: how it ended, and what was written.
    Session,
    /// The reader of auction files.
    Auction,
    /// The reader of valuations.
    Values,
    /// `check` of this auction file.
    Check,
    /// `fold` of this log.
    Fold,
    /// `settle` of this journal of the clock of all bidders, but for its header.
    Settle,
}

/// A reader, bytes, how often they stand there, and the answer.
type Case<'a> = (By, &'a [u8], usize, &'a str);

const CASES: &[Case] = &[
    // A report of 65,535 bundles in a payload of 8 bytes, one of no good, and a frame to a bidder.
    (
        By::Frames,
        b"\x00\x00\x00\x08\x03\x00\x00\x00\x00\x01\x01\xff\xff",
        1,
        "frames 0 Some(WireFault { place: 0, kind: BadPayload { kind: 3, length: 8 } })",
    ),
    (
        By::Frames,
        b"\x00\x00\x00\x08\x03\x00\x00\x00\x00\x01\x00\x00\x01",
        1,
        "frames 0 Some(WireFault { place: 0, kind: BadPayload { kind: 3, length: 8 } })",
    ),
    (
        By::Frames,
        b"\x00\x00\x00\x00\x12",
        1,
        "frames 0 Some(WireFault { place: 0, kind: UnknownKind(18) })",
    ),
    (
        By::Frames,
        b"\xff",
        65_536,
        "frames 0 Some(WireFault { place: 0, kind: TooLong(4294967295) })",
    ),
    (By::Frames, b"", 1, "frames 0 None"),
    (
        By::Frames,
        b"\x00\x00\x00\x00\x04",
        10_000,
        "frames 10000 None",
    ),
    // A report of no bundle is refused, and the session goes on; then the faults of frames, each with its reply.
    (
        By::Session,
        b"\x00\x00\x00\x08\x03\x00\x00\x00\x00\x01\x01\x00\x00",
        2,
        "door 0 session 1 closed [0, 0, 0, 2, 17, 1, 2, 0, 0, 0, 6, 21, 5, 1, 0, 0, 0, 0, 0, 0, 0, 6, 21, 5, 1, 0, 0, 0, 0]",
    ),
    (
        By::Session,
        b"\x00\x00\x00\x00\x12",
        1,
        "door 0 session 1 wire [0, 0, 0, 2, 17, 1, 2, 0, 0, 0, 6, 21, 15, 0, 0, 0, 0, 18]",
    ),
    (
        By::Session,
        b"\xff",
        70_000,
        "door 0 session 1 wire [0, 0, 0, 2, 17, 1, 2, 0, 0, 0, 6, 21, 14, 0, 255, 255, 255, 255]",
    ),
    (
        By::Session,
        HELLO,
        1,
        "door 0 session 1 closed [0, 0, 0, 2, 17, 1, 2, 0, 0, 0, 6, 21, 13, 0, 0, 0, 0, 0]",
    ),
    (
        By::Session,
        b"\x00\x00",
        1,
        "door 0 session 1 closed [0, 0, 0, 2, 17, 1, 2]",
    ),
    // Files of nothing, of one byte again and again, and of no text.
    (By::Auction, b"", 1, "Missing(Version)"),
    (By::Auction, b"[", 65_536, "NotToml"),
    (By::Auction, b"\xff", 65_536, "NotToml"),
    (By::Auction, b"a.", 32_768, "NotToml"),
    (By::Values, b"", 1, "Missing(Valuations)"),
    (By::Values, b"[", 65_536, "NotToml"),
    (By::Values, b"\x00", 65_536, "NotToml"),
    (By::Check, b"", 1, "3 bad auction 2"),
    (By::Check, b"[", 65_536, "3 bad auction 1"),
    (By::Check, b"[", 65_537, "14 too long auction"),
    // A log, and a journal, of which the first length is the greatest number.
    (By::Fold, b"\xff\xff\xff\xff", 1, "15 bad log at 0"),
    (By::Fold, b"\xff", 200_000, "15 bad log at 0"),
    (By::Fold, b"\x00", 200_000, "15 bad log at 0"),
    (
        By::Settle,
        b"\xa5\xff\xff\xff\xff",
        1,
        "8 bad journal clock 0 record 1 fault 3",
    ),
    (
        By::Settle,
        b"\xa5",
        70_000,
        "8 bad journal clock 0 record 1 fault 3",
    ),
    (By::Settle, b"", 1, "9 open clock 0 round 1 missing 1"),
    (
        By::Settle,
        b"\x00",
        70_000,
        "9 open clock 0 round 1 missing 1",
    ),
];

/// The bytes so many times, after a front.
fn repeated(alloc: Global, front: &[u8], bytes: &[u8], times: usize) -> Option<Vec<u8>> {
    let mut all = front.to_vec(alloc).ok()?;
    for _time in 0..times {
        all.extend_from_slice(bytes).ok()?;
    }
    Some(all)
}

/// A copy of a text.
fn text_of(alloc: Global, text: &str) -> Option<String> {
    String::from_str(alloc, text).ok()
}

/// How many frames are read, and the fault after them.
fn frames_answer(alloc: Global, bytes: &[u8]) -> Option<String> {
    let feed = Reader::<ToHouse>::new(alloc).feed(bytes).ok()?;
    format!(in alloc; "frames {} {:?}", feed.frames.len(), feed.fault).ok()
}

/// What the reader of auction files answers.
fn auction_answer(alloc: Global, bytes: &[u8]) -> Option<String> {
    if bytes.len() > MOST_BYTES {
        return None;
    }
    match read_auction(alloc, bytes) {
        Ok(_) => text_of(alloc, "read"),
        Err(fault) => format!(in alloc; "{fault:?}").ok(),
    }
}

/// The terms of one unit of one good for one bidder.
fn one_unit() -> Option<Terms> {
    match Goods::new(&[1]) {
        Ok(goods) => Terms::new(goods, 1, 10).ok(),
        Err(_) => None,
    }
}

/// What the reader of valuations answers.
fn values_answer(alloc: Global, bytes: &[u8]) -> Option<String> {
    let terms = one_unit()?;
    match read_values(alloc, &terms, bytes) {
        Ok(_) => text_of(alloc, "read"),
        Err(fault) => format!(in alloc; "{fault:?}").ok(),
    }
}

/// The auction file of one unit of one good for one bidder, whose token is `abc`.
fn ada_alone(alloc: Global) -> Option<Vec<u8>> {
    auction_of(alloc, FIRST_VERSION, ONE_UNIT, 1)
}

/// The first line of a text.
fn first_line(alloc: Global, text: &[u8]) -> Option<String> {
    let text = String::from_utf8_lossy(alloc, text).ok()?;
    match text.as_str().split_once('\n') {
        Some((line, _)) => text_of(alloc, line),
        None => Some(String::new(alloc)),
    }
}

/// The status of an answer, and the first line of its text.
fn status_and_line(alloc: Global, answer: &Answer) -> Option<String> {
    let (status, text) = answer;
    let line = first_line(alloc, text)?;
    format!(in alloc; "{status} {line}").ok()
}

/// How these words end over these files.
fn command_answer(
    rt: &(impl Threads + Wait + Sync + Clock),
    alloc: Global,
    words: &[&str],
    files: &[Named],
) -> Option<String> {
    let mut shelf = sure_shelf(alloc, files)?;
    let answer = answer_over(rt, alloc, words, &mut shelf)?;
    status_and_line(alloc, &answer)
}

const SERVE: &[&str] = &["serve", "a", "j", "house:1", "--doors=1"];

/// A shelf with the auction.
fn ada_shelf(alloc: Global) -> Option<SureShelf> {
    let auction = ada_alone(alloc)?;
    sure_shelf(alloc, &[("a", auction.as_slice())])
}

/// The first line of what a house on a net tells.
fn served_line(
    rt: &(impl Threads + Wait + Sync + Clock),
    alloc: Global,
    net: &mut SureNet,
) -> Option<String> {
    let mut shelf = ada_shelf(alloc)?;
    let (_, text) = answer_of(rt, alloc, SERVE, &mut shelf, net)?;
    first_line(alloc, &text)
}

/// What was written over the one link of the one door that was closed.
fn written_over(net: &SureNet) -> Option<&[u8]> {
    match net.closed() {
        [door] => written_at(door),
        _ => None,
    }
}

/// The line of a session, and what was written over its link.
fn with_replies(alloc: Global, line: &str, net: &SureNet) -> Option<String> {
    let written = written_over(net)?;
    format!(in alloc; "{line} {written:?}").ok()
}

/// How the session of these bytes ended, and what was written.
fn session_answer(
    rt: &(impl Threads + Wait + Sync + Clock),
    alloc: Global,
    bytes: &[u8],
) -> Option<String> {
    let mut net = net_with_doors(alloc, &[&[bytes]])?;
    let line = served_line(rt, alloc, &mut net)?;
    with_replies(alloc, line.as_str(), &net)
}

/// The journal of the clock of all bidders with these bytes after its header.
fn journal_with<'a>(alloc: Global, digest: &'a [u8], bytes: &'a [u8]) -> Option<Vec<u8>> {
    joined(alloc, &[GATE_AND_FORMAT, digest, bytes])
}

/// How a settlement of such a journal ends.
fn settle_answer(
    rt: &(impl Threads + Wait + Sync + Clock),
    alloc: Global,
    bytes: &[u8],
) -> Option<String> {
    let auction = ada_alone(alloc)?;
    let digest = digest_of(alloc, &auction)?;
    let journal = journal_with(alloc, &digest, bytes)?;
    let files = [
        ("a", auction.as_slice()),
        ("j/clock-00.ahj", journal.as_slice()),
    ];
    command_answer(rt, alloc, &["settle", "a", "j"], &files)
}

/// What the reader of a case answers to these bytes.
fn answer_by(
    rt: &(impl Threads + Wait + Sync + Clock),
    alloc: Global,
    by: By,
    bytes: &[u8],
) -> Option<String> {
    match by {
        By::Frames => frames_answer(alloc, bytes),
        By::Session => session_answer(rt, alloc, bytes),
        By::Auction => auction_answer(alloc, bytes),
        By::Values => values_answer(alloc, bytes),
        By::Check => command_answer(rt, alloc, &["check", "a"], &[("a", bytes)]),
        By::Fold => command_answer(rt, alloc, &["fold", "1", "1", "10", "l"], &[("l", bytes)]),
        By::Settle => settle_answer(rt, alloc, bytes),
    }
}

/// What stands before the bytes of a case.
fn front_of(by: By) -> &'static [u8] {
    match by {
        By::Session => HELLO,
        _ => b"",
    }
}

/// Whether a reader answers as the case says.
fn answers(rt: &(impl Threads + Wait + Sync + Clock), alloc: Global, case: &Case) -> Option<bool> {
    let (by, bytes, times, wanted) = case;
    let whole = repeated(alloc, front_of(*by), bytes, *times)?;
    let found = answer_by(rt, alloc, *by, &whole)?;
    Some(found.as_str() == *wanted)
}

#[test]
fn each_reader_answers_the_first_fault(rt: HostRuntime) -> Result<(), Fail> {
    for case in CASES {
        equal_in(case, answers(&rt, rt.alloc(), case), Some(true))?;
    }
    Ok(())
}
