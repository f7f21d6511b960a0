//! Sessions over links in memory, and the doors at which they come in.
use auction_file::{Auction, MOST_BYTES, read};
use expected_values::equal;
use house_io::{Link, ListLink, SureLink};
use house_serve::{SessionEnd, serve_hall};
use report_wire::{WireFault, WireKind};
use session::ListHall;
use std::alloc::Global;
use std::process::Abort;
use std::sync::Wait;
use std::test::Fail;

/// One unit of one good for two bidders, whose tokens are `abc` and `hello`.
const FILE: &str = r#"
version = 1
ceiling = 10

[[goods]]
name = "oil"
supply = 1

[[bidders]]
name = "ada"
token = "ba7816bf8f01cfea414140de5dae2223b00361a396177a9cb410ff61f20015ad"

[[bidders]]
name = "bob"
token = "2cf24dba5fb0a30e26e83b2ac5b9e29e1b161e5c1fa7425e73043362938b9824"
"#;

pub(crate) const HELLO: &[u8] = b"\x00\x00\x00\x04\x01\x01abc";

pub(crate) const WELCOME: &[u8] = b"\x00\x00\x00\x02\x11\x01\x03";

pub(crate) const REPORT: &[u8] = b"\x00\x00\x00\x0a\x03\x00\x00\x00\x00\x01\x01\x00\x01\x00\x01";

pub(crate) const TAKEN: &[u8] = b"\x00\x00\x00\x05\x13\x00\x00\x00\x00\x01";

const AGAIN: &[u8] = b"\x00\x00\x00\x05\x14\x00\x00\x00\x00\x01";

pub(crate) const QUIT: &[u8] = b"\x00\x00\x00\x00\x04";

pub(crate) const BYE: &[u8] = b"\x00\x00\x00\x00\x16";

/// What comes, in pieces, what goes, in pieces, and the end.
type Case<'a> = (&'a [&'a [u8]], &'a [&'a [u8]], SessionEnd);

/// The auction of the two bidders.
pub(crate) fn auction(alloc: Global) -> Option<Auction> {
    if FILE.len() > MOST_BYTES {
        return None;
    }
    match read(alloc, FILE.as_bytes()) {
        Ok(auction) => Some(auction),
        Err(_) => None,
    }
}

/// The bytes of the pieces, one piece after the other.
pub(crate) fn joined(alloc: Global, pieces: &[&[u8]]) -> Option<Vec<u8>> {
    let mut bytes = Vec::new(alloc);
    for piece in pieces {
        if bytes.extend_from_slice(piece).is_err() {
            return None;
        }
    }
    Some(bytes)
}

/// Whether the pieces, one after the other, were written.
pub(crate) fn is_written(alloc: Global, written: &[u8], pieces: &[&[u8]]) -> bool {
    match joined(alloc, pieces) {
        None => false,
        Some(wanted) => written == wanted.as_slice(),
    }
}

fn sure_link_with(alloc: Global, bytes: Vec<u8>) -> Option<SureLink> {
    SureLink::new(alloc, bytes, 1000).ok()
}

/// A link that never fails, over which these pieces come, with room for 1,000 bytes to go.
pub(crate) fn sure_link(alloc: Global, pieces: &[&[u8]]) -> Option<SureLink> {
    match joined(alloc, pieces) {
        None => None,
        Some(bytes) => sure_link_with(alloc, bytes),
    }
}

/// The numbers of the calls that fail: this one alone.
fn one_call(alloc: Global, call: u64) -> Option<Vec<u64>> {
    let mut numbers = Vec::new(alloc);
    numbers.push(call).ok()?;
    Some(numbers)
}

/// A link over which these bytes come, with room for 1,000 bytes to go, of which the calls of these numbers fail.
pub(crate) fn list_link_with(alloc: Global, bytes: Vec<u8>, numbers: Vec<u64>) -> Option<ListLink> {
    ListLink::new(alloc, bytes, 1000, numbers).ok()
}

/// A link with a hello, a report and a quit, of which the call of this number fails.
fn list_link(alloc: Global, failing: u64) -> Option<ListLink> {
    let bytes = joined(alloc, &[HELLO, REPORT, QUIT])?;
    let numbers = one_call(alloc, failing)?;
    list_link_with(alloc, bytes, numbers)
}

/// Serves a session of an auction over a link, with a hall of its own.
fn serve_in<L: Link, T: Wait>(
    rt: &T,
    alloc: Global,
    auction: &Auction,
    link: &mut L,
) -> Option<SessionEnd> {
    match ListHall::open(alloc, &auction.terms) {
        Err(_) => None,
        Ok(mut hall) => Some(serve_hall(rt, alloc, auction, &mut hall, link)),
    }
}

/// The same in the auction of the two bidders.
fn serve<L: Link, T: Wait>(rt: &T, alloc: Global, link: &mut L) -> Option<SessionEnd> {
    match auction(alloc) {
        None => None,
        Some(auction) => serve_in(rt, alloc, &auction, link),
    }
}

/// Whether a session goes and ends so.
fn serves<T: Wait>(rt: &T, alloc: Global, case: &Case) -> bool {
    let (comes, goes, end) = case;
    match sure_link(alloc, comes) {
        None => false,
        Some(mut link) => {
            let found = serve(rt, alloc, &mut link);
            found == Some(*end) && is_written(alloc, link.written(), goes)
        }
    }
}

fn check<T: Wait + Abort>(rt: &T, alloc: Global, cases: &[Case]) {
    for case in cases {
        let served = serves(rt, alloc, case);
        assert!(rt; served, "{case:?}");
    }
}

fn fault(place: u64, kind: WireKind) -> SessionEnd {
    SessionEnd::Wire(WireFault { place, kind })
}

#[test]
fn each_frame_is_answered(rt: HostRuntime) {
    let comes = [
        b"\x00\x00\x00\x01\x02\x00".as_slice(),
        HELLO,
        b"\x00\x00\x00\x01\x02\x00",
        REPORT,
        REPORT,
        b"\x00\x00\x00\x01\x02\x01",
        b"\x00\x00\x00\x01\x02\x03",
        QUIT,
    ];
    let goes = [
        b"\x00\x00\x00\x06\x15\x01\x00\x00\x00\x00\x00".as_slice(),
        WELCOME,
        b"\x00\x00\x00\x0c\x12\x00\x00\x00\x00\x01\x00\x00\x01\x00\x00\x00\x00",
        TAKEN,
        AGAIN,
        b"\x00\x00\x00\x06\x15\x04\x00\x00\x00\x00\x01",
        b"\x00\x00\x00\x06\x15\x03\x00\x00\x00\x00\x03",
        BYE,
    ];
    check(&rt, rt.alloc(), &[(&comes, &goes, SessionEnd::Quit)]);
}

/// What comes, what goes, and the place and the kind of the fault.
type Faulty = (
    &'static [&'static [u8]],
    &'static [&'static [u8]],
    u64,
    WireKind,
);

const FAULTS: &[Faulty] = &[
    (
        &[b"\x00\x00\x80\x01"],
        &[b"\x00\x00\x00\x06\x15\x0e\x00\x00\x00\x80\x01"],
        0,
        WireKind::TooLong(32_769),
    ),
    (
        &[HELLO, b"\x00\x00\x00\x00\x09", QUIT],
        &[WELCOME, b"\x00\x00\x00\x06\x15\x0f\x00\x00\x00\x00\x09"],
        9,
        WireKind::UnknownKind(9),
    ),
    (
        &[WELCOME],
        &[b"\x00\x00\x00\x06\x15\x0f\x00\x00\x00\x00\x11"],
        0,
        WireKind::UnknownKind(17),
    ),
    (
        &[b"\x00\x00\x00\x02\x02\x00"],
        &[b"\x00\x00\x00\x06\x15\x10\x00\x00\x00\x00\x02"],
        0,
        WireKind::BadPayload { kind: 2, length: 2 },
    ),
    (
        &[b"\x00\x00\x00\x42\x01"],
        &[b"\x00\x00\x00\x06\x15\x10\x00\x00\x00\x00\x01"],
        0,
        WireKind::BadPayload {
            kind: 1,
            length: 66,
        },
    ),
    (
        &[
            HELLO,
            b"\x00\x00\x00\x08\x03\x00\x00\x00\x00\x01\x01\x00\x01",
        ],
        &[WELCOME, b"\x00\x00\x00\x06\x15\x10\x00\x00\x00\x00\x03"],
        9,
        WireKind::BadPayload { kind: 3, length: 8 },
    ),
];

#[test]
fn a_fault_is_answered_after_the_frames_and_ends_the_session(rt: HostRuntime) {
    for (comes, goes, place, kind) in FAULTS {
        check(&rt, rt.alloc(), &[(*comes, *goes, fault(*place, *kind))]);
    }
}

#[test]
fn a_session_ends_with_its_frames_or_its_input(rt: HostRuntime) {
    check(
        &rt,
        rt.alloc(),
        &[
            (&[], &[], SessionEnd::Closed { rest: 0 }),
            (&[b"\x00\x00"], &[], SessionEnd::Closed { rest: 2 }),
            (
                &[REPORT, HELLO, b"\x00\x00\x00\x01\x02"],
                &[b"\x00\x00\x00\x06\x15\x01\x00\x00\x00\x00\x00", WELCOME],
                SessionEnd::Closed { rest: 5 },
            ),
            (
                &[HELLO, HELLO, QUIT, REPORT],
                &[
                    WELCOME,
                    b"\x00\x00\x00\x06\x15\x0d\x00\x00\x00\x00\x00",
                    BYE,
                ],
                SessionEnd::Quit,
            ),
            (
                &[b"\x00\x00\x00\x04\x01\x01abd", HELLO],
                &[b"\x00\x00\x00\x06\x15\x02\x00\x00\x00\x00\x01"],
                SessionEnd::BadToken,
            ),
        ],
    );
}

/// Whether the session ends by the fault of this call of the link, with these replies before it.
fn is_cut<T: Wait>(rt: &T, alloc: Global, failing: u64, goes: &[&[u8]]) -> bool {
    match list_link(alloc, failing) {
        None => false,
        Some(mut link) => {
            let found = serve(rt, alloc, &mut link);
            found == Some(SessionEnd::LinkFault) && is_written(alloc, link.written(), goes)
        }
    }
}

/// The call that fails, and the replies before it.
const CUTS: [(u64, &[&[u8]]); 4] = [(0, &[]), (1, &[]), (2, &[WELCOME]), (3, &[WELCOME, TAKEN])];

#[test]
fn a_link_that_fails_ends_its_session(rt: HostRuntime) {
    for (failing, goes) in CUTS {
        let cut = is_cut(&rt, rt.alloc(), failing, goes);
        assert!(rt; cut, "call {failing}");
    }
}

/// The bytes of a hello, so many of the same report, and a quit.
fn long_talk(alloc: Global, reports: u32) -> Option<Vec<u8>> {
    let mut bytes = copy_of(alloc, HELLO)?;
    for _report in 0..reports {
        if bytes.extend_from_slice(REPORT).is_err() {
            return None;
        }
    }
    bytes.extend_from_slice(QUIT).ok()?;
    Some(bytes)
}

fn copy_of(alloc: Global, bytes: &[u8]) -> Option<Vec<u8>> {
    bytes.to_vec(alloc).ok()
}

/// A link over which these come, with room for ten bytes to go for each report.
fn long_link(alloc: Global, reports: u32) -> Option<SureLink> {
    SureLink::new(alloc, long_talk(alloc, reports)?, 2_000_000).ok()
}

/// How a session of so many of the same report ends, and how many bytes it is answered.
fn talks_long<T: Wait>(rt: &T, alloc: Global, reports: u32) -> Option<(SessionEnd, usize)> {
    let mut link = long_link(alloc, reports)?;
    let end = serve(rt, alloc, &mut link)?;
    Some((end, link.written().len()))
}

/// A report has 15 bytes, so that 2,100,000 come. Each is answered by ten.
#[test]
fn a_session_of_two_million_bytes_is_answered(rt: HostRuntime) -> Result<(), Fail> {
    let answered = WELCOME.len() + 10 * 140_000 + BYE.len();
    equal(
        talks_long(&rt, rt.alloc(), 140_000),
        Some((SessionEnd::Quit, answered)),
    )?;
    Ok(())
}
