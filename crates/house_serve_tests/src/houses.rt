//! A house that is served at two doors, each on a thread of its own, and closed.
use crate::tests::{BYE, HELLO, QUIT, REPORT, TAKEN, WELCOME, auction, is_written, sure_link};
use auction_file::Auction;
use clock_book::ClockBook;
use clock_family::{House, NotOpen};
use expected_values::equal;
use house_io::{SureDisk, SureDoor, SureLink};
use house_serve::{DoorLog, NotServed, Served, SessionEnd, serve};
use lot_base::Phase;
use std::alloc::Global;
use std::sync::Wait;
use std::test::Fail;
use std::thread::Threads;

/// Bidder 1 wants the unit, and says so to the clock of all and to that without bidder 2.
const FIRST: &[&[u8]] = &[
    HELLO,
    REPORT,
    b"\x00\x00\x00\x0a\x03\x02\x00\x00\x00\x01\x01\x00\x01\x00\x01",
    QUIT,
];

/// What it is told.
const TO_FIRST: &[&[u8]] = &[
    WELCOME,
    TAKEN,
    b"\x00\x00\x00\x05\x13\x02\x00\x00\x00\x01",
    BYE,
];

/// Bidder 2 takes the unit or nothing, and says so to the clock of all and to that without bidder 1.
const SECOND: &[&[u8]] = &[
    b"\x00\x00\x00\x06\x01\x02hello",
    b"\x00\x00\x00\x0c\x03\x00\x00\x00\x00\x01\x01\x00\x02\x00\x00\x00\x01",
    b"\x00\x00\x00\x0c\x03\x01\x00\x00\x00\x01\x01\x00\x02\x00\x00\x00\x01",
    QUIT,
];

/// What it is told.
const TO_SECOND: &[&[u8]] = &[
    WELCOME,
    TAKEN,
    b"\x00\x00\x00\x05\x13\x01\x00\x00\x00\x01",
    BYE,
];

fn one_link(alloc: Global, link: SureLink) -> Option<Vec<SureLink>> {
    let mut links = Vec::new(alloc);
    links.push(link).ok()?;
    Some(links)
}

fn door_with(alloc: Global, links: Vec<SureLink>) -> Option<SureDoor> {
    SureDoor::new(alloc, links).ok()
}

/// A door with one link, on which these frames come.
fn door_of(alloc: Global, frames: &[&[u8]]) -> Option<SureDoor> {
    let link = sure_link(alloc, frames)?;
    let links = one_link(alloc, link)?;
    door_with(alloc, links)
}

fn both_doors(alloc: Global, first: SureDoor, second: SureDoor) -> Option<Vec<SureDoor>> {
    let mut doors = Vec::new(alloc);
    doors.push(first).ok()?;
    doors.push(second).ok()?;
    Some(doors)
}

/// Two doors, at each of which a bidder comes in once.
fn two_doors(alloc: Global) -> Option<Vec<SureDoor>> {
    let first = door_of(alloc, FIRST)?;
    let second = door_of(alloc, SECOND)?;
    both_doors(alloc, first, second)
}

fn empty_disk(alloc: Global) -> Option<SureDisk> {
    SureDisk::new(alloc, Vec::new(alloc), 10_000).ok()
}

/// Puts an empty disk after others, if there is memory.
fn push_disk(alloc: Global, disks: &mut Vec<SureDisk>) -> bool {
    match empty_disk(alloc) {
        None => false,
        Some(disk) => disks.push(disk).is_ok(),
    }
}

/// So many empty disks in memory.
fn empty_disks(alloc: Global, count: usize) -> Option<Vec<SureDisk>> {
    let mut disks = Vec::new(alloc);
    for _ in 0..count {
        if !push_disk(alloc, &mut disks) {
            return None;
        }
    }
    Some(disks)
}

/// Opens a house on these disks, one for each clock, serves one session at each of two doors, and closes it.
fn serve_once<T: Threads + Wait + Sync>(
    rt: &T,
    alloc: Global,
    auction: &Auction,
    disks: Vec<SureDisk>,
    doors: Vec<SureDoor>,
) -> Option<Served<SureDisk, SureDoor>> {
    if disks.len() != auction.terms.bidders as usize + 1 || doors.len() != 2 {
        return None;
    }
    match House::open(alloc, auction, disks, 2) {
        Err(
            NotOpen {
                disks: _disks,
                clock: _clock,
                fault: _fault,
            },
        ) => None,
        Ok((house, passes)) => match serve(rt, alloc, auction, house, passes, doors, 1) {
            Err(
                NotServed {
                    house,
                    passes,
                    doors: _doors,
                },
            ) => {
                let _books = house.close(passes);
                None
            }
            Ok(served) => Some(served),
        },
    }
}

/// A house of an auction that was served once at two doors, and closed.
fn served_once<T: Threads + Wait + Sync>(
    rt: &T,
    alloc: Global,
    auction: &Auction,
) -> Option<Served<SureDisk, SureDoor>> {
    let disks = empty_disks(alloc, auction.terms.bidders as usize + 1)?;
    let doors = two_doors(alloc)?;
    serve_once(rt, alloc, auction, disks, doors)
}

/// Whether the door's one session ended by a quit, and was answered so.
fn went(alloc: Global, log: &DoorLog<SureDoor>, replies: &[&[u8]]) -> bool {
    let written = match log.door.hung_up() {
        [link] => is_written(alloc, link.written(), replies),
        _ => false,
    };
    written && !log.failed && log.ends.as_slice() == [SessionEnd::Quit].as_slice()
}

/// Whether there are two doors, and the sessions of both went as they should.
fn both_went(alloc: Global, doors: &[DoorLog<SureDoor>]) -> bool {
    match doors {
        [first, second] => went(alloc, first, TO_FIRST) && went(alloc, second, TO_SECOND),
        _ => false,
    }
}

/// Whether the clock has ended at a price of 0.
fn ended(book: &ClockBook<SureDisk>) -> bool {
    let look = book.look();
    look.phase == Phase::Ended && look.prices.as_slice() == [0].as_slice()
}

/// Whether both doors went as they should, how many clocks there are, and whether each has ended at a price of 0.
fn outcome<T: Threads + Wait + Sync>(rt: &T, alloc: Global) -> Option<(bool, usize, bool)> {
    let auction = auction(alloc)?;
    match served_once(rt, alloc, &auction) {
        None => None,
        Some(Served { books, doors }) => Some((
            both_went(alloc, &doors),
            books.len(),
            books.iter().all(ended),
        )),
    }
}

#[test]
fn a_house_is_served_at_two_doors_and_closed(rt: HostRuntime) -> Result<(), Fail> {
    equal(outcome(&rt, rt.alloc()), Some((true, 3, true)))?;
    Ok(())
}
