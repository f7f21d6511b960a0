//! Doors that are served at once: no session goes on before one has begun at each door.
ghost use Rattle.std.specs.Prelude.{None};

use crate::held::{ADA, FILE};
use auction_file::{Auction, MOST_BYTES, read};
use clock_family::{House, NotOpen};
use expected_values::equal;
use house_io::{Door, Failed, Link, SureDisk, SureLink};
use house_serve::{DoorLog, NotServed, Served, SessionEnd, serve};
use std::alloc::Global;
use std::sync::Wait;
use std::sync::atomic::Ordering::SeqCst;
use std::sync::atomic::{AtomicBool, AtomicU32};
use std::test::Fail;
use std::thread;
use std::thread::Threads;
use std::time::Duration;

/// How many milliseconds a session waits for the others before it gives up.
const PATIENCE: u32 = 10_000;

/// What the sessions share.
#[derive(Drop)]
struct Crowd<'a> {
    /// By which they wait.
    rt: &'a HostRuntime,
    /// How many there are.
    count: u32,
    /// How many have begun.
    begun: AtomicU32,
    /// A session gave up. No test that goes well raises it.
    late: AtomicBool,
}

impl<'a> Crowd<'a> {
    /// Waits until all have begun.
    fn gather(&self) {
        self.begun.fetch_add(1, SeqCst);
        for _look in 0..PATIENCE {
            if self.begun.load(SeqCst) >= self.count || self.late.load(SeqCst) {
                return;
            }
            thread::sleep(self.rt, Duration::from_millis(1));
        }
        self.late.store(true, SeqCst);
    }
}

/// A link in memory that gives its first bytes once all have begun. It tells nothing.
#[derive(Drop)]
struct CrowdLink<'a> {
    /// What is pulled comes from it, and what is pushed goes to it.
    link: SureLink,
    /// Those that begin with it.
    crowd: &'a Crowd<'a>,
    /// Whether it was pulled from.
    has_begun: bool,
}

impl<'a> Link for CrowdLink<'a> {
    ghost told = { λ _. None };

    ghost faults = { λ _. 0 };

    fn pull(&mut self, into: &mut [u8]) -> Result<usize, Failed> {
        if !self.has_begun {
            self.has_begun = true;
            self.crowd.gather();
        }
        self.link.pull(into)
    }

    fn push(&mut self, from: &[u8]) -> Result<usize, Failed> {
        self.link.push(from)
    }
}

/// A door with one such link. It tells nothing.
#[derive(Drop)]
struct CrowdDoor<'a> {
    /// The link that it has yet to give. None once it was given.
    link: Option<CrowdLink<'a>>,
    /// How often a link was asked for that was not there.
    faults: u64,
}

impl<'a> Door for CrowdDoor<'a> {
    type Link = CrowdLink<'a>;

    ghost told = { λ _. None };

    ghost faults = { λ door. door.faults };

    fn accept(&mut self) -> Result<CrowdLink<'a>, Failed> {
        match self.link.take() {
            Some(link) => Ok(link),
            None => {
                self.faults = self.faults.saturating_add(1);
                Err(Failed)
            }
        }
    }

    fn hang_up(&mut self, _link: CrowdLink<'a>) {}
}

fn link_of(alloc: Global) -> Option<SureLink> {
    SureLink::new(alloc, ADA.to_vec(alloc).ok()?, 1000).ok()
}

/// Puts the door of a crowd after others, if there is memory.
fn push_door<'a>(alloc: Global, crowd: &'a Crowd<'a>, doors: &mut Vec<CrowdDoor<'a>>) -> bool {
    match link_of(alloc) {
        None => false,
        Some(link) => doors
            .push(CrowdDoor {
                link: Some(CrowdLink {
                    link,
                    crowd,
                    has_begun: false,
                }),
                faults: 0,
            })
            .is_ok(),
    }
}

/// All doors of a crowd.
fn doors_of<'a>(alloc: Global, crowd: &'a Crowd<'a>) -> Option<Vec<CrowdDoor<'a>>> {
    let mut doors = Vec::new(alloc);
    for _door in 0..crowd.count {
        if !push_door(alloc, crowd, &mut doors) {
            return None;
        }
    }
    Some(doors)
}

fn push_disk(alloc: Global, disks: &mut Vec<SureDisk>) -> bool {
    match SureDisk::new(alloc, Vec::new(alloc), 10_000) {
        Err(_) => false,
        Ok(disk) => disks.push(disk).is_ok(),
    }
}

/// So many empty disks in memory.
fn empty_disks(alloc: Global, count: u8) -> Option<Vec<SureDisk>> {
    let mut disks = Vec::new(alloc);
    for _disk in 0..count {
        if !push_disk(alloc, &mut disks) {
            return None;
        }
    }
    Some(disks)
}

/// Opens a house on these disks, and serves one session at each door.
fn serve_once<'a, T: Threads + Wait + Sync>(
    rt: &T,
    alloc: Global,
    auction: &Auction,
    disks: Vec<SureDisk>,
    doors: Vec<CrowdDoor<'a>>,
) -> Option<Served<SureDisk, CrowdDoor<'a>>> {
    let count = doors.len();
    if disks.len() != auction.terms.bidders as usize + 1 || count < 1 || count > 64 {
        return None;
    }
    match House::open(alloc, auction, disks, count as u32) {
        Err(
            NotOpen {
                disks: _disks,
                clock: _clock,
                fault: _fault,
            },
        ) => None,
        Ok((house, passes)) => match serve(rt, alloc, auction, house, passes, doors, 1) {
            Err(
                NotServed {
                    house,
                    passes,
                    doors: _doors,
                },
            ) => {
                let _books = house.close(passes);
                None
            }
            Ok(served) => Some(served),
        },
    }
}

/// The auction of the two bidders.
fn auction_of(alloc: Global) -> Option<Auction> {
    if FILE.len() > MOST_BYTES {
        return None;
    }
    read(alloc, FILE.as_bytes()).ok()
}

fn went<'a>(log: &DoorLog<CrowdDoor<'a>>) -> bool {
    !log.failed && log.ends.as_slice() == [SessionEnd::Quit].as_slice()
}

/// How many doors of a crowd were served whose session went well.
fn serve_crowd<'a, T: Threads + Wait + Sync>(
    rt: &T,
    alloc: Global,
    crowd: &'a Crowd<'a>,
) -> Option<usize> {
    let auction = auction_of(alloc)?;
    let disks = empty_disks(alloc, auction.terms.bidders + 1)?;
    let doors = doors_of(alloc, crowd)?;
    let Served { books: _, doors } = serve_once(rt, alloc, &auction, disks, doors)?;
    Some(doors.iter().filter(|log| went(log)).count())
}

#[test]
fn all_doors_are_served_at_once(rt: HostRuntime) -> Result<(), Fail> {
    for count in [1, 13, 64] {
        let crowd = Crowd {
            rt: &rt,
            count,
            begun: AtomicU32::new(0),
            late: AtomicBool::new(false),
        };
        let went = serve_crowd(&rt, rt.alloc(), &crowd);
        equal(went, Some(count as usize))?;
        assert!(rt; !crowd.late.load(SeqCst), "{count} doors");
    }
    Ok(())
}
