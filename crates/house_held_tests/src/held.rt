//! Three cases of two bidders at two doors, each of whom reports to a clock of its own.
ghost use Rattle.std.specs.Prelude.{◌≡◌, ◌+◌, length, IfOk};

use crate::flags::{FlagDoor, FlagGate, FlagLink};
use auction_file::{Auction, MOST_BYTES, read};
use clock_family::{House, NotOpen};
use house_io::{GatedDisk, SureDisk, SureLink};
use house_serve::{NotServed, Served, SessionEnd, serve};
use std::alloc::Global;
use std::process::Abort;
use std::sync::Wait;
use std::sync::atomic::AtomicBool;
use std::sync::atomic::Ordering::SeqCst;
use std::test::Fail;
use std::thread::Threads;

/// One unit of one good for two bidders, whose tokens are `abc` and `hello`.
pub(crate) const FILE: &str = r#"
version = 1
ceiling = 10

[[goods]]
name = "oil"
supply = 1

[[bidders]]
name = "ada"
token = "ba7816bf8f01cfea414140de5dae2223b00361a396177a9cb410ff61f20015ad"

[[bidders]]
name = "bob"
token = "2cf24dba5fb0a30e26e83b2ac5b9e29e1b161e5c1fa7425e73043362938b9824"
"#;

/// Bidder 1 says hello, reports one unit to clock 2 in round 1, and quits.
pub(crate) const ADA: &[u8] =
    b"\x00\x00\x00\x04\x01\x01abc\x00\x00\x00\x0a\x03\x02\x00\x00\x00\x01\x01\x00\x01\x00\x01\x00\x00\x00\x00\x04";

/// Bidder 2 says hello, reports none or one unit to clock 1 in round 1, and quits.
const BOB: &[u8] =
    b"\x00\x00\x00\x06\x01\x02hello\x00\x00\x00\x0c\x03\x01\x00\x00\x00\x01\x01\x00\x02\x00\x00\x00\x01\x00\x00\x00\x00\x04";

/// The flags of a case: a gate was reached, a report was answered, or a wait was given up.
#[derive(Drop)]
struct Flags {
    /// The gate of a clock on which neither bidder reports was reached.
    reached_none: AtomicBool,
    /// The gate of clock 1 was reached: the report to it is about to be written.
    reached_one: AtomicBool,
    /// The gate of clock 2 was reached: the report to it is about to be written.
    reached_two: AtomicBool,
    /// At the first door bidder 1 was answered that its report to clock 2 was taken.
    taken_at_first: AtomicBool,
    /// At the second door bidder 2 was answered that its report to clock 1 was taken.
    taken_at_second: AtomicBool,
    /// A gate gave up its wait. No test that goes well raises it.
    late: AtomicBool,
}

fn no_flags() -> Flags {
    Flags {
        reached_none: AtomicBool::new(false),
        reached_one: AtomicBool::new(false),
        reached_two: AtomicBool::new(false),
        taken_at_first: AtomicBool::new(false),
        taken_at_second: AtomicBool::new(false),
        late: AtomicBool::new(false),
    }
}

/// What the gates of the disks of clocks 1 and 2 wait for.
#[derive(Clone, Copy)]
enum Case {
    /// Clock 2's disk waits until the report to clock 1 was answered.
    SecondWaits,
    /// Clock 1's disk waits until the report to clock 2 was answered.
    FirstWaits,
    /// Each waits until the other was reached.
    BothWait,
}

/// A journal of a clock that was formed and has no record.
fn formed(alloc: Global, auction: &Auction, clock: u8) -> Result<Vec<u8>, Fail> {
    let mut bytes = Vec::new(alloc);
    bytes.extend_from_slice(b"\xa5AHJ1\x00\x00\x00")?;
    bytes.push(clock)?;
    bytes.extend_from_slice(&auction.digest)?;
    bytes.push(0)?;
    Ok(bytes)
}

type Held<'a> = GatedDisk<SureDisk, FlagGate<'a>>;

fn held_disk<'a>(
    alloc: Global,
    auction: &Auction,
    clock: u8,
    gate: FlagGate<'a>,
) -> Result<Held<'a>, Fail> {
    let disk = SureDisk::new(alloc, formed(alloc, auction, clock)?, 1000)?;
    Ok(GatedDisk { disk, gate })
}

/// The gate of a clock's disk. Those of clocks 1 and 2 wait as the case says, and any other waits for nothing.
fn gate_of<'a>(flags: &'a Flags, case: Case, clock: u8) -> FlagGate<'a> {
    let (reached, awaited) = match (clock, case) {
        (1, Case::FirstWaits) => (&flags.reached_one, Some(&flags.taken_at_first)),
        (1, Case::BothWait) => (&flags.reached_one, Some(&flags.reached_two)),
        (1, Case::SecondWaits) => (&flags.reached_one, None),
        (2, Case::SecondWaits) => (&flags.reached_two, Some(&flags.taken_at_second)),
        (2, Case::BothWait) => (&flags.reached_two, Some(&flags.reached_one)),
        (2, Case::FirstWaits) => (&flags.reached_two, None),
        _ => (&flags.reached_none, None),
    };
    FlagGate {
        reached,
        awaited,
        late: &flags.late,
    }
}

/// A disk for each clock.
fn disks<'a>(
    alloc: Global,
    auction: &Auction,
    flags: &'a Flags,
    case: Case,
) -> Result<Vec<Held<'a>>, Fail>
    ensures { IfOk result (λ disks. length disks.items ≡ auction.now.terms.bidders + 1) }
{
    let mut disks = Vec::new(alloc);
    for clock in 0..auction.terms.bidders + 1 {
        let gate = gate_of(flags, case, clock);
        disks.push(held_disk(alloc, auction, clock, gate)?)?;
    }
    Ok(disks)
}

fn door<'a>(alloc: Global, bytes: &[u8], taken: &'a AtomicBool) -> Result<FlagDoor<'a>, Fail> {
    let link = SureLink::new(alloc, bytes.to_vec(alloc)?, 1000)?;
    Ok(FlagDoor {
        link: Some(FlagLink {
            link,
            pushed: 0,
            taken,
        }),
        faults: 0,
    })
}

/// A door for each bidder.
fn two_doors<'a>(alloc: Global, flags: &'a Flags) -> Result<Vec<FlagDoor<'a>>, Fail>
    ensures { IfOk result (λ doors. length doors.items ≡ 2) }
{
    let mut doors = Vec::new(alloc);
    doors.push(door(alloc, ADA, &flags.taken_at_first)?)?;
    doors.push(door(alloc, BOB, &flags.taken_at_second)?)?;
    Ok(doors)
}

/// Opens a house on the disks, and serves one session at each door.
fn serve_once<'a, T: Threads + Wait + Sync>(
    rt: &T,
    alloc: Global,
    auction: &Auction,
    disks: Vec<Held<'a>>,
    doors: Vec<FlagDoor<'a>>,
) -> Result<Served<Held<'a>, FlagDoor<'a>>, Fail>
    requires disks { length disks.items ≡ auction.now.terms.bidders + 1 }
    requires doors { length doors.items ≡ 2 }
{
    match House::open(alloc, auction, disks, 2) {
        Err(
            NotOpen {
                disks: _disks,
                clock: _clock,
                fault: _fault,
            },
        ) => Err("not opened".into()),
        Ok((house, passes)) => match serve(rt, alloc, auction, house, passes, doors, 1) {
            Err(
                NotServed {
                    house,
                    passes,
                    doors: _doors,
                },
            ) => {
                let _books = house.close(passes);
                Err("not served".into())
            }
            Ok(served) => Ok(served),
        },
    }
}

/// Serves both bidders, and tells whether each session went well and no wait was given up.
fn goes_well<T: Threads + Wait + Sync>(
    rt: &T,
    alloc: Global,
    auction: &Auction,
    case: Case,
) -> Result<bool, Fail> {
    let flags = no_flags();
    let disks = disks(alloc, auction, &flags, case)?;
    let doors = two_doors(alloc, &flags)?;
    let Served { books: _, doors } = serve_once(rt, alloc, auction, disks, doors)?;
    let mut well = !flags.late.load(SeqCst);
    for log in &doors {
        well = well && log.ends.as_slice() == [SessionEnd::Quit].as_slice();
    }
    Ok(well)
}

#[test]
fn rounds_of_two_clocks_are_filled_at_once(rt: HostRuntime) -> Result<(), Fail> {
    assert!(rt; FILE.len() <= MOST_BYTES);
    let auction = read(rt.alloc(), FILE.as_bytes())?;
    for case in [Case::SecondWaits, Case::FirstWaits, Case::BothWait] {
        assert!(rt; goes_well(&rt, rt.alloc(), &auction, case)?);
    }
    Ok(())
}
