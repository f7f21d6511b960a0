//! Serving a house at doors on a net, from the disks of its journals to these disks again.
ghost use Rattle.std.specs.Prelude.{◌≡◌, ◌≤◌, ◌+◌, ℕ, List, length, map, true, false, vec_len, vec_capacity, IsTrue, IfOk, IfErr};
ghost use Rattle.std.specs.List.{AllByRecursion};
ghost use Rattle.lot_base.specs.declared.limits.TheConstants.{MOST_DOORS, MOST_SESSIONS};
ghost use Rattle.clock_family.specs.Houses.{AreAllOf, IsNewPass};
ghost use Rattle.clock.specs.Reports.{histories};
ghost use Rattle.clock_book.specs.Books.{IsKept};
ghost use Rattle.house_run.specs.GivingBack.{HasTaken, CountsDoors};
ghost use Rattle.house_run.specs.Hosting.{AreUnfailed, GivenOutcomeBy, HostOutcomeBy, HouseOutcomeBy, HouseUnused, IsReserved, LogsOutcome, net_end};

use crate::ends::{Ended, end_at};
use crate::giving_back::{close_doors, close_logs, has_failed, take_apart};
use crate::journals::Unread;
use auction_file::Auction;
use clock::Clock;
use clock_book::ClockBook;
use clock_family::{House, HousePass, NotOpen};
use house_io::{Disk, Door, Net, Refusal};
use house_serve::{DoorLog, NotServed, Served, SessionEnd, serve};
use lot_base::NoMemory;
use std::alloc::Global;
use std::sync::Wait;
use std::thread::Threads;

/// The clocks of a house that was served, and how the sessions at each of its doors ended.
#[derive(Drop)]
pub(crate) struct Hosted {
    /// Clock 0 first, each with the reports that it had when the house was closed.
    pub(crate) clocks: Vec<Clock>,
    /// A list for each door, in the order of the doors, of how its sessions ended.
    pub(crate) ends: Vec<Vec<SessionEnd>>,
}

/// Room for what is left of a house once it was closed. All lists are empty.
pub(crate) struct Reserved<D> {
    /// Room for each clock.
    clocks: Vec<Clock>,
    /// Room for a list of each door.
    ends: Vec<Vec<SessionEnd>>,
    /// Room for the disk of each clock.
    disks: Vec<D>,
}

/// Room for so many clocks and doors.
fn reserve<D>(alloc: Global, clocks: usize, doors: usize) -> Result<Reserved<D>, NoMemory>
    ensures { IfOk result (IsReserved clocks doors) }
{
    let clock_list = Vec::with_capacity(alloc, clocks)?;
    let ends = Vec::with_capacity(alloc, doors)?;
    let disks = Vec::with_capacity(alloc, clocks)?;
    Ok(Reserved {
        clocks: clock_list,
        ends,
        disks,
    })
}

/// How a command ends to which the net refuses its doors, or its link.
pub(crate) fn net_end(refusal: Refusal) -> Ended
    ensures { result ≡ net_end refusal }
{
    match refusal {
        Refusal::Failed => Ended::NetFault,
        Refusal::NoMemory => Ended::NoMemory,
    }
}

/// Closes a house that was not served, and gives the disks of its books.
fn close_house<D: Disk>(house: House<D>, passes: Vec<HousePass<D>>, room: Reserved<D>) -> Vec<D>
    requires all { AreAllOf house.desks passes.items }
    requires new { AllByRecursion (IsNewPass house) passes.items }
    requires room { IsReserved (length house.desks) 0 room }
    ensures { HouseUnused D.shown house.desks result.items }
{
    let Reserved {
        mut clocks,
        mut disks,
        ends: _,
    } = room;
    take_apart(house.close(passes), &mut clocks, &mut disks);
    disks
}

/// Gives the doors of a house that was served and closed back to the net, and takes its books apart.
fn close_served<D: Disk, N: Net>(
    books: Vec<ClockBook<D>>,
    logs: Vec<DoorLog<N::Door>>,
    net: &mut N,
    room: Reserved<D>,
) -> (Result<Hosted, Ended>, Vec<D>)
    requires { IsReserved (length books.items) (length logs.items) room }
    ensures disks { result.1.items ≡ map (λ book. book.disk) books.items }
    ensures kept { AllByRecursion (λ book. IsKept D.shown book) books.items }
    ensures lists { HasTaken N.Net (map (λ log. log.door) logs.items) net.old net.new }
    ensures faults { CountsDoors N.Net N.Door.Door (λ log. log.door) logs.items net.old net.new }
    ensures outcome { LogsOutcome books.items logs.items result.0 }
{
    let failed = has_failed(&logs);
    let Reserved {
        mut clocks,
        mut disks,
        mut ends,
    } = room;
    close_logs(net, logs, &mut ends);
    take_apart(books, &mut clocks, &mut disks);
    if failed {
        return (Err(Ended::NetFault), disks);
    }
    (Ok(Hosted { clocks, ends }), disks)
}

/// Serves a house at these doors and closes it. The doors go back to the net.
fn host_doors<T: Threads + Wait + Sync, D: Disk + Send, N: Net>(
    rt: &T,
    alloc: Global,
    auction: &Auction,
    house: House<D>,
    passes: Vec<HousePass<D>>,
    doors: Vec<N::Door>,
    sessions: u32,
    net: &mut N,
    room: Reserved<D>,
) -> (Result<Hosted, Ended>, Vec<D>)
    requires auction { house.terms ≡ auction.now.terms }
    requires passes { AreAllOf house.desks passes.items }
    requires new { AllByRecursion (IsNewPass house) passes.items }
    requires doors { (length doors.items ≡ length passes.items) × AreUnfailed N.Door.Door doors.items }
    requires sessions { (1 ≤ sessions) × (sessions ≤ MOST_SESSIONS) }
    requires room { IsReserved (length house.desks) (length doors.items) room }
    ensures { (address : List ℕ) → GivenOutcomeBy D.shown N.Net N.Door.Door N.Door.Link.Link auction.now address (length doors.items)
        sessions doors.items house.desks passes.items result.0 result.1.items net.old net.new }
{
    match serve(rt, alloc, auction, house, passes, doors, sessions) {
        Ok(served) => {
            let Served { books, doors } = served;
            close_served(books, doors, net, room)
        }
        Err(not_served) => {
            let NotServed {
                house,
                passes,
                doors,
            } = not_served;
            close_doors(net, doors);
            (Err(Ended::NoMemory), close_house(house, passes, room))
        }
    }
}

/// Serves a house at doors of the net and closes it.
fn host_house<T: Threads + Wait + Sync, D: Disk + Send, N: Net>(
    rt: &T,
    alloc: Global,
    auction: &Auction,
    house: House<D>,
    passes: Vec<HousePass<D>>,
    address: &str,
    doors: u32,
    sessions: u32,
    net: &mut N,
    room: Reserved<D>,
) -> (Result<Hosted, Ended>, Vec<D>)
    requires auction { house.terms ≡ auction.now.terms }
    requires passes { AreAllOf house.desks passes.items }
    requires new { AllByRecursion (IsNewPass house) passes.items }
    requires doors { length passes.items ≡ doors }
    requires sessions { (1 ≤ sessions) × (sessions ≤ MOST_SESSIONS) }
    requires room { IsReserved (length house.desks) doors room }
    ensures { HouseOutcomeBy D.shown N.Net N.Door.Door N.Door.Link.Link auction.now address.now doors sessions house.desks passes.items
        result.0 result.1.items net.old net.new }
{
    match net.doors(alloc, address, doors) {
        Ok(doors) => host_doors(
            rt, alloc, auction, house, passes, doors, sessions, net, room,
        ),
        Err(refusal) => (Err(net_end(refusal)), close_house(house, passes, room)),
    }
}

/// Opens a house on the disks of its journals, serves it at doors of the net, and closes it. The disks come back in order.
pub(crate) fn host<T: Threads + Wait + Sync, D: Disk + Send, N: Net>(
    rt: &T,
    alloc: Global,
    auction: &Auction,
    disks: Vec<D>,
    address: &str,
    doors: u32,
    sessions: u32,
    net: &mut N,
) -> (Result<Hosted, Ended>, Vec<D>)
    requires disks { length disks.items ≡ auction.now.terms.bidders + 1 }
    requires doors { (1 ≤ doors) × (doors ≤ MOST_DOORS) }
    requires sessions { (1 ≤ sessions) × (sessions ≤ MOST_SESSIONS) }
    ensures { HostOutcomeBy D.shown N.Net N.Door.Door N.Door.Link.Link auction.now address.now doors sessions disks.items result.0
        result.1.items net.old net.new }
{
    let Ok(room) = reserve(alloc, disks.len(), doors as usize) else {
        return (Err(Ended::NoMemory), disks);
    };
    match House::open(alloc, auction, disks, doors) {
        Ok((house, passes)) => host_house(
            rt, alloc, auction, house, passes, address, doors, sessions, net, room,
        ),
        Err(not_open) => {
            let NotOpen {
                disks,
                clock,
                fault,
            } = not_open;
            release(room);
            (Err(end_at(Unread { clock, fault })), disks)
        }
    }
}

/// Lets go of room that was not used.
fn release<D>(room: Reserved<D>)
    requires { length room.disks.items ≡ 0 }
{
    let Reserved {
        clocks: _,
        ends: _,
        disks,
    } = room;
    disks.destroy_empty();
}
