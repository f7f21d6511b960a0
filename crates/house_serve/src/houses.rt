//! Serving at the doors of a house, from the opened house to its closed books.
ghost use Rattle.std.specs.Prelude.{◌≡◌, ◌≤◌, ℕ, length, IfOk, IfErr};
ghost use Rattle.lot_base.specs.declared.limits.TheConstants.{MOST_SESSIONS};
ghost use Rattle.std.specs.List.{AllByRecursion};
ghost use Rattle.clock_family.specs.Houses.{AreAllOf, IsNewPass};
ghost use Rattle.house_serve.specs.Houses.{IsServedBy};

use crate::booths::serve_booths;
use crate::ends::SessionEnd;
use crate::reserved::{Reserved, reserve, seat_all, unseat_all};
use auction_file::Auction;
use clock_book::ClockBook;
use clock_family::{House, HousePass};
use house_io::{Disk, Door};
use lot_base::NoMemory;
use std::alloc::Global;
use std::sync::Wait;
use std::thread::Threads;

/// What became of a door.
#[derive(Drop)]
pub struct DoorLog<R> {
    /// The door, with all links that it gave hung up.
    pub door: R,
    /// How each session ended, in order.
    pub ends: Vec<SessionEnd>,
    /// The door failed before all sessions were served.
    pub failed: bool,
}

/// The books of a house that was served and closed, in order of the clocks, and what became of its doors, in order.
pub struct Served<D: Disk, R> {
    /// Clock 0's first: one for each clock.
    pub books: Vec<ClockBook<D>>,
    /// In the order in which the doors were given.
    pub doors: Vec<DoorLog<R>>,
}

/// There was no memory to serve; nothing was accepted.
pub struct NotServed<D: Disk, R> {
    /// The house as it was given.
    pub house: House<D>,
    /// The passes as they were given.
    pub passes: Vec<HousePass<D>>,
    /// The doors as they were given.
    pub doors: Vec<R>,
}

/// Serves so many sessions at each door, one after another, each door on a thread of its own, and closes the house. Where no thread
/// can be made the doors are served one after another.
pub fn serve<D: Disk + Send, R: Door + Send, T: Threads + Wait + Sync>(
    rt: &T,
    alloc: Global,
    auction: &Auction,
    house: House<D>,
    passes: Vec<HousePass<D>>,
    doors: Vec<R>,
    sessions: u32,
) -> Result<Served<D, R>, NotServed<D, R>>
where
    R::Link: Send,
    requires auction { house.terms ≡ auction.now.terms }
    requires passes { AreAllOf house.desks passes.items }
    requires new { AllByRecursion (IsNewPass house) passes.items }
    requires doors { length doors.items ≡ length passes.items }
    requires sessions { (1 ≤ sessions) × (sessions ≤ MOST_SESSIONS) }
    ensures served { IfOk result (λ s. IsServedBy R.Door R.Link.Link auction.now sessions house passes.items doors.items
        s.books.items s.doors.items) }
    ensures refused { IfErr result (λ n. (n.house ≡ house) × (n.passes ≡ passes) × (n.doors ≡ doors)) }
{
    let room = match reserve(alloc, doors.len(), sessions) {
        Err(NoMemory) => {
            return Err(NotServed {
                house,
                passes,
                doors,
            });
        }
        Ok(room) => room,
    };
    let Reserved {
        notes,
        booths,
        rows,
        logs,
    } = room;
    let mut booths = seat_all(passes, doors, notes, booths);
    serve_booths(rt, alloc, auction, &house, &mut booths, sessions);
    let (passes, doors) = unseat_all(booths, rows, logs);
    let books = house.close(passes);
    Ok(Served { books, doors })
}
