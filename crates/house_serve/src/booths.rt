//! Doors on threads, each with a pass of a house.
ghost use Rattle.std.specs.Prelude.{◌≡◌, ◌≤◌, ◌<◌, ℕ, All, length, slice_index_or, vec_len, vec_capacity};
ghost use Rattle.clock_family.specs.Turns.{AreOf};
ghost use Rattle.house_serve.specs.Booths.{WasServedBy};

use crate::doors::serve_door;
use crate::ends::SessionEnd;
use auction_file::Auction;
use clock_family::{House, HousePass, HouseSeat};
use house_io::{Disk, Door};
use std::alloc::Global;
use std::sync::Wait;
use std::thread;
use std::thread::Threads;

/// A door and a pass of a house, and what became of the door's sessions.
pub(crate) struct Booth<P, R> {
    /// The pass by which the sessions at the door take their turns, one session after another.
    pub(crate) pass: P,
    /// Where the links of the sessions come in.
    pub(crate) door: R,
    /// How each session ended, in order. Room for them is reserved.
    pub(crate) ends: Vec<SessionEnd>,
    /// The door failed before all sessions were served.
    pub(crate) failed: bool,
}

/// What all booths of a house share.
#[derive(Drop)]
struct Common<'a, H, T> {
    /// The runtime, by which a thread waits for its turn.
    rt: &'a T,
    /// Where the memory of the sessions comes from.
    alloc: Global,
    /// The auction of the house: tokens are compared with its digests.
    auction: &'a Auction,
    /// The house of which each booth has a pass.
    house: &'a H,
    /// How many sessions each booth serves.
    sessions: u32,
}

/// Serves at one booth.
fn serve_booth<D: Disk, R: Door, T: Wait>(
    common: &Common<House<D>, T>,
    booth: &mut Booth<HousePass<D>, R>,
)
    requires auction { common.now.house.now.terms ≡ common.now.auction.now.terms }
    requires of_house { AreOf common.now.house.now.terms common.now.house.now.digest common.now.house.now.desks booth.old.pass.passes }
    requires empty { (length booth.old.ends.items ≡ 0) × (vec_len booth.old.ends ≡ 0) }
    requires room { common.now.sessions ≤ vec_capacity booth.old.ends }
    ensures served { WasServedBy R.Door R.Link.Link common.now.auction.now common.now.sessions booth.old booth.new }
{
    let mut seat = HouseSeat {
        house: common.house,
        pass: &mut booth.pass,
    };
    booth.failed = serve_door(
        common.rt,
        common.alloc,
        common.auction,
        &mut seat,
        &mut booth.door,
        common.sessions,
        &mut booth.ends,
    );
    let HouseSeat { house: _, pass: _ } = seat;
}

/// Serves so many sessions at each booth, one after another, each booth on a thread of its own. Where no thread can be made the
/// booths are served one after another.
pub(crate) fn serve_booths<D: Disk + Send, R: Door + Send, T: Threads + Wait + Sync>(
    rt: &T,
    alloc: Global,
    auction: &Auction,
    house: &House<D>,
    booths: &mut [Booth<HousePass<D>, R>],
    sessions: u32,
)
where
    R::Link: Send,
    requires auction { house.now.terms ≡ auction.now.terms }
    requires of_house { All (λ c. AreOf house.now.terms house.now.digest house.now.desks c.pass.passes) booths.old }
    requires empty { All (λ c. (length c.ends.items ≡ 0) × (vec_len c.ends ≡ 0)) booths.old }
    requires room { All (λ c. sessions ≤ vec_capacity c.ends) booths.old }
    ensures count { length booths.new ≡ length booths.old }
    ensures served { (i : ℕ) (d : _) → i < length booths.old
        → WasServedBy R.Door R.Link.Link auction.now sessions (slice_index_or booths.old i d) (slice_index_or booths.new i d) }
{
    let common = Common {
        rt,
        alloc,
        auction,
        house,
        sessions,
    };
    thread::for_each_mut(
        rt,
        booths,
        booths.len().max(1),
        &|_, booth|
            requires { (common.house.now.terms ≡ common.auction.now.terms)
                × AreOf common.house.now.terms common.house.now.digest common.house.now.desks booth.now.pass.passes
                × ((length booth.now.ends.items ≡ 0) × (vec_len booth.now.ends ≡ 0))
                × (common.sessions ≤ vec_capacity booth.now.ends) }
        { serve_booth(&common, booth) },
    );
}
