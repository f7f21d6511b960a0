//! A session over a link at a house.
ghost use Rattle.std.specs.Prelude.{◌≡◌, List};
ghost use Rattle.session.specs.Turns.{Turn};
ghost use Rattle.clock_family.specs.Houses.{HousePassOf, all_still};
ghost use Rattle.clock_family.specs.Turns.{AreOf};
ghost use Rattle.house_serve.specs.Houses.{PassAllows};
ghost use Rattle.house_serve.specs.Pieces.{HasEndCause};
ghost use Rattle.house_serve.specs.Serving.{IsSession};

use crate::ends::SessionEnd;
use crate::serving::serve_hall;
use auction_file::Auction;
use clock_family::{House, HousePass, HouseSeat};
use house_io::{Disk, Link};
use std::alloc::Global;
use std::sync::Wait;

/// Serves a session over a link at a house, from its first byte to its end: each frame that asks the house does so once, in order, by
/// this pass, and what the pass made of a clock grows by the session's reports alone.
///
/// The ends are those of `serve_hall`.
pub fn serve_link<D: Disk, L: Link, T: Wait>(
    rt: &T,
    alloc: Global,
    auction: &Auction,
    house: &House<D>,
    pass: &mut HousePass<D>,
    link: &mut L,
) -> SessionEnd
    requires auction { house.now.terms ≡ auction.now.terms }
    requires of_house { AreOf house.now.terms house.now.digest house.now.desks pass.old.passes }
    ensures session { (turns : List (Turn HousePassOf))
        × IsSession PassAllows auction.now turns pass.old pass.new (L.told link.old) (L.told link.new) result }
    ensures cause { HasEndCause (L.faults link.old) (L.faults link.new) result }
    ensures of_house { AreOf house.now.terms house.now.digest house.now.desks pass.new.passes }
    ensures stays { all_still pass.new ≡ all_still pass.old }
{
    let mut seat = HouseSeat { house, pass };
    let end = serve_hall(rt, alloc, auction, &mut seat, link);
    let HouseSeat { house: _, pass: _ } = seat;
    end
}
