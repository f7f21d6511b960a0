//! Serving at a door, one link after another.
ghost use Rattle.std.specs.Prelude.{◌≡◌, ◌≤◌, ◌<◌, ℕ, List, length, true, false, vec_len, vec_capacity};
ghost use Rattle.house_io.specs.Faults.{Rose};
ghost use Rattle.session.specs.Asking.{IsHallOf};
ghost use Rattle.house_serve.specs.Doors.{IsDoor};

use crate::ends::SessionEnd;
use crate::serving::serve_hall;
use auction_file::Auction;
use house_io::Door;
use session::Hall;
use std::alloc::Global;
use std::sync::Wait;

/// Serves so many links one after another, hangs each up at its door, notes how its session ended, and tells whether the door failed
/// before. It takes no memory for the notes, for which there is room.
pub fn serve_door<H: Hall, R: Door, T: Wait>(
    rt: &T,
    alloc: Global,
    auction: &Auction,
    hall: &mut H,
    door: &mut R,
    sessions: u32,
    ends: &mut Vec<SessionEnd>,
) -> bool
    requires order { H.in_order hall.old }
    requires hall { IsHallOf auction.now (H.supply hall.old) (H.bidders hall.old) }
    requires empty { (length ends.old.items ≡ 0) × (vec_len ends.old ≡ 0) }
    requires room { sessions ≤ vec_capacity ends.old }
    ensures door { IsDoor H.allows R.Link.told R.Link.faults auction.now (H.meaning hall.old) (H.meaning hall.new) (R.told door.old)
        (R.told door.new) ends.new.items }
    ensures done { result ≡ false → (vec_len ends.new ≡ sessions) × (R.faults door.new ≡ R.faults door.old) }
    ensures failed { result ≡ true → (vec_len ends.new < sessions) × Rose (R.faults door.old) (R.faults door.new) }
    ensures order { H.in_order hall.new }
    ensures stays { H.stays hall.old hall.new }
{
    for _session in 0..sessions {
        let Ok(mut link) = door.accept() else {
            return true;
        };
        let end = serve_hall(rt, alloc, auction, hall, &mut link);
        door.hang_up(link);
        ends.push_reserved(end);
    }
    false
}
