//! A session over a link.
ghost use Rattle.std.specs.Prelude.{◌≡◌, ◌≤◌, ◌<◌, ◌+◌, ◌^◌, ◌++◌, [], ℕ, List, length, None};
ghost use Rattle.house_io.specs.Told.{IfTold};
ghost use Rattle.session.specs.Asking.{IsHallOf, IsSeated};
ghost use Rattle.session.specs.Turns.{Turn};
ghost use Rattle.house_serve.specs.Pieces.{HasEndCause};
ghost use Rattle.house_serve.specs.Serving.{IsSession, IsStep, HasStepCause};

use crate::ends::SessionEnd;
use crate::pieces::take_piece;
use auction_file::Auction;
use house_io::{Failed, Link};
use report_wire::{Reader, ToHouse};
use session::{Hall, Session};
use std::alloc::Global;
use std::sync::Wait;

/// The most bytes that one pull asks for.
const CHUNK: usize = 4_096;

/// How many bytes one session may take.
const MOST: u64 = 1_099_511_627_776;

/// What one pull came to: so many bytes and no end, or an end.
pub(crate) enum Step {
    /// So many bytes were taken, and the session goes on.
    Went(u64),
    /// The session has ended so.
    Ended(SessionEnd),
}

/// Pulls once, and answers what came.
fn pull_once<H: Hall, L: Link, T: Wait>(
    rt: &T,
    alloc: Global,
    auction: &Auction,
    reader: &mut Reader<ToHouse>,
    session: &mut Session,
    hall: &mut H,
    link: &mut L,
    chunk: &mut [u8],
) -> Step
    requires room { 0 < length chunk.old }
    requires whole { reader.old.fault ≡ None }
    requires seated { IsSeated auction.now session.old (H.in_order hall.old) (H.supply hall.old) (H.bidders hall.old) }
    ensures steps { IsStep H.allows auction.now (length chunk.new) reader.old session.old (H.meaning hall.old) (L.told link.old) reader.new
        session.new (H.meaning hall.new) (L.told link.new) result }
    ensures seated { IsSeated auction.now session.new (H.in_order hall.new) (H.supply hall.new) (H.bidders hall.new) }
    ensures stays { H.stays hall.old hall.new }
    ensures cause { HasStepCause (L.faults link.old) (L.faults link.new) result }
{
    let count = match link.pull(chunk) {
        Ok(0) => {
            return Step::Ended(SessionEnd::Closed {
                rest: reader.rest(),
            });
        }
        Ok(count) => count,
        Err(Failed) => return Step::Ended(SessionEnd::LinkFault),
    };
    match take_piece(
        rt,
        alloc,
        auction,
        reader,
        session,
        hall,
        link,
        &chunk[..count],
    ) {
        None => Step::Went(count as u64),
        Some(end) => Step::Ended(end),
    }
}

/// Serves a session over a link, from its first byte to its end, and asks this hall. The frames of a piece are answered in order, before
/// the next piece is pulled.
///
/// The end is that of the bytes: `Quit` or `BadToken` by the last frame, `Wire` by a fault in the next frame's place, `Closed` at the
/// end of input, `Spent` where as many bytes were taken as one session may. `LinkFault` comes only where a call on the link failed,
/// and `NoMemory` where memory ran out.
pub fn serve_hall<H: Hall, L: Link, T: Wait>(
    rt: &T,
    alloc: Global,
    auction: &Auction,
    hall: &mut H,
    link: &mut L,
) -> SessionEnd
    requires order { H.in_order hall.old }
    requires hall { IsHallOf auction.now (H.supply hall.old) (H.bidders hall.old) }
    ensures session { (turns : List (Turn H.Meaning))
        × IsSession H.allows auction.now turns (H.meaning hall.old) (H.meaning hall.new) (L.told link.old) (L.told link.new) result }
    ensures cause { HasEndCause (L.faults link.old) (L.faults link.new) result }
    ensures order { H.in_order hall.new }
    ensures stays { H.stays hall.old hall.new }
{
    // A piece is kept off the stack of a thread.
    match vec![in alloc; 0u8; CHUNK] {
        Ok(mut chunk) => serve_pieces(rt, alloc, auction, hall, link, &mut chunk),
        Err(_) => SessionEnd::NoMemory,
    }
}

/// The same, by pulls into this piece.
fn serve_pieces<H: Hall, L: Link, T: Wait>(
    rt: &T,
    alloc: Global,
    auction: &Auction,
    hall: &mut H,
    link: &mut L,
    chunk: &mut [u8],
) -> SessionEnd
    requires chunk { length chunk.old ≡ CHUNK }
    requires order { H.in_order hall.old }
    requires hall { IsHallOf auction.now (H.supply hall.old) (H.bidders hall.old) }
    ensures session { (turns : List (Turn H.Meaning))
        × IsSession H.allows auction.now turns (H.meaning hall.old) (H.meaning hall.new) (L.told link.old) (L.told link.new) result }
    ensures cause { HasEndCause (L.faults link.old) (L.faults link.new) result }
    ensures order { H.in_order hall.new }
    ensures stays { H.stays hall.old hall.new }
{
    let mut reader = Reader::<ToHouse>::new(alloc);
    let mut session = Session::new();
    let mut taken = 0;
    'pieces: while taken < MOST {
        let room = (MOST - taken).min(CHUNK as u64) as usize;
        match pull_once(
            rt,
            alloc,
            auction,
            &mut reader,
            &mut session,
            hall,
            link,
            &mut chunk[..room],
        ) {
            Step::Went(count) => taken += count,
            Step::Ended(end) => return end,
        }
    }
    SessionEnd::Spent
}
