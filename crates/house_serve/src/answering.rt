//! Answering frames over a link.
ghost use Rattle.std.specs.Prelude.{◌≡◌, ◌≤◌, ◌++◌, [], ◌∷◌, ℕ, List, map, MatchOption, MatchResult};
ghost use Rattle.std.specs.List.{AllByRecursion};
ghost use Rattle.house_io.specs.Told.{IfTold};
ghost use Rattle.house_io.specs.Faults.{HasCause};
ghost use Rattle.report_wire.specs.Frames.{IsMessage, IsSent, spelling};
ghost use Rattle.report_wire.specs.Messages.{to_house, house_kind, house_payload, house_sent, to_bidder, bidder_kind, bidder_payload};
ghost use Rattle.session.specs.Asking.{IsSeated};
ghost use Rattle.house_serve.specs.Ends.{end_by};
ghost use Rattle.house_serve.specs.Pieces.{Adds, Answers, IsSentBy, HasCutCause, HasCauseBy};

use crate::ends::SessionEnd;
use auction_file::Auction;
use house_io::{Failed, Link, send_whole};
use lot_base::NoMemory;
use report_wire::{Frame, ToBidder, ToHouse};
use session::{Hall, Session};
use std::alloc::Global;
use std::sync::Wait;

/// Why a reply was not sent whole.
#[derive(Clone, Copy, Debug, PartialEq, Eq)]
pub(crate) enum Cut {
    /// A call on the link failed; a front of the reply may have been written.
    LinkFault,
    /// Memory ran out; nothing of the reply was written.
    NoMemory,
}

/// Sends a reply.
pub(crate) fn send_reply<L: Link>(alloc: Global, link: &mut L, reply: &ToBidder) -> Result<(), Cut>
    requires { IsMessage to_bidder (bidder_kind reply.now) (bidder_payload reply.now) }
    ensures sent { IfTold (L.told link.old) (L.told link.new)
        (IsSentBy result (spelling (bidder_kind reply.now) (bidder_payload reply.now))) }
    ensures cause { HasCutCause (L.faults link.old) (L.faults link.new) result }
{
    let bytes = match reply.encode(alloc) {
        Ok(bytes) => bytes,
        Err(NoMemory) => return Err(Cut::NoMemory),
    };
    match send_whole(link, &bytes) {
        Ok(()) => Ok(()),
        Err(Failed) => Err(Cut::LinkFault),
    }
}

/// The end by a frame after which the session does not go on.
fn end_by(frame: &ToHouse) -> SessionEnd
    ensures { result ≡ end_by frame.now }
{
    match frame {
        ToHouse::Hello { .. } => SessionEnd::BadToken,
        ToHouse::Look { .. } | ToHouse::Report { .. } | ToHouse::Quit => SessionEnd::Quit,
    }
}

/// Answers one frame.
fn answer_one<H: Hall, L: Link, T: Wait>(
    rt: &T,
    alloc: Global,
    auction: &Auction,
    session: &mut Session,
    hall: &mut H,
    link: &mut L,
    frame: ToHouse,
) -> Option<SessionEnd>
    requires formed { IsMessage to_house (house_kind frame) (house_payload frame) }
    requires seated { IsSeated auction.now session.old (H.in_order hall.old) (H.supply hall.old) (H.bidders hall.old) }
    ensures answers { Answers H.allows auction.now (frame ∷ []) session.old (H.meaning hall.old) (L.told link.old) session.new
        (H.meaning hall.new) (L.told link.new) result }
    ensures seated { IsSeated auction.now session.new (H.in_order hall.new) (H.supply hall.new) (H.bidders hall.new) }
    ensures stays { H.stays hall.old hall.new }
    ensures cause { HasCauseBy (L.faults link.old) (L.faults link.new) result }
{
    let end = end_by(&frame);
    let answer = session.answer(rt, alloc, auction, hall, frame);
    match send_reply(alloc, link, &answer.reply) {
        Err(Cut::LinkFault) => return Some(SessionEnd::LinkFault),
        Err(Cut::NoMemory) => return Some(SessionEnd::NoMemory),
        Ok(()) => {}
    }
    if answer.goes_on {
        return None;
    }
    Some(end)
}

/// Answers the frames up to the first that ends the session.
pub(crate) fn answer_all<H: Hall, L: Link, T: Wait>(
    rt: &T,
    alloc: Global,
    auction: &Auction,
    session: &mut Session,
    hall: &mut H,
    link: &mut L,
    frames: Vec<ToHouse>,
) -> Option<SessionEnd>
    requires formed { AllByRecursion (IsSent to_house) (map house_sent frames.items) }
    requires seated { IsSeated auction.now session.old (H.in_order hall.old) (H.supply hall.old) (H.bidders hall.old) }
    ensures answers { Answers H.allows auction.now frames.items session.old (H.meaning hall.old) (L.told link.old) session.new
        (H.meaning hall.new) (L.told link.new) result }
    ensures seated { IsSeated auction.now session.new (H.in_order hall.new) (H.supply hall.new) (H.bidders hall.new) }
    ensures stays { H.stays hall.old hall.new }
    ensures cause { HasCauseBy (L.faults link.old) (L.faults link.new) result }
{
    for frame in frames {
        if let Some(end) = answer_one(rt, alloc, auction, session, hall, link, frame) {
            return Some(end);
        }
    }
    None
}
