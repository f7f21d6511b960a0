//! One frame and its reply.
ghost use Rattle.std.specs.Prelude.{◌≡◌, ◌≤◌, ℕ, List, length};
ghost use Rattle.house_io.specs.Told.{IfTold};
ghost use Rattle.report_wire.specs.Frames.{IsMessage, spelled};
ghost use Rattle.report_wire.specs.Messages.{to_house, house_kind, house_payload, house_sent};
ghost use Rattle.bidder_agent.specs.Hearing.{HasHeardCause};
ghost use Rattle.bidder_agent.specs.Sending.{IsSentBy, HasCutCause, judged, kept};
ghost use Rattle.bidder_agent.specs.Talks.{Converses, IsExchange, HasCauseOf, answers, answers_hello, answers_look, answers_report, answers_quit, is_earlier};

use crate::agents::AgentEnd;
use crate::hearing::{Heard, read_reply};
use auction_file::Auction;
use house_io::{Failed, Link, send_whole};
use lot_base::NoMemory;
use report_wire::{Frame, ToBidder, ToHouse};
use std::alloc::Global;

/// Why a frame was not sent whole.
#[derive(Clone, Copy, Debug, PartialEq, Eq)]
pub(crate) enum Cut {
    /// A call on the link failed; a front of the frame may have been written.
    LinkFault,
    /// Memory ran out; nothing of the frame was written.
    NoMemory,
}

/// Sends a frame.
fn send_frame<L: Link>(alloc: Global, link: &mut L, frame: &ToHouse) -> Result<(), Cut>
    requires { IsMessage to_house (house_kind frame.now) (house_payload frame.now) }
    ensures sent { IfTold (L.told link.old) (L.told link.new) (IsSentBy result (spelled (house_sent frame.now))) }
    ensures cause { HasCutCause (L.faults link.old) (L.faults link.new) result }
{
    let bytes = match frame.encode(alloc) {
        Ok(bytes) => bytes,
        Err(NoMemory) => return Err(Cut::NoMemory),
    };
    match send_whole(link, &bytes) {
        Ok(()) => Ok(()),
        Err(Failed) => Err(Cut::LinkFault),
    }
}

/// Sends a frame, and reads the next one.
fn converse<L: Link>(alloc: Global, link: &mut L, frame: &ToHouse) -> Heard
    requires { IsMessage to_house (house_kind frame.now) (house_payload frame.now) }
    ensures converses { IfTold (L.told link.old) (L.told link.new) (Converses frame.now result) }
    ensures cause { HasHeardCause (L.faults link.old) (L.faults link.new) result }
{
    match send_frame(alloc, link, frame) {
        Ok(()) => read_reply(alloc, link),
        Err(Cut::LinkFault) => Heard::LinkFault,
        Err(Cut::NoMemory) => Heard::NoMemory,
    }
}

/// Whether a round is below the last one.
fn is_earlier(round: u32, last: Option<u32>) -> bool
    ensures { result ≡ is_earlier round last }
{
    match last {
        None => false,
        Some(last) => round < last,
    }
}

fn answers_hello(auction: &Auction, reply: &ToBidder) -> bool
    ensures { result ≡ answers_hello (length auction.now.terms.goods) auction.now.terms.bidders reply.now }
{
    match *reply {
        ToBidder::Welcome { goods, clocks } => {
            let count = auction.terms.goods.count();
            let last = auction.terms.bidders + 1;
            goods == count && clocks == last
        }
        ToBidder::Price { .. } => false,
        ToBidder::Taken { .. } => false,
        ToBidder::Again { .. } => false,
        ToBidder::Refused { .. } => false,
        ToBidder::Bye => false,
    }
}

fn answers_look(auction: &Auction, last: Option<u32>, asked: u8, reply: &ToBidder) -> bool
    ensures { result ≡ answers_look (length auction.now.terms.goods) last asked reply.now }
{
    match *reply {
        ToBidder::Price {
            clock,
            round,
            prices,
            ..
        } => {
            let count = auction.terms.goods.count();
            let shown = prices.count();
            let earlier = is_earlier(round, last);
            clock == asked && (shown == count && !earlier)
        }
        ToBidder::Welcome { .. } => false,
        ToBidder::Taken { .. } => false,
        ToBidder::Again { .. } => false,
        ToBidder::Refused { .. } => false,
        ToBidder::Bye => false,
    }
}

fn answers_report(asked: u8, reported: u32, reply: &ToBidder) -> bool
    ensures { result ≡ answers_report asked reported reply.now }
{
    match *reply {
        ToBidder::Taken { clock, round } => clock == asked && round == reported,
        ToBidder::Again { clock, round } => clock == asked && round == reported,
        ToBidder::Welcome { .. } => false,
        ToBidder::Price { .. } => false,
        ToBidder::Refused { .. } => false,
        ToBidder::Bye => false,
    }
}

fn answers_quit(reply: &ToBidder) -> bool
    ensures { result ≡ answers_quit reply.now }
{
    match *reply {
        ToBidder::Bye => true,
        ToBidder::Welcome { .. } => false,
        ToBidder::Price { .. } => false,
        ToBidder::Taken { .. } => false,
        ToBidder::Again { .. } => false,
        ToBidder::Refused { .. } => false,
    }
}

/// Whether a reply answers a frame.
fn answers(auction: &Auction, last: Option<u32>, frame: &ToHouse, reply: &ToBidder) -> bool
    ensures { result ≡ answers (length auction.now.terms.goods) auction.now.terms.bidders last frame.now reply.now }
{
    match frame {
        ToHouse::Hello { .. } => answers_hello(auction, reply),
        ToHouse::Look { clock } => answers_look(auction, last, *clock, reply),
        ToHouse::Report { clock, round, .. } => answers_report(*clock, *round, reply),
        ToHouse::Quit => answers_quit(reply),
    }
}

/// Sends a frame, and reads the reply that answers it.
pub(crate) fn exchange<L: Link>(
    alloc: Global,
    auction: &Auction,
    last: Option<u32>,
    frame: &ToHouse,
    link: &mut L,
) -> Result<ToBidder, AgentEnd>
    requires { IsMessage to_house (house_kind frame.now) (house_payload frame.now) }
    ensures exchange { IsExchange (length auction.now.terms.goods) auction.now.terms.bidders last frame.now (L.told link.old)
        (L.told link.new) result }
    ensures cause { HasCauseOf (L.faults link.old) (L.faults link.new) result }
{
    match converse(alloc, link, frame) {
        Heard::Reply(reply) => judge(auction, last, frame, reply),
        Heard::Bad => Err(AgentEnd::BadReply),
        Heard::LinkFault => Err(AgentEnd::LinkFault),
        Heard::NoMemory => Err(AgentEnd::NoMemory),
    }
}

/// The reply, if it answers the frame.
fn judge(
    auction: &Auction,
    last: Option<u32>,
    frame: &ToHouse,
    reply: ToBidder,
) -> Result<ToBidder, AgentEnd>
    ensures { result ≡ judged (answers (length auction.now.terms.goods) auction.now.terms.bidders last frame.now reply) reply }
{
    let good = answers(auction, last, frame, &reply);
    match reply {
        ToBidder::Refused {
            code,
            detail,
            value,
        } => Err(AgentEnd::Refused {
            code,
            detail,
            value,
        }),
        ToBidder::Welcome { .. } => kept(good, reply),
        ToBidder::Price { .. } => kept(good, reply),
        ToBidder::Taken { .. } => kept(good, reply),
        ToBidder::Again { .. } => kept(good, reply),
        ToBidder::Bye => kept(good, reply),
    }
}

fn kept(good: bool, reply: ToBidder) -> Result<ToBidder, AgentEnd>
    ensures { result ≡ kept good reply }
{
    if good {
        Ok(reply)
    } else {
        Err(AgentEnd::BadReply)
    }
}
