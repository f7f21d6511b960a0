//! The table of a session: what a frame is answered, or what it asks of the hall.
ghost use Rattle.std.specs.Prelude.{◌≡◌, true, false};
ghost use Rattle.demand_set.specs.Reading.{AreWhole};
ghost use Rattle.report_wire.specs.Frames.{IsMessage};
ghost use Rattle.report_wire.specs.Messages.{to_house, house_kind, house_payload};
ghost use Rattle.session.specs.Table.{line_of, knows, refusal, demand_refusal};
ghost use Rattle.session.specs.Asking.{IsAskable, IsBidder, IsSayable};

use crate::digests::are_same;
use crate::halls::Question;
use auction_file::Auction;
use demand_set::{Demand, DemandFault};
use lot_base::{RawDemand, Sequence};
use report_wire::{ToBidder, ToHouse, refusals};
use sha2::{Digest, Sha256};

/// A reply, and whether the session goes on after it; or a question to the hall.
pub enum Line {
    /// The reply, and whether the session goes on.
    Says(ToBidder, bool),
    /// The hall's answer decides the reply.
    Asks(Question),
}

/// The line of the table for a frame, where the session has this bidder.
pub(crate) fn line_for(auction: &Auction, who: Option<u8>, frame: ToHouse) -> Line
    requires formed { IsMessage to_house (house_kind frame) (house_payload frame) }
    requires bidder { IsBidder auction.now.terms.bidders who }
    ensures line { result ≡ line_of auction.now who frame }
    ensures askable { IsAskable auction.now.terms.bidders auction.now.terms.goods result }
    ensures sayable { IsSayable result }
{
    match frame {
        ToHouse::Hello { bidder, token } => hello_line(auction, who, bidder, &token),
        ToHouse::Look { clock } => look_line(auction, who, clock),
        ToHouse::Report {
            clock,
            round,
            demand,
        } => report_line(auction, who, clock, round, demand),
        ToHouse::Quit => Line::Says(ToBidder::Bye, false),
    }
}

/// A refusal.
pub(crate) fn refused(code: u8, value: u32) -> ToBidder
    ensures { result ≡ refusal code value }
{
    ToBidder::Refused {
        code,
        detail: 0,
        value,
    }
}

/// Whether it is a bidder's number and that bidder's token.
fn knows(auction: &Auction, bidder: u8, token: &Sequence<u8>) -> bool
    ensures { result ≡ knows auction.now bidder token.now }
{
    if bidder < 1 || bidder > auction.terms.bidders {
        return false;
    }
    let digests = auction.token_digests.as_slice();
    are_same(
        &Sha256::digest(token.as_slice()),
        &digests[bidder as usize - 1],
    )
}

fn hello_line(auction: &Auction, who: Option<u8>, bidder: u8, token: &Sequence<u8>) -> Line
    ensures line { result ≡ line_of auction.now who (ToHouse.Hello bidder token.now) }
    ensures askable { IsAskable auction.now.terms.bidders auction.now.terms.goods result }
    ensures sayable { IsSayable result }
{
    if who.is_some() {
        return Line::Says(refused(refusals::SECOND_HELLO, 0), true);
    }
    if !knows(auction, bidder, token) {
        return Line::Says(refused(refusals::BAD_TOKEN, bidder as u32), false);
    }
    Line::Says(
        ToBidder::Welcome {
            goods: auction.terms.goods.count(),
            clocks: auction.terms.bidders + 1,
        },
        true,
    )
}

fn look_line(auction: &Auction, who: Option<u8>, clock: u8) -> Line
    ensures line { result ≡ line_of auction.now who (ToHouse.Look clock) }
    ensures askable { IsAskable auction.now.terms.bidders auction.now.terms.goods result }
    ensures sayable { IsSayable result }
{
    let Some(bidder) = who else {
        return Line::Says(refused(refusals::NO_HELLO, 0), true);
    };
    if clock > auction.terms.bidders {
        return Line::Says(refused(refusals::UNKNOWN_CLOCK, clock as u32), true);
    }
    if clock == bidder {
        return Line::Says(refused(refusals::NOT_MEMBER, clock as u32), true);
    }
    Line::Asks(Question::Look { clock })
}

fn report_line(auction: &Auction, who: Option<u8>, clock: u8, round: u32, demand: RawDemand) -> Line
    requires bidder { IsBidder auction.now.terms.bidders who }
    requires whole { AreWhole demand.goods demand.quantities }
    ensures line { result ≡ line_of auction.now who (ToHouse.Report clock round demand) }
    ensures askable { IsAskable auction.now.terms.bidders auction.now.terms.goods result }
    ensures sayable { IsSayable result }
{
    let Some(bidder) = who else {
        return Line::Says(refused(refusals::NO_HELLO, 0), true);
    };
    if clock > auction.terms.bidders {
        return Line::Says(refused(refusals::UNKNOWN_CLOCK, clock as u32), true);
    }
    if clock == bidder {
        return Line::Says(refused(refusals::NOT_MEMBER, clock as u32), true);
    }
    match Demand::from_raw(&auction.terms.goods, demand) {
        Ok(demand) => Line::Asks(Question::Offer {
            clock,
            bidder,
            round,
            demand,
        }),
        Err(fault) => Line::Says(refused_demand(fault), true),
    }
}

/// The refusal of a demand.
fn refused_demand(fault: DemandFault) -> ToBidder
    ensures refusal { result ≡ demand_refusal fault }
    ensures sayable { IsSayable (Line.Says result true) }
{
    let (detail, value) = match fault {
        DemandFault::Empty => (refusals::EMPTY, 0),
        DemandFault::NotAscending(place) => (refusals::NOT_ASCENDING, place),
        DemandFault::OutsideSupply(place) => (refusals::OUTSIDE_SUPPLY, place),
        DemandFault::WrongGoods(goods) => (refusals::WRONG_GOODS, goods as u32),
        DemandFault::NoMemory => return refused(refusals::NO_MEMORY, 0),
    };
    ToBidder::Refused {
        code: refusals::BAD_DEMAND,
        detail,
        value,
    }
}
