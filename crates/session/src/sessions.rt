//! A session of a bidder.
ghost use Rattle.std.specs.Prelude.{◌≡◌, Option, None, length, if◌then◌else◌};
ghost use Rattle.report_wire.specs.Frames.{IsMessage};
ghost use Rattle.report_wire.specs.Messages.{to_house, house_kind, house_payload, to_bidder, bidder_kind, bidder_payload};
ghost use Rattle.session.specs.Asking.{IsSeated};
ghost use Rattle.session.specs.Table.{bidder_after, goes_on, greeted, wire_reply};
ghost use Rattle.session.specs.Turns.{IsTurn};
ghost use Rattle.session.specs.declared.halls.Asked.{Asked as AskedValue};

use crate::consulting::ask;
use crate::halls::Hall;
use crate::table::{Line, line_for, refused};
use auction_file::Auction;
use report_wire::{ToBidder, ToHouse, WireFault, WireKind, refusals};
use std::alloc::Global;
use std::marker::Model;
use std::sync::Wait;

/// A session, seen as its bidder, if it has one.
#[derive(Drop)]
pub struct Session {
    bidder: Option<u8>,
}

impl Model for Session {
    ghost use Rattle.std.specs.Prelude.{ℕ, Option};

    ghost Value = { Option ℕ };

    ghost view = { λ session. session.bidder };
}

/// A reply, and whether the session goes on after it.
#[derive(Drop)]
pub struct Answer {
    /// The message that the bidder is sent for its frame.
    pub reply: ToBidder,
    /// False where the frame was a quit, or a first hello that was refused.
    pub goes_on: bool,
}

impl Session {
    /// A session without a bidder.
    pub fn new() -> Session
        ensures { result ≡ None }
    {
        Session { bidder: None }
    }

    /// The reply to a frame.
    pub fn answer<H: Hall, T: Wait>(
        &mut self,
        rt: &T,
        alloc: Global,
        auction: &Auction,
        hall: &mut H,
        frame: ToHouse,
    ) -> Answer
        requires formed { IsMessage to_house (house_kind frame) (house_payload frame) }
        requires seated { IsSeated auction.now self.old (H.in_order hall.old) (H.supply hall.old) (H.bidders hall.old) }
        ensures turn { (asked : Option AskedValue)
            × IsTurn H.allows auction.now self.old (H.meaning hall.old)
            (record { frame = frame; asked = asked; reply = result.reply; now = H.meaning hall.new }) }
        ensures goes { (result.goes_on ≡ goes_on auction.now self.old frame)
            × (self.new ≡ bidder_after auction.now self.old frame) }
        ensures formed { IsMessage to_bidder (bidder_kind result.reply) (bidder_payload result.reply) }
        ensures seated { IsSeated auction.now self.new (H.in_order hall.new) (H.supply hall.new) (H.bidders hall.new) }
        ensures stays { H.stays hall.old hall.new }
    {
        let greeted = self.greeted(&frame);
        match line_for(auction, self.bidder, frame) {
            Line::Says(reply, goes_on) => {
                self.greet(greeted, goes_on);
                Answer { reply, goes_on }
            }
            Line::Asks(question) => Answer {
                reply: ask(rt, alloc, hall, question),
                goes_on: true,
            },
        }
    }

    /// Takes this bidder where the frame was welcome.
    fn greet(&mut self, bidder: Option<u8>, welcome: bool)
        ensures { self.new ≡ (if welcome then bidder else self.old) }
    {
        if welcome {
            self.bidder = bidder;
        }
    }

    /// The session's bidder after a frame, where a first hello is welcome.
    fn greeted(&self, frame: &ToHouse) -> Option<u8>
        ensures { result ≡ greeted self.now frame.now }
    {
        match (self.bidder, frame) {
            (None, ToHouse::Hello { bidder, .. }) => Some(*bidder),
            (bidder, _) => bidder,
        }
    }
}

/// The reply to a fault of the stream, after which the session ends.
pub fn wire_answer(fault: &WireFault) -> ToBidder
    ensures reply { result ≡ wire_reply fault.now.kind }
    ensures formed { IsMessage to_bidder (bidder_kind result) (bidder_payload result) }
{
    match fault.kind {
        WireKind::TooLong(length) => refused(refusals::TOO_LONG, length),
        WireKind::UnknownKind(kind) => refused(refusals::UNKNOWN_KIND, kind as u32),
        WireKind::BadPayload { kind, .. } => refused(refusals::BAD_PAYLOAD, kind as u32),
    }
}
