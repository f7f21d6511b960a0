//! Asking the hall.
ghost use Rattle.std.specs.Prelude.{◌≡◌, ◌≢◌, ◌≤◌, ℕ, length};
ghost use Rattle.lot_base.specs.Goods.{IsRange};
ghost use Rattle.lot_base.specs.Demands.{IsDemand};
ghost use Rattle.report_wire.specs.Frames.{IsMessage};
ghost use Rattle.report_wire.specs.Messages.{to_bidder, bidder_kind, bidder_payload};
ghost use Rattle.session.specs.Asking.{question_of, IsAskable, IsOffered, IsPossible, IsRefusal};
ghost use Rattle.session.specs.Table.{reply_of, offered_reply, judged_reply};

use crate::halls::{Asked, Hall, Question};
use crate::table::{Line, refused};
use clock::{Judgement, Look, Offered};
use demand_set::Demand;
use report_wire::{ToBidder, refusals};
use std::alloc::Global;
use std::sync::Wait;

/// Asks the hall, and gives the reply by its answer.
pub(crate) fn ask<H: Hall, T: Wait>(
    rt: &T,
    alloc: Global,
    hall: &mut H,
    question: Question,
) -> ToBidder
    requires order { H.in_order hall.old }
    requires goods { IsRange 1 6 (length (H.supply hall.old)) }
    requires askable { IsAskable (H.bidders hall.old) (H.supply hall.old) (Line.Asks question) }
    ensures order { H.in_order hall.new }
    ensures stays { H.stays hall.old hall.new }
    ensures answer { (asked : _) × (question_of asked ≡ question) × (result ≡ reply_of asked) × IsPossible asked
        × H.allows (H.meaning hall.old) asked (H.meaning hall.new) }
    ensures formed { IsMessage to_bidder (bidder_kind result) (bidder_payload result) }
{
    match question {
        Question::Look { clock } => look_at(rt, hall, clock),
        Question::Offer {
            clock,
            bidder,
            round,
            demand,
        } => offer_at(rt, alloc, hall, clock, bidder, round, demand),
    }
}

/// Looks at a clock.
fn look_at<H: Hall, T: Wait>(rt: &T, hall: &mut H, clock: u8) -> ToBidder
    requires order { H.in_order hall.old }
    requires clock { clock ≤ H.bidders hall.old }
    requires goods { IsRange 1 6 (length (H.supply hall.old)) }
    ensures order { H.in_order hall.new }
    ensures stays { H.stays hall.old hall.new }
    ensures answer { (look : _) × (result ≡ reply_of (Asked.Look clock look))
        × H.allows (H.meaning hall.old) (Asked.Look clock look) (H.meaning hall.new) }
    ensures formed { IsMessage to_bidder (bidder_kind result) (bidder_payload result) }
{
    let look = hall.look(rt, clock);
    ToBidder::Price {
        clock,
        round: look.round,
        phase: look.phase,
        prices: look.prices,
    }
}

/// Offers a report.
fn offer_at<H: Hall, T: Wait>(
    rt: &T,
    alloc: Global,
    hall: &mut H,
    clock: u8,
    bidder: u8,
    round: u32,
    demand: Demand,
) -> ToBidder
    requires order { H.in_order hall.old }
    requires clock { clock ≤ H.bidders hall.old }
    requires bidder { IsRange 1 (H.bidders hall.old) bidder }
    requires member { bidder ≢ clock }
    requires demand { IsDemand (H.supply hall.old) demand }
    ensures order { H.in_order hall.new }
    ensures stays { H.stays hall.old hall.new }
    ensures answer { (offered : _) × (result ≡ reply_of (Asked.Offer clock bidder round demand offered))
        × IsOffered (bidder ≡ clock) offered
        × H.allows (H.meaning hall.old) (Asked.Offer clock bidder round demand offered) (H.meaning hall.new) }
    ensures formed { IsMessage to_bidder (bidder_kind result) (bidder_payload result) }
{
    let offered = hall.offer(rt, alloc, clock, bidder, round, demand);
    offered_reply(clock, round, offered)
}

/// The reply by the hall's answer.
fn offered_reply(clock: u8, round: u32, offered: Offered) -> ToBidder
    requires offered { IsOffered ⊥ offered }
    ensures reply { result ≡ offered_reply clock round offered }
    ensures formed { IsMessage to_bidder (bidder_kind result) (bidder_payload result) }
{
    match offered {
        Offered::Taken => ToBidder::Taken { clock, round },
        Offered::Again => ToBidder::Again { clock, round },
        Offered::Refused(judgement) => judged_reply(judgement),
        Offered::Full(needed) => refused(refusals::FULL, needed),
        Offered::DiskFault => refused(refusals::DISK_FAULT, 0),
        Offered::NoMemory => refused(refusals::NO_MEMORY, 0),
    }
}

/// The reply by the judgement of a member's report that was refused.
fn judged_reply(judgement: Judgement) -> ToBidder
    requires refusal { IsRefusal ⊥ judgement }
    ensures reply { (clock : ℕ) → result ≡ judged_reply clock judgement }
    ensures formed { IsMessage to_bidder (bidder_kind result) (bidder_payload result) }
{
    match judgement {
        Judgement::Early(round) => refused(refusals::EARLY, round),
        Judgement::Conflict(round) => refused(refusals::CONFLICT, round),
        Judgement::Over(round) => refused(refusals::OVER, round),
        Judgement::NoRound => refused(refusals::NO_ROUND, 0),
        Judgement::Take | Judgement::Again | Judgement::NotMember => unreachable!(),
    }
}
