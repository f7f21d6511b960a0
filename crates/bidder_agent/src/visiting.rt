//! A visit of a clock.
ghost use Rattle.std.specs.Prelude.{◌≡◌, ◌≤◌, ◌<◌, ◌^◌, ◌-◌, ℕ, List, length, false, IfOk, None};
ghost use Rattle.house_io.specs.Told.{IfTold};
ghost use Rattle.report_wire.specs.declared.messages.ToHouse.{ToHouse};
ghost use Rattle.bidder_agent.specs.Talks.{IsExchange, HasCauseOf, part, report_at, is_earlier};
ghost use Rattle.bidder_agent.specs.Knowing.{weight};
ghost use Rattle.bidder_agent.specs.Underway.{priced, shown, IsDone, Visits};

use crate::agents::{AgentEnd, Demands, SeenLook};
use crate::knowing::Known;
use crate::talking::exchange;
use auction_file::Auction;
use clock::Look;
use house_io::Link;
use lot_base::{NoMemory, Phase, Prices};
use report_wire::{ToBidder, ToHouse};
use std::alloc::Global;

/// Looks at a clock.
fn look_at<L: Link>(
    alloc: Global,
    auction: &Auction,
    clock: u8,
    last: Option<u32>,
    link: &mut L,
) -> Result<Look, AgentEnd>
    ensures look { IsExchange (length auction.now.terms.goods) auction.now.terms.bidders last (ToHouse.Look clock) (L.told link.old)
        (L.told link.new) (priced clock result) }
    ensures cause { HasCauseOf (L.faults link.old) (L.faults link.new) result }
{
    let reply = exchange(alloc, auction, last, &ToHouse::Look { clock }, link)?;
    match shown(&reply) {
        Some(look) => Ok(look),
        None => Err(AgentEnd::BadReply),
    }
}

/// The look that a price shows.
fn shown(reply: &ToBidder) -> Option<Look>
    ensures { result ≡ shown reply.now }
{
    match *reply {
        ToBidder::Price {
            round,
            phase,
            prices,
            ..
        } => Some(Look {
            round,
            phase,
            prices,
        }),
        ToBidder::Welcome { .. } => None,
        ToBidder::Taken { .. } => None,
        ToBidder::Again { .. } => None,
        ToBidder::Refused { .. } => None,
        ToBidder::Bye => None,
    }
}

/// Reports the demand at the prices.
fn report<D: Demands, L: Link>(
    alloc: Global,
    auction: &Auction,
    demands: &D,
    clock: u8,
    round: u32,
    prices: &Prices,
    link: &mut L,
) -> Result<(), AgentEnd>
    requires { length prices.now ≡ D.goods demands.now }
    ensures done { IsDone (length auction.now.terms.goods) auction.now.terms.bidders None
        (report_at (D.demands demands.now) clock round prices.now) (L.told link.old) (L.told link.new) result }
    ensures cause { HasCauseOf (L.faults link.old) (L.faults link.new) result }
{
    let demand = match demands.demand(alloc, prices) {
        Ok(demand) => demand,
        Err(NoMemory) => return Err(AgentEnd::NoMemory),
    };
    let frame = ToHouse::Report {
        clock,
        round,
        demand,
    };
    exchange(alloc, auction, None, &frame, link)?;
    Ok(())
}

/// Looks at an open clock, and reports where its round has no report yet.
pub(crate) fn visit<D: Demands, L: Link>(
    alloc: Global,
    auction: &Auction,
    demands: &D,
    bidder: u8,
    token: &[u8],
    clock: u8,
    looks: u32,
    before: &Known,
    link: &mut L,
    seen: &mut Vec<SeenLook>,
) -> Result<Known, AgentEnd>
    requires goods { D.goods demands.now ≡ length auction.now.terms.goods }
    requires below { before.now.repeats < looks }
    requires open { before.now.closed ≡ false }
    ensures visits { Visits (part auction.now bidder token.now (D.demands demands.now) looks) clock before.now seen.old.items
        (L.told link.old) seen.new.items (L.told link.new) result }
    ensures falls { IfOk result (λ known. weight known < weight before.now) }
    ensures below { IfOk result (λ known. known.repeats < looks) }
    ensures cause { HasCauseOf (L.faults link.old) (L.faults link.new) result }
{
    let look = look_at(alloc, auction, clock, before.last, link)?;
    let known = before.after_look(look.round, look.phase);
    if known.closed {
        return match seen.push(SeenLook { clock, look }) {
            Ok(()) => Ok(known),
            Err(_) => Err(AgentEnd::NoMemory),
        };
    }
    if known.repeats == looks {
        return Err(AgentEnd::LooksSpent(clock));
    }
    if known.reported {
        return Ok(known);
    }
    report(
        alloc,
        auction,
        demands,
        clock,
        look.round,
        &look.prices,
        link,
    )?;
    Ok(known.after_report())
}
