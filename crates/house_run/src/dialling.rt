//! The talk of a bidder's agent over a link of the net.
ghost use Rattle.std.specs.Prelude.{◌≡◌, ◌≤◌, IfOk, IfErr, Ok, length};
ghost use Rattle.bidder_agent.specs.Talks.{Agrees, HasCauseOf};
ghost use Rattle.trial.specs.Trials.{AreValuationsOf};
ghost use Rattle.command_line.specs.Parts.{IsPlayable};
ghost use Rattle.command_line.specs.CommandView.{bidding_as};
ghost use Rattle.house_run.specs.Dialling.{LeavesTalk, TalksOn, ended_by, part_in};
ghost use Rattle.house_run.specs.Nets.{net_seen};
ghost use Rattle.house_run.specs.Steps.{IsTalkEnd, NetCounts, talk_end};

use crate::ends::Ended;
use crate::hosting::net_end;
use crate::markets::Bidders;
use bidder_agent::{AgentEnd, Seen, Wants, agree};
use command_line::Bidding;
use house_io::{Link, Net};
use std::alloc::Global;
use std::time::Clock;

/// Dials a link, takes the bidder's part over it, and hangs it up.
pub(crate) fn talk<T: Clock, N: Net>(
    rt: &T,
    alloc: Global,
    market: &Bidders,
    bidding: &Bidding,
    net: &mut N,
) -> Result<Seen, Ended>
    requires playable { IsPlayable (bidding_as bidding.now) }
    requires bidder { bidding.now.bidder ≤ market.now.auction.terms.bidders }
    requires valuations { AreValuationsOf market.now.auction.terms market.now.valuations.items }
    ensures talks { IfOk result (λ seen. TalksOn (net_seen N.Net net.old net.new) (bidding_as bidding.now).address
        (part_in market.now.auction.terms market.now.valuations.items (bidding_as bidding.now)) (Ok seen)) }
    ensures ends { IfErr result (IsTalkEnd (net_seen N.Net net.old net.new) (bidding_as bidding.now).address
        (part_in market.now.auction.terms market.now.valuations.items (bidding_as bidding.now))) }
    ensures left { IfErr result (LeavesTalk (net_seen N.Net net.old net.new) (bidding_as bidding.now).address
        (part_in market.now.auction.terms market.now.valuations.items (bidding_as bidding.now))) }
    ensures counts { NetCounts (talk_end result) (net_seen N.Net net.old net.new) }
{
    let mut link = match net.dial(alloc, bidding.address) {
        Ok(link) => link,
        Err(refusal) => return Err(net_end(refusal)),
    };
    let answer = play(rt, alloc, market, bidding, &mut link);
    net.hang_up(link);
    match answer {
        Ok(seen) => Ok(seen),
        Err(end) => Err(ended_by(end)),
    }
}

/// Takes the bidder's part over a link.
fn play<T: Clock, L: Link>(
    rt: &T,
    alloc: Global,
    market: &Bidders,
    bidding: &Bidding,
    link: &mut L,
) -> Result<Seen, AgentEnd>
    requires playable { IsPlayable (bidding_as bidding.now) }
    requires bidder { bidding.now.bidder ≤ market.now.auction.terms.bidders }
    requires valuations { AreValuationsOf market.now.auction.terms market.now.valuations.items }
    ensures talk { Agrees (part_in market.now.auction.terms market.now.valuations.items (bidding_as bidding.now)) (L.told link.old)
        (L.told link.new) result }
    ensures cause { HasCauseOf (L.faults link.old) (L.faults link.new) result }
{
    let auction = &market.auction;
    let wants = Wants {
        goods: auction.terms.goods,
        valuation: &market.valuations[bidding.bidder as usize - 1],
    };
    let token = bidding.token.as_bytes();
    agree(
        rt,
        alloc,
        auction,
        &wants,
        bidding.bidder,
        token,
        link,
        bidding.looks,
    )
}

/// How a command ends whose agent stopped.
fn ended_by(end: AgentEnd) -> Ended
    ensures { result ≡ ended_by end }
{
    match end {
        AgentEnd::Refused {
            code,
            detail,
            value,
        } => Ended::Refused {
            code,
            detail,
            value,
        },
        AgentEnd::BadReply => Ended::BadReply,
        AgentEnd::LinkFault => Ended::NetFault,
        AgentEnd::LooksSpent(clock) => Ended::LooksSpent(clock),
        AgentEnd::NoMemory => Ended::NoMemory,
    }
}
