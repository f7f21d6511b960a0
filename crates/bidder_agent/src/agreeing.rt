//! An agent's talk from its hello to its quit.
ghost use Rattle.std.specs.Prelude.{◌≡◌, ◌≤◌, ℕ, List, length};
ghost use Rattle.lot_base.specs.Goods.{IsRange};
ghost use Rattle.bidder_agent.specs.Talks.{Agrees, HasCauseOf, part};

use crate::agents::{AgentEnd, Demands, Seen};
use crate::knowing::{Known, next_clock};
use crate::pausing::Pause;
use crate::talking::exchange;
use crate::visiting::visit;
use auction_file::Auction;
use house_io::Link;
use lot_base::Sequence;
use report_wire::ToHouse;
use std::alloc::Global;
use std::time::Clock;

/// Takes the part of a bidder, until all clocks but the bidder's own have ended or halted. After each round through the open clocks in
/// which no look showed anything new it pauses, each time twice as long, from 50 microseconds to 5 milliseconds for each of these clocks.
pub fn agree<D: Demands, L: Link>(
    rt: &impl Clock,
    alloc: Global,
    auction: &Auction,
    demands: &D,
    bidder: u8,
    token: &[u8],
    link: &mut L,
    looks: u32,
) -> Result<Seen, AgentEnd>
    requires goods { D.goods demands.now ≡ length auction.now.terms.goods }
    requires bidder { IsRange 1 auction.now.terms.bidders bidder }
    requires token { IsRange 1 64 (length token.now) }
    requires looks { 1 ≤ looks }
    ensures talk { Agrees (part auction.now bidder token.now (D.demands demands.now) looks) (L.told link.old) (L.told link.new) result }
    ensures cause { HasCauseOf (L.faults link.old) (L.faults link.new) result }
{
    let Ok(copy) = token.to_vec(alloc) else {
        return Err(AgentEnd::NoMemory);
    };
    let hello = ToHouse::Hello {
        bidder,
        token: Sequence::from_vec(copy),
    };
    let count = auction.terms.bidders as usize + 1;
    let Ok(mut known) = vec![in alloc; Known::unseen(); count] else {
        return Err(AgentEnd::NoMemory);
    };
    exchange(alloc, auction, None, &hello, link)?;
    let mut seen = Seen {
        looks: Vec::new(alloc),
    };
    let mut from = 0u8;
    let mut pause = Pause::none();
    let mut looked = 0u8;
    'visits: while let Some(clock) = next_clock(&known, bidder, from) {
        if clock < from {
            pause.rest(rt, looked);
            looked = 0;
        }
        let place = clock as usize;
        let before = known[place];
        let after = visit(
            alloc,
            auction,
            demands,
            bidder,
            token,
            clock,
            looks,
            &before,
            link,
            &mut seen.looks,
        )?;
        looked = looked.saturating_add(1);
        if after.is_new() {
            pause.news();
        }
        known[place] = after;
        from = clock + 1;
    }
    exchange(alloc, auction, None, &ToHouse::Quit, link)?;
    Ok(seen)
}
