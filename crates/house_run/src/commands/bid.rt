//! The command `bid`: an agent takes the part of a bidder over a link.
ghost use Rattle.std.specs.Prelude.{◌≡◌, IfOk};
ghost use Rattle.std.specs.List.{flat_map};
ghost use Rattle.house_run.specs.BidCommand.{BidFrame, bid_needs, look_line};
ghost use Rattle.command_line.specs.Parts.{IsPlayable};
ghost use Rattle.command_line.specs.CommandView.{bidding_as};
ghost use Rattle.command_line.specs.Commands.{Bid};
ghost use Rattle.house_run.specs.Ends.{JobAnswer, end_of};
ghost use Rattle.house_run.specs.NetEnds.{NetFrame};
ghost use Rattle.house_run.specs.Nets.{net_seen};
ghost use Rattle.house_run.specs.Seen.{outside};

use crate::dialling::talk;
use crate::ends::Ended;
use crate::markets::read_bidders;
use bidder_agent::SeenLook;
use command_line::Bidding;
use house_io::{Net, Shelf};
use lot_base::NoMemory;
use outcome_text::write_standing;
use std::alloc::Global;
use std::time::Clock;

/// The lines of the clocks' ends that the agent saw, or why there are none.
pub(crate) fn job<T: Clock, H: Shelf, N: Net>(
    rt: &T,
    alloc: Global,
    auction: &str,
    values: &str,
    bidding: &Bidding,
    shelf: &mut H,
    net: &mut N,
) -> Result<Vec<u8>, Ended>
    requires { IsPlayable (bidding_as bidding.now) }
    ensures answer { JobAnswer (Bid auction.now values.now (bidding_as bidding.now)) (outside H.Shelf shelf.old shelf.new)
        (net_seen N.Net net.old net.new) result }
    ensures frame { BidFrame auction.now values.now (bidding_as bidding.now) (end_of result) (outside H.Shelf shelf.old shelf.new)
        (net_seen N.Net net.old net.new) }
    ensures net_frame { NetFrame (bid_needs auction.now values.now (bidding_as bidding.now)) (end_of result)
        (net_seen N.Net net.old net.new) }
{
    let market = read_bidders(alloc, shelf, auction, values, bidding.bidder)?;
    let seen = talk(rt, alloc, &market, bidding, net)?;
    match looks_text(alloc, &seen.looks) {
        Ok(text) => Ok(text),
        Err(NoMemory) => Err(Ended::NoMemory),
    }
}

/// The standing line of each look.
fn looks_text(alloc: Global, looks: &[SeenLook]) -> Result<Vec<u8>, NoMemory>
    ensures { IfOk result (λ text. text.items ≡ flat_map look_line looks.now) }
{
    let mut text = Vec::new(alloc);
    for seen in looks {
        let line = look_line(alloc, seen)?;
        text.extend_from_slice(&line)?;
    }
    Ok(text)
}

/// The standing line of a look.
fn look_line(alloc: Global, seen: &SeenLook) -> Result<Vec<u8>, NoMemory>
    ensures { IfOk result (λ line. line.items ≡ look_line seen.now) }
{
    write_standing(alloc, seen.clock, &seen.look, 0)
}
