//! The command `serve`: an auction is served to its bidders.
ghost use Rattle.command_line.specs.Commands.{Serve};
ghost use Rattle.house_run.specs.Ends.{CommandFrame, JobAnswer, end_of};
ghost use Rattle.house_run.specs.NetEnds.{NetFrame};
ghost use Rattle.house_run.specs.Nets.{net_seen};
ghost use Rattle.house_run.specs.Seen.{outside};
ghost use Rattle.house_run.specs.ServeCommand.{serve_needs};
ghost use Rattle.command_line.specs.Parts.{IsServable};
ghost use Rattle.command_line.specs.CommandView.{serving_as};

use crate::ends::Ended;
use crate::files::read_auction;
use crate::serve_texts::serve_text;
use crate::serving_journals::serve_journals;
use command_line::Serving;
use house_io::{Net, Shelf};
use lot_base::NoMemory;
use std::alloc::Global;
use std::sync::Wait;
use std::thread::Threads;

/// The text of an auction that was served, or why there is none.
pub(crate) fn job<T: Threads + Wait + Sync, H: Shelf, N: Net>(
    rt: &T,
    alloc: Global,
    auction: &str,
    journals: &str,
    serving: &Serving,
    shelf: &mut H,
    net: &mut N,
) -> Result<Vec<u8>, Ended>
    requires { IsServable (serving_as serving.now) }
    ensures answer { JobAnswer (Serve auction.now journals.now (serving_as serving.now)) (outside H.Shelf shelf.old shelf.new)
        (net_seen N.Net net.old net.new) result }
    ensures frame { CommandFrame (Serve auction.now journals.now (serving_as serving.now)) (end_of result)
        (outside H.Shelf shelf.old shelf.new) (net_seen N.Net net.old net.new) }
    ensures net_frame { NetFrame (serve_needs auction.now journals.now (serving_as serving.now)) (end_of result)
        (net_seen N.Net net.old net.new) }
{
    let auction = read_auction(alloc, shelf, auction)?;
    let hosted = serve_journals(rt, alloc, &auction, journals, serving, shelf, net)?;
    match serve_text(alloc, &hosted.ends, &hosted.clocks) {
        Ok(text) => Ok(text),
        Err(NoMemory) => Err(Ended::NoMemory),
    }
}
