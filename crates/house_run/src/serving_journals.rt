//! Serving an auction on the journals of its clocks.
ghost use Rattle.std.specs.Prelude.{◌≡◌, ◌≤◌};
ghost use Rattle.command_line.specs.CommandView.{serving_as};
ghost use Rattle.house_run.specs.Nets.{net_seen};
ghost use Rattle.house_run.specs.Seen.{shelf_seen};
ghost use Rattle.command_line.specs.Parts.{IsServable};
ghost use Rattle.house_run.specs.Serving.{ServesJournals};

use crate::disks::{close_journals, journal_names, open_journals};
use crate::ends::{Ended, end_at};
use crate::hosting::{Hosted, host};
use auction_file::Auction;
use command_line::Serving;
use house_io::{Net, Shelf};
use std::alloc::Global;
use std::sync::Wait;
use std::thread::Threads;

/// Opens the journals of an auction's clocks, serves the auction on them, and gives them back.
pub(crate) fn serve_journals<T: Threads + Wait + Sync, H: Shelf, N: Net>(
    rt: &T,
    alloc: Global,
    auction: &Auction,
    journals: &str,
    serving: &Serving,
    shelf: &mut H,
    net: &mut N,
) -> Result<Hosted, Ended>
    requires { IsServable (serving_as serving.now) }
    ensures { ServesJournals auction.now journals.now (serving_as serving.now) (shelf_seen H.Shelf shelf.old shelf.new)
        (net_seen N.Net net.old net.new) result }
{
    let Ok(names) = journal_names(alloc, journals, auction.terms.bidders + 1) else {
        return Err(Ended::NoMemory);
    };
    let disks = match open_journals(alloc, shelf, &names) {
        Ok(disks) => disks,
        Err(unread) => return Err(end_at(unread)),
    };
    let (answer, disks) = host(
        rt,
        alloc,
        auction,
        disks,
        serving.address,
        serving.doors,
        serving.sessions,
        net,
    );
    close_journals(shelf, &names, disks);
    answer
}
