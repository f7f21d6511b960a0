//! The commands: a line each here and in crate `command_line`, and a file each for their jobs.
ghost use Rattle.command_line.specs.CommandView.{command_as};
ghost use Rattle.house_run.specs.Commands.{needs_of};
ghost use Rattle.command_line.specs.Commands.{IsReady};
ghost use Rattle.house_run.specs.Ends.{CommandFrame, JobAnswer, end_of};
ghost use Rattle.house_run.specs.NetEnds.{NetFrame};
ghost use Rattle.house_run.specs.Nets.{net_seen};
ghost use Rattle.house_run.specs.Seen.{outside};

mod bid;
mod check;
mod explain;
mod float;
mod fold;
mod judge;
mod make;
mod migrate;
mod serve;
mod settle;
pub(crate) mod standing;
mod trials;

use crate::ends::Ended;
use command_line::CommandWords;
use house_io::{Net, Shelf};
use std::alloc::Global;
use std::sync::Wait;
use std::thread::Threads;
use std::time::Clock;

/// The text of a command's job, or how the job ended without one.
pub(crate) fn job<T: Threads + Wait + Sync + Clock, H: Shelf, N: Net>(
    rt: &T,
    alloc: Global,
    command: &CommandWords,
    shelf: &mut H,
    net: &mut N,
) -> Result<Vec<u8>, Ended>
    requires { IsReady (command_as command.now) }
    ensures answer { JobAnswer (command_as command.now) (outside H.Shelf shelf.old shelf.new) (net_seen N.Net net.old net.new) result }
    ensures frame { CommandFrame (command_as command.now) (end_of result) (outside H.Shelf shelf.old shelf.new)
        (net_seen N.Net net.old net.new) }
    ensures net_frame { NetFrame (needs_of (command_as command.now)) (end_of result) (net_seen N.Net net.old net.new) }
{
    match command {
        CommandWords::Fold { terms, log } => fold::job(alloc, terms, log, shelf),
        CommandWords::Check { auction } => check::job(alloc, auction, shelf),
        CommandWords::Standing { auction, journals } => {
            standing::job(alloc, auction, journals, shelf)
        }
        CommandWords::Explain { auction, journals } => {
            explain::job(alloc, auction, journals, shelf)
        }
        CommandWords::Judge {
            auction,
            journals,
            bidder,
        } => judge::job(alloc, auction, journals, *bidder, shelf),
        CommandWords::Settle {
            auction,
            journals,
            json,
        } => settle::job(alloc, auction, journals, *json, shelf),
        CommandWords::Trial {
            auction,
            values,
            workers,
        } => trials::job(rt, alloc, auction, values, *workers, shelf),
        CommandWords::Float {
            auction,
            values,
            start,
        } => float::job(alloc, auction, values, start, shelf),
        CommandWords::Make { number, workers } => { make::job(rt, alloc, *number, *workers, shelf) }
        CommandWords::Serve {
            auction,
            journals,
            serving,
        } => serve::job(rt, alloc, auction, journals, serving, shelf, net),
        CommandWords::Bid {
            auction,
            values,
            bidding,
        } => bid::job(rt, alloc, auction, values, bidding, shelf, net),
        CommandWords::Migrate {
            old,
            journals,
            new,
            target,
        } => migrate::job(alloc, old, journals, new, target, shelf),
    }
}
