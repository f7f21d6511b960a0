//! The command `migrate`: the journals of an auction are moved to another file of it.
ghost use Rattle.std.specs.Prelude.{◌≡◌, ◌≢◌, List, ℕ, IfOk, IfErr};
ghost use Rattle.std.specs.List.{flat_map};
ghost use Rattle.clock.specs.Reports.{histories};
ghost use Rattle.command_line.specs.Commands.{Migrate};
ghost use Rattle.house_run.specs.Ends.{JobAnswer, end_of};
ghost use Rattle.house_run.specs.MigrateCommand.{MigrateFrame, moved_line};
ghost use Rattle.house_run.specs.MoveSteps.{AreFilesRead, IsMoveRead, StopsMoving};
ghost use Rattle.house_run.specs.Nets.{NetSeen};
ghost use Rattle.house_run.specs.Seen.{outside, shelf_seen};

use crate::ends::{Ended, end_at};
use crate::files::read_auction;
use crate::journals::read_clocks;
use crate::moving_journals::move_to;
use auction_file::Auction;
use clock::Clock;
use house_io::Shelf;
use lot_base::NoMemory;
use migration::is_same_auction;
use std::alloc::{AllocError, Global};

/// Two files of one auction, which can go on under the second.
#[derive(Drop)]
struct Files {
    /// The one that the journals belong to now.
    old: Auction,
    /// The one that the auction goes on under, which is of version 2.
    new: Auction,
}

/// What is moved: the clocks of an auction, in the order of their numbers, and the other file of it.
#[derive(Drop)]
struct Move {
    /// With the reports of the old journals, clock 0 first.
    clocks: Vec<Clock>,
    /// What the new file says: the targets are journals of it.
    auction: Auction,
}

/// The text of journals that were moved, or why there is none.
pub(crate) fn job<H: Shelf>(
    alloc: Global,
    old: &str,
    journals: &str,
    new: &str,
    target: &str,
    shelf: &mut H,
) -> Result<Vec<u8>, Ended>
    requires { journals.now ≢ target.now }
    ensures answer { (net : NetSeen) → JobAnswer (Migrate old.now journals.now new.now target.now) (outside H.Shelf shelf.old shelf.new) net
        result }
    ensures frame { MigrateFrame old.now journals.now new.now target.now (end_of result) (outside H.Shelf shelf.old shelf.new) }
{
    let found = read_move(alloc, old, journals, new, shelf)?;
    move_to(alloc, &found.clocks, &found.auction, target, shelf)?;
    match moved_text(alloc, &found.clocks) {
        Ok(text) => Ok(text),
        Err(NoMemory) => Err(Ended::NoMemory),
    }
}

/// Reads both files and the journals, or says how the command ends.
fn read_move<H: Shelf>(
    alloc: Global,
    old: &str,
    journals: &str,
    new: &str,
    shelf: &mut H,
) -> Result<Move, Ended>
    ensures read { IfOk result (λ m. IsMoveRead old.now journals.now new.now m.auction (histories m.clocks.items)
        (shelf_seen H.Shelf shelf.old shelf.new)) }
    ensures stops { IfErr result (λ end. (target : List ℕ)
        → StopsMoving old.now journals.now new.now target (outside H.Shelf shelf.old shelf.new) end) }
{
    let files = read_files(alloc, old, new, shelf)?;
    match read_clocks(alloc, shelf, journals, &files.old.terms, &files.old.digest) {
        Ok(clocks) => Ok(Move {
            clocks,
            auction: files.new,
        }),
        Err(unread) => Err(end_at(unread)),
    }
}

/// Reads both files, or says how the command ends.
fn read_files<H: Shelf>(alloc: Global, old: &str, new: &str, shelf: &mut H) -> Result<Files, Ended>
    ensures read { IfOk result (λ files. AreFilesRead old.now new.now files.old files.new (shelf_seen H.Shelf shelf.old shelf.new)) }
    ensures stops { IfErr result (λ end. (journals target : List ℕ)
        → StopsMoving old.now journals new.now target (outside H.Shelf shelf.old shelf.new) end) }
{
    let first = read_auction(alloc, shelf, old)?;
    let second = read_auction(alloc, shelf, new)?;
    if is_same_auction(&first, &second) {
        Ok(Files {
            old: first,
            new: second,
        })
    } else {
        Err(Ended::OtherTerms)
    }
}

/// The line of each clock.
fn moved_text(alloc: Global, clocks: &[Clock]) -> Result<Vec<u8>, NoMemory>
    ensures { IfOk result (λ text. text.items ≡ flat_map moved_line (histories clocks.now)) }
{
    let mut text = Vec::new(alloc);
    for clock in clocks {
        let line = moved_line(alloc, clock)?;
        text.extend_from_slice(&line)?;
    }
    Ok(text)
}

/// The line of a clock: how many reports its journal has.
fn moved_line(alloc: Global, clock: &Clock) -> Result<Vec<u8>, AllocError>
    ensures { IfOk result (λ text. text.items ≡ moved_line clock.now.history) }
{
    let number = clock.number();
    let count = clock.count();
    let text = format!(in alloc; "migrated clock {number} reports {count}\n")?;
    Ok(text.into_bytes())
}
