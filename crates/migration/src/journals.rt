//! The journals of an auction, moved.
ghost use Rattle.std.specs.Prelude.{◌≡◌, length};
ghost use Rattle.clock.specs.Reports.{histories};
ghost use Rattle.migration.specs.Moving.{AreClocksAs};
ghost use Rattle.migration.specs.Moves.{Moves};

use crate::faults::MoveFault;
use crate::fronts::check_fronts;
use crate::moving::move_all;
use crate::targets::{GivenBack, Targets, close_books, open_books};
use clock::Clock;
use house_io::Disk;
use lot_base::Terms;
use std::alloc::Global;

/// Moves the reports of clocks, which were read from the journals of an auction, to the disks of their targets, in the order of the
/// clocks: the journals of the same auction under these terms and the file of this digest. All targets are opened by clock, and the
/// unformed ones formed; then the reports of each are looked at, and only where each are a front of the clock's are the others offered.
/// A move that was stopped goes on where it is run again. The disks come back in order.
pub fn move_journals<D: Disk>(
    alloc: Global,
    clocks: &[Clock],
    terms: &Terms,
    digest: &[u8; 32],
    disks: Vec<D>,
) -> (Result<(), MoveFault>, Vec<D>)
    requires clocks { AreClocksAs terms.now (histories clocks.now) }
    requires disks { length disks.items ≡ length clocks.now }
    ensures { Moves D.shown terms.now digest.now (histories clocks.now) disks.items result.1.items result.0 }
{
    match open_books(alloc, disks, terms, digest) {
        Err(GivenBack { disks, fault }) => (Err(fault), disks),
        Ok(Targets { mut books, room }) => match check_fronts(alloc, terms, clocks, &books) {
            Err(fault) => (Err(fault), close_books(books, room)),
            Ok(()) => {
                let answer = move_all(alloc, terms, clocks, &mut books);
                (answer, close_books(books, room))
            }
        },
    }
}
