//! Books on the targets.
ghost use Rattle.std.specs.Prelude.{◌≡◌, ◌+◌, ◌≤◌, ◌++◌, List, length, map, IfOk, IfErr, Err};
ghost use Rattle.std.specs.VecDeque.{deque_capacity};
ghost use Rattle.clock.specs.Reports.{ClockHistory};
ghost use Rattle.clock_book.specs.Books.{BookOf};
ghost use Rattle.migration.specs.Targets.{AreOpen, disks_of};
ghost use Rattle.migration.specs.Moves.{Moves};

use crate::faults::MoveFault;
use clock_book::{ClockBook, Unopened};
use house_io::Disk;
use lot_base::Terms;
use std::alloc::Global;
use std::collections::VecDeque;

/// The targets, given back in the order of the clocks, where not all books were opened, with the reason.
pub(crate) struct GivenBack<D> {
    /// Clock 0's first. An unformed file may have got a header.
    pub(crate) disks: Vec<D>,
    /// `NotOpened` of the first clock whose book was refused, or `NoMemory`.
    pub(crate) fault: MoveFault,
}

/// The books on the targets, in the order of the clocks, with an empty queue that has room for the disks.
pub(crate) struct Targets<D: Disk> {
    /// Clock 0's first: one for each target.
    pub(crate) books: Vec<ClockBook<D>>,
    /// An empty queue. A disk of each book fits in it.
    pub(crate) room: VecDeque<D>,
}

/// Opens a book on each target, clock by clock. Where one is refused, the books before it are closed.
pub(crate) fn open_books<D: Disk>(
    alloc: Global,
    disks: Vec<D>,
    terms: &Terms,
    digest: &[u8; 32],
) -> Result<Targets<D>, GivenBack<D>>
    requires { length disks.items ≡ terms.now.bidders + 1 }
    ensures ok { IfOk result (λ o. AreOpen D.shown terms.now digest.now disks.items o.books.items) }
    ensures count { IfOk result (λ o. length o.books.items ≡ length disks.items) }
    ensures room { IfOk result (λ o. (length o.room.items ≡ 0) × (length disks.items ≤ deque_capacity o.room)) }
    ensures err { IfErr result (λ e. (clocks : List ClockHistory)
        → Moves D.shown terms.now digest.now clocks disks.items e.disks.items (Err e.fault)) }
{
    let Ok(mut books) = Vec::with_capacity(alloc, disks.len()) else {
        return Err(GivenBack {
            disks,
            fault: MoveFault::NoMemory,
        });
    };
    let mut rest = VecDeque::from_vec(disks);
    for clock in 0..terms.bidders + 1 {
        let disk = rest.pop_front().unwrap();
        let Unopened { disk, fault } = match ClockBook::open(alloc, disk, terms, clock, digest) {
            Ok(book) => {
                books.push_reserved(book);
                continue;
            }
            Err(unopened) => unopened,
        };
        rest.push_front_reserved(disk);
        let disks = close_books(books, rest);
        return Err(GivenBack {
            disks,
            fault: MoveFault::NotOpened { clock, fault },
        });
    }
    Ok(Targets { books, room: rest })
}

/// The disks in order: those of the books, and then these. Takes no memory.
pub(crate) fn close_books<D: Disk>(books: Vec<ClockBook<D>>, disks: VecDeque<D>) -> Vec<D>
    requires { length disks.items + length books.items ≤ deque_capacity disks }
    ensures { result.items ≡ disks_of books.items ++ disks.items }
{
    let mut disks = disks;
    let mut books = books;
    while let Some(book) = books.pop() {
        let (_clock, disk) = book.into_parts();
        disks.push_front_reserved(disk);
    }
    books.destroy_empty();
    disks.into_vec()
}
