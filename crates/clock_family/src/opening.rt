//! How a house is opened: a desk for each clock.
ghost use Rattle.std.specs.Prelude.{◌≡◌, ◌≤◌, ◌+◌, ◌++◌, List, length, IfOk, IfErr};
ghost use Rattle.std.specs.VecDeque.{deque_capacity};
ghost use Rattle.recovery.specs.Journaled.{owner_of};
ghost use Rattle.clock_book.specs.Opened.{IsUnopened};
ghost use Rattle.std.specs.List.{AllByRecursion};
ghost use Rattle.clock_book.specs.declared.faults.OpenFault.TheVariants.{NoMemory};
ghost use Rattle.clock_family.specs.Opening.{IsLaidFor, AreLaid, IsUnused, AreGivenBack, IsNotOpen};

use crate::house_books::HouseBook;
use crate::laid::Laid;
use clock_book::{ClockBook, OpenFault, Unopened};
use house_io::Disk;
use lot_base::Terms;
use std::alloc::Global;
use std::collections::VecDeque;
use turn_desk::{Desk, NotMade};

/// Opens the book of a clock, and lays it on a desk.
pub(crate) fn lay<D: Disk>(
    alloc: Global,
    disk: D,
    terms: &Terms,
    clock: u8,
    digest: &[u8; 32],
    passes: u32,
) -> Result<Laid<D>, Unopened<D>>
    requires clock { clock ≤ terms.now.bidders }
    requires passes { (1 ≤ passes) × (passes ≤ 64) }
    ensures ok { IfOk result (λ l. IsLaidFor D.shown terms.now digest.now passes clock disk l.desk l.passes) }
    ensures err { IfErr result (λ e. IsUnopened D.shown (owner_of terms.now clock digest.now) disk e.disk e.fault) }
{
    let book = match ClockBook::open(alloc, disk, terms, clock, digest) {
        Err(unopened) => return Err(unopened),
        Ok(book) => book,
    };
    let book = match HouseBook::new(alloc, book) {
        Err(book) => return Err(no_memory(book)),
        Ok(book) => book,
    };
    match Desk::new(alloc, book, passes) {
        Ok((desk, passes)) => Ok(Laid { desk, passes }),
        Err(NotMade { book }) => Err(no_memory(book.into_book())),
    }
}

/// A book that was opened and for whose desk there is no memory: its disk is given back.
fn no_memory<D: Disk>(book: ClockBook<D>) -> Unopened<D>
    ensures disk { result.disk ≡ book.disk }
    ensures fault { result.fault ≡ NoMemory }
{
    let (_clock, disk) = book.into_parts();
    Unopened {
        disk,
        fault: OpenFault::NoMemory,
    }
}

/// Disks on which no house was opened, in order of the clocks, and the first clock that has no desk, with the reason: its book was not
/// opened, for this fault. `NoMemory` is also that of a clock whose book was opened and whose desk was not made, and that of clock 0
/// where the lists had no memory before any disk was touched.
pub struct NotOpen<D> {
    /// The disks that were given, handed back, clock 0's first. An unformed file may have got a header.
    pub disks: Vec<D>,
    /// The first clock whose book was not laid on a desk; 0 where memory ran out before.
    pub clock: u8,
    /// Why it was not; `NoMemory` where its book was opened and the desk was not made.
    pub fault: OpenFault,
}

/// Lays the books of all clocks on desks, one disk after another.
pub(crate) fn lay_all<D: Disk>(
    alloc: Global,
    disks: Vec<D>,
    terms: &Terms,
    digest: &[u8; 32],
    passes: u32,
) -> Result<Vec<Laid<D>>, NotOpen<D>>
    requires disks { length disks.items ≡ terms.now.bidders + 1 }
    requires passes { (1 ≤ passes) × (passes ≤ 64) }
    ensures ok { IfOk result (λ laid. AreLaid D.shown terms.now digest.now passes disks.items laid.items) }
    ensures count { IfOk result (λ laid. length laid.items ≡ length disks.items) }
    ensures err { IfErr result (λ e. IsNotOpen D.shown terms.now digest.now disks.items e.disks.items e.clock e.fault) }
{
    let Ok(mut laid) = Vec::with_capacity(alloc, disks.len()) else {
        return Err(NotOpen {
            disks,
            clock: 0,
            fault: OpenFault::NoMemory,
        });
    };
    let mut rest = VecDeque::from_vec(disks);
    for clock in 0..terms.bidders + 1 {
        let disk = rest.pop_front().unwrap();
        let Unopened { disk, fault } = match lay(alloc, disk, terms, clock, digest, passes) {
            Ok(stand) => {
                laid.push_reserved(stand);
                continue;
            }
            Err(unopened) => unopened,
        };
        rest.push_front_reserved(disk);
        let disks = given_back(rest, laid);
        return Err(NotOpen {
            disks,
            clock,
            fault,
        });
    }
    rest.destroy_empty();
    Ok(laid)
}

/// The disks in order: those of the desks, and then these.
fn given_back<D: Disk>(rest: VecDeque<D>, laid: Vec<Laid<D>>) -> Vec<D>
    requires room { length rest.items + length laid.items ≤ deque_capacity rest }
    requires unused { AllByRecursion IsUnused laid.items }
    ensures { (front : List D) × AreGivenBack D.shown laid.items front × (result.items ≡ front ++ rest.items) }
{
    let mut disks = rest;
    let mut laid = laid;
    while let Some(stand) = laid.pop() {
        disks.push_front_reserved(stand.into_disk());
    }
    laid.destroy_empty();
    disks.into_vec()
}
