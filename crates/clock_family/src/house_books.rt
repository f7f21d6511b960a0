//! A clock book as it lies on a desk.
ghost use Rattle.std.specs.Prelude.{◌≡◌, ◌<◌, ◌%◌, ◌^◌, ℕ, length, IfOk, IfErr};
ghost use Rattle.lot_base.specs.Demands.{IsDemand};
ghost use Rattle.lot_base.specs.declared.phases.Phase.TheVariants.{Halted};
ghost use Rattle.house_io.specs.Faults.{Rose};
ghost use Rattle.clock.specs.declared.judging.Offered.TheVariants.{DiskFault};
ghost use Rattle.clock_book.specs.Past.{owner_in};
ghost use Rattle.turn_desk.specs.Histories.{GoesOn};
ghost use Rattle.clock_family.specs.Turns.{IsHistoryOffer, Shows, clock_in};
ghost use Rattle.clock_family.specs.Glances.{gauge_by};

use clock::{Look, Offered};
use clock_book::{ClockBook, Entry, Origin};
use demand_set::Demand;
use house_io::Disk;
use lot_base::Phase;
use report_journal::Hint;
use std::alloc::Global;
use std::marker::Model;
use turn_desk::Book;

/// A clock book as it lies on a desk, seen as that book. It lies in a box: it is some four thousand bytes long, and a turn moves what lies on a
/// desk from one thread to the next.
#[derive(Drop)]
pub struct HouseBook<D: Disk> {
    boxed: Box<ClockBook<D>>,
}

impl<D: Disk> Model for HouseBook<D> {
    ghost use Rattle.clock_book.specs.Books.{BookOf};

    ghost Value = { BookOf D };

    ghost view = { λ b. b.boxed.value };
}

impl<D: Disk> Book for HouseBook<D> {
    ghost use Rattle.clock_family.specs.Glances.{gauge_in};

    type Entry = Entry;

    type Origin = Origin;

    ghost history = { λ b. b.state.history };

    ghost origin = { λ b. b.origin };

    fn length(&self) -> u64 {
        self.boxed.length()
    }

    ghost gauge = { gauge_in };

    fn gauge(&self) -> u64 {
        gauge_by(&self.look())
    }
}

impl<D: Disk> HouseBook<D> {
    /// Lays a book in a box. Where there is no memory for one, the book comes back.
    pub(crate) fn new(alloc: Global, book: ClockBook<D>) -> Result<HouseBook<D>, ClockBook<D>>
        ensures ok { IfOk result (λ b. b ≡ book) }
        ensures err { IfErr result (λ b. b ≡ book) }
    {
        match Box::new(alloc, book) {
            Ok(boxed) => Ok(HouseBook { boxed }),
            Err(failed) => Err(failed.value),
        }
    }

    /// The book.
    pub(crate) fn into_book(self) -> ClockBook<D>
        ensures { result ≡ self }
    {
        let HouseBook { boxed } = self;
        Box::into_inner(boxed)
    }
}

/// The number of a round, by what is shown of it: twice its place, and one more where it is the last.
pub(crate) fn gauge_by(look: &Look) -> u64
    ensures { result ≡ gauge_by look.now.round look.now.phase }
{
    let stopped = match look.phase {
        Phase::Running => 0,
        Phase::Ended | Phase::Halted(_) => 1,
    };
    2 * u64::from(look.round) + stopped
}

impl<D: Disk> HouseBook<D> {
    /// Offers a report, in the words of the history alone. It takes no memory. The hint is asked for the payload of the report that is likely
    /// to be offered next, and has no part in the answer.
    pub fn offer<H: Hint>(
        &mut self,
        alloc: Global,
        bidder: u8,
        round: u32,
        demand: Demand,
        hint: &H,
    ) -> Offered
        requires { IsDemand self.old.origin.terms.goods demand }
        ensures history { IsHistoryOffer (owner_in self.old.origin) self.old.state.history
            (record { bidder = bidder; round = round; demand = demand }) result self.new.state.history }
        ensures goes_on { GoesOn self.old.state.history self.new.state.history }
        ensures origin { self.new.origin ≡ self.old.origin }
        ensures cause { result ≡ DiskFault → Rose (D.shown self.old.disk).faults (D.shown self.new.disk).faults }
    {
        let book: &mut ClockBook<D> = &mut self.boxed;
        let _kept = book.clock();
        book.offer_hinted(alloc, bidder, round, demand, hint)
    }

    /// What the clock shows, in the words of the history alone.
    pub fn look(&self) -> Look
        ensures shows { Shows (clock_in (owner_in self.now.origin) self.now.state.history) result }
        ensures goods { length result.prices ≡ length self.now.origin.terms.goods }
        ensures halted { (good : ℕ) → result.phase ≡ Halted good → good < length self.now.origin.terms.goods }
    {
        self.boxed.clock().look()
    }
}
