//! A house: a desk for each clock.
ghost use Rattle.std.specs.Prelude.{◌≡◌, ◌≤◌, ◌<◌, ◌++◌, ◌∷◌, [], ◌+◌, ℕ, length, IfOk, IfErr};
ghost use Rattle.lot_base.specs.Demands.{IsDemand};
ghost use Rattle.lot_base.specs.Goods.{IsRange};
ghost use Rattle.session.specs.Asking.{IsOffered};
ghost use Rattle.lot_base.specs.declared.phases.Phase.TheVariants.{Halted};
ghost use Rattle.clock_family.specs.Opening.{IsNotOpen};
ghost use Rattle.clock_family.specs.Turns.{LooksAt, OffersAt, AreOf};
ghost use Rattle.clock_family.specs.Houses.{IsOpened, AreAllOf, AreClosed, all_still};

use crate::clock_passes::close_all;
use crate::closing::Closing;
use crate::dealing::{Tray, deal, gather, reserve};
use crate::house_books::HouseBook;
use crate::opening::{NotOpen, lay_all};
use crate::passes::ClockPass;
use crate::turns::{look_on, offer_on};
use auction_file::Auction;
use clock::{Look, Offered};
use clock_book::{ClockBook, OpenFault};
use demand_set::Demand;
use house_io::Disk;
use lot_base::Terms;
use std::alloc::Global;
use std::marker::Model;
use std::sync::Wait;
use turn_desk::{Desk, Pass};

/// A desk for each clock of an auction, shared by threads.
pub struct House<D: Disk> {
    /// Those of the auction.
    pub(crate) terms: Terms,
    /// The digest of the auction's file.
    pub(crate) digest: [u8; 32],
    /// Clock 0's first: one more than there are bidders.
    pub(crate) desks: Vec<Desk<HouseBook<D>>>,
}

impl<D: Disk> Model for House<D> {
    ghost use Rattle.std.specs.Prelude.{◌≡◌, ◌+◌, length};
    ghost use Rattle.clock_family.specs.Houses.{HouseOf};

    ghost Value = { HouseOf D };

    ghost view = { λ h. record { terms = h.terms; digest = h.digest; desks = h.desks.items } };

    ghost invariant = { λ h. length h.desks.items ≡ h.terms.bidders + 1 };
}

/// A pass for each desk of a house, in the order of the clocks.
pub struct HousePass<D: Disk> {
    /// At the number of a clock, the pass of its desk, until the house is closed.
    pub(crate) passes: Vec<ClockPass<D>>,
    /// What closing the house takes, in its first pass alone: a house is shared by threads, and a list of passes is not.
    pub(crate) closing: Option<Closing<D>>,
}

impl<D: Disk> Model for HousePass<D> {
    ghost use Rattle.std.specs.Prelude.{◌≤◌, length, IfSome};
    ghost use Rattle.clock_family.specs.Houses.{HousePassOf, room_of};

    ghost Value = { HousePassOf };

    ghost view = { λ p. record { passes = p.passes.items; room = room_of p.closing } };

    ghost invariant = { λ p. IfSome p.closing (λ c. length p.passes.items ≤ c.clocks) };
}

impl<D: Disk> Drop for HousePass<D> {
    fn drop(self) {
        let HousePass {
            passes: _,
            closing: _,
        } = self;
    }
}

impl<D: Disk> HousePass<D> {
    /// Takes the last pass.
    pub(crate) fn take_last(&mut self) -> Pass<HouseBook<D>>
        requires some { 0 < length self.old.passes }
        ensures passes { self.old.passes ≡ self.new.passes ++ result ∷ [] }
    {
        self.passes.pop().unwrap().into_pass()
    }

    /// Keeps what closing the house takes.
    pub(crate) fn give_closing(&mut self, closing: Closing<D>)
        requires clocks { length self.old.passes ≤ closing.clocks }
        ensures passes { self.new.passes ≡ self.old.passes }
        ensures room { self.new.room ≡ closing.room }
    {
        self.closing = Some(closing);
    }

    /// Takes what closing the house takes.
    pub(crate) fn take_closing(&mut self) -> Closing<D>
        requires room { 0 < self.old.room }
        ensures passes { self.new.passes ≡ self.old.passes }
        ensures room { result.room ≡ self.old.room }
        ensures clocks { length self.old.passes ≤ result.clocks }
    {
        let closing = self.closing.take();
        closing.unwrap()
    }
}

impl<D: Disk> House<D> {
    /// Opens a house: the book of each clock on its disk, on a desk of its own, and so many passes, 1 to 64. The smallest clock whose
    /// book is not opened and laid on its desk refuses, and the disks come back in order.
    pub fn open(
        alloc: Global,
        auction: &Auction,
        disks: Vec<D>,
        passes: u32,
    ) -> Result<(House<D>, Vec<HousePass<D>>), NotOpen<D>>
        requires disks { length disks.items ≡ auction.now.terms.bidders + 1 }
        requires passes { (1 ≤ passes) × (passes ≤ 64) }
        ensures opened { IfOk result (λ o. IsOpened D.shown auction.now.terms auction.now.digest passes disks.items o.0 o.1.items) }
        ensures refused { IfErr result (λ e. IsNotOpen D.shown auction.now.terms auction.now.digest disks.items e.disks.items e.clock
            e.fault) }
    {
        let Ok(tray) = reserve(alloc, disks.len(), passes as usize) else {
            return Err(NotOpen {
                disks,
                clock: 0,
                fault: OpenFault::NoMemory,
            });
        };
        let Tray {
            mut rows,
            desks,
            passes: list,
            closing,
        } = tray;
        match lay_all(alloc, disks, &auction.terms, &auction.digest, passes) {
            Err(not_open) => {
                desks.destroy_empty();
                Err(not_open)
            }
            Ok(laid) => {
                let desks = deal(laid, &mut rows, desks);
                let passes = gather(rows, list, closing);
                let house = House {
                    terms: auction.terms,
                    digest: auction.digest,
                    desks,
                };
                Ok((house, passes))
            }
        }
    }

    /// Looks at a clock: at once where this is the first look after an offer by this pass and the clock has made no step since, else in
    /// a turn at the clock's desk, for which it waits. Takes no memory.
    pub fn look<T: Wait>(&self, rt: &T, pass: &mut HousePass<D>, clock: u8) -> Look
        requires clock { clock ≤ self.now.terms.bidders }
        requires of_house { AreOf self.now.terms self.now.digest self.now.desks pass.old.passes }
        ensures looks { LooksAt clock result pass.old.passes pass.new.passes }
        ensures of_house { AreOf self.now.terms self.now.digest self.now.desks pass.new.passes }
        ensures still { all_still pass.new ≡ all_still pass.old }
        ensures goods { length result.prices ≡ length self.now.terms.goods }
        ensures halted { (good : ℕ) → result.phase ≡ Halted good → good < length self.now.terms.goods }
    {
        look_on(
            rt,
            &self.desks[clock as usize],
            &mut pass.passes[clock as usize],
            &self.terms,
            clock,
            &self.digest,
        )
    }

    /// Waits for the turn at a clock's desk, and offers a report. Takes no memory.
    pub fn offer<T: Wait>(
        &self,
        rt: &T,
        alloc: Global,
        pass: &mut HousePass<D>,
        clock: u8,
        bidder: u8,
        round: u32,
        demand: Demand,
    ) -> Offered
        requires clock { clock ≤ self.now.terms.bidders }
        requires of_house { AreOf self.now.terms self.now.digest self.now.desks pass.old.passes }
        requires report { IsRange 1 self.now.terms.bidders bidder × IsDemand self.now.terms.goods demand }
        ensures offers { OffersAt clock (record { bidder = bidder; round = round; demand = demand }) result pass.old.passes
            pass.new.passes }
        ensures of_house { AreOf self.now.terms self.now.digest self.now.desks pass.new.passes }
        ensures still { all_still pass.new ≡ all_still pass.old }
        ensures refusal { IsOffered (bidder ≡ clock) result }
    {
        offer_on(
            rt,
            alloc,
            &self.desks[clock as usize],
            &mut pass.passes[clock as usize],
            &self.terms,
            clock,
            &self.digest,
            bidder,
            round,
            demand,
        )
    }

    /// Takes the books from a house that no thread shares any more, in the order of the clocks. Takes no memory.
    pub fn close(self, passes: Vec<HousePass<D>>) -> Vec<ClockBook<D>>
        requires all { AreAllOf self.desks passes.items }
        ensures closed { AreClosed self.desks passes.items result.items }
    {
        let House {
            terms: _,
            digest: _,
            desks,
        } = self;
        let mut rows = passes;
        let closing = rows[0].take_closing();
        let (lists, books) = closing.into_lists();
        close_all(desks, &mut rows, lists, books)
    }
}
