//! A hall of clocks in a list.
ghost use Rattle.std.specs.Prelude.{◌≡◌, ◌<◌, ◌-◌, length, IfOk};
ghost use Rattle.lot_base.specs.Demands.{IsDemand};
ghost use Rattle.session.specs.Lists.{AreClocks, AreOpened, supply_in, Allows, IsOffer};

use crate::halls::Hall;
use clock::{Clock, Judgement, Look, Offered};
use demand_set::{Demand, Report};
use lot_base::{NoMemory, Terms};
use std::alloc::Global;
use std::collections::LinkedList;
use std::sync::Wait;

/// The clocks of an auction, from clock 0 on.
#[derive(Drop)]
pub struct ListHall {
    pub clocks: Vec<Clock>,
}

impl ListHall {
    /// A hall of these clocks.
    pub fn new(clocks: Vec<Clock>) -> ListHall
        requires { AreClocks clocks.items }
        ensures { result.clocks ≡ clocks }
    {
        ListHall { clocks }
    }

    /// A hall of the clocks of these terms, without reports.
    pub fn open(alloc: Global, terms: &Terms) -> Result<ListHall, NoMemory>
        ensures opened { IfOk result (λ hall. AreOpened terms.now 0 hall.clocks.items) }
        ensures order { IfOk result (λ hall. AreClocks hall.clocks.items) }
        ensures supply { IfOk result (λ hall. supply_in hall.clocks.items ≡ terms.now.goods) }
        ensures bidders { IfOk result (λ hall. length hall.clocks.items - 1 ≡ terms.now.bidders) }
    {
        let mut clocks = Vec::new(alloc);
        for number in 0..terms.bidders + 1 {
            let clock = Clock::new(alloc, terms, number)?;
            match clocks.push(clock) {
                Ok(()) => {}
                Err(_) => return Err(NoMemory),
            }
        }
        Ok(ListHall { clocks })
    }
}

impl Hall for ListHall {
    ghost use Rattle.std.specs.Prelude.{◌≡◌, length, ◌-◌};
    ghost use Rattle.std.proofs.Common.{refl, ◌∙◌};
    ghost use Rattle.session.specs.Lists.{AreClocks, supply_in, Allows};

    type Meaning = LinkedList<Clock>;

    ghost meaning = { λ hall. hall.clocks.items };

    ghost supply = { λ hall. supply_in hall.clocks.items };

    ghost bidders = { λ hall. length hall.clocks.items - 1 };

    ghost in_order = { λ hall. AreClocks hall.clocks.items };

    ghost stays = { λ x y. (supply_in y.clocks.items ≡ supply_in x.clocks.items) × (length y.clocks.items ≡ length x.clocks.items) };

    ghost allows = { Allows };

    fn look<T: Wait>(&mut self, _rt: &T, clock: u8) -> Look {
        self.clocks[clock as usize].look()
    }

    fn offer<T: Wait>(
        &mut self,
        _rt: &T,
        alloc: Global,
        clock: u8,
        bidder: u8,
        round: u32,
        demand: Demand,
    ) -> Offered {
        offer_to(
            alloc,
            &mut self.clocks[clock as usize],
            bidder,
            round,
            demand,
        )
    }

    ghost stays_still = { λ x. (refl, refl) };

    ghost stays_along = { λ x y z p q. (q.0 ∙ p.0, q.1 ∙ p.1) };

    ghost same_supply = { λ x y p. p.0 };

    ghost same_bidders = { λ x y p i. p.1 i - 1 };
}

/// Offers a report to a clock.
fn offer_to(alloc: Global, clock: &mut Clock, bidder: u8, round: u32, demand: Demand) -> Offered
    requires { IsDemand clock.old.history.terms.goods demand }
    ensures { IsOffer clock.old (record { bidder = bidder; round = round; demand = demand }) result clock.new }
{
    match clock.judge(bidder, round, &demand) {
        Judgement::Take => {
            let report = Report {
                bidder,
                round,
                demand,
            };
            match clock.apply(alloc, report) {
                Ok(()) => Offered::Taken,
                Err(_) => Offered::NoMemory,
            }
        }
        Judgement::Again => Offered::Again,
        refused => Offered::Refused(refused),
    }
}
