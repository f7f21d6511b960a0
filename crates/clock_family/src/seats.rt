//! A seat of a house, as a hall of sessions.
ghost use Rattle.std.specs.Prelude.{◌≡◌};

use crate::houses::{House, HousePass};
use clock::{Look, Offered};
use demand_set::Demand;
use house_io::Disk;
use session::Hall;
use std::alloc::Global;
use std::sync::Wait;

/// A house, and the pass by which a session takes its turns.
pub struct HouseSeat<'a, D: Disk> {
    /// The house, which is shared by all its sessions.
    pub house: &'a House<D>,
    /// A pass of this house, which no other session uses meanwhile.
    pub pass: &'a mut HousePass<D>,
}

impl<'a, D: Disk> Hall for HouseSeat<'a, D> {
    ghost use Rattle.std.specs.Prelude.{◌≡◌};
    ghost use Rattle.std.proofs.Common.{refl, ◌∙◌, ap};
    ghost use Rattle.clock_family.specs.Turns.{AreOf};
    ghost use Rattle.clock_family.specs.Houses.{all_still};
    ghost use Rattle.clock_family.specs.Seats.{SeatAllows};

    type Meaning = HousePass<D>;

    ghost meaning = { λ s. s.pass.now };

    ghost supply = { λ s. s.house.now.terms.goods };

    ghost bidders = { λ s. s.house.now.terms.bidders };

    ghost in_order = { λ s. AreOf s.house.now.terms s.house.now.digest s.house.now.desks s.pass.now.passes };

    ghost stays = { λ s t. (t.house.now ≡ s.house.now) × (t.pass.ghost_name ≡ s.pass.ghost_name)
        × (all_still t.pass.now ≡ all_still s.pass.now) };

    ghost allows = { λ before asked after. SeatAllows before.passes asked after.passes };

    fn look<T: Wait>(&mut self, rt: &T, clock: u8) -> Look {
        self.house.look(rt, self.pass, clock)
    }

    fn offer<T: Wait>(
        &mut self,
        rt: &T,
        alloc: Global,
        clock: u8,
        bidder: u8,
        round: u32,
        demand: Demand,
    ) -> Offered {
        self.house
            .offer(rt, alloc, self.pass, clock, bidder, round, demand)
    }

    ghost stays_still = { λ s. (refl, refl, refl) };

    ghost stays_along = { λ x y z p q. (q.0 ∙ p.0, q.1 ∙ p.1, q.2 ∙ p.2) };

    ghost same_supply = { λ x y p. ap (λ h. h.terms.goods) p.0 };

    ghost same_bidders = { λ x y p. ap (λ h. h.terms.bidders) p.0 };
}
