//! A hall: where the clocks of an auction stand, and what may be asked there.
ghost use Rattle.std.specs.Prelude.{◌≡◌, ◌≤◌, ◌<◌, ℕ, List, length};
ghost use Rattle.lot_base.specs.Goods.{IsRange};
ghost use Rattle.lot_base.specs.Demands.{IsDemand};

use clock::{Look, Offered};
use demand_set::Demand;
use std::alloc::Global;
use std::sync::Wait;

/// What is asked of a hall. Contracts alone speak of it.
pub enum Question {
    /// Where does the clock stand?
    Look {
        clock: u8,
    },
    /// Does this report of the bidder count?
    Offer {
        clock: u8,
        bidder: u8,
        round: u32,
        demand: Demand,
    },
}

/// What was asked of a hall, with its answer. Contracts alone speak of it.
pub enum Asked {
    /// The clock was looked at.
    Look {
        clock: u8,
        look: Look,
    },
    /// A report was offered, and judged.
    Offer {
        clock: u8,
        bidder: u8,
        round: u32,
        demand: Demand,
        offered: Offered,
    },
}

/// Where the clocks of an auction stand.
pub trait Hall {
    ghost use Rattle.session.specs.Asking.{IsShown, IsOffered};
    ghost use Rattle.session.specs.declared.halls.Asked.{Asked};

    /// What is kept there.
    type Meaning;

    ghost meaning: { Self → Self.Meaning };

    /// The supply of the goods, and how many bidders there are.
    ghost supply: { Self → List ℕ };

    ghost bidders: { Self → ℕ };

    ghost in_order: { Self → Type 0 };

    /// It is the same hall, lent from the same place.
    ghost stays: { Self → Self → Type 0 };

    /// What may have been asked and answered between two meanings.
    ghost allows: { Self.Meaning → Asked → Self.Meaning → Type 0 };

    fn look<T: Wait>(&mut self, rt: &T, clock: u8) -> Look
        requires order { in_order self.old }
        requires clock { clock ≤ bidders self.old }
        ensures order { in_order self.new }
        ensures stays { stays self.old self.new }
        ensures answer { allows (meaning self.old) (Asked.Look clock result) (meaning self.new) }
        ensures shown { IsShown (length (supply self.old)) result };

    fn offer<T: Wait>(
        &mut self,
        rt: &T,
        alloc: Global,
        clock: u8,
        bidder: u8,
        round: u32,
        demand: Demand,
    ) -> Offered
        requires order { in_order self.old }
        requires clock { clock ≤ bidders self.old }
        requires bidder { IsRange 1 (bidders self.old) bidder }
        requires demand { IsDemand (supply self.old) demand }
        ensures order { in_order self.new }
        ensures stays { stays self.old self.new }
        ensures answer { allows (meaning self.old) (Asked.Offer clock bidder round demand result) (meaning self.new) }
        ensures refusal { IsOffered (bidder ≡ clock) result };

    ghost stays_still: { (x : Self) → stays x x };

    ghost stays_along: { (x y z : Self) → stays x y → stays y z → stays x z };

    ghost same_supply: { (x y : Self) → stays x y → supply y ≡ supply x };

    ghost same_bidders: { (x y : Self) → stays x y → bidders y ≡ bidders x };
}
