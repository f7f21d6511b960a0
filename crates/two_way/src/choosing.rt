//! What the members of a two-way clock demand in its last round, and the first choice among it that clears.
ghost use Rattle.std.specs.Prelude.{◌≡◌, map, IfOk, IsSome};
ghost use Rattle.std.specs.List.{AllByRecursion};
ghost use Rattle.lot_base.specs.Demands.{IsDemand};
ghost use Rattle.lot_base.specs.declared.phases.Phase.TheVariants.{Ended};
ghost use Rattle.clock.specs.Reports.{demand_in};
ghost use Rattle.two_way.specs.Histories.{members_in};
ghost use Rattle.two_way.specs.Standing.{phase_of, last_round, last_demands};
ghost use Rattle.two_way.specs.Floated.{choice_of};

use crate::clocks::TwoWay;
use award_assembly::{Assembly, Choice, assemble};
use demand_set::Demand;
use lot_base::{NoMemory, Terms};
use std::alloc::Global;

/// The first choice that clears of what the members of a clock that has ended demand, if one does.
pub(crate) fn choice_of(
    alloc: Global,
    terms: &Terms,
    clock: &TwoWay,
) -> Result<Option<Choice>, NoMemory>
    requires terms { clock.now.terms ≡ terms.now }
    requires ended { phase_of clock.now ≡ Ended }
    ensures { IfOk result (λ choice. choice_of clock.now ≡ choice) }
{
    let look = clock.look();
    let demands = last_demands(alloc, terms, clock)?;
    match assemble(alloc, &terms.goods, &terms.opening, &look.prices, &demands)? {
        Assembly::Award(choice) => Ok(Some(choice)),
        Assembly::NoChoice => Ok(None),
    }
}

/// What the members of a clock that has ended demand in its last round, in order.
fn last_demands(alloc: Global, terms: &Terms, clock: &TwoWay) -> Result<Vec<Demand>, NoMemory>
    requires terms { clock.now.terms ≡ terms.now }
    requires ended { phase_of clock.now ≡ Ended }
    ensures demands { IfOk result (λ v. v.items ≡ map (last_demands clock.now) (members_in clock.now)) }
    ensures fit { IfOk result (λ v. AllByRecursion (λ d. IsDemand terms.now.goods d) v.items) }
{
    let number = clock.number();
    let mut demands = Vec::new(alloc);
    for step in 0..terms.bidders {
        let bidder = step + 1;
        if bidder != number {
            demands.push(last_demand(alloc, clock, bidder)?)?;
        }
    }
    Ok(demands)
}

/// What a bidder that has reported demands in a clock's last round.
fn last_demand(alloc: Global, clock: &TwoWay, bidder: u8) -> Result<Demand, NoMemory>
    requires reported { IsSome (demand_in clock.now.reports (last_round clock.now) bidder) }
    ensures value { IfOk result (λ d. d ≡ last_demands clock.now bidder) }
    ensures fits { IfOk result (λ d. IsDemand clock.now.terms.goods d) }
{
    clock.last_demand(bidder).unwrap().copy(alloc)
}
