//! Clocks that are made of reports, for tests.
#![tactic(auto)]

ghost use Rattle.std.specs.Prelude.{◌≡◌, ◌≤◌, IfOk};
ghost use Rattle.lot_base.specs.Demands.{IsDemand};

use clock::{Clock, Judgement};
use demand_set::{Demand, Report};
use lot_base::{Goods, Terms};
use std::alloc::Global;
use std::test::Fail;

/// The demand of these quantities, the bundles one after another.
pub fn demand_of(alloc: Global, goods: &Goods, quantities: &[u16]) -> Result<Demand, Fail>
    ensures { IfOk result (λ d. IsDemand goods.now d) }
{
    let count = goods.count();
    if count < 1 || count > 6 || quantities.len() % count as usize != 0 {
        return Err(Fail::new("no whole bundles"));
    }
    Ok(Demand::read_quantities(alloc, goods, count, quantities)?)
}

/// The clock takes a report.
pub fn offer(
    alloc: Global,
    clock: &mut Clock,
    bidder: u8,
    round: u32,
    demand: Demand,
) -> Result<(), Fail>
    requires { IsDemand clock.old.history.terms.goods demand }
    ensures terms { clock.new.history.terms ≡ clock.old.history.terms }
    ensures number { clock.new.history.number ≡ clock.old.history.number }
{
    match clock.judge(bidder, round, &demand) {
        Judgement::Take => Ok(clock.apply(
            alloc,
            Report {
                bidder,
                round,
                demand,
            },
        )?),
        judgement => Err(Fail::new(format_args!("bidder {bidder} round {round}: {judgement:?}"))),
    }
}

/// The clock of this number that took these reports, one after another: of each the bidder, the round and the quantities of its bundles.
pub fn clock_of(
    alloc: Global,
    terms: &Terms,
    number: u8,
    reports: &[(u8, u32, &[u16])],
) -> Result<Clock, Fail>
    requires { number ≤ terms.now.bidders }
    ensures terms { IfOk result (λ c. c.history.terms ≡ terms.now) }
    ensures number { IfOk result (λ c. c.history.number ≡ number) }
{
    let mut clock = Clock::new(alloc, terms, number)?;
    for (bidder, round, quantities) in reports {
        let demand = demand_of(alloc, &terms.goods, quantities)?;
        offer(alloc, &mut clock, *bidder, *round, demand)?;
    }
    Ok(clock)
}
