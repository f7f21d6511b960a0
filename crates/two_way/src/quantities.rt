//! What the members of a clock demand in a round, added up for each set of goods.
ghost use Rattle.std.specs.Prelude.{◌≡◌, ◌≤◌, length, drop};
ghost use Rattle.std.specs.List.{AllByRecursion};
ghost use Rattle.lot_base.specs.Demands.{IsDemand, IsTable, least};
ghost use Rattle.demand_set.specs.declared.reports.Report.{Report as ReportValue};
ghost use Rattle.lyapunov.specs.Excesses.{IsSmall};
ghost use Rattle.clock.specs.Reports.{demands_in};
ghost use Rattle.two_way.specs.Quantities.{amount_in, AddUp};

use crate::past::{Kept, Past};
use lot_base::{Excess, Goods, LeastTable};
use lyapunov::{add_table, opening};

/// Which of the bundles of a demand are counted.
#[derive(Clone, Copy, Debug)]
pub(crate) enum Amount {
    /// For each set one with the fewest units of it.
    Least,
    /// For each set one with the most units of it.
    Greatest,
}

/// What the members demand of each set of goods.
#[derive(Clone, Copy, Debug)]
pub(crate) struct Quantities {
    /// The table of each member at its number, and None for one who is no member.
    pub tables: [Option<LeastTable>; 13],
    /// How far they are together above the supply of each set.
    pub excess: Excess,
}

/// What the members of a clock demand in a round at the least, or at the greatest, by the reports from a place on.
pub(crate) fn demanded(
    goods: &Goods,
    bidders: u8,
    clock: u8,
    reports: &Past,
    from: usize,
    round: u32,
    amount: Amount,
) -> Quantities
    requires few { bidders ≤ 12 }
    requires goods { reports.now.goods ≡ goods.now }
    requires from { from ≤ length reports.now.reports }
    requires fit { AllByRecursion (λ (r : ReportValue). IsDemand goods.now r.demand) (drop from reports.now.reports) }
    ensures { AddUp goods.now (λ j. amount_in amount (demands_in (drop from reports.now.reports) round j)) bidders clock result }
{
    let mut tables = [None; 13];
    let mut excess = opening(goods);
    for step in 0..bidders {
        let bidder = step + 1;
        if bidder != clock {
            let table = table_in(goods, reports, from, round, bidder, amount);
            add_table(goods, &mut excess, &table);
            tables[bidder as usize] = Some(table);
        }
    }
    Quantities { tables, excess }
}

/// What a bidder demands in a round; nothing where it has not reported.
fn table_in(
    goods: &Goods,
    reports: &Past,
    from: usize,
    round: u32,
    bidder: u8,
    amount: Amount,
) -> LeastTable
    requires goods { reports.now.goods ≡ goods.now }
    requires from { from ≤ length reports.now.reports }
    requires fit { AllByRecursion (λ (r : ReportValue). IsDemand goods.now r.demand) (drop from reports.now.reports) }
    ensures table { IsTable (length goods.now) (amount_in amount (demands_in (drop from reports.now.reports) round bidder)) result.0 }
    ensures small { IsSmall result.0 }
{
    let _count = goods.count();
    match reports.kept_in(from, round, bidder) {
        Some(kept) => table_of(goods, kept, amount),
        None => LeastTable([0; 64]),
    }
}

/// What a demand has of each set.
fn table_of(goods: &Goods, kept: &Kept, amount: Amount) -> LeastTable
    requires fits { IsDemand goods.now kept.now.demand }
    requires table { IsTable (length goods.now) (least kept.now.demand) kept.now.least.0 }
    ensures { IsTable (length goods.now) (amount_in amount kept.now.demand) result.0 }
{
    match amount {
        Amount::Least => kept.least,
        Amount::Greatest => kept.demand.greatest_table(goods),
    }
}
