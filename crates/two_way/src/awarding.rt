//! What each bidder is awarded and pays.
ghost use Rattle.std.specs.Prelude.{◌≡◌, ◌<◌, ◌^◌, length, map, IfOk};
ghost use Rattle.std.specs.List.{AllByRecursion, AllZip};
ghost use Rattle.lot_base.specs.Goods.{cost};
ghost use Rattle.two_way.specs.Standing.{prices_of};
ghost use Rattle.two_way.specs.Floated.{IsAwardRow};

use crate::clocks::TwoWay;
use award_assembly::Choice;
use credit_book::payment;
use lot_base::{Bundle, NoMemory, Prices, Sequence};
use settlement::AwardRow;
use std::alloc::Global;

/// The rows of the bidders, from the clock of all, the clocks without each, and what each is awarded.
pub(crate) fn award_rows(
    alloc: Global,
    all: &TwoWay,
    others: &[TwoWay],
    prices: &Prices,
    awards: &Choice,
) -> Result<Sequence<AwardRow>, NoMemory>
    requires prices { prices.now ≡ prices_of all.now }
    requires count { length awards.now ≡ length others.now }
    requires small { AllByRecursion (λ award. cost prices.now award < 2 ^ 51) awards.now }
    ensures rows { IfOk result (AllZip (IsAwardRow all.now) others.now) }
    ensures awards { IfOk result (λ rows. map (λ row. row.award) rows ≡ awards.now) }
{
    let mut rows = Vec::new(alloc);
    for place in 0..others.len() {
        let row = award_row(all, &others[place], prices, &awards.get(place));
        rows.push(row)?;
    }
    Ok(Sequence::from_vec(rows))
}

/// The row of a bidder, from the clock of all and the clock without it.
fn award_row(all: &TwoWay, own: &TwoWay, prices: &Prices, award: &Bundle) -> AwardRow
    requires prices { prices.now ≡ prices_of all.now }
    requires small { cost prices.now award.now < 2 ^ 51 }
    ensures row { IsAwardRow all.now own.now result }
    ensures award { result.award ≡ award.now }
{
    let debit = own.sum_without(0);
    let credit = all.sum_without(own.number());
    AwardRow {
        award: *award,
        debit,
        credit,
        pays: payment(prices, award, debit, credit),
    }
}
