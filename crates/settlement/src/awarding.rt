//! What each bidder is awarded and pays.
ghost use Rattle.std.specs.Prelude.{◌≡◌, ◌<◌, ◌≤ℤ◌, ◌-ℤ◌, ◌^◌, pos, length, map, IfOk};
ghost use Rattle.std.specs.List.{AllByRecursion, AllZip};
ghost use Rattle.lot_base.specs.Goods.{cost};
ghost use Rattle.clock.specs.Reports.{histories};
ghost use Rattle.clock.specs.Standing.{prices_of};
ghost use Rattle.clock.specs.Accounts.{account_without};
ghost use Rattle.settlement.specs.Settling.{IsAwardRow};

use crate::outcome::AwardRow;
use award_assembly::Choice;
use clock::Clock;
use credit_book::payment;
use lot_base::{Bundle, NoMemory, Prices, Sequence};
use std::alloc::Global;

/// The rows of the bidders, from the clock of all, the clocks without each, and what each is awarded.
pub(crate) fn award_rows(
    alloc: Global,
    all: &Clock,
    others: &[Clock],
    prices: &Prices,
    awards: &Choice,
) -> Result<Sequence<AwardRow>, NoMemory>
    requires prices { prices.now ≡ prices_of all.now.history }
    requires count { length awards.now ≡ length (histories others.now) }
    requires small { AllByRecursion (λ award. cost prices.now award < 2 ^ 51) awards.now }
    ensures rows { IfOk result (AllZip (IsAwardRow all.now.history) (histories others.now)) }
    ensures awards { IfOk result (λ rows. map (λ row. row.award) rows ≡ awards.now) }
{
    let mut rows = Vec::new(alloc);
    for place in 0..others.len() {
        let row = award_row(all, &others[place], prices, &awards.get(place));
        rows.push(row)?;
    }
    Ok(Sequence::from_vec(rows))
}

/// The row of a bidder, from the clock of all and the clock without it.
fn award_row(all: &Clock, own: &Clock, prices: &Prices, award: &Bundle) -> AwardRow
    requires prices { prices.now ≡ prices_of all.now.history }
    requires small { cost prices.now award.now < 2 ^ 51 }
    ensures row { IsAwardRow all.now.history own.now.history result }
    ensures award { result.award ≡ award.now }
{
    let debit = account_without(own, 0);
    let credit = account_without(all, own.number());
    AwardRow {
        award: *award,
        debit,
        credit,
        pays: payment(prices, award, debit, credit),
    }
}

/// The account of a clock for its members but one.
fn account_without(clock: &Clock, bidder: u8) -> i64
    ensures value { result ≡ account_without clock.now.history bidder }
    ensures low { (pos 0 -ℤ pos (2 ^ 52)) ≤ℤ result }
    ensures high { result ≤ℤ pos (2 ^ 52) }
{
    clock.account().without(bidder)
}
