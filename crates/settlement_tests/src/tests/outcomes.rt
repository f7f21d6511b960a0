//! What of an outcome is compared, and whether an auction settles so.
use super::clocks::{Reports, settled};
use lot_base::{Bundle, Prices, Terms};
use settlement::{AwardRow, ClockRow, Outcome, Settlement};
use std::alloc::Global;
use std::process::Abort;
use std::test::Fail;

/// Whether prices are these.
fn are_prices(prices: &Prices, wanted: &[u32]) -> bool {
    prices.as_slice() == wanted
}

/// Whether the prices that are shown are these: none where none are wanted.
fn are_shown(shown: &Option<Prices>, wanted: &[u32]) -> bool {
    match shown {
        None => wanted.is_empty(),
        Some(prices) => are_prices(prices, wanted),
    }
}

/// Whether a bundle has these quantities.
fn is_bundle(bundle: &Bundle, quantities: &[u16]) -> bool {
    bundle.as_slice() == quantities
}

/// Award, debit, credit and payment.
pub(super) type Award<'a> = (&'a [u16], i64, i64, i64);

/// Whether the row of a bidder is this.
fn is_award(row: &AwardRow, wanted: &Award) -> bool {
    is_bundle(&row.award, wanted.0)
        && row.debit == wanted.1
        && row.credit == wanted.2
        && row.pays == wanted.3
}

/// Whether the rows of all bidders are these.
fn are_awards(rows: &[AwardRow], wanted: &[Award]) -> bool {
    rows.len() == wanted.len()
        && rows
            .iter()
            .zip(wanted)
            .all(|(row, award)| is_award(row, award))
}

/// Steps, prices and choice.
pub(super) type Row<'a> = (u32, &'a [u32], &'a [&'a [u16]]);

/// Whether the choices of a clock are these bundles.
fn are_choices(row: &ClockRow, wanted: &[&[u16]]) -> bool {
    if row.choices.len() != wanted.len() {
        return false;
    }
    for place in 0..row.choices.len() {
        if !is_bundle(&row.choices.get(place), wanted[place]) {
            return false;
        }
    }
    true
}

/// Whether the row of a clock is this.
fn is_row(row: &ClockRow, wanted: &Row) -> bool {
    row.steps == wanted.0 && are_prices(&row.prices, wanted.1) && are_choices(row, wanted.2)
}

/// Whether the rows of all clocks are these.
fn are_rows(rows: &[ClockRow], wanted: &[Row]) -> bool {
    rows.len() == wanted.len()
        && rows
            .iter()
            .zip(wanted)
            .all(|(row, clock)| is_row(row, clock))
}

/// The prices at which the clocks opened, if they are shown, the prices at the end, a row for each bidder, and one for each clock.
pub(super) type Told<'a> = (&'a [u32], &'a [u32], &'a [Award<'a>], &'a [Row<'a>]);

/// Whether an outcome is told so.
fn is_outcome(outcome: &Outcome, told: &Told) -> bool {
    are_shown(&outcome.opening, told.0)
        && are_prices(&outcome.prices, told.1)
        && are_awards(outcome.rows.as_slice(), told.2)
        && are_rows(outcome.clocks.as_slice(), told.3)
}

/// Whether an auction of these terms settles so where its bidders report so.
pub(super) fn settles_so(
    rt: &impl Abort,
    alloc: Global,
    terms: &Terms,
    reports: Reports,
    told: &Told,
) -> Result<bool, Fail> {
    match settled(rt, alloc, terms, reports)? {
        Settlement::Settled(outcome) => Ok(is_outcome(&outcome, told)),
        _ => Ok(false),
    }
}
