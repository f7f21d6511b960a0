//! How a record's payload is read as a report.
ghost use Rattle.std.specs.Prelude.{◌≡◌, ◌↔◌, ◌≤◌, length, IsTrue, IfOk, IfSome, IfNone};
ghost use Rattle.report_wire.specs.Payloads.{report_payload};
ghost use Rattle.byte_numbers.specs.Spelling.{short_numbers};
ghost use Rattle.report_wire.specs.Entries.{IsWhole};
ghost use Rattle.recovery.specs.Entries.{Spells, SpellsNone, AreSmall};

use demand_set::{Demand, DemandFault, Report};
use lot_base::{NoMemory, Terms};
use report_wire::view_entry;
use std::alloc::Global;

/// The report that the payload spells, if it is one of a bidder, with a demand of the supply.
pub fn read_report(alloc: Global, terms: &Terms, payload: &[u8]) -> Result<Option<Report>, NoMemory>
    ensures some { IfOk result (λ o. IfSome o (Spells terms.now payload.now)) }
    ensures none { IfOk result (λ o. IfNone o (SpellsNone terms.now payload.now)) }
{
    match view_entry(payload) {
        None => Ok(None),
        Some(entry) => report_of(
            alloc,
            terms,
            entry.bidder,
            entry.round,
            entry.goods,
            entry.quantities,
        ),
    }
}

/// The report with these quantities, if it is one of a bidder, with a demand of the supply.
fn report_of(
    alloc: Global,
    terms: &Terms,
    bidder: u8,
    round: u32,
    goods: u8,
    quantities: &[u8],
) -> Result<Option<Report>, NoMemory>
    requires { IsWhole goods (short_numbers quantities.now) }
    ensures some { IfOk result (λ o. IfSome o (Spells terms.now (report_payload bidder round goods (short_numbers quantities.now)))) }
    ensures none { IfOk result (λ o. IfNone o (SpellsNone terms.now (report_payload bidder round goods (short_numbers quantities.now)))) }
{
    if bidder < 1 || bidder > terms.bidders {
        return Ok(None);
    }
    if !has_some(quantities) {
        return Ok(None);
    }
    match Demand::read_bytes(alloc, &terms.goods, goods, quantities) {
        Ok(demand) => Ok(Some(Report {
            bidder,
            round,
            demand,
        })),
        Err(DemandFault::NoMemory) => Err(NoMemory),
        Err(_) => Ok(None),
    }
}

/// Whether there is a quantity. Each fits two bytes.
fn has_some(quantities: &[u8]) -> bool
    ensures some { IsTrue result ↔ (1 ≤ length quantities.now) }
    ensures small { AreSmall (short_numbers quantities.now) }
{
    !quantities.is_empty()
}
