//! Reports that repeat, taken from their payloads.
ghost use Rattle.std.specs.Prelude.{◌≡◌, ◌≢◌, true, Ok, IfOk};
ghost use Rattle.byte_numbers.specs.Spelling.{short_numbers};
ghost use Rattle.report_wire.specs.Payloads.{report_payload};
ghost use Rattle.clock_book.specs.Repeats.{TakesPayload, TakesNext};

use clock::Clock;
use lot_base::{NoMemory, Terms};
use recovery::Reports;
use report_wire::view_entry;
use std::alloc::Global;

/// Takes the report of a payload where it is what its bidder reported in the round before, by comparing the quantities: no demand is
/// read. Tells whether it was taken; else nothing has changed, and the payload is to be read and judged as any.
pub fn take_again(
    alloc: Global,
    terms: &Terms,
    clock: &mut Clock,
    payload: &[u8],
) -> Result<bool, NoMemory>
    requires { clock.old.history.terms ≡ terms.now }
    ensures done { IfOk result (λ done. done ≡ true → TakesPayload clock.old clock.new terms.now payload.now) }
    ensures left { result ≢ Ok true → clock.new ≡ clock.old }
{
    let Some(entry) = view_entry(payload) else {
        return Ok(false);
    };
    apply_again(
        alloc,
        terms,
        clock,
        entry.bidder,
        entry.round,
        entry.goods,
        entry.quantities,
    )
}

/// The same of a payload by its parts.
fn apply_again(
    alloc: Global,
    terms: &Terms,
    clock: &mut Clock,
    bidder: u8,
    round: u32,
    goods: u8,
    quantities: &[u8],
) -> Result<bool, NoMemory>
    requires { clock.old.history.terms ≡ terms.now }
    ensures done { IfOk result (λ done. done ≡ true →
        TakesPayload clock.old clock.new terms.now (report_payload bidder round goods (short_numbers quantities.now))) }
    ensures left { result ≢ Ok true → clock.new ≡ clock.old }
{
    if goods != terms.goods.count() {
        return Ok(false);
    }
    clock.apply_again(alloc, bidder, round, quantities)
}

/// Takes the next report of a journal where it was read ahead and repeats. Tells whether it was taken; else nothing has changed.
pub(crate) fn next_again(
    alloc: Global,
    terms: &Terms,
    clock: &mut Clock,
    reader: &mut Reports,
) -> Result<bool, NoMemory>
    requires clock { clock.old.history.terms ≡ terms.now }
    requires reader { reader.old.owner.terms ≡ terms.now }
    ensures done { IfOk result (λ done. done ≡ true → TakesNext clock.old clock.new reader.old reader.new) }
    ensures left { result ≢ Ok true → (clock.new ≡ clock.old) × (reader.new ≡ reader.old) }
{
    let Some(payload) = reader.ahead() else {
        return Ok(false);
    };
    if !take_again(alloc, terms, clock, payload)? {
        return Ok(false);
    }
    reader.pass();
    Ok(true)
}
