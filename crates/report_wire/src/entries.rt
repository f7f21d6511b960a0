//! Entries: reports as logs and journals keep them.
ghost use Rattle.std.specs.Prelude.{◌≡◌, ◌≤◌, ◌<◌, ◌^◌, ◌*◌, ◌/◌, ◌+◌, ◌++◌, length, drop, true, false, IfOk, OnOk};
ghost use Rattle.lot_base.specs.declared.limits.TheConstants.{GREATEST_PAYLOAD};
ghost use Rattle.report_wire.specs.Payloads.{report_payload, is_report_payload};
ghost use Rattle.report_wire.specs.Entries.{IsReport, IsViewed, IsWhole, entry_payload, is_entry};

use byte_numbers::{
    fill_number, fill_short_number, fill_short_numbers, number_of, push_number, push_short_number,
    push_short_numbers, short_number_of, short_numbers_of,
};
use lot_base::limits::{GREATEST_PAYLOAD, MOST_GOODS};
use lot_base::{NoMemory, RawDemand, RawReport, Sequence};
use std::alloc::{AllocError, Global};

/// The bytes of a payload before its quantities.
const HEAD: usize = 8;

/// A report as it lies in its payload.
#[derive(Clone, Copy, Debug)]
pub struct EntryView<'a> {
    /// The number in the first byte, which may be that of no bidder.
    pub bidder: u8,
    /// The number in the next four bytes, which may be 0.
    pub round: u32,
    /// How many quantities each bundle has, 1 to 6.
    pub goods: u8,
    /// The quantities of the bundles, one bundle after another, in two bytes each, big-endian.
    pub quantities: &'a [u8],
}

/// The payload of a report's entry.
pub fn write_entry(alloc: Global, report: &RawReport) -> Result<Vec<u8>, NoMemory>
    requires whole { IsWhole report.now.demand.goods report.now.demand.quantities }
    requires short { length (entry_payload report.now) ≤ GREATEST_PAYLOAD }
    ensures { IfOk result (λ bytes. (bytes.items ≡ entry_payload report.now) × (is_entry bytes.items ≡ true)) }
{
    let size = HEAD + 2 * report.demand.quantities.as_slice().len();
    let Ok(mut bytes) = Vec::with_capacity(alloc, size) else {
        return Err(NoMemory);
    };
    match push_report(&mut bytes, report.bidder, report.round, &report.demand) {
        Ok(()) => Ok(bytes),
        Err(_) => Err(NoMemory),
    }
}

/// Writes the payload of a report's entry at the front of `into`, leaves the bytes after it, and answers its length.
pub fn entry_to(bidder: u8, round: u32, goods: u8, quantities: &[u16], into: &mut [u8]) -> u32
    requires whole { IsWhole goods quantities.now }
    requires short { 8 + 2 * length quantities.now ≤ GREATEST_PAYLOAD }
    requires room { 8 + 2 * length quantities.now ≤ length into.old }
    ensures spelled { into.new ≡ report_payload bidder round goods quantities.now ++ drop result into.old }
    ensures length { result ≡ length (report_payload bidder round goods quantities.now) }
{
    let size = HEAD + 2 * quantities.len();
    let count = bundles_of(goods, quantities);
    into[0] = bidder;
    fill_number(round, &mut into[1..5]);
    into[5] = goods;
    fill_short_number(count, &mut into[6..HEAD]);
    fill_short_numbers(quantities, &mut into[HEAD..size]);
    size as u32
}

/// Appends a payload of a report after a first byte: the bidder, or the clock.
pub(crate) fn push_report(
    bytes: &mut Vec<u8>,
    first: u8,
    round: u32,
    demand: &RawDemand,
) -> Result<(), AllocError>
    requires some_good { 1 ≤ demand.now.goods }
    requires few { length demand.now.quantities < 2 ^ 16 }
    ensures { OnOk result (bytes.new.items ≡ bytes.old.items ++ report_payload first round demand.now.goods demand.now.quantities) }
{
    let quantities = demand.quantities.as_slice();
    let count = bundles_of(demand.goods, quantities);
    bytes.push(first)?;
    push_number(bytes, round)?;
    bytes.push(demand.goods)?;
    push_short_number(bytes, count)?;
    push_short_numbers(bytes, quantities)
}

/// How many bundles there are.
fn bundles_of(goods: u8, quantities: &[u16]) -> u16
    requires some_good { 1 ≤ goods }
    requires few { length quantities.now < 2 ^ 16 }
    ensures { result ≡ length quantities.now / goods }
{
    (quantities.len() / goods as usize) as u16
}

/// The report of an entry's payload, if it is one.
pub fn read_entry(alloc: Global, payload: &[u8]) -> Result<Option<RawReport>, NoMemory>
    ensures { IfOk result (λ found. IsReport is_entry found payload.now) }
{
    if payload.len() > GREATEST_PAYLOAD as usize {
        return Ok(None);
    }
    read_report(alloc, payload)
}

/// The report of an entry's payload as it lies there, if it is one. It takes no memory.
pub fn view_entry(payload: &[u8]) -> Option<EntryView>
    ensures { IsViewed is_entry result payload.now }
{
    if payload.len() > GREATEST_PAYLOAD as usize {
        return None;
    }
    view_report(payload)
}

/// The report of a payload of any length, if it is one.
pub(crate) fn read_report(alloc: Global, payload: &[u8]) -> Result<Option<RawReport>, NoMemory>
    ensures { IfOk result (λ found. IsReport is_report_payload found payload.now) }
{
    let Some(view) = view_report(payload) else {
        return Ok(None);
    };
    let Ok(quantities) = short_numbers_of(alloc, view.quantities) else {
        return Err(NoMemory);
    };
    Ok(Some(RawReport {
        bidder: view.bidder,
        round: view.round,
        demand: RawDemand {
            goods: view.goods,
            quantities: Sequence::from_vec(quantities),
        },
    }))
}

/// The report of a payload of any length as it lies there, if it is one.
fn view_report(payload: &[u8]) -> Option<EntryView>
    ensures { IsViewed is_report_payload result payload.now }
{
    if !is_report(payload) {
        return None;
    }
    Some(EntryView {
        bidder: payload[0],
        round: number_of(&payload[1..5]),
        goods: payload[5],
        quantities: payload.split_at(HEAD).1,
    })
}

/// Whether the bytes are a report's payload.
fn is_report(payload: &[u8]) -> bool
    ensures { result ≡ is_report_payload payload.now }
{
    payload.len() >= HEAD
        && payload[5] >= 1
        && payload[5] as usize <= MOST_GOODS
        && payload.len()
            == HEAD + 2 * (payload[5] as usize * short_number_of(&payload[6..8]) as usize)
}
