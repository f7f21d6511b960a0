//! Entries of reports at the front of a log's bytes.
ghost use Rattle.std.specs.Prelude.{◌≡◌, ◌≤◌, ◌-◌, ℕ, List, true, false, length, drop, IfOk, OnOk};
ghost use Rattle.report_log.specs.Pieces.{IsFront, IsUpTo, StopsAt, Takes, TakesNone, left_of};

use byte_numbers::number_of;
use clock::{Clock, Judgement};
use clock_book::take_again;
use lot_base::limits::GREATEST_PAYLOAD;
use lot_base::{NoMemory, Terms};
use recovery::read_report;
use std::alloc::Global;

/// What lay at the front of a log's bytes.
pub(crate) enum Front<'a> {
    /// The entry of a report, which the clock has taken; and the bytes after it.
    Entry(&'a [u8]),
    /// The front of an entry at most.
    Unfinished,
    /// No entry of a report that the clock takes, whatever follows.
    Faulty,
}

/// Why no more entries are taken off the front of bytes, and how many bytes are left.
pub(crate) enum Stop {
    /// These are the front of an entry at most.
    Unfinished(usize),
    /// An entry of a report that the clock takes does not lie there, whatever follows.
    Faulty(usize),
}

/// Takes the entry at the front of the bytes, if one of a report that the clock takes lies there.
fn take_entry<'a>(
    alloc: Global,
    terms: &Terms,
    clock: &mut Clock,
    bytes: &'a [u8],
) -> Result<Front<'a>, NoMemory>
    requires { clock.old.history.terms ≡ terms.now }
    ensures { IfOk result (IsFront terms.now clock.old.history clock.new.history bytes.now) }
{
    if bytes.len() < 4 {
        return Ok(Front::Unfinished);
    }
    let (head, after) = bytes.split_at(4);
    let size = number_of(head) as usize;
    if size > GREATEST_PAYLOAD as usize {
        return Ok(Front::Faulty);
    }
    if after.len() < size {
        return Ok(Front::Unfinished);
    }
    let (payload, rest) = after.split_at(size);
    if take_payload(alloc, terms, clock, payload)? {
        Ok(Front::Entry(rest))
    } else {
        Ok(Front::Faulty)
    }
}

/// Takes the report that a payload spells, if it spells one that the clock takes. One that repeats its bidder's last is taken unread.
fn take_payload(
    alloc: Global,
    terms: &Terms,
    clock: &mut Clock,
    payload: &[u8],
) -> Result<bool, NoMemory>
    requires { clock.old.history.terms ≡ terms.now }
    ensures some { IfOk result (λ taken. taken ≡ true → Takes terms.now clock.old.history clock.new.history payload.now) }
    ensures none { IfOk result (λ taken. taken ≡ false → TakesNone terms.now clock.old.history clock.new.history payload.now) }
{
    if take_again(alloc, terms, clock, payload)? {
        return Ok(true);
    }
    let Some(report) = read_report(alloc, terms, payload)? else {
        return Ok(false);
    };
    let Judgement::Take = clock.judge(report.bidder, report.round, &report.demand) else {
        return Ok(false);
    };
    match clock.apply(alloc, report) {
        Ok(()) => Ok(true),
        Err(_) => Err(NoMemory),
    }
}

/// Takes the entries that lie at the front of the bytes, until one is not whole or faulty.
pub(crate) fn take_entries(
    alloc: Global,
    terms: &Terms,
    clock: &mut Clock,
    bytes: &[u8],
) -> Result<Stop, NoMemory>
    requires { clock.old.history.terms ≡ terms.now }
    ensures terms { OnOk result (clock.new.history.terms ≡ terms.now) }
    ensures within { IfOk result (λ stop. left_of stop ≤ length bytes.now) }
    ensures leaves { IfOk result (λ stop. StopsAt terms.now clock.new.history (drop (length bytes.now - left_of stop) bytes.now) stop) }
    ensures up_to { (all : List ℕ) → IsUpTo terms.now clock.old.history all bytes.now →
        IfOk result (λ stop. IsUpTo terms.now clock.new.history all (drop (length bytes.now - left_of stop) bytes.now)) }
{
    let mut rest = bytes;
    'entries: loop {
        match take_entry(alloc, terms, clock, rest)? {
            Front::Unfinished => return Ok(Stop::Unfinished(rest.len())),
            Front::Faulty => return Ok(Stop::Faulty(rest.len())),
            Front::Entry(after) => rest = after,
        }
    }
}
