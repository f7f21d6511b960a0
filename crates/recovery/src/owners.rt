//! Whose journal a header names.
ghost use Rattle.std.specs.Prelude.{◌≡◌, ◌≤◌, length, option_map, IfSome, IfNone};
ghost use Rattle.report_journal.specs.Format.{IsHeader};
ghost use Rattle.report_journal.specs.Scans.{IsInOrder};
ghost use Rattle.recovery.specs.Journaled.{owner_of};
ghost use Rattle.recovery.specs.Causes.{IsFirstOther, IfHeaderCause, IfFoundOther};

use crate::faults::{Broken, JournalCause};
use lot_base::Terms;
use report_journal::{Header, Scanned};

/// Why the header that a scan found is broken: there is none, or it is not that of this clock of this auction.
pub(crate) fn broken_header(
    scan: &Scanned,
    terms: &Terms,
    clock: u8,
    digest: &[u8; 32],
) -> Option<Broken>
    requires { IsInOrder scan.now }
    ensures { IfFoundOther (owner_of terms.now clock digest.now) scan.now result }
{
    match scan {
        Scanned::Unformed => None,
        Scanned::Formed { header, .. } => at_header(other_header(header, terms, clock, digest)),
        Scanned::Damaged { number: 0, .. } => at_header(Some(JournalCause::Damaged)),
        Scanned::Damaged { header, .. } => at_header(other_header(header, terms, clock, digest)),
    }
}

/// The header, broken for this cause.
fn at_header(cause: Option<JournalCause>) -> Option<Broken>
    ensures { result ≡ option_map (λ why. record { number = 0; cause = why }) cause }
{
    match cause {
        None => None,
        Some(cause) => Some(Broken { number: 0, cause }),
    }
}

/// Why the header is not that of this clock of this auction.
fn other_header(
    header: &Header,
    terms: &Terms,
    clock: u8,
    digest: &[u8; 32],
) -> Option<JournalCause>
    requires { IsHeader header.now }
    ensures { IfHeaderCause (owner_of terms.now clock digest.now) header.now result }
{
    if header.clock != clock as u32 {
        return Some(JournalCause::OtherClock(header.clock));
    }
    if header.digest != *digest {
        return Some(JournalCause::OtherAuction(header.digest));
    }
    if header.version != terms.version {
        return Some(JournalCause::OtherVersion(header.version));
    }
    match &header.opening {
        None => None,
        Some(opening) => match first_other(opening.as_slice(), terms.opening.as_slice()) {
            None => None,
            Some(good) => Some(JournalCause::OtherOpening(good)),
        },
    }
}

/// The first place at which the prices differ, or at which there is a price of one list alone.
fn first_other(xs: &[u32], ys: &[u32]) -> Option<u8>
    requires { length xs.now ≤ 6 }
    ensures some { IfSome result (IsFirstOther xs.now ys.now) }
    ensures none { IfNone result (xs.now ≡ ys.now) }
{
    let shared = xs.len().min(ys.len());
    for place in 0..shared {
        if xs[place] != ys[place] {
            return Some(place as u8);
        }
    }
    if xs.len() != ys.len() {
        return Some(shared as u8);
    }
    None
}
