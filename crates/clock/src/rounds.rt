//! What the reports of a round say.
ghost use Rattle.std.specs.Prelude.{◌≡◌, ◌<◌, ◌≤◌, ℕ, length, take, find, not, false, option_copied, slice_index, slice_index_or};
ghost use Rattle.lot_base.specs.declared.limits.TheConstants.{MOST_BIDDERS};
ghost use Rattle.lot_base.specs.Goods.{AllBelow};
ghost use Rattle.lyapunov.specs.Paths.{prices_along as along};
ghost use Rattle.clock.specs.Reports.{members, most_reports, set_numbers};
ghost use Rattle.clock.specs.Kept.{demand_at};

use demand_set::Demand;
use lot_base::{GoodSet, Prices, Terms};

/// The demand of a bidder that has reported, of the latest demands and who has reported, each at the bidder's number.
pub(crate) fn demand_at<'a>(
    latest: &'a [Option<Demand>],
    reported: &[bool; 13],
    bidder: u8,
) -> Option<&'a Demand>
    ensures { option_copied result ≡ demand_at latest.now reported.now bidder }
{
    match reported.get(bidder as usize) {
        Some(true) => latest.get(bidder as usize)?.as_ref(),
        _ => None,
    }
}

/// The first member that has not reported.
pub(crate) fn missing_in(bidders: u8, clock: u8, reported: &[bool; 13]) -> Option<u8>
    requires { bidders ≤ MOST_BIDDERS }
    ensures { result ≡ find (λ j. not (slice_index_or reported.now j false)) (members bidders clock) }
{
    for step in 0..bidders {
        let bidder = step + 1;
        if bidder != clock && !reported[bidder as usize] {
            return Some(bidder);
        }
    }
    None
}

/// How many members a clock has.
pub fn member_count(bidders: u8, clock: u8) -> u8
    requires { clock ≤ bidders }
    ensures { result ≡ length (members bidders clock) }
{
    if clock == 0 { bidders } else { bidders - 1 }
}

/// How many reports a clock of these terms has at most.
pub fn most_reports(terms: &Terms, number: u8) -> u32
    requires { number ≤ terms.now.bidders }
    ensures value { result ≡ most_reports terms.now number }
    ensures few { result ≤ 720012 }
{
    let rounds = terms.goods.count() as u32 * terms.ceiling + 1;
    rounds * member_count(terms.bidders, number) as u32
}

/// The prices from the opening on, raised on one set after another.
pub(crate) fn prices_along(opening: &Prices, sets: &[GoodSet]) -> Prices
    requires { (n : ℕ) → n < length sets.now
        → AllBelow 4294967295 (along opening.now (set_numbers (take n sets.now))) (slice_index (set_numbers sets.now) n) }
    ensures { result ≡ along opening.now (set_numbers sets.now) }
{
    let mut prices = *opening;
    for set in sets {
        prices = prices.raise(*set);
    }
    prices
}
