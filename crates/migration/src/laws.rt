//! A law of the terms of an auction.
ghost use Rattle.lot_base.specs.declared.auction_terms.Terms.{Terms};
ghost use Rattle.clock.specs.Reports.{ClockHistory};
ghost use Rattle.migration.specs.Moving.{JudgesAlike};

/// Clocks of the same goods, bidders, ceiling and opening prices judge alike, of whatever versions their terms are.
pub fn alike_law()
    ensures { (c : ClockHistory) (terms : Terms) → JudgesAlike c terms }
{}
