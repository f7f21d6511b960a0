//! Laws of payloads.
ghost use Rattle.std.specs.Prelude.{◌≡◌, ℕ, List};
ghost use Rattle.lot_base.specs.declared.auction_terms.Terms.{Terms};
ghost use Rattle.demand_set.specs.declared.reports.Report.{Report};
ghost use Rattle.recovery.specs.Entries.{Spells};

/// A payload spells one report at most.
pub fn one_report_law()
    ensures { (terms : Terms) (payload : List ℕ) (r s : Report) → Spells terms payload r → Spells terms payload s → r ≡ s }
{}
