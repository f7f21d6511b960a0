//! Laws on the names of journals, and on what journals settle for a bidder.
ghost use Rattle.std.specs.Prelude.{◌≡◌, ◌≤◌, ◌≤ℤ◌, ℕ, ℤ, List};
ghost use Rattle.std.specs.List.{AllByRecursion};
ghost use Rattle.lot_base.specs.declared.auction_terms.Terms.{Terms};
ghost use Rattle.lot_base.specs.declared.limits.TheConstants.{MOST_BIDDERS};
ghost use Rattle.clock.specs.Reports.{ClockHistory};
ghost use Rattle.settlement.specs.Incentives.{AreOthersTrue, IsAmongTruthful, TellsTruth, gain_by, gain_of};
ghost use Rattle.settlement.specs.declared.outcome.Outcome.{Outcome};
ghost use Rattle.settlement.specs.declared.outcome.Settlement.{Settlement};
ghost use Rattle.settlement.specs.declared.outcome.Settlement.TheVariants.{Settled};
ghost use Rattle.house_run.specs.Journals.{AreHistories};
ghost use Rattle.house_run.specs.Needs.{journal_name};
ghost use Rattle.house_run.specs.Outcomes.{IsSettlement};
ghost use Rattle.house_run.specs.Seen.{ShelfSeen};

/// The journals of an auction's clocks have different names.
pub fn journal_names_law()
    ensures { (journals : List ℕ) (clock other : ℕ) → clock ≤ MOST_BIDDERS → other ≤ MOST_BIDDERS
        → journal_name journals clock ≡ journal_name journals other → clock ≡ other }
{}

/// A bidder whose others report their demand sets, in the journals of the clock of all and of the clock without it, is among truthful others,
/// whatever stands in the journals of its own. Where it tells the truth too, no journals with other reports of its own gain it more.
pub fn truth_law()
    ensures among { (i : ℕ) (u : ℕ → List ℕ → ℤ) (shelf : ShelfSeen) (auction journals : List ℕ) (terms : Terms)
        (histories : List ClockHistory) →
        1 ≤ i → i ≤ terms.bidders → AreHistories shelf auction journals terms histories → AllByRecursion (AreOthersTrue i u) histories →
        IsAmongTruthful i u terms histories }
    ensures best { (i : ℕ) (u : ℕ → List ℕ → ℤ) (shelf other : ShelfSeen) (auction journals file folder : List ℕ) (terms : Terms)
        (histories told : List ClockHistory) (o : Outcome) (s : Settlement) → 1 ≤ i → i ≤ terms.bidders →
        AreHistories shelf auction journals terms histories → IsSettlement terms histories (Settled o) →
        AllByRecursion (AreOthersTrue i u) histories → TellsTruth u histories →
        AreHistories other file folder terms told → IsSettlement terms told s → AllByRecursion (AreOthersTrue i u) told →
        gain_by u terms s i ≤ℤ gain_of u terms o i }
{}
