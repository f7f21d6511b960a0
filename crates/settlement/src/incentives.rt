//! Laws on what a bidder may trust, whatever it reports itself, and what the seller may.
ghost use Rattle.std.specs.Prelude.{◌≡◌, ◌≢◌, ◌≤◌, ◌≤ℤ◌, ◌-ℤ◌, ℕ, ℤ, List, pos};
ghost use Rattle.std.specs.List.{AllByRecursion};
ghost use Rattle.lot_base.specs.Goods.{cost};
ghost use Rattle.lot_base.specs.Economy.{sum_over, without};
ghost use Rattle.lot_base.specs.Equilibrium.{total_bundle, worth, IsWelfare};
ghost use Rattle.lot_base.specs.declared.auction_terms.Terms.{Terms as TermsValue};
ghost use Rattle.clock.specs.Judging.{IsLegal};
ghost use Rattle.clock.specs.Reports.{ClockHistory, all_bidders};
ghost use Rattle.settlement.specs.Settling.{IsOutcomeOf};
ghost use Rattle.settlement.specs.Efficient.{ExplainsAll, award_of};
ghost use Rattle.settlement.specs.Clocks.{AreClocksOf};
ghost use Rattle.settlement.specs.Incentives.{IsAmongTruthful, TellsTruth, payment_of, gain_of, gain_by};
ghost use Rattle.settlement.specs.Lies.{IsLieExample};
ghost use Rattle.settlement.specs.declared.outcome.Outcome.{Outcome};
ghost use Rattle.settlement.specs.declared.outcome.Settlement.{Settlement};
ghost use Rattle.settlement.specs.declared.outcome.Settlement.TheVariants.{Settled};

use lot_base::{Goods, Terms};

/// Where all others are truthful, what a bidder gains is the worth of the awards less the welfare of the others without it, whatever it
/// reports itself: never more than it adds to the market.
pub fn gain_law()
    ensures gain { (i : ℕ) (u : ℕ → List ℕ → ℤ) (terms : TermsValue) (clocks : List ClockHistory) (o : Outcome) (v : ℤ) →
        IsAmongTruthful i u terms clocks → IsOutcomeOf clocks (Settled o) →
        IsWelfare terms.goods terms.opening u (without i (all_bidders terms.bidders)) v →
        gain_of u terms o i ≡ worth terms.goods terms.opening u (all_bidders terms.bidders) (award_of terms o) -ℤ v }
    ensures most { (i : ℕ) (u : ℕ → List ℕ → ℤ) (terms : TermsValue) (clocks : List ClockHistory) (o : Outcome) (w v : ℤ) →
        IsAmongTruthful i u terms clocks → IsOutcomeOf clocks (Settled o) →
        IsWelfare terms.goods terms.opening u (all_bidders terms.bidders) w →
        IsWelfare terms.goods terms.opening u (without i (all_bidders terms.bidders)) v →
        gain_of u terms o i ≤ℤ (w -ℤ v) }
{}

/// Truth pays. Where all others are truthful, a bidder gains by no reports more than by the truth, and by the truth it gains all that it
/// adds to the market, which is never less than nothing.
pub fn truth_law()
    ensures whole { (i : ℕ) (u : ℕ → List ℕ → ℤ) (terms : TermsValue) (clocks : List ClockHistory) (o : Outcome) (w v : ℤ) →
        IsAmongTruthful i u terms clocks → TellsTruth u clocks → IsOutcomeOf clocks (Settled o) →
        IsWelfare terms.goods terms.opening u (all_bidders terms.bidders) w →
        IsWelfare terms.goods terms.opening u (without i (all_bidders terms.bidders)) v →
        gain_of u terms o i ≡ w -ℤ v }
    ensures best { (i : ℕ) (u : ℕ → List ℕ → ℤ) (terms : TermsValue) (clocks others : List ClockHistory) (o : Outcome) (s : Settlement) →
        IsAmongTruthful i u terms clocks → TellsTruth u clocks → IsOutcomeOf clocks (Settled o) →
        IsAmongTruthful i u terms others → IsOutcomeOf others s →
        gain_by u terms s i ≤ℤ gain_of u terms o i }
    ensures no_loss { (i : ℕ) (u : ℕ → List ℕ → ℤ) (terms : TermsValue) (clocks : List ClockHistory) (o : Outcome) →
        IsAmongTruthful i u terms clocks → TellsTruth u clocks → IsOutcomeOf clocks (Settled o) → pos 0 ≤ℤ gain_of u terms o i }
{}

/// What a bidder pays depends on its award alone: where the others are truthful, whatever it reports, it faces a list of payments, one for
/// each bundle, that its reports cannot change.
pub fn list_law()
    ensures { (i : ℕ) (u : ℕ → List ℕ → ℤ) (terms : TermsValue) (clocks others : List ClockHistory) (o p : Outcome) →
        IsAmongTruthful i u terms clocks → IsOutcomeOf clocks (Settled o) →
        IsAmongTruthful i u terms others → IsOutcomeOf others (Settled p) →
        award_of terms o i ≡ award_of terms p i → payment_of terms o i ≡ payment_of terms p i }
{}

/// Where all bidders are truthful, the seller's revenue is at least the reserve of what is sold, and at most its price.
pub fn revenue_law()
    ensures { (u : ℕ → List ℕ → ℤ) (terms : TermsValue) (clocks : List ClockHistory) (o : Outcome) →
        ((i : ℕ) → 1 ≤ i → i ≤ terms.bidders → IsAmongTruthful i u terms clocks) → IsOutcomeOf clocks (Settled o) →
        let sold = total_bundle terms.goods (award_of terms o) (all_bidders terms.bidders) in
        let revenue = sum_over (payment_of terms o) (all_bidders terms.bidders) in
        (pos (cost terms.opening sold) ≤ℤ revenue) × (revenue ≤ℤ pos (cost o.prices sold)) }
{}

/// Where one valuation for each bidder explains all clocks, each bidder is among truthful others and tells the truth too. Where a bidder
/// reports by another valuation on all clocks, it is among truthful others all the same.
pub fn among_law()
    ensures truth { (i : ℕ) (u : ℕ → List ℕ → ℤ) (terms : TermsValue) (clocks : List ClockHistory) → 1 ≤ i → i ≤ terms.bidders →
        AreClocksOf terms clocks → AllByRecursion IsLegal clocks → ExplainsAll u clocks →
        IsAmongTruthful i u terms clocks × TellsTruth u clocks }
    ensures misreport { (i : ℕ) (u v : ℕ → List ℕ → ℤ) (terms : TermsValue) (clocks : List ClockHistory) → 1 ≤ i → i ≤ terms.bidders →
        ((j : ℕ) → 1 ≤ j → j ≢ i → v j ≡ u j) → AreClocksOf terms clocks → AllByRecursion IsLegal clocks → ExplainsAll v clocks →
        IsAmongTruthful i u terms clocks }
{}

/// The premises can be met by a liar. On these terms, one good in two units, three bidders and a ceiling of 100, the third bidder lies among
/// truthful others, gets a unit and pays 8 for what is worth 6 to it. By the truth it would have lost nothing.
pub fn lie_example() -> Terms
    ensures { IsLieExample result }
{
    Terms::new(Goods::new(&[2]).unwrap(), 3, 100).unwrap()
}
