//! Laws on trials.
ghost use Rattle.std.specs.Prelude.{◌≡◌, ◌≤◌, ◌≤ℤ◌, ℕ, ℤ, List, pos};
ghost use Rattle.lot_base.specs.Economy.{AllStrongSubstitutes};
ghost use Rattle.lot_base.specs.declared.auction_terms.Terms.{Terms};
ghost use Rattle.clock.specs.Reports.{ClockHistory, all_bidders};
ghost use Rattle.settlement.specs.Settling.{IsOutcomeOf};
ghost use Rattle.settlement.specs.Efficient.{ExplainsAll};
ghost use Rattle.settlement.specs.Incentives.{gain_by};
ghost use Rattle.settlement.specs.declared.outcome.Settlement.{Settlement};
ghost use Rattle.trial.specs.Bidding.{bidders_of};
ghost use Rattle.trial.specs.Making.{IsMade};
ghost use Rattle.trial.specs.Misreports.{IsMisreport};
ghost use Rattle.trial.specs.Trials.{IsTrialHistory, IsTrial, IsTried, AreValuationsOf};

/// The history of a clock in a trial is given by its terms, its number and the valuations, and so are the histories of all clocks
/// and what they settle. So who runs the clocks, and in which order, does not matter.
pub fn one_trial()
    ensures history { (u : ℕ → List ℕ → ℤ) (g h : ClockHistory) → IsTrialHistory u g → IsTrialHistory u h → g.terms ≡ h.terms
        → g.number ≡ h.number → g ≡ h }
    ensures histories { (terms : Terms) (u : ℕ → List ℕ → ℤ) (cs ds : List ClockHistory) → IsTrial terms u cs → IsTrial terms u ds
        → cs ≡ ds }
    ensures outcome { (terms : Terms) (u : ℕ → List ℕ → ℤ) (cs ds : List ClockHistory) (s t : Settlement) → IsTrial terms u cs
        → IsTrial terms u ds →
        IsOutcomeOf cs s → IsOutcomeOf ds t → s ≡ t }
{}

/// The valuations of a trial explain the histories of its clocks.
pub fn explained_law()
    ensures { (terms : Terms) (values : List (List ℕ)) (clocks : List ClockHistory) (s : Settlement) → AreValuationsOf terms values →
        IsTried terms (bidders_of terms.goods values) clocks s → ExplainsAll (bidders_of terms.goods values) clocks }
{}

/// Truth pays: what the trial of other values of one bidder settles gains that bidder no more than what the trial of its true values
/// settles, by what bundles are truly worth to it; and by the truth it loses nothing.
pub fn truth_law()
    ensures best { (i : ℕ) (terms : Terms) (values told : List (List ℕ)) (cs ds : List ClockHistory) (s t : Settlement) →
        1 ≤ i → i ≤ terms.bidders →
        AreValuationsOf terms values → AreValuationsOf terms told → IsMisreport i values told →
        IsTried terms (bidders_of terms.goods values) cs s → IsTried terms (bidders_of terms.goods told) ds t →
        gain_by (bidders_of terms.goods values) terms t i ≤ℤ gain_by (bidders_of terms.goods values) terms s i }
    ensures no_loss { (i : ℕ) (terms : Terms) (values : List (List ℕ)) (cs : List ClockHistory) (s : Settlement) →
        1 ≤ i → i ≤ terms.bidders →
        AreValuationsOf terms values → IsTried terms (bidders_of terms.goods values) cs s →
        pos 0 ≤ℤ gain_by (bidders_of terms.goods values) terms s i }
{}

/// Goods are strong substitutes for each bidder of a market that a number makes. So the trial of such a market is never refused.
pub fn made_law()
    ensures { (number : ℕ) (terms : Terms) (valuations : List (List ℕ)) → IsMade number terms valuations →
        AllStrongSubstitutes terms.goods (bidders_of terms.goods valuations) (all_bidders terms.bidders) }
{}
