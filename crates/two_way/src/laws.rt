//! Laws on two-way clocks: the fall set is one, each step either way lowers the Lyapunov function, and the end is at its minimum.
ghost use Rattle.std.specs.Prelude.{◌≡◌, ◌≢◌, ◌≤◌, ◌<◌, ℕ, ◌+◌, List, ◌∷◌, length, is_none, true, ℤ, pos, ◌+ℤ◌, ◌-ℤ◌, ◌≤ℤ◌};
ghost use Rattle.std.specs.List.{AllByRecursion};
ghost use Rattle.lot_base.specs.Goods.{AtMost, lowered};
ghost use Rattle.lot_base.specs.Economy.{demand, lyapunov, AllStrongSubstitutes, AllBelowCeiling, IsMinimiser};
ghost use Rattle.lot_base.specs.declared.auction_terms.Terms.{Terms};
ghost use Rattle.lot_base.specs.declared.phases.Phase.TheVariants.{Ended, Halted};
ghost use Rattle.demand_set.specs.declared.reports.Report.{Report};
ghost use Rattle.lyapunov.specs.Paths.{true_step};
ghost use Rattle.overshoot.specs.Shortfall.{shortfall, AllRisen, IsGreatestShortfall};
ghost use Rattle.settlement.specs.declared.outcome.AwardRow.{AwardRow};
ghost use Rattle.two_way.specs.Falling.{fall_set, true_fall, IsHeld};
ghost use Rattle.two_way.specs.Histories.{TwoWayHistory, IsStart, members_in};
ghost use Rattle.two_way.specs.Standing.{HasSteps, prices_after, prices_of, phase_of, steps_of, ups_after, downs_after, sum_without};
ghost use Rattle.two_way.specs.Growth.{Grows};
ghost use Rattle.two_way.specs.Explained.{IsTrueReport, Explains, lyapunov_of, lyapunov_without};
ghost use Rattle.two_way.specs.FloatHistories.{IsFloatHistory};
ghost use Rattle.two_way.specs.Floated.{choice_of, AreEnded, AreFloated, IsEfficient};

/// The fall set is the one set of greatest shortfall.
pub fn fall_set_law()
    ensures exists { (supply opening p : List ℕ) (demands : ℕ → List (List ℕ)) (members : List ℕ) →
        ((short : ℕ) × IsGreatestShortfall supply opening p demands members (fall_set supply opening p demands members) short) }
    ensures unique { (supply opening p : List ℕ) (demands : ℕ → List (List ℕ)) (members : List ℕ) (set short : ℕ) →
        IsGreatestShortfall supply opening p demands members set short → set ≡ fall_set supply opening p demands members }
{}

/// Lowering the prices on a set of goods above their opening lowers the Lyapunov function by the shortfall of the set. So a fall that
/// is not empty lowers it by at least 1.
pub fn fall_law()
    ensures shortfall { (supply opening js p : List ℕ) (u : ℕ → List ℕ → ℤ) (set : ℕ) →
        AllStrongSubstitutes supply u js → length p ≡ length supply → AtMost opening p → AllRisen opening p set →
        shortfall supply (λ j. demand supply (u j) p) js set ≡ lyapunov supply u js p -ℤ lyapunov supply u js (lowered p set) }
    ensures step { (supply opening js p : List ℕ) (u : ℕ → List ℕ → ℤ) →
        AllStrongSubstitutes supply u js → length p ≡ length supply → AtMost opening p → true_fall supply opening u js p ≢ 0 →
        (lyapunov supply u js (lowered p (true_fall supply opening u js p)) +ℤ pos 1) ≤ℤ lyapunov supply u js p }
{}

/// Once no step up lowers the Lyapunov function, the goodwise lesser of the prices and of any others is no worse than those others; each
/// step down keeps this; and where none is left the prices minimise the function over all prices from the opening on.
pub fn held_law()
    ensures turn { (supply opening js p : List ℕ) (u : ℕ → List ℕ → ℤ) →
        AllStrongSubstitutes supply u js → length p ≡ length supply → AtMost opening p → true_step supply u js p ≡ 0 →
        IsHeld opening (lyapunov supply u js) p }
    ensures step { (supply opening js p : List ℕ) (u : ℕ → List ℕ → ℤ) →
        AllStrongSubstitutes supply u js → length p ≡ length supply → IsHeld opening (lyapunov supply u js) p →
        IsHeld opening (lyapunov supply u js) (lowered p (true_fall supply opening u js p)) }
    ensures end { (supply opening js p : List ℕ) (u : ℕ → List ℕ → ℤ) →
        AllStrongSubstitutes supply u js → length p ≡ length supply → IsHeld opening (lyapunov supply u js) p →
        true_fall supply opening u js p ≡ 0 → IsMinimiser opening (lyapunov supply u js) p }
{}

/// Any reports, from any start that the terms allow, have one number of steps, and it is the one that the function finds. Each step is up
/// or down.
pub fn rounds_law()
    ensures exists { (h : TwoWayHistory) → IsStart h.terms h.start → HasSteps h (steps_of h) }
    ensures unique { (h : TwoWayHistory) (steps : ℕ) → IsStart h.terms h.start → HasSteps h steps → steps ≡ steps_of h }
    ensures both { (h : TwoWayHistory) (n : ℕ) → ups_after h n + downs_after h n ≡ n }
{}

/// A report more changes nothing of the rounds before the present one, and the clock goes on from where it stood.
pub fn growth_law()
    ensures { (h : TwoWayHistory) (r : Report) → IsStart h.terms h.start → Grows h r }
{}

/// A two-way clock whose reports valuations explain: each step, up or down, lowers the Lyapunov function by at least 1, so there are no
/// more of both than its value at the start.
pub fn steps_law()
    ensures moment { (u : ℕ → List ℕ → ℤ) (h : TwoWayHistory) (n : ℕ) → IsStart h.terms h.start → Explains u h → n ≤ steps_of h →
        (pos n +ℤ lyapunov_of u h (prices_after h n)) ≤ℤ lyapunov_of u h h.start }
    ensures few { (u : ℕ → List ℕ → ℤ) (h : TwoWayHistory) → IsStart h.terms h.start → Explains u h →
        pos (ups_after h (steps_of h) + downs_after h (steps_of h)) ≤ℤ lyapunov_of u h h.start }
{}

/// Its sum without a bidder telescopes; where it has ended its prices minimise the function and some choice clears; and it never halts
/// below the ceiling.
pub fn end_law()
    ensures sum { (u : ℕ → List ℕ → ℤ) (h : TwoWayHistory) (bidder : ℕ) → IsStart h.terms h.start → Explains u h →
        sum_without h bidder ≡ lyapunov_without bidder u h (prices_of h) -ℤ lyapunov_without bidder u h h.start }
    ensures minimum { (u : ℕ → List ℕ → ℤ) (h : TwoWayHistory) → IsStart h.terms h.start → Explains u h → phase_of h ≡ Ended →
        IsMinimiser h.terms.opening (lyapunov_of u h) (prices_of h) }
    ensures choice { (u : ℕ → List ℕ → ℤ) (h : TwoWayHistory) → IsStart h.terms h.start → Explains u h → phase_of h ≡ Ended →
        is_none (choice_of h) ≡ true → ⊥ }
    ensures unhalted { (u : ℕ → List ℕ → ℤ) (h : TwoWayHistory) (good : ℕ) → IsStart h.terms h.start → Explains u h →
        AllBelowCeiling h.terms.goods u h.terms.ceiling (members_in h) → phase_of h ≡ Halted good → ⊥ }
{}

/// The clocks of an auction, all from the same start prices: their first clearing choice is a Walrasian equilibrium at their prices, and
/// each payment is that of Vickrey, Clarke and Groves.
pub fn float_law()
    ensures { (u : ℕ → List ℕ → ℤ) (terms : Terms) (start : List ℕ) (all : TwoWayHistory) (others : List TwoWayHistory) (prices : List ℕ)
        (rows : List AwardRow) (choices : List (List (List ℕ))) → IsStart terms start → AreEnded terms start (all ∷ others) →
        AllByRecursion (Explains u) (all ∷ others) → AreFloated all others prices rows choices → IsEfficient u terms prices rows }
{}

/// The reports of a floated clock are true: in each round each member demands its demand set at the prices of that round.
pub fn float_history_law()
    ensures { (u : ℕ → List ℕ → ℤ) (h : TwoWayHistory) → IsFloatHistory u h → AllByRecursion (IsTrueReport u h) h.reports }
{}
