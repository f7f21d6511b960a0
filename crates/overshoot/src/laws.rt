//! Laws on existence: where demands have the exchange property, a clearing choice exists exactly where no set overshoots.
ghost use Rattle.std.specs.Prelude.{◌≡◌, ◌↔◌, ◌<◌, ℕ, ℤ, List, length, map};
ghost use Rattle.std.specs.List.{AllByRecursion};
ghost use Rattle.lot_base.specs.Goods.{AtMost};
ghost use Rattle.lot_base.specs.Demands.{IsDemand};
ghost use Rattle.lot_base.specs.Economy.{demand, IsStrongSubstitutes};
ghost use Rattle.lot_base.specs.Choices.{IsClearingChoice};
ghost use Rattle.lot_base.specs.Steps.{step_set};
ghost use Rattle.clock.specs.Reports.{ClockHistory};
ghost use Rattle.overshoot.specs.Exchange.{HasExchange};
ghost use Rattle.overshoot.specs.Explained.{IsExplained};
ghost use Rattle.overshoot.specs.declared.explaining.Explained.{Explained};
ghost use Rattle.overshoot.specs.Shortfall.{IsOvershoot, IsGreatestShortfall};

/// The demand sets of a valuation with strong substitutes have the exchange property.
pub fn demand_law()
    ensures { (supply p : List ℕ) (u : List ℕ → ℤ) → IsStrongSubstitutes supply u → HasExchange (demand supply u p) }
{}

/// Where no set of goods is in excess demand: if the demands have the exchange property and no set overshoots, some choice of the
/// demands clears. If some choice clears, whatever the demands are, no set overshoots.
pub fn existence_law()
    ensures exists { (supply opening p js : List ℕ) (d : ℕ → List (List ℕ)) →
        AtMost opening p → length opening ≡ length supply →
        AllByRecursion (λ j. IsDemand supply (d j)) js → step_set supply d js ≡ 0 →
        AllByRecursion (λ j. HasExchange (d j)) js → ((set : ℕ) → IsOvershoot supply opening p d js set → ⊥) →
        ((choice : List (List ℕ)) × IsClearingChoice supply opening p (map d js) choice) }
    ensures none { (supply opening p js : List ℕ) (d : ℕ → List (List ℕ)) (choice : List (List ℕ)) (set : ℕ) →
        IsClearingChoice supply opening p (map d js) choice → IsOvershoot supply opening p d js set → ⊥ }
{}

/// The greatest shortfall is 0, and its set is empty, exactly where no set overshoots; else its set overshoots. There is one such set.
pub fn greatest_law()
    ensures none { (supply opening p js : List ℕ) (d : ℕ → List (List ℕ)) (set short : ℕ) →
        IsGreatestShortfall supply opening p d js set short →
        ((short ≡ 0) × (set ≡ 0)) ↔ ((other : ℕ) → IsOvershoot supply opening p d js other → ⊥) }
    ensures some { (supply opening p js : List ℕ) (d : ℕ → List (List ℕ)) (set short : ℕ) →
        IsGreatestShortfall supply opening p d js set short → 0 < short → IsOvershoot supply opening p d js set }
    ensures one { (supply opening p js : List ℕ) (d : ℕ → List (List ℕ)) (set short other also : ℕ) →
        IsGreatestShortfall supply opening p d js set short → IsGreatestShortfall supply opening p d js other also →
        (set ≡ other) × (short ≡ also) }
{}

/// A clock has one explanation.
pub fn explained_law()
    ensures { (c : ClockHistory) (e f : Explained) → IsExplained c e → IsExplained c f → e ≡ f }
{}
