//! Laws on the step set: that there is exactly one.
ghost use Rattle.std.specs.Prelude.{◌≡◌, ℕ, ℤ, List, length};
ghost use Rattle.lot_base.specs.Steps.{IsStepSet, excess, first_set, step_set};

/// The first set in the order of sets as steps is the step set, and there is no other, whatever the excesses are.
pub fn first_set_law()
    ensures exists { (goods : ℕ) (f : ℕ → ℤ) → IsStepSet goods f (first_set f goods) }
    ensures unique { (goods : ℕ) (f : ℕ → ℤ) (set other : ℕ) → IsStepSet goods f set → IsStepSet goods f other → set ≡ other }
{}

/// So the demands of any members have a step set.
pub fn step_set_law()
    ensures { (supply : List ℕ) (demands : ℕ → List (List ℕ)) (members : List ℕ) →
        IsStepSet (length supply) (excess supply demands members) (step_set supply demands members) }
{}
