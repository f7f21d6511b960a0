//! Laws on the definitions.
ghost use Rattle.std.specs.Prelude.{◌≡◌, ◌↔◌, ◌⊎◌, ◌≤◌, ◌-ℤ◌, ℕ, ℤ, List, length};
ghost use Rattle.lot_base.specs.Goods.{box_size, zeros};
ghost use Rattle.rationale.specs.Observations.{Observation, AreObservations, IsRational, Explains};
ghost use Rattle.rationale.specs.Links.{IsNegativeCycle, AreLeastWeights};
ghost use Rattle.rationale.specs.Lines.{after, IsBound};
ghost use Rattle.rationale.specs.Decisions.{IsExplanation, IsContradiction};
ghost use Rattle.rationale.specs.declared.links.Link.{Link};

/// Observations are rational exactly where they have no negative cycle. Where they have none, the least weights less that of the
/// empty bundle are a valuation that explains them; else they have a negative cycle of no more links than there are bundles.
pub fn rational_law()
    ensures exactly { (supply : List ℕ) (os : List Observation) → AreObservations supply os →
        (IsRational supply os ↔ ((links : List Link) → IsNegativeCycle supply os links → ⊥)) }
    ensures explained { (supply : List ℕ) (os : List Observation) (m : List ℕ → ℤ) → AreObservations supply os →
        AreLeastWeights supply os m → Explains supply (λ y. m y -ℤ m (zeros supply)) os }
    ensures either { (supply : List ℕ) (os : List Observation) → AreObservations supply os →
        (((m : List ℕ → ℤ) × AreLeastWeights supply os m)
        ⊎ ((links : List Link) × IsNegativeCycle supply os links × (length links ≤ box_size supply))) }
{}

/// A decision is right: values come only where the observations are rational, and a cycle only where they are not. So there is
/// one kind of decision, and one list of values.
pub fn decision_law()
    ensures values { (supply : List ℕ) (os : List Observation) (values : List ℤ) → IsExplanation supply os values →
        IsRational supply os }
    ensures cycle { (supply : List ℕ) (os : List Observation) (links : List Link) → IsContradiction supply os links →
        IsRational supply os → ⊥ }
    ensures one { (supply : List ℕ) (os : List Observation) (values others : List ℤ) → IsExplanation supply os values →
        IsExplanation supply os others → values ≡ others }
{}

/// Where one demand is reported while the prices rise by the same step, the first and the last round bind what all between them
/// bind.
pub fn line_law()
    ensures { (u : List ℕ → ℤ) (p s : List ℕ) (bundles : List (List ℕ)) (x y : List ℕ) (t n : ℕ) → t ≤ n →
        IsBound u p bundles x y → IsBound u (after p s n) bundles x y → IsBound u (after p s t) bundles x y }
{}
