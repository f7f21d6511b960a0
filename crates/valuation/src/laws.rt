//! Laws on the forms in which a bidder says what bundles are worth.
ghost use Rattle.std.specs.Prelude.{ℕ, List, map};
ghost use Rattle.lot_base.specs.Box.{box};
ghost use Rattle.lot_base.specs.Economy.{IsStrongSubstitutes};
ghost use Rattle.valuation.specs.Descending.{AreDescending};
ghost use Rattle.valuation.specs.Forms.{marginal_value, unit_value, capped_value};
ghost use Rattle.valuation.specs.Values.{valuation_of};

/// Goods are strong substitutes for a bidder whose marginal values fall, good by good, for one to whom one unit counts, and for one to whom
/// so many units count in all. So only a table of all bundles, or marginal values that rise, can be refused.
pub fn forms_law()
    ensures marginal { (supply entries : List ℕ) → AreDescending supply entries →
        IsStrongSubstitutes supply (valuation_of supply (map (marginal_value supply entries) (box supply))) }
    ensures unit { (supply values : List ℕ) →
        IsStrongSubstitutes supply (valuation_of supply (map (unit_value values) (box supply))) }
    ensures capped { (supply values : List ℕ) (cap : ℕ) →
        IsStrongSubstitutes supply (valuation_of supply (map (capped_value values cap) (box supply))) }
{}
