//! Laws on the definitions.
ghost use Rattle.std.specs.Prelude.{◌↔◌, ℕ, ℤ, List};
ghost use Rattle.lot_base.specs.Economy.{IsStrongSubstitutes};
ghost use Rattle.exchange_check.specs.Local.{IsLocallyStrong};

/// The exchange between bundles that differ in at most three units is the exchange between all.
pub fn local_law()
    ensures { (supply : List ℕ) (u : List ℕ → ℤ) → IsLocallyStrong supply u ↔ IsStrongSubstitutes supply u }
{}
