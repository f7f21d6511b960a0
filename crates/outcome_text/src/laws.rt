//! A law on the plain text.
ghost use Rattle.std.specs.Prelude.{◌≡◌, ℕ, List};
ghost use Rattle.settlement.specs.declared.outcome.Outcome.{Outcome};
ghost use Rattle.outcome_text.specs.Reading.{IsTextOf};

/// A text is that of one outcome at most.
pub fn text_law()
    ensures { (bytes : List ℕ) (o p : Outcome) → IsTextOf bytes o → IsTextOf bytes p → o ≡ p }
{}
