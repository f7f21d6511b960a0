//! Laws on clearing choices: that the function finds what the relation says.
ghost use Rattle.std.specs.Prelude.{◌≡◌, ℕ, List, Some, None};
ghost use Rattle.lot_base.specs.Choices.{IsFirstChoice, IsClearingChoice, first_choice};

/// The first of all choices that clears is the first in lexicographic order of the places, and where none is found there is
/// none.
pub fn choice_law()
    ensures first { (supply opening p : List ℕ) (demands : List (List (List ℕ))) (choice : List (List ℕ)) →
        first_choice supply opening p demands ≡ Some choice → IsFirstChoice supply opening p demands choice }
    ensures clearing { (supply opening p : List ℕ) (demands : List (List (List ℕ))) (choice : List (List ℕ)) →
        first_choice supply opening p demands ≡ Some choice → IsClearingChoice supply opening p demands choice }
    ensures none { (supply opening p : List ℕ) (demands : List (List (List ℕ))) →
        first_choice supply opening p demands ≡ None → (choice : List (List ℕ)) → IsClearingChoice supply opening p demands choice → ⊥ }
{}
