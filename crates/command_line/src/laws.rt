//! Laws of words.
ghost use Rattle.std.specs.Prelude.{◌≡◌, List, ℕ, [], ◌∷◌, codes, true};
ghost use Rattle.command_line.specs.Commands.{Command, IsNoCommand, Serve, Settle, Spells, Trial};

/// Words are one command at most. So what `run` says of a command says which one it did.
pub fn words_law()
    ensures one { (words : List (List ℕ)) (command other : Command) → Spells command words → Spells other words → command ≡ other }
{}

/// The option of `settle` stands between or before its words, and it stands there once, without a value.
pub fn option_examples()
    ensures between { Spells (Settle (codes "a") (codes "j") true) (codes "settle" ∷ codes "a" ∷ codes "--json" ∷ codes "j" ∷ []) }
    ensures before { Spells (Settle (codes "a") (codes "j") true) (codes "settle" ∷ codes "--json" ∷ codes "a" ∷ codes "j" ∷ []) }
    ensures twice { IsNoCommand (codes "settle" ∷ codes "a" ∷ codes "j" ∷ codes "--json" ∷ codes "--json" ∷ []) }
    ensures valued { IsNoCommand (codes "settle" ∷ codes "a" ∷ codes "j" ∷ codes "--json=1" ∷ []) }
    ensures dashes { IsNoCommand (codes "settle" ∷ codes "a" ∷ codes "j" ∷ codes "--" ∷ []) }
{}

/// The value of an option stands after it or after `=`, a number is spelled in one way, and an option that is not given has its
/// default.
pub fn value_examples()
    ensures behind { Spells (Serve (codes "a") (codes "j") (record { address = codes "h"; doors = 2; sessions = 1 }))
        (codes "serve" ∷ codes "--doors" ∷ codes "2" ∷ codes "a" ∷ codes "j" ∷ codes "h" ∷ []) }
    ensures joined { Spells (Serve (codes "a") (codes "j") (record { address = codes "h"; doors = 2; sessions = 1 }))
        (codes "serve" ∷ codes "a" ∷ codes "j" ∷ codes "h" ∷ codes "--doors=2" ∷ []) }
    ensures default { Spells (Trial (codes "a") (codes "v") 1) (codes "trial" ∷ codes "a" ∷ codes "v" ∷ []) }
    ensures alone { IsNoCommand (codes "serve" ∷ codes "a" ∷ codes "j" ∷ codes "h" ∷ codes "--doors" ∷ []) }
    ensures leading { IsNoCommand (codes "trial" ∷ codes "a" ∷ codes "v" ∷ codes "--workers" ∷ codes "01" ∷ []) }
{}
