//! The rule of the desk in words: what it comes to while the book lies on the desk, and while a seat has it.
ghost use Rattle.std.specs.Prelude.{◌≡◌, ℕ, List, [], ◌∷◌, Option, Some};
ghost use Rattle.turn_desk.specs.declared.view.View.{View};
ghost use Rattle.turn_desk.specs.Rule.{KeepsRule, AtHome, InTurn};
ghost use Rattle.atomic_table.specs.Table.{State};
ghost use Rattle.turn_desk.specs.Views.{holding};
ghost use mathlib.Core.Option.{some};
ghost use lib.ListN.{get_elem?};

use crate::book::Book;

/// While the book lies on the desk, all that `AtHome` lists is so.
pub fn desk_at_home<B: Book>()
    ensures { (first book : B) (s : State (Option B) (View B.Entry B.Origin)) → KeepsRule B.history B.origin B.gauge first s
        → s.homes ≡ some (Some book) ∷ [] → AtHome B.history B.origin B.gauge first book s }
{}

/// While a view holds the turn, all that `InTurn` lists is so.
pub fn desk_in_turn<B: Book>()
    ensures { (first : B) (place : ℕ) (w : View B.Entry B.Origin) (s : State (Option B) (View B.Entry B.Origin))
        → KeepsRule B.history B.origin B.gauge first s → get_elem? s.views place ≡ some w → holding w.stage ≡ 1
        → InTurn B.history B.origin B.gauge first place w s }
{}
