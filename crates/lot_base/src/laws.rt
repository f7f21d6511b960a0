//! Laws on the definitions: that they are the right ones.
ghost use Rattle.std.specs.Prelude.{◌≡◌, ◌↔◌, ◌≤ℤ◌, ◌-ℤ◌, ◌<◌, ◌^◌, ℕ, ℤ, pos, List, length, slice_get, Some};
ghost use Rattle.lot_base.specs.Goods.{AtMost, raised, lowered, box_size, AllPriced};
ghost use Rattle.lot_base.specs.Box.{box, IsIn, index_of, bundle_at};
ghost use Rattle.lot_base.specs.Demands.{IsAscending, IsDemand, least, greatest};
ghost use Rattle.lot_base.specs.RowsTables.{two, unit_demand, together};
ghost use Rattle.lot_base.specs.Economy.{surplus, indirect_utility, demand, IsDemanded, IsStrongSubstitutes};

/// Two tables over two goods of one unit each: one has the exchange property, and the other has not.
pub fn exchange_examples()
    ensures unit_demand { IsStrongSubstitutes (two 1 1) (unit_demand 5 4) }
    ensures together { IsStrongSubstitutes (two 1 1) (together 3) → ⊥ }
{}

/// The step lemma. Where prices rise by one on a set of goods, a bidder with strong substitutes loses the least quantity on
/// the set that it demanded before, which is the greatest that it demands after.
pub fn step_law()
    ensures least { (supply p : List ℕ) (u : List ℕ → ℤ) (set : ℕ) → IsStrongSubstitutes supply u → length p ≡ length supply →
        pos (least (demand supply u p) set) ≡ indirect_utility supply u p -ℤ indirect_utility supply u (raised p set) }
    ensures greatest { (supply p : List ℕ) (u : List ℕ → ℤ) (set : ℕ) → IsStrongSubstitutes supply u → length p ≡ length supply
        → AllPriced p set →
        pos (greatest (demand supply u p) set) ≡ indirect_utility supply u (lowered p set) -ℤ indirect_utility supply u p }
{}

/// The box is exactly the bundles within the supply.
pub fn box_law()
    ensures { (supply x : List ℕ) → IsIn x (box supply) ↔ AtMost x supply }
{}

/// The box is in ascending order, and a bundle stands in it at its place.
pub fn order_law()
    ensures ascending { (supply : List ℕ) → IsAscending (box supply) }
    ensures size { (supply : List ℕ) → length (box supply) ≡ box_size supply }
    ensures place { (supply x : List ℕ) → AtMost x supply → slice_get (box supply) (index_of supply x) ≡ Some x }
{}

/// Each bundle of the box has a place of its own, and each place below the size of the box has its bundle.
pub fn index_law()
    ensures bundle { (supply x : List ℕ) → AtMost x supply → bundle_at supply (index_of supply x) ≡ x }
    ensures place { (supply : List ℕ) (place : ℕ) → place < box_size supply →
        AtMost (bundle_at supply place) supply × (index_of supply (bundle_at supply place) ≡ place) }
{}

/// The indirect utility is the surplus of some bundle, and no bundle has more.
pub fn utility_law()
    ensures reached { (supply p : List ℕ) (u : List ℕ → ℤ)
        → ((x : List ℕ) × AtMost x supply × (surplus u p x ≡ indirect_utility supply u p)) }
    ensures bound { (supply p x : List ℕ) (u : List ℕ → ℤ) → AtMost x supply → surplus u p x ≤ℤ indirect_utility supply u p }
{}

/// A bundle is in the demand set exactly where it is within the supply and no bundle has a greater surplus.
pub fn demand_law()
    ensures { (supply p x : List ℕ) (u : List ℕ → ℤ) → IsIn x (demand supply u p) ↔ IsDemanded supply u p x }
{}

/// The demand set is one that a bidder may report: some bundle, in ascending order, all within the supply.
pub fn report_law()
    ensures { (supply p : List ℕ) (u : List ℕ → ℤ) → IsDemand supply (demand supply u p) }
{}
