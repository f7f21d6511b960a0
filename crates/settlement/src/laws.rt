//! Laws on what clocks settle.
ghost use Rattle.std.specs.Prelude.{◌≡◌, ℕ, ℤ, List, map};
ghost use Rattle.std.specs.List.{AllZip};
ghost use Rattle.clock.specs.Reports.{ClockHistory};
ghost use Rattle.settlement.specs.Settling.{IsOutcomeOf};
ghost use Rattle.settlement.specs.Alike.{HoldSame, StandAlike};
ghost use Rattle.settlement.specs.Efficient.{IsEfficient};
ghost use Rattle.settlement.specs.Examples.{IsFirstExample, IsSecondExample, IsThirdExample};
ghost use Rattle.lot_base.specs.declared.auction_terms.Terms.{Terms as TermsValue};
ghost use Rattle.settlement.specs.declared.outcome.Outcome.{Outcome};
ghost use Rattle.settlement.specs.declared.outcome.Settlement.{Settlement};

use lot_base::{Goods, Prices, Terms};

/// Clocks have one outcome.
pub fn outcome_law()
    ensures { (clocks : List ClockHistory) (s t : Settlement) → IsOutcomeOf clocks s → IsOutcomeOf clocks t → s ≡ t }
{}

/// The order of the reports does not matter: legal histories that hold the same reports stand alike, and families of them have
/// one outcome.
pub fn order_law()
    ensures standing { (c d : ClockHistory) → HoldSame c d → StandAlike c d }
    ensures outcome { (clocks others : List ClockHistory) (s t : Settlement) → AllZip HoldSame clocks others →
        IsOutcomeOf clocks s → IsOutcomeOf others t → s ≡ t }
{}

/// What is efficient has one price of each good, and at the same awards each bidder has one payment. So where valuations explain
/// the clocks, the economic clause alone refuses any other number.
pub fn efficient_law()
    ensures prices { (u : ℕ → List ℕ → ℤ) (terms : TermsValue) (o p : Outcome) → IsEfficient u terms o → IsEfficient u terms p
        → o.prices ≡ p.prices }
    ensures payments { (u : ℕ → List ℕ → ℤ) (terms : TermsValue) (o p : Outcome) → IsEfficient u terms o → IsEfficient u terms p →
        map (λ row. row.award) o.rows ≡ map (λ row. row.award) p.rows → map (λ row. row.pays) o.rows ≡ map (λ row. row.pays) p.rows }
{}

/// The premises of the economic clauses can be met. On the terms that this returns, one good in two units, three bidders and a
/// ceiling of 100, three valuations explain what four clocks are told, and the outcome is known to the last number.
pub fn explained_example() -> Terms
    ensures { IsFirstExample result }
{
    Terms::new(Goods::new(&[2]).unwrap(), 3, 100).unwrap()
}

/// The same with two bidders, where a bidder pays less than the price of its award, and no other payment is efficient.
pub fn credit_example() -> Terms
    ensures { IsSecondExample result }
{
    Terms::new(Goods::new(&[2]).unwrap(), 2, 100).unwrap()
}

/// The first example with a reserve of 9, at which one unit stays unsold: a payment that forgets what it is worth to the seller is not
/// efficient.
pub fn reserve_example() -> Terms
    ensures { IsThirdExample result }
{
    let opening = Prices::read(&[9]).unwrap();
    Terms::with_opening(Goods::new(&[2]).unwrap(), 3, 100, opening).unwrap()
}
