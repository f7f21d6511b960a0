//! What the clocks of an auction settle: prices, awards and payments, or where they are open.
#![tactic(auto)]

ghost use Rattle.std.specs.Prelude.{◌≡◌, ℕ, ℤ, List, IfOk};
ghost use Rattle.std.specs.List.{AllZip};
ghost use Rattle.clock.specs.Reports.{histories};
ghost use Rattle.settlement.specs.Clocks.{AreClocksOf, opening_of};
ghost use Rattle.settlement.specs.Found.{IsFoundOf, AreChoicesOf};
ghost use Rattle.settlement.specs.Settling.{IsClockRow, IsSettled, HaveEnded, IsOutcomeOf};
ghost use Rattle.settlement.specs.Efficient.{ExplainsAll, IsEfficientSettlement};
ghost use Rattle.settlement.specs.Incentives.{IsAmongTruthful, IsChargedBy};
ghost use Rattle.settlement.specs.Shapes.{IsWholeSettlement};

mod awarding;
mod choosing;
pub mod incentives;
pub mod laws;
mod open_clocks;
pub mod outcome;

use choosing::Choices;
pub use choosing::row_of;
use clock::Clock;
use lot_base::{NoMemory, Prices, Sequence, Terms};
pub use outcome::{AwardRow, ClockRow, Outcome, Settlement};
use std::alloc::Global;

/// What the clocks of an auction settle, in the order of their numbers.
pub fn settle(alloc: Global, terms: &Terms, clocks: &[Clock]) -> Result<Settlement, NoMemory>
    requires { AreClocksOf terms.now (histories clocks.now) }
    ensures outcome { IfOk result (IsOutcomeOf (histories clocks.now)) }

    // An outcome has an entry for each good, a row for each bidder and each clock, and a bundle for each member of a clock.
    ensures whole { IfOk result IsWholeSettlement }

    // Where one valuation for each bidder explains all reports, an outcome is an equilibrium at the least such prices, each
    // bidder pays what Vickrey, Clarke and Groves ask, and the choices show the greatest worth without each bidder. No clock
    // is then without a choice, and none halts whose ceiling is above all values.
    ensures efficient { IfOk result (λ s. (u : ℕ → List ℕ → ℤ) → ExplainsAll u (histories clocks.now)
        → IsEfficientSettlement u terms.now s) }

    // Whatever a bidder reports: where the others' reports are true, on the clock of all and on the clock without it, it pays what
    // Vickrey, Clarke and Groves ask, at least the reserve of its award and at most its price, and nothing for nothing.
    ensures charged { IfOk result (λ s. (i : ℕ) (u : ℕ → List ℕ → ℤ) → IsAmongTruthful i u terms.now (histories clocks.now)
        → IsChargedBy i u terms.now s) }
{
    settle_exactly(alloc, terms, clocks)
}

/// The same without the economy.
fn settle_exactly(alloc: Global, terms: &Terms, clocks: &[Clock]) -> Result<Settlement, NoMemory>
    requires { AreClocksOf terms.now (histories clocks.now) }
    ensures outcome { IfOk result (IsOutcomeOf (histories clocks.now)) }
    ensures whole { IfOk result IsWholeSettlement }
{
    if let Some(settlement) = open_clocks::before_the_end(clocks) {
        return Ok(settlement);
    }
    let choices = choosing::clock_rows(alloc, terms, clocks)?;
    settle_choices(alloc, terms, clocks, choices)
}

/// What `settle` answers, where the row of each clock was found before.
pub fn settle_found(
    alloc: Global,
    terms: &Terms,
    clocks: &[Clock],
    found: Vec<Option<ClockRow>>,
) -> Result<Settlement, NoMemory>
    requires clocks { AreClocksOf terms.now (histories clocks.now) }
    requires found { AllZip IsFoundOf (histories clocks.now) found.items }
    ensures outcome { IfOk result (IsOutcomeOf (histories clocks.now)) }
    ensures whole { IfOk result IsWholeSettlement }
{
    if let Some(settlement) = open_clocks::before_the_end(clocks) {
        return Ok(settlement);
    }
    let choices = choosing::found_rows(alloc, clocks, found)?;
    settle_choices(alloc, terms, clocks, choices)
}

/// What clocks settle that have all ended, by what was chosen for each.
fn settle_choices(
    alloc: Global,
    terms: &Terms,
    clocks: &[Clock],
    choices: Choices,
) -> Result<Settlement, NoMemory>
    requires clocks { AreClocksOf terms.now (histories clocks.now) }
    requires ended { HaveEnded (histories clocks.now) }
    requires choices { AreChoicesOf (histories clocks.now) choices }
    ensures outcome { IfOk result (IsOutcomeOf (histories clocks.now)) }
    ensures whole { IfOk result IsWholeSettlement }
{
    match choices {
        Choices::NoneOf(clock) => Ok(Settlement::NoAward { clock }),
        Choices::All(rows) => {
            let outcome = outcome_of(alloc, terms, clocks, rows)?;
            Ok(Settlement::Settled(outcome))
        }
    }
}

/// The outcome of clocks that have these rows.
fn outcome_of(
    alloc: Global,
    terms: &Terms,
    clocks: &[Clock],
    rows: Sequence<ClockRow>,
) -> Result<Outcome, NoMemory>
    requires clocks { AreClocksOf terms.now (histories clocks.now) }
    requires rows { AllZip IsClockRow (histories clocks.now) rows }
    ensures { IfOk result (IsSettled (histories clocks.now)) }
{
    let all = &clocks[0];
    let others = clocks.split_at(1).1;
    let row = &rows.as_slice()[0];
    let prices = row.prices;
    let awards = awarding::award_rows(alloc, all, others, &prices, &row.choices)?;
    Ok(Outcome {
        prices,
        opening: opening_of(terms),
        rows: awards,
        clocks: rows,
    })
}

/// The opening prices, where the seller has named them.
fn opening_of(terms: &Terms) -> Option<Prices>
    ensures { result ≡ opening_of terms.now }
{
    if terms.version == 2 {
        Some(terms.opening)
    } else {
        None
    }
}
