//! What the members of a clock demand in its last round, and the first choice among it that clears.
ghost use Rattle.std.specs.Prelude.{◌≡◌, IfOk};
ghost use Rattle.std.specs.List.{AllByRecursion, AllZip};
ghost use Rattle.lot_base.specs.declared.phases.Phase.TheVariants.{Ended};
ghost use Rattle.clock.specs.Reports.{ClockHistory, histories};
ghost use Rattle.clock.specs.Standing.{phase_of};
ghost use Rattle.settlement.specs.Found.{IsFoundOf, IsRowOf, AreChoicesOf};

use crate::outcome::ClockRow;
use award_assembly::{Assembly, assemble};
use clock::{Clock, last_demands};
use lot_base::{NoMemory, Phase, Sequence, Terms};
use std::alloc::Global;

/// The rows of all clocks, or the first clock of which no choice clears.
#[derive(Drop)]
pub(crate) enum Choices {
    /// One for each clock, that of clock 0 first.
    All(Sequence<ClockRow>),
    /// This clock, counted from 0.
    NoneOf(u8),
}

/// The rows of clocks that have ended.
pub(crate) fn clock_rows(
    alloc: Global,
    terms: &Terms,
    clocks: &[Clock],
) -> Result<Choices, NoMemory>
    requires terms { AllByRecursion (λ (c : ClockHistory). c.terms ≡ terms.now) (histories clocks.now) }
    requires ended { AllByRecursion (λ (c : ClockHistory). phase_of c ≡ Ended) (histories clocks.now) }
    ensures { IfOk result (AreChoicesOf (histories clocks.now)) }
{
    let mut rows = Vec::new(alloc);
    for clock in clocks {
        let number = clock.number();
        match clock_row(alloc, terms, clock)? {
            Some(row) => rows.push(row)?,
            None => return Ok(Choices::NoneOf(number)),
        }
    }
    Ok(Choices::All(Sequence::from_vec(rows)))
}

/// The rows of clocks that have ended, where each was found before.
pub(crate) fn found_rows(
    alloc: Global,
    clocks: &[Clock],
    found: Vec<Option<ClockRow>>,
) -> Result<Choices, NoMemory>
    requires found { AllZip IsFoundOf (histories clocks.now) found.items }
    requires ended { AllByRecursion (λ (c : ClockHistory). phase_of c ≡ Ended) (histories clocks.now) }
    ensures { IfOk result (AreChoicesOf (histories clocks.now)) }
{
    let mut rows = Vec::new(alloc);
    let mut found = found.into_iter();
    for clock in clocks {
        let number = clock.number();
        match found.next() {
            Some(Some(row)) => rows.push(row)?,
            Some(None) => return Ok(Choices::NoneOf(number)),
            None => unreachable!(),
        }
    }
    Ok(Choices::All(Sequence::from_vec(rows)))
}

/// The row of a clock, if it has ended and a choice clears.
pub fn row_of(alloc: Global, terms: &Terms, clock: &Clock) -> Result<Option<ClockRow>, NoMemory>
    requires { clock.now.history.terms ≡ terms.now }
    ensures { IfOk result (IsFoundOf clock.now.history) }
{
    match clock.look().phase {
        Phase::Ended => clock_row(alloc, terms, clock),
        Phase::Running | Phase::Halted(_) => Ok(None),
    }
}

/// The row of a clock that has ended, if a choice clears.
fn clock_row(alloc: Global, terms: &Terms, clock: &Clock) -> Result<Option<ClockRow>, NoMemory>
    requires terms { clock.now.history.terms ≡ terms.now }
    requires ended { phase_of clock.now.history ≡ Ended }
    ensures { IfOk result (IsRowOf clock.now.history) }
{
    let look = clock.look();
    let demands = last_demands(alloc, terms, clock)?;
    match assemble(alloc, &terms.goods, &terms.opening, &look.prices, &demands)? {
        Assembly::Award(choices) => Ok(Some(ClockRow {
            steps: clock.steps(),
            prices: look.prices,
            choices,
        })),
        Assembly::NoChoice => Ok(None),
    }
}
