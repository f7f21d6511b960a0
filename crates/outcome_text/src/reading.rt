//! Reading an outcome from its plain text.
ghost use Rattle.std.specs.Prelude.{◌≡◌, ◌↔◌, Some, is_some, IfOk, IfSome, IsTrue};
ghost use Rattle.settlement.specs.declared.outcome.Outcome.{Outcome as OutcomeValue};
ghost use Rattle.outcome_text.specs.Plain.{plain_text};
ghost use Rattle.outcome_text.specs.Numbers.{numbers_in};
ghost use Rattle.outcome_text.specs.Reading.{IsTextOf, IsReadFrom};

use crate::building::outcome_of;
use crate::plain::write_plain;
use crate::scanning::read_numbers;
use lot_base::NoMemory;
use settlement::Outcome;
use std::alloc::Global;

/// The outcome of which this is the plain text, if it is one.
pub fn read_plain(alloc: Global, bytes: &[u8]) -> Result<Option<Outcome>, NoMemory>
    ensures read { IfOk result (λ o. IsReadFrom bytes.now o) }
    ensures back { (o : OutcomeValue) → IsTextOf bytes.now o → IfOk result (λ r. r ≡ Some o) }
{
    let numbers = read_numbers(alloc, bytes)?;
    match read_as(alloc, bytes, &numbers, false)? {
        Some(outcome) => Ok(Some(outcome)),
        None => read_as(alloc, bytes, &numbers, true),
    }
}

/// The same for an outcome that shows its opening prices, or for one that shows none, where these are the numbers of the text.
fn read_as(
    alloc: Global,
    bytes: &[u8],
    numbers: &[i64],
    shows_opening: bool,
) -> Result<Option<Outcome>, NoMemory>
    requires { numbers.now ≡ numbers_in bytes.now }
    ensures read { IfOk result (λ r. IfSome r (IsTextOf bytes.now)) }
    ensures back { (o : OutcomeValue) → IsTextOf bytes.now o → is_some o.opening ≡ shows_opening → IfOk result (λ r. r ≡ Some o) }
{
    let outcome = match outcome_of(alloc, numbers, shows_opening)? {
        Some(outcome) => outcome,
        None => return Ok(None),
    };
    if is_plain_text(alloc, &outcome, bytes)? {
        Ok(Some(outcome))
    } else {
        Ok(None)
    }
}

/// Whether this is the plain text of an outcome.
fn is_plain_text(alloc: Global, outcome: &Outcome, bytes: &[u8]) -> Result<bool, NoMemory>
    ensures { IfOk result (λ same. IsTrue same ↔ (bytes.now ≡ plain_text outcome.now)) }
{
    let text = write_plain(alloc, outcome)?;
    Ok(text.as_slice() == bytes)
}
