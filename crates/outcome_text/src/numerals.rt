//! Numbers as words inside a line, for whoever writes lines with prices, bundles and amounts in them.
ghost use Rattle.std.specs.Prelude.{◌≡◌, ◌++◌, ◌∷◌, [], OnOk, string_bytes};
ghost use Rattle.std.specs.Fmt.{signed_decimal};
ghost use Rattle.outcome_text.specs.Lines.{numerals};
ghost use Rattle.outcome_text.specs.Spaced.{spaced};

use lot_base::{Bundle, Prices};
use std::alloc::AllocError;
use std::fmt::Write;

/// Writes each price after a blank.
pub fn write_prices(text: &mut String, prices: &Prices) -> Result<(), AllocError>
    ensures { OnOk result (string_bytes text.new ≡ string_bytes text.old ++ spaced (numerals prices.now)) }
{
    for good in 0..prices.count() {
        let price = prices.get(good);
        write!(text, " {price}")?;
    }
    Ok(())
}

/// Writes each quantity of a bundle after a blank.
pub fn write_bundle(text: &mut String, bundle: &Bundle) -> Result<(), AllocError>
    ensures { OnOk result (string_bytes text.new ≡ string_bytes text.old ++ spaced (numerals bundle.now)) }
{
    for good in 0..bundle.count() {
        let quantity = bundle.quantity(good);
        write!(text, " {quantity}")?;
    }
    Ok(())
}

/// Writes the name of an amount and the amount, each after a blank.
pub fn write_amount(text: &mut String, name: &str, amount: i64) -> Result<(), AllocError>
    ensures { OnOk result (string_bytes text.new ≡ string_bytes text.old ++ spaced (name.now ∷ signed_decimal amount ∷ [])) }
{
    write!(text, " {name} {amount}")
}
