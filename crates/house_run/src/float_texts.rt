//! The text of what two-way clocks settle.
ghost use Rattle.std.specs.Prelude.{◌≡◌, ◌++◌, IfOk, OnOk, length, string_bytes};
ghost use Rattle.outcome_text.specs.Lines.{line, text_of};
ghost use Rattle.house_run.specs.FloatCommand.{float_text, turn_lines, turn_words};

use award_assembly::Choice;
use lot_base::{Prices, Terms};
use outcome_text::{write_choices, write_prices, write_rows};
use std::alloc::{AllocError, Global};
use std::fmt::Write;
use two_way::{Floated, TwoWay};

/// The text of what clocks settle that started at these prices.
pub(crate) fn float_text(
    alloc: Global,
    terms: &Terms,
    start: &Prices,
    floated: &Floated,
) -> Result<String, AllocError>
    requires { length floated.now.clocks.items ≡ length floated.now.choices }
    ensures { IfOk result (λ text. string_bytes text ≡ float_text terms.now start.now floated.now.clocks.items floated.now.prices
        floated.now.rows floated.now.choices) }
{
    let goods = terms.goods.count();
    let bidders = terms.bidders;
    let mut text = format!(in alloc; "floated goods {goods} bidders {bidders} start")?;
    write_prices(&mut text, start)?;
    write!(text, "\nprices")?;
    write_prices(&mut text, &floated.prices)?;
    writeln!(text)?;
    write_rows(&mut text, floated.rows.as_slice())?;
    write_turns(
        &mut text,
        bidders as usize,
        floated.clocks.as_slice(),
        floated.choices.as_slice(),
    )?;
    Ok(text)
}

/// Writes the lines of all clocks, and of what their members choose.
fn write_turns(
    text: &mut String,
    bidders: usize,
    clocks: &[TwoWay],
    choices: &[Choice],
) -> Result<(), AllocError>
    requires { length clocks.now ≡ length choices.now }
    ensures { OnOk result (string_bytes text.new ≡ string_bytes text.old ++ text_of (turn_lines bidders 0 clocks.now choices.now)) }
{
    for (number, clock) in clocks.iter().enumerate() {
        write_turn(text, number, clock)?;
        write_choices(text, bidders, number, &choices[number])?;
    }
    Ok(())
}

/// Writes the line of a clock.
fn write_turn(text: &mut String, number: usize, clock: &TwoWay) -> Result<(), AllocError>
    ensures { OnOk result (string_bytes text.new ≡ string_bytes text.old ++ line (turn_words number clock.now)) }
{
    let ups = clock.ups();
    let downs = clock.downs();
    write!(text, "clock {number} up {ups} down {downs} prices")?;
    write_prices(text, &clock.look().prices)?;
    writeln!(text)
}
