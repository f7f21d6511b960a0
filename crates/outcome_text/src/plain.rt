//! The plain text of an outcome.
ghost use Rattle.std.specs.Prelude.{◌≡◌, ◌++◌, ◌∷◌, codes, IfOk, OnOk, string_bytes};
ghost use Rattle.clock.specs.Reports.{members};
ghost use Rattle.outcome_text.specs.Lines.{line, text_of, numerals};
ghost use Rattle.outcome_text.specs.Plain.{plain_text, opening_lines, award_words, bidder_words, bidder_lines, choice_words, choice_lines, clock_words, clock_lines};

use crate::numerals::{write_amount, write_bundle, write_prices};
use award_assembly::Choice;
use lot_base::{Bundle, NoMemory, Prices};
use settlement::{AwardRow, ClockRow, Outcome};
use std::alloc::{AllocError, Global};
use std::fmt::Write;

/// The plain text of an outcome.
pub fn write_plain(alloc: Global, outcome: &Outcome) -> Result<Vec<u8>, NoMemory>
    ensures { IfOk result (λ v. v.items ≡ plain_text outcome.now) }
{
    let text = whole_text(alloc, outcome)?;
    Ok(text.into_bytes())
}

fn whole_text(alloc: Global, outcome: &Outcome) -> Result<String, AllocError>
    ensures { IfOk result (λ t. string_bytes t ≡ plain_text outcome.now) }
{
    let goods = outcome.prices.count();
    let rows = outcome.rows.as_slice();
    let bidders = rows.len();
    let mut text = format!(in alloc; "settled goods {goods} bidders {bidders}\nprices")?;
    write_prices(&mut text, &outcome.prices)?;
    writeln!(text)?;
    write_opening(&mut text, &outcome.opening)?;
    write_rows(&mut text, rows)?;
    write_clocks(&mut text, bidders, outcome.clocks.as_slice())?;
    Ok(text)
}

/// Writes the line of the opening prices, where they are shown.
fn write_opening(text: &mut String, opening: &Option<Prices>) -> Result<(), AllocError>
    ensures { OnOk result (string_bytes text.new ≡ string_bytes text.old ++ text_of (opening_lines opening.now)) }
{
    match opening {
        None => Ok(()),
        Some(opening) => write_opening_line(text, opening),
    }
}

fn write_opening_line(text: &mut String, opening: &Prices) -> Result<(), AllocError>
    ensures { OnOk result (string_bytes text.new ≡ string_bytes text.old ++ line (codes "opening" ∷ numerals opening.now)) }
{
    write!(text, "opening")?;
    write_prices(text, opening)?;
    writeln!(text)
}

/// Writes the lines of all bidders.
pub fn write_rows(text: &mut String, rows: &[AwardRow]) -> Result<(), AllocError>
    ensures { OnOk result (string_bytes text.new ≡ string_bytes text.old ++ text_of (bidder_lines 1 rows.now)) }
{
    for (place, row) in rows.iter().enumerate() {
        write_bidder(text, place + 1, row)?;
    }
    Ok(())
}

/// Writes the line of a bidder by its row.
fn write_bidder(text: &mut String, bidder: usize, row: &AwardRow) -> Result<(), AllocError>
    ensures { OnOk result (string_bytes text.new ≡ string_bytes text.old ++ line (bidder_words bidder row.now)) }
{
    write_row(text, bidder, &row.award, row.debit, row.credit, row.pays)
}

/// Writes the line of a bidder: what it is awarded, its debit, its credit and what it pays.
pub fn write_row(
    text: &mut String,
    bidder: usize,
    award: &Bundle,
    debit: i64,
    credit: i64,
    pays: i64,
) -> Result<(), AllocError>
    ensures { OnOk result (string_bytes text.new ≡ string_bytes text.old ++ line (award_words bidder award.now debit credit pays)) }
{
    write!(text, "bidder {bidder} award")?;
    write_bundle(text, award)?;
    write_amount(text, "debit", debit)?;
    write_amount(text, "credit", credit)?;
    write_amount(text, "pays", pays)?;
    writeln!(text)
}

/// Writes the lines of all clocks.
fn write_clocks(text: &mut String, bidders: usize, clocks: &[ClockRow]) -> Result<(), AllocError>
    ensures { OnOk result (string_bytes text.new ≡ string_bytes text.old ++ text_of (clock_lines bidders 0 clocks.now)) }
{
    for (clock, row) in clocks.iter().enumerate() {
        write_clock(text, clock, row)?;
        write_choices(text, bidders, clock, &row.choices)?;
    }
    Ok(())
}

/// Writes the line of a clock.
fn write_clock(text: &mut String, clock: usize, row: &ClockRow) -> Result<(), AllocError>
    ensures { OnOk result (string_bytes text.new ≡ string_bytes text.old ++ line (clock_words clock row.now)) }
{
    let steps = row.steps;
    write!(text, "clock {clock} steps {steps} prices")?;
    write_prices(text, &row.prices)?;
    writeln!(text)
}

/// Writes the lines of what the members of a clock choose, where there are so many bidders.
pub fn write_choices(
    text: &mut String,
    bidders: usize,
    clock: usize,
    choices: &Choice,
) -> Result<(), AllocError>
    ensures { OnOk result (string_bytes text.new ≡ string_bytes text.old ++ text_of
        (choice_lines clock (members bidders clock) choices.now)) }
{
    let mut place = 0;
    for step in 0..bidders {
        let bidder = step + 1;
        if bidder != clock && place < choices.len() {
            write_choice(text, clock, bidder, &choices.get(place))?;
            place += 1;
        }
    }
    Ok(())
}

/// Writes the line of what a member chooses.
fn write_choice(
    text: &mut String,
    clock: usize,
    bidder: usize,
    bundle: &Bundle,
) -> Result<(), AllocError>
    ensures { OnOk result (string_bytes text.new ≡ string_bytes text.old ++ line (choice_words clock bidder bundle.now)) }
{
    write!(text, "choice {clock} {bidder}")?;
    write_bundle(text, bundle)?;
    writeln!(text)
}
