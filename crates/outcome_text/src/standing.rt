//! The standing line of a clock.
ghost use Rattle.std.specs.Prelude.{◌≡◌, ◌++◌, IfOk, OnOk, string_bytes};
ghost use Rattle.outcome_text.specs.Spaced.{spaced};
ghost use Rattle.outcome_text.specs.Standing.{standing_line, phase_words, missing_words};

use crate::numerals::write_prices;
use clock::Look;
use lot_base::{NoMemory, Phase};
use std::alloc::{AllocError, Global};
use std::fmt::Write;

/// The standing line of a clock.
pub fn write_standing(
    alloc: Global,
    clock: u8,
    look: &Look,
    missing: u8,
) -> Result<Vec<u8>, NoMemory>
    ensures { IfOk result (λ v. v.items ≡ standing_line clock look.now.round look.now.phase look.now.prices missing) }
{
    let text = standing_text(alloc, clock, look, missing)?;
    Ok(text.into_bytes())
}

fn standing_text(alloc: Global, clock: u8, look: &Look, missing: u8) -> Result<String, AllocError>
    ensures { IfOk result (λ t. string_bytes t ≡ standing_line clock look.now.round look.now.phase look.now.prices missing) }
{
    let round = look.round;
    let mut text = format!(in alloc; "clock {clock} round {round}")?;
    write_phase(&mut text, look.phase)?;
    write!(text, " prices")?;
    write_prices(&mut text, &look.prices)?;
    write_missing(&mut text, look.phase, missing)?;
    write!(text, "\n")?;
    Ok(text)
}

/// Writes how the clock stands, after a blank.
fn write_phase(text: &mut String, phase: Phase) -> Result<(), AllocError>
    ensures { OnOk result (string_bytes text.new ≡ string_bytes text.old ++ spaced (phase_words phase)) }
{
    match phase {
        Phase::Running => write!(text, " running"),
        Phase::Ended => write!(text, " ended"),
        Phase::Halted(good) => write!(text, " halted {good}"),
    }
}

/// Writes who is missing where the clock is running, after a blank.
fn write_missing(text: &mut String, phase: Phase, missing: u8) -> Result<(), AllocError>
    ensures { OnOk result (string_bytes text.new ≡ string_bytes text.old ++ spaced (missing_words phase missing)) }
{
    match phase {
        Phase::Running => write!(text, " missing {missing}"),
        Phase::Ended | Phase::Halted(_) => Ok(()),
    }
}
