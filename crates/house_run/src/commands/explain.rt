//! The command `explain`: why each clock of an auction that has ended has an award, or none.
ghost use Rattle.std.specs.Prelude.{◌≡◌, ◌++◌, ◌∷◌, [], ℕ, ℤ, List, IfOk, OnOk, codes, decimal, string_bytes};
ghost use Rattle.std.specs.List.{AllByRecursion};
ghost use Rattle.clock.specs.Reports.{ClockHistory, histories};
ghost use Rattle.outcome_text.specs.Lines.{line, numerals};
ghost use Rattle.house_run.specs.Ends.{ShelfAnswer, end_of};
ghost use Rattle.house_run.specs.ExplainCommand.{ExplainDone, IsExplainedLine, IsExplainedText, end_words, explain_needs};
ghost use Rattle.house_run.specs.Frame.{Frame};
ghost use Rattle.house_run.specs.Seen.{outside};

use crate::ends::Ended;
use crate::house::read_house;
use clock::Clock;
use house_io::Shelf;
use lot_base::{Bundle, GoodSet, NoMemory, Terms};
use outcome_text::write_bundle;
use overshoot::{Explained, explain};
use std::alloc::{AllocError, Global};
use std::fmt::Write;

/// The lines that explain the clocks, or why there are none.
pub(crate) fn job<H: Shelf>(
    alloc: Global,
    auction: &str,
    journals: &str,
    shelf: &mut H,
) -> Result<Vec<u8>, Ended>
    ensures answer { ShelfAnswer (ExplainDone auction.now journals.now) (explain_needs auction.now journals.now)
        (outside H.Shelf shelf.old shelf.new) result }
    ensures frame { Frame (explain_needs auction.now journals.now) (end_of result) (outside H.Shelf shelf.old shelf.new) }
{
    let house = read_house(alloc, shelf, auction, journals, None)?;
    match explained_text(alloc, &house.terms, &house.clocks) {
        Ok(text) => Ok(text),
        Err(NoMemory) => Err(Ended::NoMemory),
    }
}

/// The line of each clock.
fn explained_text(alloc: Global, terms: &Terms, clocks: &[Clock]) -> Result<Vec<u8>, NoMemory>
    requires { AllByRecursion (λ (c : ClockHistory). c.terms ≡ terms.now) (histories clocks.now) }
    ensures { IfOk result (λ text. IsExplainedText (histories clocks.now) text.items) }
{
    let mut text = Vec::new(alloc);
    for clock in clocks {
        let line = explained_line(alloc, terms, clock)?;
        text.extend_from_slice(&line)?;
    }
    Ok(text)
}

/// The line of a clock.
fn explained_line(alloc: Global, terms: &Terms, clock: &Clock) -> Result<Vec<u8>, NoMemory>
    requires { clock.now.history.terms ≡ terms.now }
    ensures { IfOk result (λ text. IsExplainedLine clock.now.history text.items) }
{
    let end = explain(alloc, terms, clock)?;
    let text = end_text(alloc, clock.number(), &end)?;
    Ok(text.into_bytes())
}

/// The line of a clock that has come to this.
fn end_text(alloc: Global, clock: u8, end: &Explained) -> Result<String, AllocError>
    ensures { IfOk result (λ text. string_bytes text ≡ line (codes "clock" ∷ decimal clock ∷ end_words end.now)) }
{
    match end {
        Explained::Running => format!(in alloc; "clock {clock} running\n"),
        Explained::Halted => format!(in alloc; "clock {clock} halted\n"),
        Explained::Award => format!(in alloc; "clock {clock} ended award\n"),
        Explained::Overshoot { set, short } => {
            let GoodSet(goods) = *set;
            format!(in alloc; "clock {clock} ended overshoot {goods} short {short}\n")
        }
        Explained::Broken { bidder, x, y, good } => {
            broken_text(alloc, clock, *bidder, x, y, *good)
        }
    }
}

/// The line of a clock that has no award since this bidder's last demand lacks the exchange property.
fn broken_text(
    alloc: Global,
    clock: u8,
    bidder: u8,
    x: &Bundle,
    y: &Bundle,
    good: u8,
) -> Result<String, AllocError>
    ensures { IfOk result (λ text. string_bytes text ≡ line (codes "clock" ∷ decimal clock ∷ codes "ended" ∷ codes "broken" ∷ decimal bidder
        ∷ codes "x" ∷ numerals x.now ++ (codes "y" ∷ numerals y.now ++ (codes "good" ∷ decimal good ∷ [])))) }
{
    let mut text = format!(in alloc; "clock {clock} ended broken {bidder} x")?;
    write_bundle(&mut text, x)?;
    write!(text, " y")?;
    write_bundle(&mut text, y)?;
    write!(text, " good {good}\n")?;
    Ok(text)
}
