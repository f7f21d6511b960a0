//! What is told of clocks without an outcome, and of the talk of a house and a bidder.
ghost use Rattle.std.specs.Prelude.{◌≡◌, ◌≢◌, [], IfOk, string_bytes};

use crate::names::{Names, journal_text};
use std::alloc::{AllocError, Global};

/// The lines of a clock that runs in this round, and of its smallest member without a report there.
pub(crate) fn open_clock(
    alloc: Global,
    names: &Names,
    clock: u8,
    round: u32,
    missing: u8,
) -> Result<String, AllocError>
    ensures { IfOk result (λ text. string_bytes text ≢ []) }
{
    let journal = journal_text(alloc, names, clock)?;
    format!(in alloc;
        "{journal}: clock {clock} still runs: bidder {missing} has no report in round {round}\n\
        settle when all clocks have ended: the command standing tells how each stands (docs/OPERATING.md)"
    )
}

/// The lines of a clock without a choice that clears.
pub(crate) fn no_award(alloc: Global, names: &Names, clock: u8) -> Result<String, AllocError>
    ensures { IfOk result (λ text. string_bytes text ≢ []) }
{
    let journal = journal_text(alloc, names, clock)?;
    format!(in alloc;
        "{journal}: clock {clock} has ended, and no choice of its last demands clears\n\
        the command explain tells why: prices that rose too far, or a demand that no strong substitutes have (docs/MECHANISM.md)"
    )
}

/// The lines of a clock that has halted at this good.
pub(crate) fn halted_clock(
    alloc: Global,
    names: &Names,
    clock: u8,
    good: u8,
) -> Result<String, AllocError>
    ensures { IfOk result (λ text. string_bytes text ≢ []) }
{
    let journal = journal_text(alloc, names, clock)?;
    format!(in alloc;
        "{journal}: clock {clock} is halted, with good {good} (counted from 0) at the ceiling\n\
        no outcome comes of this auction: the next one needs a ceiling above all that bidders may pay (docs/MECHANISM.md)"
    )
}

/// The lines of a fault of the net: of a bidder who dials, or else of a house that listens.
pub(crate) fn failed_net(alloc: Global, names: &Names) -> Result<String, AllocError>
    ensures { IfOk result (λ text. string_bytes text ≢ []) }
{
    let address = names.address;
    match names.values {
        Some(_) => {
            format!(in alloc;
                "\"{address}\": no house could be reached there, or the link failed; the system's reason stands above\n\
                see that the house is there, and run the same words again: what it has taken already is answered again"
            )
        }
        None => {
            format!(in alloc;
                "\"{address}\": the house could not listen there, or a door stopped; the system's reason stands above\n\
                let no other program listen there, and run the same words again: what was taken is in the journals (docs/OPERATING.md)"
            )
        }
    }
}

/// The lines of a bidder who gave up at this clock.
pub(crate) fn spent_looks(alloc: Global, names: &Names, clock: u8) -> Result<String, AllocError>
    ensures { IfOk result (λ text. string_bytes text ≢ []) }
{
    let address = names.address;
    format!(in alloc;
        "\"{address}\": clock {clock} stayed in its round for as many looks as --looks says\n\
        other bidders have yet to report: run the same words again, with --looks up to 1,000,000,000; what was reported stays"
    )
}

/// The lines of a house that sent what answers nothing.
pub(crate) fn bad_reply(alloc: Global, names: &Names) -> Result<String, AllocError>
    ensures { IfOk result (λ text. string_bytes text ≢ []) }
{
    let address = names.address;
    format!(in alloc;
        "\"{address}\": what came answers nothing, or the house hung up\n\
        see that a house of this very file serves there, with sessions left, and run the same words again: what was reported stays"
    )
}
