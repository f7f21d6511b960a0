//! What is told of files that are not read, too long or of no use.
ghost use Rattle.std.specs.Prelude.{◌≡◌, ◌≢◌, [], IfOk, string_bytes};

use crate::names::{Names, auction_text, log_text, one_of, quoted, values_text};
use house_run::File;
use std::alloc::{AllocError, Global};

/// The lines of a file that could not be read: the log, or one of the auction file and what is read with it.
pub(crate) fn unread_file(alloc: Global, names: &Names) -> Result<String, AllocError>
    ensures { IfOk result (λ text. string_bytes text ≢ []) }
{
    let file = match names.log {
        Some(log) => quoted(alloc, log)?,
        None => one_of(alloc, names.auction, names.values.or(names.new))?,
    };
    format!(in alloc;
        "{file}: it could not be read; the system's reason stands above\n\
        look at the name, which begins in the working directory, and at the leave to read it"
    )
}

/// The lines of a file that is longer than its limit.
pub(crate) fn long_file(alloc: Global, names: &Names, file: File) -> Result<String, AllocError>
    ensures { IfOk result (λ text. string_bytes text ≢ []) }
{
    match file {
        File::Auction => {
            let file = auction_text(alloc, names)?;
            format!(in alloc;
                "{file}: it has more than 65,536 bytes\n\
                see that it is an auction file: crates/auction_file/README.md has the format"
            )
        }
        File::Values => {
            let file = values_text(alloc, names)?;
            format!(in alloc;
                "{file}: it has more than 1,048,576 bytes\n\
                see that it is a valuation file: crates/valuation/README.md has the format"
            )
        }
        File::Log => {
            let file = log_text(alloc, names)?;
            format!(in alloc;
                "{file}: it has more than 67,108,864 bytes\n\
                see that it is a log, of one clock alone: docs/FORMATS.md has the format"
            )
        }
    }
}

/// The lines of a log whose first faulty entry begins after so many bytes.
pub(crate) fn bad_log(alloc: Global, names: &Names, place: u64) -> Result<String, AllocError>
    ensures { IfOk result (λ text. string_bytes text ≢ []) }
{
    let file = log_text(alloc, names)?;
    format!(in alloc;
        "{file}: the entry after {place} bytes is cut off, is no report of this auction or is not taken\n\
        see that SUPPLY, BIDDERS and CEILING are those of the log; docs/FORMATS.md has the format"
    )
}

/// The lines of an auction file without the bidder of this number.
pub(crate) fn no_bidder(alloc: Global, names: &Names, bidder: u8) -> Result<String, AllocError>
    ensures { IfOk result (λ text. string_bytes text ≢ []) }
{
    let file = auction_text(alloc, names)?;
    format!(in alloc;
        "{file}: there is no bidder {bidder}\n\
        bidders are counted from 1, in the order of the file: the command check lists them"
    )
}

/// The lines of an auction file under which a migration's auction can't go on.
pub(crate) fn other_terms(alloc: Global, names: &Names) -> Result<String, AllocError>
    ensures { IfOk result (λ text. string_bytes text ≢ []) }
{
    let old = names.auction;
    let new = names.new.unwrap_or("NEW");
    format!(in alloc;
        "\"{new}\": the auction of \"{old}\" can't go on under it\n\
        NEW is of version 2, with the names, supplies, tokens and ceiling of OLD, and no good of either opens above 0"
    )
}

/// The lines of a valuation file with a bidder for whom the goods are no strong substitutes, shown at this good.
pub(crate) fn not_substitutes(
    alloc: Global,
    names: &Names,
    bidder: u8,
    good: u8,
) -> Result<String, AllocError>
    ensures { IfOk result (λ text. string_bytes text ≢ []) }
{
    let file = values_text(alloc, names)?;
    format!(in alloc;
        "{file}: the goods are no strong substitutes for bidder {bidder}, as good {good} (counted from 0) shows\n\
        mend its table, or take form unit, capped, or marginal with falling entries (crates/valuation/README.md)"
    )
}

/// The lines of a start with so many prices, and not one of each good.
pub(crate) fn start_count(alloc: Global, names: &Names, found: u8) -> Result<String, AllocError>
    ensures { IfOk result (λ text. string_bytes text ≢ []) }
{
    let file = auction_text(alloc, names)?;
    format!(in alloc;
        "{file}: START has {found} prices, and there are not as many goods\n\
        START is a price of each good, joined by commas: the command check lists the goods"
    )
}

/// The lines of a start whose price of this good is out of its range.
pub(crate) fn start_range(
    alloc: Global,
    names: &Names,
    good: u8,
    value: u32,
) -> Result<String, AllocError>
    ensures { IfOk result (λ text. string_bytes text ≢ []) }
{
    let file = auction_text(alloc, names)?;
    format!(in alloc;
        "{file}: good {good} (counted from 0) can't start at {value}\n\
        expected: its opening price, or more, up to the ceiling less 1"
    )
}
