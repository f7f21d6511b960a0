//! What the words of a command call its files, its folders and its address.
ghost use Rattle.std.specs.Prelude.{◌≡◌, ◌≢◌, [], IfOk, string_bytes};

use command_line::CommandWords;
use std::alloc::{AllocError, Global};

/// The names that words give. Where they give none, the word of a command's form stands for it.
#[derive(Clone, Copy)]
pub(crate) struct Names<'a> {
    /// The auction file; of a migration the one that the journals belong to.
    pub auction: &'a str,
    /// The auction file that a migration goes on under.
    pub new: Option<&'a str>,
    /// The valuation file.
    pub values: Option<&'a str>,
    /// The log.
    pub log: Option<&'a str>,
    /// The folder of journals.
    pub journals: &'a str,
    /// The folder of a migration's targets.
    pub target: Option<&'a str>,
    /// Where a house listens, or where a bidder dials.
    pub address: &'a str,
}

/// Those of words that give none.
pub(crate) const NO_NAMES: Names<'static> = Names {
    auction: "AUCTION",
    new: None,
    values: None,
    log: None,
    journals: "JOURNALS",
    target: None,
    address: "ADDRESS",
};

impl<'a> Names<'a> {
    /// Those of an auction file alone.
    fn of_auction(auction: &'a str) -> Names<'a> {
        Names {
            auction,
            ..NO_NAMES
        }
    }

    /// Those of an auction file and a folder of its journals.
    fn of_journals(auction: &'a str, journals: &'a str) -> Names<'a> {
        Names {
            journals,
            ..Names::of_auction(auction)
        }
    }

    /// Those of an auction file and a valuation file.
    fn of_values(auction: &'a str, values: &'a str) -> Names<'a> {
        Names {
            values: Some(values),
            ..Names::of_auction(auction)
        }
    }

    /// The same, and this address.
    fn at(self, address: &'a str) -> Names<'a> {
        Names { address, ..self }
    }

    /// The same, and the file and the folder that a migration goes to.
    fn moved(self, new: &'a str, target: &'a str) -> Names<'a> {
        Names {
            new: Some(new),
            target: Some(target),
            ..self
        }
    }
}

/// The names that a command gives.
pub(crate) fn names_of<'a>(command: &CommandWords<'a>) -> Names<'a> {
    match *command {
        CommandWords::Fold { log, .. } => Names {
            log: Some(log),
            ..NO_NAMES
        },
        CommandWords::Check { auction } => Names::of_auction(auction),
        CommandWords::Standing { auction, journals }
        | CommandWords::Explain { auction, journals }
        | CommandWords::Judge {
            auction,
            journals,
            ..
        }
        | CommandWords::Settle {
            auction,
            journals,
            ..
        } => Names::of_journals(auction, journals),
        CommandWords::Trial {
            auction,
            values,
            ..
        }
        | CommandWords::Float {
            auction,
            values,
            ..
        } => Names::of_values(auction, values),
        CommandWords::Make { .. } => NO_NAMES,
        CommandWords::Serve {
            auction,
            journals,
            serving,
        } => Names::of_journals(auction, journals).at(serving.address),
        CommandWords::Bid {
            auction,
            values,
            bidding,
        } => Names::of_values(auction, values).at(bidding.address),
        CommandWords::Migrate {
            old,
            journals,
            new,
            target,
        } => Names::of_journals(old, journals).moved(new, target),
    }
}

/// The auction file as it is told, or both of a migration: an end does not tell which of the two is meant.
pub(crate) fn auction_text(alloc: Global, names: &Names) -> Result<String, AllocError>
    ensures { IfOk result (λ text. string_bytes text ≢ []) }
{
    one_of(alloc, names.auction, names.new)
}

/// The valuation file as it is told.
pub(crate) fn values_text(alloc: Global, names: &Names) -> Result<String, AllocError>
    ensures { IfOk result (λ text. string_bytes text ≢ []) }
{
    quoted(alloc, names.values.unwrap_or("VALUES"))
}

/// The log as it is told.
pub(crate) fn log_text(alloc: Global, names: &Names) -> Result<String, AllocError>
    ensures { IfOk result (λ text. string_bytes text ≢ []) }
{
    quoted(alloc, names.log.unwrap_or("LOG"))
}

/// A clock's journal as it is told.
pub(crate) fn journal_text(alloc: Global, names: &Names, clock: u8) -> Result<String, AllocError>
    ensures { IfOk result (λ text. string_bytes text ≢ []) }
{
    journal_in(alloc, names.journals, clock)
}

/// A clock's target as it is told.
pub(crate) fn target_text(alloc: Global, names: &Names, clock: u8) -> Result<String, AllocError>
    ensures { IfOk result (λ text. string_bytes text ≢ []) }
{
    journal_in(alloc, names.target.unwrap_or("TARGET"), clock)
}

/// A name as it is told.
pub(crate) fn quoted(alloc: Global, name: &str) -> Result<String, AllocError>
    ensures { IfOk result (λ text. string_bytes text ≢ []) }
{
    format!(in alloc; "\"{name}\"")
}

/// A name as it is told, or both where there is a second one.
pub(crate) fn one_of(alloc: Global, first: &str, second: Option<&str>) -> Result<String, AllocError>
    ensures { IfOk result (λ text. string_bytes text ≢ []) }
{
    match second {
        Some(second) => format!(in alloc; "\"{first}\" or \"{second}\""),
        None => quoted(alloc, first),
    }
}

/// The journal of a clock in a folder, as it is told.
fn journal_in(alloc: Global, folder: &str, clock: u8) -> Result<String, AllocError>
    ensures { IfOk result (λ text. string_bytes text ≢ []) }
{
    let tens = clock / 10;
    let ones = clock % 10;
    format!(in alloc; "\"{folder}/clock-{tens}{ones}.ahj\"")
}
