//! What is told of a valuation file that is refused.
ghost use Rattle.std.specs.Prelude.{◌≡◌, ◌≢◌, [], IfOk, string_bytes};

use crate::names::{Names, values_text};
use std::alloc::{AllocError, Global};
use valuation::{ValueKey, ValuesFault};

const VALUATIONS: &str = "a table [[valuations]] for each bidder of the auction file, in its order";

const FORM: &str = "\"table\", \"marginal\", \"unit\" or \"capped\"";

const VALUES: &str =
    "a list of integers from 0 to the ceiling less 1: of a table one for each bundle, else one for each good";

const LISTS: &str =
    "a list for each good, with an integer from 0 to the ceiling less 1 for each of its units";

const CAP: &str = "an integer from 0 to 65,535";

const KEYS: &str =
    "valuations; of each form, and values, lists in form marginal, or values and cap in form capped";

/// The lines of a valuation file that is refused for this fault.
pub(crate) fn refused_values(
    alloc: Global,
    names: &Names,
    fault: &ValuesFault,
) -> Result<String, AllocError>
    ensures { IfOk result (λ text. string_bytes text ≢ []) }
{
    let file = values_text(alloc, names)?;
    let wrong = fault_text(alloc, fault)?;
    let expected = expected(fault);
    format!(in alloc;
        "{file}: {wrong}\nexpected: {expected}; crates/valuation/README.md has the format"
    )
}

/// What is wrong.
fn fault_text(alloc: Global, fault: &ValuesFault) -> Result<String, AllocError>
    ensures { IfOk result (λ text. string_bytes text ≢ []) }
{
    match fault {
        ValuesFault::NotToml => String::from_str(alloc, "it is no TOML document"),
        ValuesFault::Missing(key) => at_key(alloc, *key, "is missing"),
        ValuesFault::WrongKind(key) => at_key(alloc, *key, "is of another kind"),
        ValuesFault::Value { bidder, place } => {
            format!(in alloc;
                "what stands at place {place} (counted from 0) of bidder {bidder} is out of range"
            )
        }
        ValuesFault::Length {
            bidder,
            found,
            needed,
        } => format!(in alloc;
            "bidder {bidder} has {found} entries or lists, where {needed} are needed"
        ),
        ValuesFault::EmptyNotZero(bidder) => {
            format!(in alloc; "bidder {bidder} gives the empty bundle a value")
        }
        ValuesFault::Above { bidder, index } => {
            format!(in alloc;
                "the bundle at index {index} (counted from 0) is worth too much to bidder {bidder}"
            )
        }
        ValuesFault::Bidders(count) => format!(in alloc; "there are {count} valuations"),
        ValuesFault::UnknownKey(key) => {
            let key = key.as_str();
            format!(in alloc; "the key \"{key}\" is not known")
        }
        ValuesFault::Form(bidder) => at_key(
            alloc,
            ValueKey::Form(u32::from(*bidder)),
            "is no form",
        ),
        ValuesFault::NoMemory => String::from_str(alloc, "memory ran out over it"),
    }
}

/// What is wrong at a key.
fn at_key(alloc: Global, key: ValueKey, wrong: &str) -> Result<String, AllocError>
    ensures { IfOk result (λ text. string_bytes text ≢ []) }
{
    match key {
        ValueKey::Valuations => format!(in alloc; "the key \"valuations\" {wrong}"),
        ValueKey::Table(bidder) => format!(in alloc; "valuation {bidder} (counted from 1) {wrong}"),
        ValueKey::Form(bidder) => format!(in alloc; "the key \"form\" of bidder {bidder} {wrong}"),
        ValueKey::Values(bidder) => format!(in alloc;
            "the key \"values\" of bidder {bidder} {wrong}"
        ),
        ValueKey::Lists(bidder) => format!(in alloc;
            "the key \"lists\" of bidder {bidder} {wrong}"
        ),
        ValueKey::Cap(bidder) => format!(in alloc; "the key \"cap\" of bidder {bidder} {wrong}"),
    }
}

/// What stands in the place of the fault in a file that is read.
fn expected(fault: &ValuesFault) -> &'static str {
    match fault {
        ValuesFault::NotToml => "a TOML document in UTF-8 (https://toml.io)",
        ValuesFault::Missing(key) | ValuesFault::WrongKind(key) => expected_at(*key),
        ValuesFault::Value { .. } => {
            "each entry 0 to the ceiling less 1; a cap, which stands after the entries, 0 to 65,535"
        }
        ValuesFault::Length { .. } => {
            "an entry for each bundle (table), good (unit, capped) or unit of a good (marginal)"
        }
        ValuesFault::EmptyNotZero(_) => "a first entry of 0 in each table",
        ValuesFault::Above { .. } => "each bundle worth 0 to the ceiling less 1",
        ValuesFault::Bidders(_) => VALUATIONS,
        ValuesFault::UnknownKey(_) => KEYS,
        ValuesFault::Form(_) => FORM,
        ValuesFault::NoMemory => "a file for which there is memory",
    }
}

/// What a key has in a file that is read.
fn expected_at(key: ValueKey) -> &'static str {
    match key {
        ValueKey::Valuations | ValueKey::Table(_) => VALUATIONS,
        ValueKey::Form(_) => FORM,
        ValueKey::Values(_) => VALUES,
        ValueKey::Lists(_) => LISTS,
        ValueKey::Cap(_) => CAP,
    }
}
