//! Valuation files.
use super::{BID, TRIAL, check_names, check_text};
use house_run::Ended;
use std::process::Abort;
use std::test::Fail;
use valuation::{KeyText, ValueKey, ValuesFault};

/// Each key.
const KEYS: &[ValueKey] = &[
    ValueKey::Valuations,
    ValueKey::Table(2),
    ValueKey::Form(2),
    ValueKey::Values(2),
    ValueKey::Lists(2),
    ValueKey::Cap(2),
];

#[test]
fn faults_at_keys_name_the_file(rt: HostRuntime) -> Result<(), Fail> {
    for key in KEYS {
        let ends = [
            Ended::BadValues(ValuesFault::Missing(*key)),
            Ended::BadValues(ValuesFault::WrongKind(*key)),
        ];
        check_names(&rt, TRIAL, "\"values.toml\": ", &ends)?;
    }
    Ok(())
}

#[test]
fn faults_name_the_file(rt: HostRuntime) -> Result<(), Fail> {
    let ends = [
        Ended::BadValues(ValuesFault::NotToml),
        Ended::BadValues(ValuesFault::Value {
            bidder: 2,
            place: 3,
        }),
        Ended::BadValues(ValuesFault::Length {
            bidder: 2,
            found: 5,
            needed: 6,
        }),
        Ended::BadValues(ValuesFault::EmptyNotZero(2)),
        Ended::BadValues(ValuesFault::Above {
            bidder: 2,
            index: 4,
        }),
        Ended::BadValues(ValuesFault::Bidders(3)),
        Ended::BadValues(ValuesFault::UnknownKey(KeyText::new(String::new(rt.alloc())))),
        Ended::BadValues(ValuesFault::Form(2)),
        Ended::BadValues(ValuesFault::NoMemory),
    ];
    check_names(&rt, BID, "\"values.toml\": ", &ends)
}

const VALUATIONS: &str = "a table [[valuations]] for each bidder of the auction file, in its order";

const FORM: &str = "\"table\", \"marginal\", \"unit\" or \"capped\"";

/// A key, how it is told, and what it has in a file that is read.
type Keyed = (ValueKey, &'static str, &'static str);

const KEYED: &[Keyed] = &[
    (ValueKey::Valuations, "the key \"valuations\"", VALUATIONS),
    (
        ValueKey::Table(12),
        "valuation 12 (counted from 1)",
        VALUATIONS,
    ),
    (ValueKey::Form(12), "the key \"form\" of bidder 12", FORM),
    (
        ValueKey::Values(12),
        "the key \"values\" of bidder 12",
        "a list of integers from 0 to the ceiling less 1: of a table one for each bundle, else one for each good",
    ),
    (
        ValueKey::Lists(12),
        "the key \"lists\" of bidder 12",
        "a list for each good, with an integer from 0 to the ceiling less 1 for each of its units",
    ),
    (
        ValueKey::Cap(12),
        "the key \"cap\" of bidder 12",
        "an integer from 0 to 65,535",
    ),
];

/// Checks what is told of a valuation file that is refused: what is wrong, and what is expected.
fn check_fault(
    rt: &(impl AllocGlobal + Abort),
    fault: ValuesFault,
    wrong: &str,
    expected: &str,
) -> Result<(), Fail> {
    let lines = format!(in rt.alloc();
        "\"values.toml\": {wrong}\nexpected: {expected}; crates/valuation/README.md has the format"
    )?;
    check_text(rt, TRIAL, &Ended::BadValues(fault), lines.as_str())
}

/// Checks what is told of each fault at a key.
fn check_key(rt: &(impl AllocGlobal + Abort), keyed: &Keyed) -> Result<(), Fail> {
    let (key, told, expected) = *keyed;
    let missing = format!(in rt.alloc(); "{told} is missing")?;
    check_fault(rt, ValuesFault::Missing(key), missing.as_str(), expected)?;
    let kind = format!(in rt.alloc(); "{told} is of another kind")?;
    check_fault(rt, ValuesFault::WrongKind(key), kind.as_str(), expected)
}

#[test]
fn faults_at_keys_have_their_lines(rt: HostRuntime) -> Result<(), Fail> {
    for keyed in KEYED {
        check_key(&rt, keyed)?;
    }
    Ok(())
}

#[test]
fn an_unknown_key_has_its_lines(rt: HostRuntime) -> Result<(), Fail> {
    let valeus = KeyText::new(String::from_str(rt.alloc(), "valeus")?);
    check_fault(
        &rt,
        ValuesFault::UnknownKey(valeus),
        "the key \"valeus\" is not known",
        "valuations; of each form, and values, lists in form marginal, or values and cap in form capped",
    )
}

#[test]
fn faults_have_their_lines(rt: HostRuntime) -> Result<(), Fail> {
    let rows = [
        (
            ValuesFault::NotToml,
            "it is no TOML document",
            "a TOML document in UTF-8 (https://toml.io)",
        ),
        (
            ValuesFault::Value {
                bidder: 12,
                place: 3,
            },
            "what stands at place 3 (counted from 0) of bidder 12 is out of range",
            "each entry 0 to the ceiling less 1; a cap, which stands after the entries, 0 to 65,535",
        ),
        (
            ValuesFault::Length {
                bidder: 12,
                found: 5,
                needed: 6,
            },
            "bidder 12 has 5 entries or lists, where 6 are needed",
            "an entry for each bundle (table), good (unit, capped) or unit of a good (marginal)",
        ),
        (
            ValuesFault::EmptyNotZero(12),
            "bidder 12 gives the empty bundle a value",
            "a first entry of 0 in each table",
        ),
        (
            ValuesFault::Above {
                bidder: 12,
                index: 4,
            },
            "the bundle at index 4 (counted from 0) is worth too much to bidder 12",
            "each bundle worth 0 to the ceiling less 1",
        ),
        (
            ValuesFault::Bidders(13),
            "there are 13 valuations",
            VALUATIONS,
        ),
        (
            ValuesFault::Form(12),
            "the key \"form\" of bidder 12 is no form",
            FORM,
        ),
        (
            ValuesFault::NoMemory,
            "memory ran out over it",
            "a file for which there is memory",
        ),
    ];
    for (fault, wrong, expected) in rows {
        check_fault(&rt, fault, wrong, expected)?;
    }
    Ok(())
}
