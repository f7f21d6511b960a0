//! Auctions that were worked by hand, each told by bidders with valuations.
ghost use Rattle.std.specs.Prelude.{◌≤◌};
ghost use Rattle.trial.specs.Trials.{AreValuationsOf};

use expected_values::{equal, equal_in};
use lot_base::{Goods, Terms};
use outcome_text::write_plain;
use settlement::Settlement;
use std::alloc::{AllocError, Global};
use std::process::Abort;
use std::test::Fail;
use std::thread::Threads;
use trial::{TrialFault, Tried, make, trial};
use valuation::{Valuation, read};
use worked_auctions::{outcomes, valuations};

/// What two units are worth to the one bidder of `worked_auctions`, as a table.
const ALONE: &str = "[[valuations]]
form = \"table\"
values = [0, 5, 8]
";

/// What the unit is worth to each bidder of its tie, as tables.
const EQUALS: &str = "[[valuations]]
form = \"table\"
values = [0, 4]
[[valuations]]
form = \"table\"
values = [0, 4]
";

const COMPLEMENTS: &str = "[[valuations]]
form = \"table\"
values = [0, 0, 0, 3]
[[valuations]]
form = \"unit\"
values = [2, 2]
";

/// The second bidder wants both goods or nothing.
const SECOND_COMPLEMENTS: &str = "[[valuations]]
form = \"unit\"
values = [2, 2]
[[valuations]]
form = \"table\"
values = [0, 0, 0, 3]
";

/// The terms of this supply and so many bidders, with a ceiling of 100.
fn terms_of(rt: &impl Abort, supply: &[u16], bidders: u8) -> Terms {
    match Goods::new(supply) {
        Ok(goods) => match Terms::new(goods, bidders, 100) {
            Ok(terms) => terms,
            Err(_) => panic!(rt; "terms"),
        },
        Err(_) => panic!(rt; "goods"),
    }
}

/// The valuations of a file.
fn valuations_of(rt: &impl Abort, alloc: Global, terms: &Terms, text: &str) -> Vec<Valuation>
    ensures { AreValuationsOf terms.now result.items }
{
    match read(alloc, terms, text.as_bytes()) {
        Ok(valuations) => valuations,
        Err(fault) => panic!(rt; "{fault:?}"),
    }
}

/// The text of a trial, or its refusal.
fn text_of(alloc: Global, answer: &Result<Tried, TrialFault>) -> Result<Vec<u8>, AllocError> {
    match answer {
        Ok(tried) => plain_text(alloc, &tried.settlement),
        Err(TrialFault::NotSubstitutes { bidder, x, y, good }) => {
            let (x, y) = (x.as_slice(), y.as_slice());
            Ok(format!(in alloc; "bidder {bidder} {x:?} {y:?} good {good}")?.into_bytes())
        }
        Err(TrialFault::NoMemory) => Err(AllocError),
    }
}

fn plain_text(alloc: Global, settlement: &Settlement) -> Result<Vec<u8>, AllocError> {
    match settlement {
        Settlement::Settled(outcome) => match write_plain(alloc, outcome) {
            Ok(text) => Ok(text),
            Err(_) => Err(AllocError),
        },
        _ => Ok(Vec::new(alloc)),
    }
}

/// Whether a trial of these valuations with so many workers gives this text.
fn gives(
    rt: &(impl Abort + Threads + Sync),
    alloc: Global,
    terms: &Terms,
    values: &str,
    workers: u32,
    text: &str,
) -> Result<bool, AllocError>
    requires some { 1 ≤ workers }
    requires few { workers ≤ 64 }
{
    let valuations = valuations_of(rt, alloc, terms, values);
    let answer = trial(rt, alloc, terms, valuations.as_slice(), workers);
    let found = text_of(alloc, &answer)?;
    Ok(found.as_slice() == text.as_bytes())
}

#[test]
fn trials_settle(rt: HostRuntime) -> Result<(), Fail> {
    let alloc = rt.alloc();
    for workers in [1, 3] {
        let two = terms_of(&rt, &[2], 3);
        let told = valuations::THREE_BIDDERS;
        assert!(&rt; gives(&rt, alloc, &two, told, workers, outcomes::THREE_BIDDERS)?);
    }
    let alone = terms_of(&rt, &[2], 1);
    assert!(&rt; gives(&rt, alloc, &alone, ALONE, 3, outcomes::ONE_BIDDER)?);
    let one = terms_of(&rt, &[1], 2);
    assert!(&rt; gives(&rt, alloc, &one, EQUALS, 64, outcomes::TIE)?);
    Ok(())
}

#[test]
fn complements_are_refused(rt: HostRuntime) -> Result<(), Fail> {
    let terms = terms_of(&rt, &[1, 1], 2);
    let line = "bidder 1 [1, 1] [0, 0] good 0";
    for workers in [1, 2, 64] {
        assert!(&rt; gives(&rt, rt.alloc(), &terms, COMPLEMENTS, workers, line)?);
    }
    let line = "bidder 2 [1, 1] [0, 0] good 0";
    assert!(&rt; gives(&rt, rt.alloc(), &terms, SECOND_COMPLEMENTS, 1, line)?);
    Ok(())
}

/// The values of the first bidder of the market that a number makes.
fn first_values(alloc: Global, number: u32) -> Result<Vec<u16>, AllocError> {
    match make(alloc, number) {
        Ok((_terms, valuations)) => match valuations.first() {
            Some(valuation) => valuation.as_slice().to_vec(alloc),
            None => Ok(Vec::new(alloc)),
        },
        Err(_) => Err(AllocError),
    }
}

#[test]
fn seven_makes_its_first_bidder(rt: HostRuntime) -> Result<(), Fail> {
    let values = first_values(rt.alloc(), 7)?;
    equal(values.len(), 60)?;
    equal(&values[..6], [0, 176, 176, 197, 197, 197].as_slice())?;
    equal(&values[12..14], [8, 176].as_slice())?;
    Ok(())
}

/// The box of four, three and two units has 60 bundles.
#[test]
fn each_number_makes_a_market(rt: HostRuntime) -> Result<(), Fail> {
    for number in [
        0,
        1,
        65_536,
        1_000_000,
        16_777_216,
        2_147_483_647,
        2_147_483_648,
        u32::MAX,
    ] {
        let values = first_values(rt.alloc(), number)?;
        equal_in(number, values.len(), 60)?;
    }
    Ok(())
}
