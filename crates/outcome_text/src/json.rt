//! The JSON text of an outcome.
ghost use Rattle.std.specs.Prelude.{◌≡◌, IfOk, string_bytes};
ghost use Rattle.clock.specs.Reports.{members};
ghost use Rattle.serde_json.specs.Data.{array};
ghost use Rattle.serde_json.specs.View.{view};
ghost use Rattle.outcome_text.specs.Json.{counts, bidder_object, bidder_objects, choice_object, choice_objects, clock_object, clock_objects, outcome_object, json_text};

use award_assembly::Choice;
use lot_base::{Bundle, NoMemory, Prices};
use serde_json::{Value, json};
use settlement::{AwardRow, ClockRow, Outcome};
use std::alloc::{AllocError, Global};

/// The JSON text of an outcome.
pub fn write_json(alloc: Global, outcome: &Outcome) -> Result<Vec<u8>, NoMemory>
    ensures { IfOk result (λ v. v.items ≡ json_text outcome.now) }
{
    let text = json_line(alloc, outcome)?;
    Ok(text.into_bytes())
}

fn json_line(alloc: Global, outcome: &Outcome) -> Result<String, AllocError>
    ensures { IfOk result (λ t. string_bytes t ≡ json_text outcome.now) }
{
    let value = outcome_value(alloc, outcome)?;
    let mut text = value.to_string(alloc)?;
    text.push_str("\n")?;
    Ok(text)
}

fn outcome_value(alloc: Global, outcome: &Outcome) -> Result<Value, AllocError>
    ensures { IfOk result (λ v. view v ≡ outcome_object outcome.now) }
{
    let rows = outcome.rows.as_slice();
    let bidders = bidder_values(alloc, rows)?;
    let clocks = clock_values(alloc, rows.len(), outcome.clocks.as_slice())?;
    let goods = outcome.prices.count();
    let prices = price_values(alloc, &outcome.prices)?;
    match &outcome.opening {
        None => {
            json!(in alloc; {"bidders": bidders, "clocks": clocks, "goods": goods, "prices": prices})
        }
        Some(opening) => {
            let opening = price_values(alloc, opening)?;
            json!(in alloc; {"bidders": bidders, "clocks": clocks, "goods": goods, "opening": opening, "prices": prices})
        }
    }
}

/// What the bidders are awarded and pay.
fn bidder_values(alloc: Global, rows: &[AwardRow]) -> Result<Value, AllocError>
    ensures { IfOk result (λ v. view v ≡ array (bidder_objects 1 rows.now)) }
{
    let mut values = Vec::new(alloc);
    for (place, row) in rows.iter().enumerate() {
        let value = bidder_value(alloc, place + 1, row)?;
        values.push(value)?;
    }
    Ok(Value::Array(values))
}

fn bidder_value(alloc: Global, bidder: usize, row: &AwardRow) -> Result<Value, AllocError>
    ensures { IfOk result (λ v. view v ≡ bidder_object bidder row.now) }
{
    let award = quantity_values(alloc, &row.award)?;
    let credit = row.credit;
    let debit = row.debit;
    let pays = row.pays;
    json!(in alloc; {"award": award, "bidder": bidder, "credit": credit, "debit": debit, "pays": pays})
}

/// Where the clocks ended.
fn clock_values(alloc: Global, bidders: usize, clocks: &[ClockRow]) -> Result<Value, AllocError>
    ensures { IfOk result (λ v. view v ≡ array (clock_objects bidders 0 clocks.now)) }
{
    let mut values = Vec::new(alloc);
    for (clock, row) in clocks.iter().enumerate() {
        let value = clock_value(alloc, bidders, clock, row)?;
        values.push(value)?;
    }
    Ok(Value::Array(values))
}

fn clock_value(
    alloc: Global,
    bidders: usize,
    clock: usize,
    row: &ClockRow,
) -> Result<Value, AllocError>
    ensures { IfOk result (λ v. view v ≡ clock_object bidders clock row.now) }
{
    let choices = choice_values(alloc, bidders, clock, &row.choices)?;
    let prices = price_values(alloc, &row.prices)?;
    let steps = row.steps;
    json!(in alloc; {"choices": choices, "clock": clock, "prices": prices, "steps": steps})
}

/// What the members of a clock choose.
fn choice_values(
    alloc: Global,
    bidders: usize,
    clock: usize,
    choices: &Choice,
) -> Result<Value, AllocError>
    ensures { IfOk result (λ v. view v ≡ array (choice_objects (members bidders clock) choices.now)) }
{
    let mut values = Vec::new(alloc);
    let mut place = 0;
    for step in 0..bidders {
        let bidder = step + 1;
        if bidder != clock && place < choices.len() {
            let value = choice_value(alloc, bidder, &choices.get(place))?;
            values.push(value)?;
            place += 1;
        }
    }
    Ok(Value::Array(values))
}

fn choice_value(alloc: Global, bidder: usize, bundle: &Bundle) -> Result<Value, AllocError>
    ensures { IfOk result (λ v. view v ≡ choice_object bidder bundle.now) }
{
    let bundle = quantity_values(alloc, bundle)?;
    json!(in alloc; {"bidder": bidder, "bundle": bundle})
}

/// The quantities of a bundle.
fn quantity_values(alloc: Global, bundle: &Bundle) -> Result<Value, AllocError>
    ensures { IfOk result (λ v. view v ≡ array (counts bundle.now)) }
{
    let mut values = Vec::new(alloc);
    for good in 0..bundle.count() {
        values.push(Value::from(bundle.quantity(good)))?;
    }
    Ok(Value::Array(values))
}

/// The prices of the goods.
fn price_values(alloc: Global, prices: &Prices) -> Result<Value, AllocError>
    ensures { IfOk result (λ v. view v ≡ array (counts prices.now)) }
{
    let mut values = Vec::new(alloc);
    for good in 0..prices.count() {
        values.push(Value::from(prices.get(good)))?;
    }
    Ok(Value::Array(values))
}
