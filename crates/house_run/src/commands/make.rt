//! The command `make`: a trial of a market that a number makes.
ghost use Rattle.std.specs.Prelude.{◌≡◌, ◌<◌, ◌^◌, pos, neg_ℤ, ◌≤ℤ◌, IfOk, string_bytes};
ghost use Rattle.sha2.specs.Sha256.{sha256};
ghost use Rattle.hex.specs.Hex.{encode_lower};
ghost use Rattle.outcome_text.specs.Plain.{plain_text};
ghost use Rattle.lot_base.specs.Goods.{IsRange};
ghost use Rattle.house_run.specs.Ends.{ShelfAnswer, end_of};
ghost use Rattle.house_run.specs.Frame.{Frame};
ghost use Rattle.house_run.specs.MakeCommand.{MakeDone, make_line, make_needs, revenue_of, steps_in, summary_line};
ghost use Rattle.house_run.specs.Seen.{outside};

use crate::ends::Ended;
use crate::markets::try_market;
use house_io::Shelf;
use lot_base::NoMemory;
use outcome_text::write_plain;
use settlement::{AwardRow, ClockRow, Outcome};
use sha2::{Digest, Sha256};
use std::alloc::{AllocError, Global};
use std::thread::Threads;
use trial::make;

/// The line of the outcome of a trial, or why there is none. It opens no file.
pub(crate) fn job<T: Threads + Sync, H: Shelf>(
    rt: &T,
    alloc: Global,
    number: u32,
    workers: u32,
    shelf: &mut H,
) -> Result<Vec<u8>, Ended>
    requires { IsRange 1 64 workers }
    ensures answer { ShelfAnswer (λ _. MakeDone number) make_needs (outside H.Shelf shelf.old shelf.new) result }
    ensures frame { Frame make_needs (end_of result) (outside H.Shelf shelf.old shelf.new) }
{
    let (terms, valuations) = match make(alloc, number) {
        Ok(market) => market,
        Err(NoMemory) => return Err(Ended::NoMemory),
    };
    let outcome = try_market(rt, alloc, &terms, valuations.as_slice(), workers)?;
    match line_of(alloc, number, &outcome) {
        Ok(line) => Ok(line.into_bytes()),
        Err(_) => Err(Ended::NoMemory),
    }
}

/// The line of an outcome.
fn line_of(alloc: Global, number: u32, outcome: &Outcome) -> Result<String, AllocError>
    ensures { IfOk result (λ line. string_bytes line ≡ make_line number outcome.now) }
{
    let steps = steps_in(outcome.clocks.as_slice());
    let revenue = revenue_of(outcome.rows.as_slice());
    let digest = digest_of(alloc, outcome)?;
    summary_line(alloc, number, steps, revenue, digest.as_str())
}

/// The line of these numbers and this digest.
fn summary_line(
    alloc: Global,
    number: u32,
    steps: u128,
    revenue: i128,
    digest: &str,
) -> Result<String, AllocError>
    ensures { IfOk result (λ line. string_bytes line ≡ summary_line number steps revenue digest.now) }
{
    let line = format!(in alloc;
        "make {number} goods 3 bidders 12 clocks 13 steps {steps} revenue {revenue} outcome {digest}\n"
    )?;
    Ok(line)
}

/// The digest of the plain text of an outcome, in hexadecimal digits.
fn digest_of(alloc: Global, outcome: &Outcome) -> Result<String, AllocError>
    ensures { IfOk result (λ digits. string_bytes digits ≡ encode_lower (sha256 (plain_text outcome.now))) }
{
    match write_plain(alloc, outcome) {
        Ok(text) => hex::encode(alloc, Sha256::digest(text.as_slice()).as_slice()),
        Err(NoMemory) => Err(AllocError),
    }
}

/// The steps of all clocks.
fn steps_in(rows: &[ClockRow]) -> u128
    ensures { result ≡ steps_in rows.now }
{
    let mut steps = 0;
    for row in rows {
        steps += wide_steps(row);
    }
    steps
}

/// The steps of a clock.
fn wide_steps(row: &ClockRow) -> u128
    ensures value { result ≡ row.now.steps }
    ensures small { result < 2 ^ 32 }
{
    let steps = row.steps;
    u128::from(steps)
}

/// The payments of all bidders.
fn revenue_of(rows: &[AwardRow]) -> i128
    ensures { result ≡ revenue_of rows.now }
{
    let mut revenue = 0;
    for row in rows {
        revenue += wide_pays(row);
    }
    revenue
}

/// What a bidder pays.
fn wide_pays(row: &AwardRow) -> i128
    ensures value { result ≡ row.now.pays }
    ensures low { neg_ℤ (pos (2 ^ 63)) ≤ℤ result }
    ensures high { result ≤ℤ pos (2 ^ 63) }
{
    let pays = row.pays;
    i128::from(pays)
}
