//! Writing the one text of a run.
ghost use Rattle.std.specs.Prelude.{◌≡◌, IfOk, IfSome, IfNone, string_bytes};
ghost use Rattle.house_run.specs.Causes.{HasNumber, line_of};
ghost use Rattle.house_run.specs.Ends.{Wrote, WroteLine};
ghost use Rattle.house_run.specs.Seen.{sink_seen};
ghost use Rattle.house_run.specs.declared.ends.Ended.TheVariants as how;

use crate::ends::{Ended, File, fault_number, record_of, refusal_number, values_number};
use auction_file::AuctionFault;
use clock_book::OpenFault;
use house_io::{Sink, write_whole};
use lot_base::Bundle;
use outcome_text::write_bundle;
use std::alloc::{AllocError, Global};
use std::fmt::Write;
use valuation::ValuesFault;

/// Writes the text of a job that ended so.
pub(crate) fn deliver<S: Sink>(out: &mut S, text: &[u8], ended: Ended) -> Ended
    ensures { Wrote (sink_seen S.Sink out.old out.new) ended text.now result }
{
    match write_whole(out, text) {
        Ok(()) => ended,
        Err(_) => Ended::WriteFault,
    }
}

/// Answers words that are no command. It takes no memory.
pub fn answer_usage<S: Sink>(out: &mut S) -> Ended
    ensures { Wrote (sink_seen S.Sink out.old out.new) how.Usage (line_of how.Usage) result }
{
    deliver(out, b"usage\n", Ended::Usage)
}

/// Writes the line of a job that was not done. One without a number takes no memory.
pub(crate) fn deliver_line<S: Sink>(alloc: Global, out: &mut S, ended: Ended) -> Ended
    ensures { WroteLine (sink_seen S.Sink out.old out.new) ended result }
{
    match plain_line(&ended) {
        Some(line) => deliver(out, line, ended),
        None => match numbered_line(alloc, &ended) {
            Ok(line) => deliver(out, line.as_bytes(), ended),
            Err(_) => deliver(out, b"", Ended::NoMemory),
        },
    }
}

/// The line of an end, if it has no number.
fn plain_line(ended: &Ended) -> Option<&'static [u8]>
    ensures some { IfSome result (λ line. line.now ≡ line_of ended.now) }
    ensures none { IfNone result (HasNumber ended.now) }
{
    match ended {
        Ended::Done | Ended::NoMemory | Ended::WriteFault => Some(b""),
        Ended::Usage => Some(b"usage\n"),
        Ended::ReadFault => Some(b"read fault\n"),
        Ended::NetFault => Some(b"net fault\n"),
        Ended::BadReply => Some(b"bad reply\n"),
        Ended::OtherTerms => Some(b"other terms\n"),
        Ended::TooLong(File::Auction) => Some(b"too long auction\n"),
        Ended::TooLong(File::Log) => Some(b"too long log\n"),
        Ended::TooLong(File::Values) => Some(b"too long values\n"),
        Ended::BadAuction(_)
        | Ended::DiskFault(_)
        | Ended::BadJournal { .. }
        | Ended::Open { .. }
        | Ended::NoAward { .. }
        | Ended::Halted { .. }
        | Ended::BadValues(_)
        | Ended::NotSubstitutes { .. }
        | Ended::BadLog(_)
        | Ended::Refused { .. }
        | Ended::LooksSpent(_)
        | Ended::NoBidder(_)
        | Ended::NotPrefix { .. }
        | Ended::TargetFull { .. }
        | Ended::BadTarget { .. }
        | Ended::StartCount(_)
        | Ended::StartRange { .. } => None,
    }
}

/// The line of an end that has a number.
fn numbered_line(alloc: Global, ended: &Ended) -> Result<String, AllocError>
    requires { HasNumber ended.now }
    ensures { IfOk result (λ line. string_bytes line ≡ line_of ended.now) }
{
    match ended {
        Ended::BadAuction(fault) => bad_auction_line(alloc, fault),
        Ended::DiskFault(clock) => disk_fault_line(alloc, *clock),
        Ended::BadJournal { clock, fault } => bad_journal_line(alloc, *clock, fault),
        Ended::Open {
            clock,
            round,
            missing,
        } => open_line(alloc, *clock, *round, *missing),
        Ended::NoAward { clock } => no_award_line(alloc, *clock),
        Ended::Halted { clock, good } => halted_line(alloc, *clock, *good),
        Ended::BadValues(fault) => bad_values_line(alloc, fault),
        Ended::NotSubstitutes { bidder, x, y, good } => {
            not_substitutes_line(alloc, *bidder, x, y, *good)
        }
        Ended::BadLog(place) => bad_log_line(alloc, *place),
        Ended::Refused {
            code,
            detail,
            value,
        } => refused_line(alloc, *code, *detail, *value),
        Ended::LooksSpent(clock) => looks_spent_line(alloc, *clock),
        Ended::NoBidder(bidder) => no_bidder_line(alloc, *bidder),
        Ended::NotPrefix { clock, number } => not_prefix_line(alloc, *clock, *number),
        Ended::TargetFull { clock, needed } => target_full_line(alloc, *clock, *needed),
        Ended::BadTarget { clock, fault } => bad_target_line(alloc, *clock, fault),
        Ended::StartCount(found) => start_count_line(alloc, *found),
        Ended::StartRange { good, value } => start_range_line(alloc, *good, *value),
        Ended::Done
        | Ended::NoMemory
        | Ended::Usage
        | Ended::ReadFault
        | Ended::WriteFault
        | Ended::NetFault
        | Ended::BadReply
        | Ended::OtherTerms
        | Ended::TooLong(_) => unreachable!(),
    }
}

fn bad_auction_line(alloc: Global, fault: &AuctionFault) -> Result<String, AllocError>
    ensures { IfOk result (λ line. string_bytes line ≡ line_of (how.BadAuction fault.now)) }
{
    let number = fault_number(fault);
    let line = format!(in alloc; "bad auction {number}\n")?;
    Ok(line)
}

fn disk_fault_line(alloc: Global, clock: u8) -> Result<String, AllocError>
    ensures { IfOk result (λ line. string_bytes line ≡ line_of (how.DiskFault clock)) }
{
    let line = format!(in alloc; "disk fault clock {clock}\n")?;
    Ok(line)
}

fn bad_journal_line(alloc: Global, clock: u8, fault: &OpenFault) -> Result<String, AllocError>
    ensures { IfOk result (λ line. string_bytes line ≡ line_of (how.BadJournal clock fault.now)) }
{
    let record = record_of(fault);
    let number = refusal_number(fault);
    let line = format!(in alloc; "bad journal clock {clock} record {record} fault {number}\n")?;
    Ok(line)
}

fn open_line(alloc: Global, clock: u8, round: u32, missing: u8) -> Result<String, AllocError>
    ensures { IfOk result (λ line. string_bytes line ≡ line_of (how.Open clock round missing)) }
{
    let line = format!(in alloc; "open clock {clock} round {round} missing {missing}\n")?;
    Ok(line)
}

fn no_award_line(alloc: Global, clock: u8) -> Result<String, AllocError>
    ensures { IfOk result (λ line. string_bytes line ≡ line_of (how.NoAward clock)) }
{
    let line = format!(in alloc; "no award clock {clock}\n")?;
    Ok(line)
}

fn halted_line(alloc: Global, clock: u8, good: u8) -> Result<String, AllocError>
    ensures { IfOk result (λ line. string_bytes line ≡ line_of (how.Halted clock good)) }
{
    let line = format!(in alloc; "halted clock {clock} good {good}\n")?;
    Ok(line)
}

fn bad_log_line(alloc: Global, place: u64) -> Result<String, AllocError>
    ensures { IfOk result (λ line. string_bytes line ≡ line_of (how.BadLog place)) }
{
    let line = format!(in alloc; "bad log at {place}\n")?;
    Ok(line)
}

fn refused_line(alloc: Global, code: u8, detail: u8, value: u32) -> Result<String, AllocError>
    ensures { IfOk result (λ line. string_bytes line ≡ line_of (how.Refused code detail value)) }
{
    let line = format!(in alloc; "refused code {code} detail {detail} value {value}\n")?;
    Ok(line)
}

fn looks_spent_line(alloc: Global, clock: u8) -> Result<String, AllocError>
    ensures { IfOk result (λ line. string_bytes line ≡ line_of (how.LooksSpent clock)) }
{
    let line = format!(in alloc; "looks spent clock {clock}\n")?;
    Ok(line)
}

fn no_bidder_line(alloc: Global, bidder: u8) -> Result<String, AllocError>
    ensures { IfOk result (λ line. string_bytes line ≡ line_of (how.NoBidder bidder)) }
{
    let line = format!(in alloc; "no bidder {bidder}\n")?;
    Ok(line)
}

fn not_prefix_line(alloc: Global, clock: u8, number: u32) -> Result<String, AllocError>
    ensures { IfOk result (λ line. string_bytes line ≡ line_of (how.NotPrefix clock number)) }
{
    let line = format!(in alloc; "not prefix clock {clock} record {number}\n")?;
    Ok(line)
}

fn target_full_line(alloc: Global, clock: u8, needed: u32) -> Result<String, AllocError>
    ensures { IfOk result (λ line. string_bytes line ≡ line_of (how.TargetFull clock needed)) }
{
    let line = format!(in alloc; "target full clock {clock} needed {needed}\n")?;
    Ok(line)
}

fn bad_target_line(alloc: Global, clock: u8, fault: &OpenFault) -> Result<String, AllocError>
    ensures { IfOk result (λ line. string_bytes line ≡ line_of (how.BadTarget clock fault.now)) }
{
    let record = record_of(fault);
    let number = refusal_number(fault);
    let line = format!(in alloc; "bad target clock {clock} record {record} fault {number}\n")?;
    Ok(line)
}

fn start_count_line(alloc: Global, found: u8) -> Result<String, AllocError>
    ensures { IfOk result (λ line. string_bytes line ≡ line_of (how.StartCount found)) }
{
    let line = format!(in alloc; "start count {found}\n")?;
    Ok(line)
}

fn start_range_line(alloc: Global, good: u8, value: u32) -> Result<String, AllocError>
    ensures { IfOk result (λ line. string_bytes line ≡ line_of (how.StartRange good value)) }
{
    let line = format!(in alloc; "start good {good} value {value}\n")?;
    Ok(line)
}

fn bad_values_line(alloc: Global, fault: &ValuesFault) -> Result<String, AllocError>
    ensures { IfOk result (λ line. string_bytes line ≡ line_of (how.BadValues fault.now)) }
{
    let number = values_number(fault);
    let line = format!(in alloc; "bad values {number}\n")?;
    Ok(line)
}

fn not_substitutes_line(
    alloc: Global,
    bidder: u8,
    x: &Bundle,
    y: &Bundle,
    good: u8,
) -> Result<String, AllocError>
    ensures { IfOk result (λ line. string_bytes line ≡ line_of (how.NotSubstitutes bidder x.now y.now good)) }
{
    let mut line = format!(in alloc; "not substitutes bidder {bidder} x")?;
    write_bundle(&mut line, x)?;
    write!(line, " y")?;
    write_bundle(&mut line, y)?;
    write!(line, " good {good}\n")?;
    Ok(line)
}
