//! From the words and the end of a run to what a person is told.
ghost use Rattle.std.specs.Prelude.{◌≡◌, ◌≢◌, [], All, IfOk, string_bytes};
ghost use Rattle.command_line.specs.Words.{IsPlainWord};
ghost use Rattle.house_run.specs.declared.ends.Ended.TheVariants as how;

use crate::auction_faults::refused_auction;
use crate::clock_ends::{bad_reply, failed_net, halted_clock, no_award, open_clock, spent_looks};
use crate::files::{
    bad_log, long_file, no_bidder, not_substitutes, other_terms, start_count, start_range,
    unread_file,
};
use crate::forms::usage;
use crate::journal_faults::{
    failed_disk, full_target, other_target, refused_journal, refused_target,
};
use crate::names::{NO_NAMES, Names, names_of};
use crate::refusals::refused;
use crate::values_faults::refused_values;
use command_line::{Parted, join_words, part_words, read_words};
use house_run::Ended;
use lot_base::NoMemory;
use std::alloc::{AllocError, Global};

const NO_MEMORY: &str = "\
memory ran out, and no text was written
give the program more memory or address space, and run the same words again (README.md)";

const CUT_OFF: &str = "\
the text could not be written whole to standard output
make room for it, or keep its reader open, and ask again: what was reported is in the journals";

/// What a person is told of a run of these words, those after the program's name, that ended so: nothing where its job was done, else
/// lines without a line end after the last. Names and keys stand in quotes, and as they are.
pub fn advice(alloc: Global, words: &[String], ended: &Ended) -> Result<String, NoMemory>
    ensures done { IfOk result (λ text. ended.now ≡ how.Done → string_bytes text ≡ []) }
    ensures told { IfOk result (λ text. ended.now ≢ how.Done → string_bytes text ≢ []) }
{
    let told = match ended {
        Ended::Done => Ok(String::new(alloc)),
        _ => told_of_words(alloc, words, ended),
    };
    match told {
        Ok(text) => Ok(text),
        Err(_) => Err(NoMemory),
    }
}

/// The lines of a run of these words that ended so. Where they are no command, or there is no memory to read them, they give no names.
fn told_of_words(alloc: Global, words: &[String], ended: &Ended) -> Result<String, AllocError>
    requires { ended.now ≢ how.Done }
    ensures { IfOk result (λ text. string_bytes text ≢ []) }
{
    match join_words(alloc, words) {
        Ok(Some(joined)) => match part_words(alloc, &joined) {
            Ok(parted) => told_of_command(alloc, words, &parted, ended),
            Err(_) => told(alloc, words, &NO_NAMES, ended),
        },
        Ok(None) | Err(NoMemory) => told(alloc, words, &NO_NAMES, ended),
    }
}

/// The same, of words that were parted.
fn told_of_command(
    alloc: Global,
    words: &[String],
    parted: &Parted,
    ended: &Ended,
) -> Result<String, AllocError>
    requires plain { All (λ word. IsPlainWord word.now) parted.now.plain.items }
    requires other { ended.now ≢ how.Done }
    ensures { IfOk result (λ text. string_bytes text ≢ []) }
{
    match read_words(alloc, parted) {
        Ok(Some(command)) => told(alloc, words, &names_of(&command), ended),
        Ok(None) | Err(NoMemory) => told(alloc, words, &NO_NAMES, ended),
    }
}

/// The lines of a run that ended so, by the names that its words give.
fn told(alloc: Global, words: &[String], names: &Names, ended: &Ended) -> Result<String, AllocError>
    requires { ended.now ≢ how.Done }
    ensures { IfOk result (λ text. string_bytes text ≢ []) }
{
    match ended {
        Ended::Done => unreachable!(),
        Ended::NoMemory => String::from_str(alloc, NO_MEMORY),
        Ended::Usage => usage(alloc, words),
        Ended::BadAuction(fault) => refused_auction(alloc, names, fault),
        Ended::ReadFault => unread_file(alloc, names),
        Ended::WriteFault => String::from_str(alloc, CUT_OFF),
        Ended::DiskFault(clock) => failed_disk(alloc, names, *clock),
        Ended::NetFault => failed_net(alloc, names),
        Ended::BadJournal { clock, fault } => refused_journal(alloc, names, *clock, fault),
        Ended::Open {
            clock,
            round,
            missing,
        } => open_clock(alloc, names, *clock, *round, *missing),
        Ended::NoAward { clock } => no_award(alloc, names, *clock),
        Ended::Halted { clock, good } => halted_clock(alloc, names, *clock, *good),
        Ended::BadValues(fault) => refused_values(alloc, names, fault),
        Ended::NotSubstitutes { bidder, good, .. } => not_substitutes(alloc, names, *bidder, *good),
        Ended::TooLong(file) => long_file(alloc, names, *file),
        Ended::BadLog(place) => bad_log(alloc, names, *place),
        Ended::Refused {
            code,
            detail,
            value,
        } => refused(alloc, names, *code, *detail, *value),
        Ended::LooksSpent(clock) => spent_looks(alloc, names, *clock),
        Ended::BadReply => bad_reply(alloc, names),
        Ended::NoBidder(bidder) => no_bidder(alloc, names, *bidder),
        Ended::OtherTerms => other_terms(alloc, names),
        Ended::NotPrefix { clock, number } => other_target(alloc, names, *clock, *number),
        Ended::TargetFull { clock, needed } => full_target(alloc, names, *clock, *needed),
        Ended::BadTarget { clock, fault } => refused_target(alloc, names, *clock, fault),
        Ended::StartCount(found) => start_count(alloc, names, *found),
        Ended::StartRange { good, value } => start_range(alloc, names, *good, *value),
    }
}
