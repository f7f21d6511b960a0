//! What is told of journals that are not read, and of targets to which reports are not moved.
ghost use Rattle.std.specs.Prelude.{◌≡◌, ◌≢◌, [], IfOk, string_bytes};

use crate::names::{Names, journal_text, target_text};
use clock::Judgement;
use clock_book::OpenFault;
use recovery::{Broken, JournalCause};
use std::alloc::{AllocError, Global};

const OTHER_NAME: &str =
    "the journal of clock C is clock-CC.ahj: give each file its own name back, or take the right folder";

const OTHER_FILE: &str =
    "a journal belongs to the very bytes of its auction file: take that file, or another folder (docs/OPERATING.md)";

const CHANGED: &str =
    "no crash does that: go on with a copy of the folder (docs/OPERATING.md); docs/FORMATS.md has the bytes of a journal";

const AGAIN: &str = "run the same words again";

/// The lines of a clock's journal that is refused for this fault.
pub(crate) fn refused_journal(
    alloc: Global,
    names: &Names,
    clock: u8,
    fault: &OpenFault,
) -> Result<String, AllocError>
    ensures { IfOk result (λ text. string_bytes text ≢ []) }
{
    let journal = journal_text(alloc, names, clock)?;
    refused(alloc, &journal, names.auction, fault)
}

/// The lines of a clock's target that is refused for this fault.
pub(crate) fn refused_target(
    alloc: Global,
    names: &Names,
    clock: u8,
    fault: &OpenFault,
) -> Result<String, AllocError>
    ensures { IfOk result (λ text. string_bytes text ≢ []) }
{
    let target = target_text(alloc, names, clock)?;
    refused(alloc, &target, names.new.unwrap_or("NEW"), fault)
}

/// The lines of a journal, to be of this auction file, that is refused for this fault.
fn refused(
    alloc: Global,
    journal: &str,
    auction: &str,
    fault: &OpenFault,
) -> Result<String, AllocError>
    ensures { IfOk result (λ text. string_bytes text ≢ []) }
{
    let wrong = fault_text(alloc, auction, fault)?;
    let advised = advised(fault);
    format!(in alloc; "{journal}: {wrong}\n{advised}")
}

/// What is wrong.
fn fault_text(alloc: Global, auction: &str, fault: &OpenFault) -> Result<String, AllocError>
    ensures { IfOk result (λ text. string_bytes text ≢ []) }
{
    match fault {
        OpenFault::Broken(broken) => broken_text(alloc, auction, broken),
        OpenFault::NotAcceptable { number, judgement } => {
            let reason = judgement_text(judgement);
            format!(in alloc; "record {number} is a report that the clock does not take: {reason}")
        }
        OpenFault::DiskFault => String::from_str(alloc, "a call on it failed"),
        OpenFault::NoMemory => String::from_str(alloc, "memory ran out over it"),
    }
}

/// What is wrong with a record, or with the header.
fn broken_text(alloc: Global, auction: &str, broken: &Broken) -> Result<String, AllocError>
    ensures { IfOk result (λ text. string_bytes text ≢ []) }
{
    let number = broken.number;
    match broken.cause {
        JournalCause::OtherClock(clock) => format!(in alloc; "it is the journal of clock {clock}"),
        JournalCause::OtherAuction(_) => {
            format!(in alloc; "it is a journal of another auction file than \"{auction}\"")
        }
        JournalCause::OtherVersion(version) => {
            format!(in alloc; "it is of version {version}, and \"{auction}\" is not")
        }
        JournalCause::OtherOpening(good) => {
            format!(in alloc;
                "good {good} (counted from 0) opens at another price than in \"{auction}\""
            )
        }
        JournalCause::Damaged if number == 0 => String::from_str(alloc, "its header is damaged"),
        JournalCause::Damaged => format!(in alloc; "record {number} is damaged"),
        JournalCause::NotReport => {
            format!(in alloc; "record {number} is no report of the auction of \"{auction}\"")
        }
    }
}

/// Why a clock does not take a report.
fn judgement_text(judgement: &Judgement) -> &'static str {
    match judgement {
        Judgement::NotMember => "its bidder is no member of the clock",
        Judgement::Early(_) => "its round had not begun",
        Judgement::Conflict(_) => "its bidder had reported another demand in that round",
        Judgement::Over(_) => "the clock had ended, or was halted",
        Judgement::NoRound => "it names round 0",
        Judgement::Take | Judgement::Again => "it stands there already",
    }
}

/// What to do.
fn advised(fault: &OpenFault) -> &'static str {
    match fault {
        OpenFault::Broken(broken) => match broken.cause {
            JournalCause::OtherClock(_) => OTHER_NAME,
            JournalCause::OtherAuction(_)
            | JournalCause::OtherVersion(_)
            | JournalCause::OtherOpening(_) => OTHER_FILE,
            JournalCause::Damaged | JournalCause::NotReport => CHANGED,
        },
        OpenFault::NotAcceptable { .. } => CHANGED,
        OpenFault::DiskFault | OpenFault::NoMemory => AGAIN,
    }
}

/// The lines of a clock at whose journal a call failed.
pub(crate) fn failed_disk(alloc: Global, names: &Names, clock: u8) -> Result<String, AllocError>
    ensures { IfOk result (λ text. string_bytes text ≢ []) }
{
    let disk = disk_text(alloc, names, clock)?;
    format!(in alloc;
        "{disk}: it could not be opened, locked, read or written; the system's reason stands above\n\
        the folder has to be there, and one house holds it at a time: mend the cause, and run the same words again (docs/OPERATING.md)"
    )
}

/// The name of a clock's journal, and in a migration that of its target too: an end does not tell which of the two is meant.
fn disk_text(alloc: Global, names: &Names, clock: u8) -> Result<String, AllocError>
    ensures { IfOk result (λ text. string_bytes text ≢ []) }
{
    let journal = journal_text(alloc, names, clock)?;
    if names.target.is_none() {
        return Ok(journal);
    }
    let target = target_text(alloc, names, clock)?;
    format!(in alloc; "{journal} or {target}")
}

/// The lines of a target that is no front of its clock's journal from this record on.
pub(crate) fn other_target(
    alloc: Global,
    names: &Names,
    clock: u8,
    number: u32,
) -> Result<String, AllocError>
    ensures { IfOk result (λ text. string_bytes text ≢ []) }
{
    let target = target_text(alloc, names, clock)?;
    let journal = journal_text(alloc, names, clock)?;
    format!(in alloc;
        "{target}: record {number} is not that of {journal}\n\
        a target is empty, or has the first reports of its journal: take another folder as TARGET (README.md)"
    )
}

/// The lines of a target without room for the next record, which would end after so many bytes.
pub(crate) fn full_target(
    alloc: Global,
    names: &Names,
    clock: u8,
    needed: u32,
) -> Result<String, AllocError>
    ensures { IfOk result (λ text. string_bytes text ≢ []) }
{
    let target = target_text(alloc, names, clock)?;
    format!(in alloc;
        "{target}: it is full: its next record would end after {needed} bytes\n\
        a journal has at most 67,108,864 bytes, and its head is longer under NEW: go on under OLD (docs/FORMATS.md)"
    )
}
