//! Journals and targets.
use super::{MIGRATE, SERVE, SETTLE, check_names, check_text};
use clock::Judgement;
use clock_book::OpenFault;
use house_run::Ended;
use recovery::{Broken, JournalCause};
use std::process::Abort;
use std::test::Fail;

/// Each cause, with the record at which it may stand.
const BROKEN: &[(u32, JournalCause)] = &[
    (0, JournalCause::OtherClock(4)),
    (0, JournalCause::OtherAuction([7; 32])),
    (0, JournalCause::OtherVersion(1)),
    (0, JournalCause::OtherOpening(2)),
    (0, JournalCause::Damaged),
    (9, JournalCause::Damaged),
    (9, JournalCause::NotReport),
];

const JUDGEMENTS: &[Judgement] = &[
    Judgement::Take,
    Judgement::Again,
    Judgement::NotMember,
    Judgement::Early(3),
    Judgement::Conflict(3),
    Judgement::Over(3),
    Judgement::NoRound,
];

/// Checks that the journal is named that is refused for this fault, and the target.
fn check_fault(rt: &(impl AllocGlobal + Abort), fault: OpenFault) -> Result<(), Fail> {
    let refused = [Ended::BadJournal { clock: 3, fault }];
    check_names(rt, SETTLE, "\"journals/clock-03.ahj\": ", &refused)?;
    check_names(rt, SERVE, "\"journals/clock-03.ahj\": ", &refused)?;
    check_names(rt, MIGRATE, "\"journals/clock-03.ahj\": ", &refused)?;
    let target = [Ended::BadTarget { clock: 12, fault }];
    check_names(rt, MIGRATE, "\"moved/clock-12.ahj\": ", &target)
}

#[test]
fn faults_name_the_journal(rt: HostRuntime) -> Result<(), Fail> {
    for (number, cause) in BROKEN {
        let broken = Broken {
            number: *number,
            cause: *cause,
        };
        check_fault(&rt, OpenFault::Broken(broken))?;
    }
    for judgement in JUDGEMENTS {
        check_fault(
            &rt,
            OpenFault::NotAcceptable {
                number: 9,
                judgement: *judgement,
            },
        )?;
    }
    check_fault(&rt, OpenFault::DiskFault)?;
    check_fault(&rt, OpenFault::NoMemory)
}

const OTHER_NAME: &str =
    "the journal of clock C is clock-CC.ahj: give each file its own name back, or take the right folder";

const OTHER_FILE: &str =
    "a journal belongs to the very bytes of its auction file: take that file, or another folder (docs/OPERATING.md)";

const CHANGED: &str =
    "no crash does that: go on with a copy of the folder (docs/OPERATING.md); docs/FORMATS.md has the bytes of a journal";

/// Checks what is told of a journal and of a target that is refused for this fault. Both lines differ in the auction file alone, which
/// stands between what is wrong and what is wrong after it.
fn check_lines(
    rt: &(impl AllocGlobal + Abort),
    fault: OpenFault,
    wrong: &str,
    file: bool,
    advised: &str,
) -> Result<(), Fail> {
    let of_old = if file { "\"auction.toml\"" } else { "" };
    let journal = format!(in rt.alloc(); "\"journals/clock-03.ahj\": {wrong}{of_old}\n{advised}")?;
    let refused = Ended::BadJournal { clock: 3, fault };
    check_text(rt, SETTLE, &refused, journal.as_str())?;
    let of_new = if file { "\"new.toml\"" } else { "" };
    let target = format!(in rt.alloc(); "\"moved/clock-12.ahj\": {wrong}{of_new}\n{advised}")?;
    let refused = Ended::BadTarget { clock: 12, fault };
    check_text(rt, MIGRATE, &refused, target.as_str())
}

/// A record and a cause, what is told of them, whether the name of the auction file stands after that, and what to do.
type Row = (u32, JournalCause, &'static str, bool, &'static str);

const ROWS: &[Row] = &[
    (
        0,
        JournalCause::OtherClock(4),
        "it is the journal of clock 4",
        false,
        OTHER_NAME,
    ),
    (
        0,
        JournalCause::OtherAuction([7; 32]),
        "it is a journal of another auction file than ",
        true,
        OTHER_FILE,
    ),
    (
        0,
        JournalCause::OtherOpening(5),
        "good 5 (counted from 0) opens at another price than in ",
        true,
        OTHER_FILE,
    ),
    (
        0,
        JournalCause::Damaged,
        "its header is damaged",
        false,
        CHANGED,
    ),
    (
        1,
        JournalCause::Damaged,
        "record 1 is damaged",
        false,
        CHANGED,
    ),
    (
        9,
        JournalCause::NotReport,
        "record 9 is no report of the auction of ",
        true,
        CHANGED,
    ),
];

#[test]
fn broken_journals_have_their_lines(rt: HostRuntime) -> Result<(), Fail> {
    for (number, cause, wrong, file, advised) in ROWS {
        let broken = Broken {
            number: *number,
            cause: *cause,
        };
        check_lines(&rt, OpenFault::Broken(broken), wrong, *file, advised)?;
    }
    Ok(())
}

#[test]
fn a_journal_of_another_version_has_its_lines(rt: HostRuntime) -> Result<(), Fail> {
    let fault = OpenFault::Broken(Broken {
        number: 0,
        cause: JournalCause::OtherVersion(1),
    });
    let old = format!(in rt.alloc();
        "\"journals/clock-03.ahj\": it is of version 1, and \"auction.toml\" is not\n{OTHER_FILE}"
    )?;
    check_text(
        &rt,
        SETTLE,
        &Ended::BadJournal { clock: 3, fault },
        old.as_str(),
    )?;
    let new = format!(in rt.alloc();
        "\"moved/clock-12.ahj\": it is of version 1, and \"new.toml\" is not\n{OTHER_FILE}"
    )?;
    check_text(
        &rt,
        MIGRATE,
        &Ended::BadTarget { clock: 12, fault },
        new.as_str(),
    )
}

/// Why a clock does not take a report, as it is told.
const REASONS: &[(Judgement, &str)] = &[
    (Judgement::Take, "it stands there already"),
    (Judgement::Again, "it stands there already"),
    (Judgement::NotMember, "its bidder is no member of the clock"),
    (Judgement::Early(3), "its round had not begun"),
    (
        Judgement::Conflict(3),
        "its bidder had reported another demand in that round",
    ),
    (Judgement::Over(3), "the clock had ended, or was halted"),
    (Judgement::NoRound, "it names round 0"),
];

#[test]
fn reports_that_are_not_taken_have_their_lines(rt: HostRuntime) -> Result<(), Fail> {
    for (judgement, reason) in REASONS {
        let wrong = format!(in rt.alloc();
            "record 9 is a report that the clock does not take: {reason}"
        )?;
        let fault = OpenFault::NotAcceptable {
            number: 9,
            judgement: *judgement,
        };
        check_lines(&rt, fault, wrong.as_str(), false, CHANGED)?;
    }
    Ok(())
}

#[test]
fn failed_journals_have_their_lines(rt: HostRuntime) -> Result<(), Fail> {
    let again = "run the same words again";
    check_lines(
        &rt,
        OpenFault::DiskFault,
        "a call on it failed",
        false,
        again,
    )?;
    check_lines(
        &rt,
        OpenFault::NoMemory,
        "memory ran out over it",
        false,
        again,
    )?;
    check_text(
        &rt,
        SERVE,
        &Ended::DiskFault(10),
        r#""journals/clock-10.ahj": it could not be opened, locked, read or written; the system's reason stands above
the folder has to be there, and one house holds it at a time: mend the cause, and run the same words again (docs/OPERATING.md)"#,
    )?;
    check_text(
        &rt,
        MIGRATE,
        &Ended::DiskFault(10),
        r#""journals/clock-10.ahj" or "moved/clock-10.ahj": it could not be opened, locked, read or written; the system's reason stands above
the folder has to be there, and one house holds it at a time: mend the cause, and run the same words again (docs/OPERATING.md)"#,
    )
}

#[test]
fn targets_have_their_lines(rt: HostRuntime) -> Result<(), Fail> {
    check_text(
        &rt,
        MIGRATE,
        &Ended::NotPrefix {
            clock: 12,
            number: 7,
        },
        r#""moved/clock-12.ahj": record 7 is not that of "journals/clock-12.ahj"
a target is empty, or has the first reports of its journal: take another folder as TARGET (README.md)"#,
    )?;
    check_text(
        &rt,
        MIGRATE,
        &Ended::TargetFull {
            clock: 12,
            needed: 67_108_865,
        },
        r#""moved/clock-12.ahj": it is full: its next record would end after 67108865 bytes
a journal has at most 67,108,864 bytes, and its head is longer under NEW: go on under OLD (docs/FORMATS.md)"#,
    )
}

#[test]
fn a_migration_names_the_target(rt: HostRuntime) -> Result<(), Fail> {
    let ends = [
        Ended::NotPrefix {
            clock: 2,
            number: 7,
        },
        Ended::TargetFull {
            clock: 2,
            needed: 67_108_865,
        },
    ];
    check_names(&rt, MIGRATE, "\"moved/clock-02.ahj\": ", &ends)?;
    let failed = [Ended::DiskFault(2)];
    check_names(&rt, SERVE, "\"journals/clock-02.ahj\": ", &failed)?;
    let both = "\"journals/clock-02.ahj\" or \"moved/clock-02.ahj\": ";
    check_names(&rt, MIGRATE, both, &failed)
}
