//! Ends without a fault of their own.
use super::{BID, CHECK, MIGRATE, SERVE, SETTLE, TRIAL, check_names, check_text};
use expected_values::equal;
use house_run::{Ended, File};
use lot_base::Goods;
use std::process::Abort;
use std::test::Fail;

const FOLD: &[&str] = &["fold", "1", "2", "5", "reports.log"];

const STANDING: &[&str] = &["standing", "auction.toml", "journals"];

const EXPLAIN: &[&str] = &["explain", "auction.toml", "journals"];

const JUDGE: &[&str] = &["judge", "auction.toml", "journals", "3"];

const FLOAT: &[&str] = &["float", "auction.toml", "values.toml", "10"];

/// With all options.
const LONG_BID: &[&str] = &[
    "bid",
    "--looks",
    "5",
    "auction.toml",
    "values.toml",
    "1",
    "reed-5102",
    "house:4747",
];

const LONG_SERVE: &[&str] = &[
    "serve",
    "auction.toml",
    "journals",
    "--doors",
    "64",
    "house:4747",
    "--sessions",
    "10000",
];

#[test]
fn nothing_is_told_of_a_job_that_was_done(rt: HostRuntime) -> Result<(), Fail> {
    check_text(&rt, SETTLE, &Ended::Done, "")
}

#[test]
fn want_of_memory_and_a_text_that_is_cut_off_need_no_names(rt: HostRuntime) -> Result<(), Fail> {
    check_names(&rt, SETTLE, "memory ran out", &[Ended::NoMemory])?;
    check_names(&rt, &[], "memory ran out", &[Ended::NoMemory])?;
    check_names(
        &rt,
        SETTLE,
        "the text could not be written",
        &[Ended::WriteFault],
    )
}

#[test]
fn a_file_that_is_not_read_is_named(rt: HostRuntime) -> Result<(), Fail> {
    let unread = [Ended::ReadFault];
    for words in [CHECK, STANDING, EXPLAIN, JUDGE, SETTLE, SERVE] {
        check_names(&rt, words, "\"auction.toml\": ", &unread)?;
    }
    for words in [TRIAL, FLOAT, BID] {
        check_names(&rt, words, "\"auction.toml\" or \"values.toml\": ", &unread)?;
    }
    check_names(&rt, FOLD, "\"reports.log\": ", &unread)?;
    check_names(&rt, MIGRATE, "\"old.toml\" or \"new.toml\": ", &unread)
}

#[test]
fn a_file_of_no_use_is_named(rt: HostRuntime) -> Result<(), Fail> {
    let auction = [Ended::TooLong(File::Auction)];
    check_names(&rt, CHECK, "\"auction.toml\": ", &auction)?;
    check_names(&rt, MIGRATE, "\"old.toml\" or \"new.toml\": ", &auction)?;
    check_names(
        &rt,
        TRIAL,
        "\"values.toml\": ",
        &[Ended::TooLong(File::Values)],
    )?;
    let log = [Ended::TooLong(File::Log), Ended::BadLog(14)];
    check_names(&rt, FOLD, "\"reports.log\": ", &log)?;
    check_names(&rt, MIGRATE, "\"new.toml\": ", &[Ended::OtherTerms])?;
    check_names(&rt, JUDGE, "\"auction.toml\": ", &[Ended::NoBidder(3)])?;
    let start = [
        Ended::StartCount(2),
        Ended::StartRange {
            good: 0,
            value: 100,
        },
    ];
    check_names(&rt, FLOAT, "\"auction.toml\": ", &start)
}

#[test]
fn clocks_are_named_by_their_journals(rt: HostRuntime) -> Result<(), Fail> {
    let ends = [
        Ended::Open {
            clock: 2,
            round: 7,
            missing: 3,
        },
        Ended::NoAward { clock: 2 },
        Ended::Halted { clock: 2, good: 1 },
    ];
    check_names(&rt, SETTLE, "\"journals/clock-02.ahj\": clock 2 ", &ends)
}

#[test]
fn a_house_and_its_bidders_are_named_by_the_address(rt: HostRuntime) -> Result<(), Fail> {
    let failed = [Ended::NetFault];
    check_names(
        &rt,
        SERVE,
        "\"house:4747\": the house could not listen",
        &failed,
    )?;
    check_names(
        &rt,
        BID,
        "\"house:4747\": no house could be reached",
        &failed,
    )?;
    let ends = [Ended::BadReply, Ended::LooksSpent(2)];
    check_names(&rt, BID, "\"house:4747\": ", &ends)
}

#[test]
fn words_that_give_no_names_leave_those_of_the_forms(rt: HostRuntime) -> Result<(), Fail> {
    check_names(&rt, &["make", "7"], "\"AUCTION\": ", &[Ended::ReadFault])?;
    check_names(
        &rt,
        &["settle"],
        "\"JOURNALS/clock-00.ahj\": ",
        &[Ended::DiskFault(0)],
    )
}

#[test]
fn ends_without_a_name_have_their_lines(rt: HostRuntime) -> Result<(), Fail> {
    check_text(
        &rt,
        SETTLE,
        &Ended::NoMemory,
        "memory ran out, and no text was written
give the program more memory or address space, and run the same words again (README.md)",
    )?;
    check_text(
        &rt,
        SETTLE,
        &Ended::WriteFault,
        "the text could not be written whole to standard output
make room for it, or keep its reader open, and ask again: what was reported is in the journals",
    )
}

#[test]
fn files_that_are_not_read_have_their_lines(rt: HostRuntime) -> Result<(), Fail> {
    for (words, file) in [
        (CHECK, r#""auction.toml""#),
        (JUDGE, r#""auction.toml""#),
        (TRIAL, r#""auction.toml" or "values.toml""#),
        (MIGRATE, r#""old.toml" or "new.toml""#),
        (FOLD, r#""reports.log""#),
    ] {
        let lines = format!(in rt.alloc();
            "{file}: it could not be read; the system's reason stands above\n\
            look at the name, which begins in the working directory, and at the leave to read it"
        )?;
        check_text(&rt, words, &Ended::ReadFault, lines.as_str())?;
    }
    Ok(())
}

#[test]
fn files_that_are_too_long_have_their_lines(rt: HostRuntime) -> Result<(), Fail> {
    let rows = [
        (
            MIGRATE,
            File::Auction,
            r#""old.toml" or "new.toml": it has more than 65,536 bytes
see that it is an auction file: crates/auction_file/README.md has the format"#,
        ),
        (
            TRIAL,
            File::Values,
            r#""values.toml": it has more than 1,048,576 bytes
see that it is a valuation file: crates/valuation/README.md has the format"#,
        ),
        (
            FOLD,
            File::Log,
            r#""reports.log": it has more than 67,108,864 bytes
see that it is a log, of one clock alone: docs/FORMATS.md has the format"#,
        ),
    ];
    for (words, file, lines) in rows {
        check_text(&rt, words, &Ended::TooLong(file), lines)?;
    }
    Ok(())
}

#[test]
fn files_of_no_use_have_their_lines(rt: HostRuntime) -> Result<(), Fail> {
    check_text(
        &rt,
        FOLD,
        &Ended::BadLog(67_108_863),
        r#""reports.log": the entry after 67108863 bytes is cut off, is no report of this auction or is not taken
see that SUPPLY, BIDDERS and CEILING are those of the log; docs/FORMATS.md has the format"#,
    )?;
    check_text(
        &rt,
        JUDGE,
        &Ended::NoBidder(3),
        r#""auction.toml": there is no bidder 3
bidders are counted from 1, in the order of the file: the command check lists them"#,
    )?;
    check_text(
        &rt,
        MIGRATE,
        &Ended::OtherTerms,
        r#""new.toml": the auction of "old.toml" can't go on under it
NEW is of version 2, with the names, supplies, tokens and ceiling of OLD, and no good of either opens above 0"#,
    )
}

#[test]
fn goods_that_are_no_substitutes_have_their_lines(rt: HostRuntime) -> Result<(), Fail> {
    let goods = Goods::new(&[1])?;
    equal(goods.box_size(), 2)?;
    check_text(
        &rt,
        TRIAL,
        &Ended::NotSubstitutes {
            bidder: 12,
            x: goods.bundle(0),
            y: goods.bundle(1),
            good: 5,
        },
        r#""values.toml": the goods are no strong substitutes for bidder 12, as good 5 (counted from 0) shows
mend its table, or take form unit, capped, or marginal with falling entries (crates/valuation/README.md)"#,
    )
}

#[test]
fn starts_have_their_lines(rt: HostRuntime) -> Result<(), Fail> {
    check_text(
        &rt,
        FLOAT,
        &Ended::StartCount(2),
        r#""auction.toml": START has 2 prices, and there are not as many goods
START is a price of each good, joined by commas: the command check lists the goods"#,
    )?;
    check_text(
        &rt,
        FLOAT,
        &Ended::StartRange {
            good: 5,
            value: 10_000,
        },
        r#""auction.toml": good 5 (counted from 0) can't start at 10000
expected: its opening price, or more, up to the ceiling less 1"#,
    )
}

#[test]
fn clocks_have_their_lines(rt: HostRuntime) -> Result<(), Fail> {
    let rows = [
        (
            Ended::Open {
                clock: 12,
                round: 7,
                missing: 3,
            },
            r#""journals/clock-12.ahj": clock 12 still runs: bidder 3 has no report in round 7
settle when all clocks have ended: the command standing tells how each stands (docs/OPERATING.md)"#,
        ),
        (
            Ended::NoAward { clock: 10 },
            r#""journals/clock-10.ahj": clock 10 has ended, and no choice of its last demands clears
the command explain tells why: prices that rose too far, or a demand that no strong substitutes have (docs/MECHANISM.md)"#,
        ),
        (
            Ended::Halted { clock: 2, good: 5 },
            r#""journals/clock-02.ahj": clock 2 is halted, with good 5 (counted from 0) at the ceiling
no outcome comes of this auction: the next one needs a ceiling above all that bidders may pay (docs/MECHANISM.md)"#,
        ),
    ];
    for (ended, lines) in rows {
        check_text(&rt, SETTLE, &ended, lines)?;
    }
    Ok(())
}

#[test]
fn a_house_and_its_bidders_have_their_lines(rt: HostRuntime) -> Result<(), Fail> {
    let rows = [
        (
            LONG_SERVE,
            Ended::NetFault,
            r#""house:4747": the house could not listen there, or a door stopped; the system's reason stands above
let no other program listen there, and run the same words again: what was taken is in the journals (docs/OPERATING.md)"#,
        ),
        (
            BID,
            Ended::NetFault,
            r#""house:4747": no house could be reached there, or the link failed; the system's reason stands above
see that the house is there, and run the same words again: what it has taken already is answered again"#,
        ),
        (
            BID,
            Ended::LooksSpent(12),
            r#""house:4747": clock 12 stayed in its round for as many looks as --looks says
other bidders have yet to report: run the same words again, with --looks up to 1,000,000,000; what was reported stays"#,
        ),
        (
            LONG_BID,
            Ended::BadReply,
            r#""house:4747": what came answers nothing, or the house hung up
see that a house of this very file serves there, with sessions left, and run the same words again: what was reported stays"#,
        ),
    ];
    for (words, ended, lines) in rows {
        check_text(&rt, words, &ended, lines)?;
    }
    Ok(())
}
