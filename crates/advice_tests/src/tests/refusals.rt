//! What the house refuses a bidder.
use super::{BID, check_names, check_text};
use house_run::Ended;
use std::test::Fail;

/// The end of a bidder who is refused so.
fn refused(code: u8, detail: u8) -> Ended {
    Ended::Refused {
        code,
        detail,
        value: 7,
    }
}

#[test]
fn refusals_name_the_address(rt: HostRuntime) -> Result<(), Fail> {
    for code in 0..=17 {
        for detail in 0..=5 {
            check_names(
                &rt,
                BID,
                "\"house:4747\": the house refused: ",
                &[refused(code, detail)],
            )?;
        }
    }
    Ok(())
}

const OTHER_AUCTION: &str =
    "the house serves another auction file: ask the seller for the one that it was opened with";

const LOOK_AGAIN: &str =
    "run the same words again: the bidder looks at each clock anew, and reports in the round that is on";

const OTHER_PROGRAM: &str =
    "see that ADDRESS is the house's, that nothing changes bytes on the way, and that both programs are of one version";

/// A code and a detail, what is told of them where the value is 7, and what to do.
type Row = (u8, u8, &'static str, &'static str);

const ROWS: &[Row] = &[
    (0, 0, "the code is none that is known", OTHER_PROGRAM),
    (1, 0, "nobody had said hello", OTHER_PROGRAM),
    (
        2,
        0,
        "there is no such bidder, or the token is another one (bidder 7)",
        "check BIDDER and TOKEN, sign by sign: the auction file has the SHA-256 of the token",
    ),
    (3, 0, "there is no such clock (clock 7)", OTHER_AUCTION),
    (
        4,
        0,
        "a bidder has no part in the clock of its own number (clock 7)",
        OTHER_AUCTION,
    ),
    (
        5,
        0,
        "the demand is none that can be reported",
        OTHER_AUCTION,
    ),
    (5, 1, "the report has no bundle", OTHER_AUCTION),
    (
        5,
        2,
        "the bundles of the report are not in ascending order (bundle 7)",
        OTHER_AUCTION,
    ),
    (
        5,
        3,
        "a bundle of the report is outside the supply (bundle 7)",
        OTHER_AUCTION,
    ),
    (
        5,
        4,
        "the report is of another number of goods (goods 7)",
        OTHER_AUCTION,
    ),
    (
        6,
        0,
        "the report is of a round that has not begun (round 7)",
        LOOK_AGAIN,
    ),
    (
        7,
        0,
        "the bidder has reported another demand in this round (round 7)",
        "a report stays: does another program bid with this token, or has VALUES changed? Wait for the next round",
    ),
    (
        8,
        0,
        "the clock has ended, or is halted (last round 7)",
        LOOK_AGAIN,
    ),
    (
        9,
        0,
        "the journal of the clock is full (bytes needed 7)",
        "tell the seller: this clock takes no report more",
    ),
    (
        10,
        0,
        "the report could not be written, and is in doubt",
        "tell the seller, and run the same words again: the report is sent again, and answered once it is safe",
    ),
    (
        11,
        0,
        "memory ran out in the house",
        "tell the seller, and run the same words again",
    ),
    (12, 0, "the report is of round 0", OTHER_PROGRAM),
    (13, 0, "somebody had said hello already", OTHER_PROGRAM),
    (14, 0, "a frame is too long (bytes 7)", OTHER_PROGRAM),
    (
        15,
        0,
        "a frame is of no kind that is known (kind 7)",
        OTHER_PROGRAM,
    ),
    (
        16,
        0,
        "a frame has another form than its kind (kind 7)",
        OTHER_PROGRAM,
    ),
    (17, 0, "the code is none that is known", OTHER_PROGRAM),
];

#[test]
fn refusals_have_their_lines(rt: HostRuntime) -> Result<(), Fail> {
    for (code, detail, meaning, advised) in ROWS {
        let lines = format!(in rt.alloc();
            "\"house:4747\": the house refused: {meaning}\n{advised} (docs/FORMATS.md, code {code})"
        )?;
        check_text(&rt, BID, &refused(*code, *detail), lines.as_str())?;
    }
    Ok(())
}
