//! What is told of a frame that the house refused. `docs/FORMATS.md` has the codes, and what detail and value are.
ghost use Rattle.std.specs.Prelude.{◌≡◌, ◌≢◌, [], IfOk, string_bytes};

use crate::names::Names;
use report_wire::refusals::{
    BAD_DEMAND, BAD_PAYLOAD, BAD_TOKEN, CONFLICT, DISK_FAULT, EARLY, EMPTY, FULL, NO_HELLO,
    NO_MEMORY, NO_ROUND, NOT_ASCENDING, NOT_MEMBER, OUTSIDE_SUPPLY, OVER, SECOND_HELLO, TOO_LONG,
    UNKNOWN_CLOCK, UNKNOWN_KIND, WRONG_GOODS,
};
use std::alloc::{AllocError, Global};

const OTHER_AUCTION: &str =
    "the house serves another auction file: ask the seller for the one that it was opened with";

const LOOK_AGAIN: &str =
    "run the same words again: the bidder looks at each clock anew, and reports in the round that is on";

const OTHER_PROGRAM: &str =
    "see that ADDRESS is the house's, that nothing changes bytes on the way, and that both programs are of one version";

/// The lines of a refusal.
pub(crate) fn refused(
    alloc: Global,
    names: &Names,
    code: u8,
    detail: u8,
    value: u32,
) -> Result<String, AllocError>
    ensures { IfOk result (λ text. string_bytes text ≢ []) }
{
    let address = names.address;
    let meaning = meaning(code, detail);
    let advised = advised(code);
    match measure(code, detail) {
        Some(measure) => {
            format!(in alloc;
                "\"{address}\": the house refused: {meaning} ({measure} {value})\n\
                {advised} (docs/FORMATS.md, code {code})"
            )
        }
        None => {
            format!(in alloc;
                "\"{address}\": the house refused: {meaning}\n{advised} (docs/FORMATS.md, code {code})"
            )
        }
    }
}

/// What a code says.
fn meaning(code: u8, detail: u8) -> &'static str {
    match code {
        NO_HELLO => "nobody had said hello",
        BAD_TOKEN => "there is no such bidder, or the token is another one",
        UNKNOWN_CLOCK => "there is no such clock",
        NOT_MEMBER => "a bidder has no part in the clock of its own number",
        BAD_DEMAND => demand_meaning(detail),
        EARLY => "the report is of a round that has not begun",
        CONFLICT => "the bidder has reported another demand in this round",
        OVER => "the clock has ended, or is halted",
        FULL => "the journal of the clock is full",
        DISK_FAULT => "the report could not be written, and is in doubt",
        NO_MEMORY => "memory ran out in the house",
        NO_ROUND => "the report is of round 0",
        SECOND_HELLO => "somebody had said hello already",
        TOO_LONG => "a frame is too long",
        UNKNOWN_KIND => "a frame is of no kind that is known",
        BAD_PAYLOAD => "a frame has another form than its kind",
        _ => "the code is none that is known",
    }
}

/// What a detail says of a demand that is refused.
fn demand_meaning(detail: u8) -> &'static str {
    match detail {
        EMPTY => "the report has no bundle",
        NOT_ASCENDING => "the bundles of the report are not in ascending order",
        OUTSIDE_SUPPLY => "a bundle of the report is outside the supply",
        WRONG_GOODS => "the report is of another number of goods",
        _ => "the demand is none that can be reported",
    }
}

/// What the value counts, if it counts anything.
fn measure(code: u8, detail: u8) -> Option<&'static str> {
    match code {
        BAD_TOKEN => Some("bidder"),
        UNKNOWN_CLOCK | NOT_MEMBER => Some("clock"),
        BAD_DEMAND => demand_measure(detail),
        EARLY | CONFLICT => Some("round"),
        OVER => Some("last round"),
        FULL => Some("bytes needed"),
        TOO_LONG => Some("bytes"),
        UNKNOWN_KIND | BAD_PAYLOAD => Some("kind"),
        _ => None,
    }
}

/// The same, of a demand that is refused.
fn demand_measure(detail: u8) -> Option<&'static str> {
    match detail {
        NOT_ASCENDING | OUTSIDE_SUPPLY => Some("bundle"),
        WRONG_GOODS => Some("goods"),
        _ => None,
    }
}

/// What to do.
fn advised(code: u8) -> &'static str {
    match code {
        BAD_TOKEN => {
            "check BIDDER and TOKEN, sign by sign: the auction file has the SHA-256 of the token"
        }
        UNKNOWN_CLOCK | NOT_MEMBER | BAD_DEMAND => OTHER_AUCTION,
        EARLY | OVER => LOOK_AGAIN,
        CONFLICT => {
            "a report stays: does another program bid with this token, or has VALUES changed? Wait for the next round"
        }
        FULL => "tell the seller: this clock takes no report more",
        DISK_FAULT => {
            "tell the seller, and run the same words again: the report is sent again, and answered once it is safe"
        }
        NO_MEMORY => "tell the seller, and run the same words again",
        _ => OTHER_PROGRAM,
    }
}
