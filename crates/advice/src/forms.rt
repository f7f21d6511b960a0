//! The forms of the commands, the help and the version.
ghost use Rattle.std.specs.Prelude.{◌≡◌, ◌≢◌, [], IfOk, string_bytes};

use std::alloc::{AllocError, Global};

/// A command in each line.
const FORMS: &str = "
  fold SUPPLY BIDDERS CEILING LOG
  check AUCTION
  standing AUCTION JOURNALS
  explain AUCTION JOURNALS
  judge AUCTION JOURNALS BIDDER
  settle AUCTION JOURNALS [--json]
  serve AUCTION JOURNALS ADDRESS [--doors N] [--sessions N]
  bid AUCTION VALUES BIDDER TOKEN ADDRESS [--looks N]
  migrate OLD JOURNALS NEW TARGET
  trial AUCTION VALUES [--workers N]
  float AUCTION VALUES START
  make NUMBER [--workers N]
";

/// What the words of the forms are.
const WORDS: &str = "\
AUCTION, OLD, NEW: an auction file (crates/auction_file/README.md). VALUES: a valuation file (crates/valuation/README.md)
JOURNALS, TARGET: a folder of journals, of which that of clock C is clock-CC.ahj. LOG: a log (docs/FORMATS.md)
SUPPLY, START: a number of each good, joined by commas. BIDDERS, BIDDER: 1 to 12. CEILING: 2 to 10,000. NUMBER: 0 to 4,294,967,295
TOKEN: 1 to 64 bytes. ADDRESS: HOST:PORT. N of --doors: 1 to 64; --sessions: 1 to 10,000; --looks: 1 to 1,000,000,000; --workers: 1 to 64
README.md says what each command does, docs/FORMATS.md what it writes, docs/OPERATING.md how an auction is run";

const VERSION: &str = "\
house_main of Bowlsalmond: auction files of versions 1 and 2, journals AHJ1 and AHJ2 (docs/FORMATS.md)";

/// The lines of words that are no command: the version or the help where they ask for it, else the forms of the commands.
pub(crate) fn usage(alloc: Global, words: &[String]) -> Result<String, AllocError>
    ensures { IfOk result (λ text. string_bytes text ≢ []) }
{
    match words {
        [] => forms(alloc, "a command is missing"),
        [first, ..] => match first.as_str() {
            "--version" => String::from_str(alloc, VERSION),
            "help" => help(alloc),
            _ if asks_for_help(words) => help(alloc),
            first => {
                let wrong = wrong_text(alloc, first)?;
                forms(alloc, &wrong)
            }
        },
    }
}

/// The forms of the commands, and what their words are.
fn help(alloc: Global) -> Result<String, AllocError>
    ensures { IfOk result (λ text. string_bytes text ≢ []) }
{
    format!(in alloc; "house_main, and the words of a command:{FORMS}{WORDS}")
}

/// What is wrong with words, and the forms of the commands.
fn forms(alloc: Global, wrong: &str) -> Result<String, AllocError>
    ensures { IfOk result (λ text. string_bytes text ≢ []) }
{
    format!(in alloc;
        "{wrong}; the commands are{FORMS}--help says what the words are, README.md what each command does"
    )
}

/// What is wrong with words of which this is the first.
fn wrong_text(alloc: Global, first: &str) -> Result<String, AllocError>
    ensures { IfOk result (λ text. string_bytes text ≢ []) }
{
    if is_command(first) {
        format!(in alloc; "the words after \"{first}\" are not those of its form")
    } else {
        format!(in alloc; "\"{first}\" is no command")
    }
}

/// Whether a command has this name.
fn is_command(name: &str) -> bool {
    matches!(
        name,
        "fold"
            | "check"
            | "standing"
            | "explain"
            | "judge"
            | "settle"
            | "trial"
            | "float"
            | "make"
            | "serve"
            | "bid"
            | "migrate"
    )
}

/// Whether one of these words asks for the help.
fn asks_for_help(words: &[String]) -> bool {
    words
        .iter()
        .any(|word| matches!(word.as_str(), "--help" | "-h"))
}
