//! Words that are no command.
use super::check_text;
use house_run::Ended;
use std::process::Abort;
use std::test::Fail;

const FORMS: &str = "
  fold SUPPLY BIDDERS CEILING LOG
  check AUCTION
  standing AUCTION JOURNALS
  explain AUCTION JOURNALS
  judge AUCTION JOURNALS BIDDER
  settle AUCTION JOURNALS [--json]
  serve AUCTION JOURNALS ADDRESS [--doors N] [--sessions N]
  bid AUCTION VALUES BIDDER TOKEN ADDRESS [--looks N]
  migrate OLD JOURNALS NEW TARGET
  trial AUCTION VALUES [--workers N]
  float AUCTION VALUES START
  make NUMBER [--workers N]
";

const WORDS: &str = "\
AUCTION, OLD, NEW: an auction file (crates/auction_file/README.md). VALUES: a valuation file (crates/valuation/README.md)
JOURNALS, TARGET: a folder of journals, of which that of clock C is clock-CC.ahj. LOG: a log (docs/FORMATS.md)
SUPPLY, START: a number of each good, joined by commas. BIDDERS, BIDDER: 1 to 12. CEILING: 2 to 10,000. NUMBER: 0 to 4,294,967,295
TOKEN: 1 to 64 bytes. ADDRESS: HOST:PORT. N of --doors: 1 to 64; --sessions: 1 to 10,000; --looks: 1 to 1,000,000,000; --workers: 1 to 64
README.md says what each command does, docs/FORMATS.md what it writes, docs/OPERATING.md how an auction is run";

/// The names of the commands.
const NAMES: &[&str] = &[
    "fold", "check", "standing", "explain", "judge", "settle", "serve", "bid", "migrate", "trial",
    "float", "make",
];

/// Checks what is told of these words: what is wrong, and the forms.
fn check_wrong(rt: &(impl AllocGlobal + Abort), words: &[&str], wrong: &str) -> Result<(), Fail> {
    let lines = format!(in rt.alloc();
        "{wrong}; the commands are{FORMS}--help says what the words are, README.md what each command does"
    )?;
    check_text(rt, words, &Ended::Usage, lines.as_str())
}

#[test]
fn words_that_are_no_command_are_told_the_forms(rt: HostRuntime) -> Result<(), Fail> {
    check_wrong(&rt, &[], "a command is missing")?;
    check_wrong(&rt, &["setle", "a", "b"], "\"setle\" is no command")?;
    check_wrong(&rt, &["Settle"], "\"Settle\" is no command")?;
    check_wrong(&rt, &[""], "\"\" is no command")
}

#[test]
fn words_that_are_not_of_their_form_are_told_the_forms(rt: HostRuntime) -> Result<(), Fail> {
    for name in NAMES {
        let wrong = format!(in rt.alloc(); "the words after \"{name}\" are not those of its form")?;
        check_wrong(&rt, &[*name, "a", "--looks"], wrong.as_str())?;
    }
    Ok(())
}

#[test]
fn help_is_told_where_it_is_asked_for(rt: HostRuntime) -> Result<(), Fail> {
    let lines = format!(in rt.alloc(); "house_main, and the words of a command:{FORMS}{WORDS}")?;
    for words in [
        ["--help", "a"],
        ["-h", "a"],
        ["help", "a"],
        ["settle", "--help"],
        ["setle", "-h"],
    ] {
        check_text(&rt, &words, &Ended::Usage, lines.as_str())?;
    }
    check_text(&rt, &["help"], &Ended::Usage, lines.as_str())
}

#[test]
fn the_version_is_told_where_it_is_asked_for(rt: HostRuntime) -> Result<(), Fail> {
    check_text(
        &rt,
        &["--version"],
        &Ended::Usage,
        "house_main of Bowlsalmond: auction files of versions 1 and 2, journals AHJ1 and AHJ2 (docs/FORMATS.md)",
    )
}
