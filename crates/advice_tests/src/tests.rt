//! What no clause says: the texts, where there is memory. Each names the file, the folder or the address of its words.
use advice::advice;
use expected_values::equal_in;
use house_run::Ended;
use std::alloc::Global;
use std::process::Abort;
use std::test::Fail;

// A fault each: of auction files; of valuation files; of journals and targets; that a house refuses a bidder.
mod auctions;
mod journals;
mod refusals;
mod values;

// Ends without a fault of their own, and words that are no command.
mod ends;
mod forms;

const CHECK: &[&str] = &["check", "auction.toml"];

const SETTLE: &[&str] = &["settle", "--json", "auction.toml", "journals"];

const TRIAL: &[&str] = &["trial", "auction.toml", "values.toml"];

const BID: &[&str] = &[
    "bid",
    "auction.toml",
    "values.toml",
    "1",
    "reed-5102",
    "house:4747",
];

const SERVE: &[&str] = &[
    "serve",
    "--doors",
    "3",
    "auction.toml",
    "journals",
    "house:4747",
];

const MIGRATE: &[&str] = &["migrate", "old.toml", "journals", "new.toml", "moved"];

/// What is told of a run of these words that ended so.
fn told(alloc: Global, words: &[&str], ended: &Ended) -> Result<String, Fail> {
    let mut copies = Vec::new(alloc);
    for word in words {
        copies.push(String::from_str(alloc, word)?)?;
    }
    Ok(advice(alloc, &copies, ended)?)
}

/// Checks that what is told of each end begins with this name, has a second line, and does not have the token.
fn check_names(
    rt: &(impl AllocGlobal + Abort),
    words: &[&str],
    name: &str,
    ends: &[Ended],
) -> Result<(), Fail> {
    for ended in ends {
        let text = told(rt.alloc(), words, ended)?;
        assert!(rt; text.as_str().starts_with(name), "{ended:?} {text}");
        equal_in((ended, text.as_str()), text.as_str().lines().count(), 2)?;
        assert!(rt; !text.as_str().contains("reed-5102"), "{ended:?} {text}");
    }
    Ok(())
}

/// Checks what is told of an end of these words against its lines.
fn check_text(
    rt: &(impl AllocGlobal + Abort),
    words: &[&str],
    ended: &Ended,
    lines: &str,
) -> Result<(), Fail> {
    let text = told(rt.alloc(), words, ended)?;
    equal_in(ended, text.as_str(), lines)?;
    Ok(())
}
