//! The words after a command's name, by the ids of its arguments.
ghost use Rattle.std.specs.Prelude.{◌≡◌, ◌≢◌, ◌<◌, All, length, string_bytes, IfOk, IfSome, IfNone, IsSome, IsTrue, Some, false};
ghost use Rattle.clap.specs.Words.{app_of, first_value, found_of, rule_of};
ghost use Rattle.command_line.specs.Positionals.{AreNamed, are_distinct, positional, positional_app, texts};
ghost use Rattle.command_line.specs.Words.{IsPlainWord, words_of};

use clap::error::ErrorKind;
use clap::{Arg, ArgMatches, Command};
use lot_base::NoMemory;
use std::alloc::{AllocError, Global};

/// The words by the ids of a command's arguments, if there is one word for each.
pub(crate) fn named_words<'a>(
    alloc: Global,
    name: &'a str,
    ids: &[&'a str],
    words: &'a [&'a str],
) -> Result<Option<ArgMatches<'a>>, NoMemory>
    requires distinct { IsTrue (are_distinct (texts ids.now)) }
    requires few { length ids.now < 256 }
    requires plain { All (λ word. IsPlainWord word.now) words.now }
    ensures some { IfOk result (λ o. IfSome o (λ matches. AreNamed (found_of matches) (texts ids.now) (texts words.entry.now))) }
    ensures none { IfOk result (λ o. IfNone o (length words.entry.now ≢ length ids.now)) }
{
    let command = match command_of(alloc, name, ids) {
        Ok(command) => command,
        Err(_) => return Err(NoMemory),
    };
    match command.try_get_matches_from(words) {
        Ok(matches) => Ok(Some(matches)),
        Err(error) => match error.kind() {
            ErrorKind::OutOfMemory => Err(NoMemory),
            _ => Ok(None),
        },
    }
}

/// The command that takes one word for each id, and nothing else.
fn command_of<'a>(alloc: Global, name: &'a str, ids: &[&'a str]) -> Result<Command<'a>, AllocError>
    ensures { IfOk result (λ command. app_of command ≡ positional_app name.entry.now (texts ids.now)) }
{
    let mut command = Command::new(alloc, name)
        .no_binary_name(true)
        .disable_help_flag(true)
        .disable_version_flag(true);
    for id in ids {
        command = command.arg(required_word(alloc, *id))?;
    }
    Ok(command)
}

/// An argument of this id that has to be there.
fn required_word<'a>(alloc: Global, id: &'a str) -> Arg<'a>
    ensures rule { rule_of result ≡ positional id.entry.now }
    ensures local { result.global ≡ false }
{
    Arg::new(alloc, id).required(true)
}

/// The word of this id, which has one.
pub(crate) fn word_of<'a>(matches: &ArgMatches<'a>, id: &str) -> &'a str
    requires { IsSome (first_value (found_of matches.now) id.now) }
    ensures { first_value (found_of matches.now) id.now ≡ Some result.now }
{
    matches.get_str(id).unwrap()
}
