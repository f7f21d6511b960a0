//! The words after a command's name: plain words, and the command's options.
ghost use Rattle.std.specs.Prelude.{◌≡◌, ◌<◌, ◌∷◌, All, length, string_bytes, true, IfOk, IfErr, IfSome, IfNone};
ghost use Rattle.std.specs.List.{list_all};
ghost use Rattle.command_line.specs.Arguments.{begins, flags_of, is_among, is_argument, is_option, joined, others_in, plain_in, takes, valued_of, with_value};
ghost use Rattle.command_line.specs.Commands.{IsJoined, IsNoCommand, MayBeCommand, command_names};
ghost use Rattle.command_line.specs.Positionals.{texts};
ghost use Rattle.command_line.specs.Words.{IsPlainWord, is_plain, words_of};

use lot_base::NoMemory;
use std::alloc::{AllocError, Global};

/// The words of a command line with each option and its value in one word.
#[derive(Drop)]
pub struct Joined<'a> {
    /// The first word.
    pub name: &'a str,
    /// The words after it.
    pub words: Vec<String>,
}

/// The words of a command line by what they are.
#[derive(Drop)]
pub struct Parted<'a> {
    /// The first word.
    pub name: &'a str,
    /// The words after it that are no option, in order.
    pub plain: Vec<&'a str>,
    /// The options after it, each with its value in one word, in order.
    pub options: Vec<&'a str>,
}

/// Joins each option with its value, if the first word is the name of a command and those after it are plain or options of it.
pub fn join_words(alloc: Global, words: &[String]) -> Result<Option<Joined<'_>>, NoMemory>
    ensures some { IfOk result (λ o. IfSome o (λ j. IsJoined (words_of words.now) j.name.now (words_of j.words.items))) }
    ensures none { IfOk result (λ o. IfNone o (IsNoCommand (words_of words.now))) }
    ensures memory { IfErr result (λ _. MayBeCommand (words_of words.now)) }
{
    let [name, behind @ ..] = words else {
        return Ok(None);
    };
    join_after(alloc, name.as_str(), behind)
}

/// The same, of the name and the words after it.
fn join_after<'a>(
    alloc: Global,
    name: &'a str,
    behind: &[String],
) -> Result<Option<Joined<'a>>, NoMemory>
    ensures some { IfOk result (λ o. IfSome o (λ j. IsJoined (name.entry.now ∷ words_of behind.now) j.name.now (words_of j.words.items))) }
    ensures none { IfOk result (λ o. IfNone o (IsNoCommand (name.entry.now ∷ words_of behind.now))) }
    ensures memory { IfErr result (λ _. MayBeCommand (name.entry.now ∷ words_of behind.now)) }
{
    if !is_name(name) {
        return Ok(None);
    }
    if !are_arguments(name, behind) {
        return Ok(None);
    }
    match joined_words(alloc, name, behind) {
        Ok(words) => Ok(Some(Joined { name, words })),
        Err(_) => Err(NoMemory),
    }
}

/// Whether the word is the name of a command.
fn is_name(word: &str) -> bool
    ensures { result ≡ is_among word.now command_names }
{
    matches!(
        word,
        "fold"
            | "check"
            | "standing"
            | "explain"
            | "judge"
            | "settle"
            | "trial"
            | "float"
            | "make"
            | "serve"
            | "bid"
            | "migrate"
    )
}

/// Whether each of these words is plain or an option of the command, once options are joined with their values.
fn are_arguments(name: &str, words: &[String]) -> bool
    ensures { result ≡ list_all (is_argument name.now) (joined name.now (words_of words.now)) }
{
    let mut rest = words;
    while let [word, behind @ ..] = rest {
        match value_of(name, word.as_str(), behind) {
            Some((_, others)) => rest = others,
            None if is_argument(name, word.as_str()) => rest = behind,
            None => return false,
        }
    }
    true
}

/// The words with each option and its value in one word.
fn joined_words(alloc: Global, name: &str, words: &[String]) -> Result<Vec<String>, AllocError>
    ensures { IfOk result (λ v. words_of v.items ≡ joined name.now (words_of words.now)) }
{
    let mut all = Vec::new(alloc);
    let mut rest = words;
    while let [word, behind @ ..] = rest {
        match value_of(name, word.as_str(), behind) {
            Some((value, others)) => {
                all.push(with_value(alloc, word.as_str(), value)?)?;
                rest = others;
            }
            None => {
                all.push(String::from_str(alloc, word.as_str())?)?;
                rest = behind;
            }
        }
    }
    Ok(all)
}

/// The value that the word takes from those after it, and the others, if it is an option that takes one.
fn value_of<'a>(name: &str, word: &str, behind: &'a [String]) -> Option<(&'a str, &'a [String])>
    ensures some { IfSome result (λ v. joined name.now (word.now ∷ words_of behind.entry.now) ≡ with_value word.now v.0.now ∷ joined
        name.now (words_of v.1.now)) }
    ensures known { IfSome result (λ v. is_argument name.now (with_value word.now v.0.now) ≡ true) }
    ensures shorter { IfSome result (λ v. length v.1.now < length behind.entry.now) }
    ensures none { IfNone result (joined name.now (word.now ∷ words_of behind.entry.now) ≡ word.now ∷ joined name.now
        (words_of behind.entry.now)) }
{
    let [value, others @ ..] = behind else {
        return None;
    };
    if !takes(name, word, value.as_str()) {
        return None;
    }
    Some((value.as_str(), others))
}

/// An option and its value in one word.
fn with_value(alloc: Global, option: &str, value: &str) -> Result<String, AllocError>
    ensures { IfOk result (λ word. string_bytes word ≡ with_value option.now value.now) }
{
    format!(in alloc; "{option}={value}")
}

/// Whether the word is an option with a value, and the one after it can be that value.
fn takes(name: &str, word: &str, value: &str) -> bool
    ensures { result ≡ takes name.now word.now value.now }
{
    is_valued(name, word) && is_plain(value)
}

/// Whether the word is an option of the command that has a value.
fn is_valued(name: &str, word: &str) -> bool
    ensures { result ≡ is_among word.now (valued_of name.now) }
{
    match name {
        "serve" => word == "--doors" || word == "--sessions",
        "bid" => word == "--looks",
        "trial" => word == "--workers",
        "make" => word == "--workers",
        _ => false,
    }
}

/// Whether the word is plain or an option of the command, with its value if it has one.
fn is_argument(name: &str, word: &str) -> bool
    ensures { result ≡ is_argument name.now word.now }
{
    is_plain(word) || is_option(name, word)
}

/// Whether the word is an option of the command, with its value if it has one.
fn is_option(name: &str, word: &str) -> bool
    ensures { result ≡ is_option name.now word.now }
{
    match name {
        "settle" => word == "--json",
        "serve" => begins("--doors=", word) || begins("--sessions=", word),
        "bid" => begins("--looks=", word),
        "trial" => begins("--workers=", word),
        "make" => begins("--workers=", word),
        _ => false,
    }
}

/// Whether the word begins so.
fn begins(front: &str, word: &str) -> bool
    ensures { result ≡ begins front.now word.now }
{
    word.starts_with(front)
}

/// Parts the words into plain ones and options.
pub fn part_words<'a>(alloc: Global, joined: &'a Joined) -> Result<Parted<'a>, AllocError>
    ensures name { IfOk result (λ p. p.name.now ≡ joined.entry.now.name.now) }
    ensures words { IfOk result (λ p. texts p.plain.items ≡ plain_in (words_of joined.entry.now.words.items)) }
    ensures options { IfOk result (λ p. texts p.options.items ≡ others_in (words_of joined.entry.now.words.items)) }
    ensures plain { IfOk result (λ p. All (λ word. IsPlainWord word.now) p.plain.items) }
{
    let plain = plain_words(alloc, joined.words.as_slice())?;
    let options = other_words(alloc, joined.words.as_slice())?;
    Ok(Parted {
        name: joined.name,
        plain,
        options,
    })
}

/// The plain ones of these words, in order.
fn plain_words<'a>(alloc: Global, words: &'a [String]) -> Result<Vec<&'a str>, AllocError>
    ensures words { IfOk result (λ v. texts v.items ≡ plain_in (words_of words.entry.now)) }
    ensures plain { IfOk result (λ v. All (λ word. IsPlainWord word.now) v.items) }
{
    let mut plain = Vec::new(alloc);
    for word in words {
        let text = word.as_str();
        if is_plain(text) {
            plain.push(text)?;
        }
    }
    Ok(plain)
}

/// The other ones of these words, in order.
fn other_words<'a>(alloc: Global, words: &'a [String]) -> Result<Vec<&'a str>, AllocError>
    ensures { IfOk result (λ v. texts v.items ≡ others_in (words_of words.entry.now)) }
{
    let mut others = Vec::new(alloc);
    for word in words {
        let text = word.as_str();
        if !is_plain(text) {
            others.push(text)?;
        }
    }
    Ok(others)
}

/// Whether a word is not empty and does not begin as an option does.
fn is_plain(word: &str) -> bool
    ensures { result ≡ is_plain word.now }
{
    match word.as_bytes() {
        [] => false,
        [first, ..] => *first != b'-',
    }
}
