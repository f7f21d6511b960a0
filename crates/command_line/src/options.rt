//! The values of options, which stand in one word with them.
ghost use Rattle.std.specs.Prelude.{◌≡◌, ◌++◌, ◌∷◌, [], ℕ, Bool, List, IfSome, IfNone};
ghost use Rattle.command_line.specs.Arguments.{HasFlag, IsNumberOption, own};
ghost use Rattle.command_line.specs.Givens.{IsGiven};
ghost use Rattle.command_line.specs.Positionals.{texts};

use crate::digits::read_number;

/// How often an option stands among others, and its value where it does once.
#[derive(Clone, Copy)]
pub(crate) enum Given<'a> {
    /// No option begins so.
    Never,
    /// One option begins so, and this is after it.
    Once(&'a str),
    /// More than one option begins so.
    Again,
}

/// Whether the option without a value is given, where it is the only one there is, and stands there once at most.
pub(crate) fn flag_of(options: &[&str], flag: &str) -> Option<bool>
    ensures some { IfSome result (HasFlag flag.now (texts options.now)) }
    ensures none { IfNone result ((given : Bool) → HasFlag flag.now (texts options.now) given → ⊥) }
{
    match options {
        [] => Some(false),
        [option] if *option == flag => Some(true),
        _ => None,
    }
}

/// The number that an option gives, one in a range, or its default where it does not stand among the options. The option begins so.
pub(crate) fn number_of(
    options: &[&str],
    front: &str,
    low: u32,
    high: u32,
    default: u32,
) -> Option<u32>
    ensures some { IfSome result (λ number. IsNumberOption front.now low high default number (texts options.now)) }
    ensures none { IfNone result ((number : ℕ) → IsNumberOption front.now low high default number (texts options.now) → ⊥) }
{
    match given_of(options, front) {
        Given::Never => Some(default),
        Given::Once(value) => read_number(value, low, high),
        Given::Again => None,
    }
}

/// How often an option that begins so stands there.
fn given_of<'a>(options: &[&'a str], front: &str) -> Given<'a>
    ensures { IsGiven result front.now (own front.now (texts options.now)) }
{
    let mut given = Given::Never;
    for option in options {
        if let Some(value) = option.strip_prefix(front) {
            given = once_more(given, value);
        }
    }
    given
}

/// The same, where it stands there once more.
fn once_more<'a>(given: Given<'a>, value: &'a str) -> Given<'a>
    ensures { (front : List ℕ) (words more : List (List ℕ)) → IsGiven given.entry front words
        → more ≡ words ++ (front ++ value.entry.now) ∷ [] → IsGiven result front more }
{
    match given {
        Given::Never => Given::Once(value),
        Given::Once(_) | Given::Again => Given::Again,
    }
}
