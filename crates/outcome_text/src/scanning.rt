//! The numbers of a text.
ghost use Rattle.std.specs.Prelude.{◌≡◌, IfOk};
ghost use Rattle.outcome_text.specs.Numbers.{number_in, numbers_in};

use std::alloc::{AllocError, Global};

/// The numbers among the words of a text, in order.
pub(crate) fn read_numbers(alloc: Global, text: &[u8]) -> Result<Vec<i64>, AllocError>
    ensures { IfOk result (λ v. v.items ≡ numbers_in text.now) }
{
    text.split(|byte| *byte == b' ' || *byte == b'\n')
        .filter_map(read_number)
        .collect(alloc)
}

/// The number that a word is, if it is one.
fn read_number(word: &[u8]) -> Option<i64>
    ensures { result ≡ number_in word.now }
{
    match str::from_utf8(word) {
        Ok(word) => word.parse::<i64>().ok(),
        Err(_) => None,
    }
}
