//! Numbers in words.
ghost use Rattle.std.specs.Prelude.{◌≡◌, ◌≤◌, ℕ, decimal, IfSome, IfNone};
ghost use Rattle.std.specs.List.{list_all};
ghost use Rattle.std.specs.Char.{is_ascii_digit};
ghost use Rattle.command_line.specs.Numerals.{is_numeral};

/// The number in a range whose decimal digits a word is, without a leading zero.
pub(crate) fn read_number(word: &str, low: u32, high: u32) -> Option<u32>
    ensures some { IfSome result (λ number. (word.now ≡ decimal number) × (low ≤ number) × (number ≤ high)) }
    ensures none { IfNone result ((number : ℕ) → low ≤ number → number ≤ high → word.now ≡ decimal number → ⊥) }
{
    if !is_numeral(word.as_bytes()) {
        return None;
    }
    match word.parse::<u32>() {
        Ok(number) if low <= number && number <= high => Some(number),
        _ => None,
    }
}

/// Whether these are decimal digits without a leading zero, but for `0` itself.
fn is_numeral(bytes: &[u8]) -> bool
    ensures { result ≡ is_numeral bytes.now }
{
    match bytes {
        [] => false,
        [b'0', _, ..] => false,
        _ => all_digits(bytes),
    }
}

fn all_digits(bytes: &[u8]) -> bool
    ensures { result ≡ list_all is_ascii_digit bytes.now }
{
    bytes.iter().all(|byte| byte.is_ascii_digit())
}
