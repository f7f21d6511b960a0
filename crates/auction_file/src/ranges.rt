//! Numbers in a range.
ghost use Rattle.std.specs.Prelude.{◌≡◌};
ghost use Rattle.auction_file.specs.Tree.{within};

/// The number, if it is from `low` to `high`.
pub(crate) fn within(value: i64, low: u16, high: u16) -> Option<u16>
    ensures { result ≡ within low high value }
{
    match u16::try_from(value) {
        Ok(number) if low <= number && number <= high => Some(number),
        _ => None,
    }
}
