//! Whether an auction can go on under another file.
ghost use Rattle.std.specs.Prelude.{◌≡◌, ◌↔◌, List, length, replicate, IsTrue};
ghost use Rattle.lot_base.specs.Goods.{zeros};
ghost use Rattle.migration.specs.Moving.{AreSameTerms, IsSameAuction};

use auction_file::{Auction, Name};
use lot_base::{Goods, Terms};

/// Whether an auction can go on under another file: the second file names the same goods, bidders and tokens, with the same supplies and
/// the same ceiling; it is of version 2, and in both all goods open at 0.
pub fn is_same_auction(old: &Auction, new: &Auction) -> bool
    ensures { IsTrue result ↔ IsSameAuction old.now new.now }
{
    are_same_terms(&old.terms, &new.terms)
        && are_same_names(new.good_names.as_slice(), old.good_names.as_slice())
        && are_same_names(new.bidder_names.as_slice(), old.bidder_names.as_slice())
        && are_same_tokens(new.token_digests.as_slice(), old.token_digests.as_slice())
}

/// Whether the second terms, of version 2, are of the same goods, bidders and ceiling, and all goods open at 0 in both.
fn are_same_terms(old: &Terms, new: &Terms) -> bool
    ensures { IsTrue result ↔ AreSameTerms old.now new.now }
{
    new.version == 2
        && new.bidders == old.bidders
        && new.ceiling == old.ceiling
        && are_same_goods(&new.goods, &old.goods)
        && opens_at_zero(old)
        && opens_at_zero(new)
}

/// Whether all goods open at 0.
fn opens_at_zero(terms: &Terms) -> bool
    ensures { IsTrue result ↔ (terms.now.opening ≡ zeros terms.now.goods) }
{
    are_zeros(terms.opening.as_slice())
}

/// Whether all prices are 0.
fn are_zeros(prices: &[u32]) -> bool
    ensures { IsTrue result ↔ (prices.now ≡ replicate (length prices.now) 0) }
{
    for price in prices {
        if *price != 0 {
            return false;
        }
    }
    true
}

/// Whether the supplies are the same.
fn are_same_goods(one: &Goods, other: &Goods) -> bool
    ensures { IsTrue result ↔ (one.now ≡ other.now) }
{
    let count = one.count();
    if other.count() != count {
        return false;
    }
    for good in 0..count {
        if one.supply(good) != other.supply(good) {
            return false;
        }
    }
    true
}

/// Whether the names are the same, in the same order.
fn are_same_names(one: &[Name], other: &[Name]) -> bool
    ensures { IsTrue result ↔ (one.now ≡ other.now) }
{
    if one.len() != other.len() {
        return false;
    }
    for (place, name) in one.iter().enumerate() {
        if name.as_bytes() != other[place].as_bytes() {
            return false;
        }
    }
    true
}

/// Whether the digests are the same, in the same order.
fn are_same_tokens(one: &[[u8; 32]], other: &[[u8; 32]]) -> bool
    ensures { IsTrue result ↔ (one.now ≡ other.now) }
{
    if one.len() != other.len() {
        return false;
    }
    for (place, digest) in one.iter().enumerate() {
        if *digest != other[place] {
            return false;
        }
    }
    true
}
