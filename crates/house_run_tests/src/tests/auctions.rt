//! Auction files, and shelves with one.
use super::fixtures::{joined_text, sure_shelf};
use auction_file::{MOST_BYTES, read};
use house_io::SureShelf;
use std::alloc::Global;

/// The head of a file in version 1.
pub(super) const FIRST_VERSION: &str = "version = 1\nceiling = 10\n";

/// The head of a file in version 2.
pub(super) const SECOND_VERSION: &str = "version = 2\nceiling = 10\n";

/// The head of a file in version 1, with a ceiling of 100.
pub(super) const TO_HUNDRED: &str = "version = 1\nceiling = 100\n";

/// The head of a file in version 1, with a ceiling of 2.
pub(super) const TO_TWO: &str = "version = 1\nceiling = 2\n";

/// One unit of one good.
pub(super) const ONE_UNIT: &str = r#"
[[goods]]
name = "oil"
supply = 1
"#;

/// Two units of one good.
pub(super) const TWO_UNITS: &str = r#"
[[goods]]
name = "oil"
supply = 2
"#;

/// Three units of one good.
pub(super) const THREE_UNITS: &str = r#"
[[goods]]
name = "oil"
supply = 3
"#;

/// Two goods in one unit each.
pub(super) const TWO_GOODS: &str = r#"
[[goods]]
name = "north"
supply = 1

[[goods]]
name = "south"
supply = 1
"#;

/// Bidder 1, whose token is `abc`.
pub(super) const ADA: &str = r#"
[[bidders]]
name = "ada"
token = "ba7816bf8f01cfea414140de5dae2223b00361a396177a9cb410ff61f20015ad"
"#;

/// Bidder 2, whose token is `hello`.
pub(super) const BOB: &str = r#"
[[bidders]]
name = "bob"
token = "2cf24dba5fb0a30e26e83b2ac5b9e29e1b161e5c1fa7425e73043362938b9824"
"#;

/// Bidder 3, whose token is `hello` too.
const CYD: &str = r#"
[[bidders]]
name = "cyd"
token = "2cf24dba5fb0a30e26e83b2ac5b9e29e1b161e5c1fa7425e73043362938b9824"
"#;

const BIDDERS: &[&str] = &[ADA, BOB, CYD];

/// An auction file of this head, these goods and so many bidders.
pub(super) fn auction_of(
    alloc: Global,
    head: &str,
    goods: &str,
    bidders: usize,
) -> Option<Vec<u8>> {
    let mut file = joined_text(alloc, &[head, goods])?;
    for bidder in BIDDERS.iter().take(bidders) {
        file.extend_from_slice(bidder.as_bytes()).ok()?;
    }
    Some(file)
}

/// The digest of an auction file.
pub(super) fn digest_of(alloc: Global, file: &[u8]) -> Option<[u8; 32]> {
    if file.len() > MOST_BYTES {
        return None;
    }
    match read(alloc, file) {
        Ok(auction) => Some(auction.digest),
        Err(_) => None,
    }
}

/// An auction file of one unit for ada and bob.
fn ada_and_bob(alloc: Global) -> Option<Vec<u8>> {
    auction_of(alloc, FIRST_VERSION, ONE_UNIT, 2)
}

/// A shelf with that file, and with no journal.
pub(super) fn house_shelf(alloc: Global) -> Option<SureShelf> {
    let auction = ada_and_bob(alloc)?;
    sure_shelf(alloc, &[("a", auction.as_slice())])
}

/// A shelf with an auction file, and with valuations.
fn shelf_with_values<'a>(alloc: Global, auction: &'a [u8], values: &'a [u8]) -> Option<SureShelf> {
    sure_shelf(alloc, &[("a", auction), ("v", values)])
}

/// A shelf with that file, and with these valuations.
pub(super) fn bidder_shelf(alloc: Global, values: &str) -> Option<SureShelf> {
    let auction = ada_and_bob(alloc)?;
    shelf_with_values(alloc, &auction, values.as_bytes())
}
