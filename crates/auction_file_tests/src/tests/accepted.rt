//! Files that are read, with their values.
use super::*;
use auction_file::{Auction, Name};
use expected_values::equal;
use lot_base::{Sequence, Terms};

/// The text of `examples/spectrum/auction.toml`.
const SPECTRUM: &str =
    r#"# Spectrum licences in three bands, offered to four operators. Prices are in thousands per licence.
#
# The key `token` has the SHA-256 of the operator's token. The tokens are tide-4411, lamp-2093, gull-7750 and fern-1187.
version = 1
ceiling = 1000

[[goods]]
name = "band-700"
supply = 4

[[goods]]
name = "band-2100"
supply = 3

[[goods]]
name = "band-3500"
supply = 2

[[bidders]]
name = "northern-wave"
token = "88df0fa98e5c6c66dabe35c182948d76f803c1e23ce628d6722eb175a3cc8540"

[[bidders]]
name = "coast-mobile"
token = "45d25ade7ea657eb226ad90a06e80a2b72e1c71a6dc0f46919b8868813da4235"

[[bidders]]
name = "island-radio"
token = "ed817d0da865a4dc213a82def040ed24ae18b029e8dcdc7f665190ad3d1b63fb"

[[bidders]]
name = "upland-link"
token = "0468b5c359300d77ace154e326fc59c4f0bdb9d6dd0f275ccb855baf46f23973"
"#;

/// The text of `examples/reserves.toml`.
const RESERVES: &str =
    r#"# Two licences offered to three operators, neither for less than 5. Prices are in thousands per licence.
#
# The key `opening` has the reserve price, at which each clock opens. The key `token` has the SHA-256 of the operator's token. The
# tokens of ada, bob and cyd are reed-5102, mole-3380 and kite-9046.
version = 2
ceiling = 100

[[goods]]
name = "licence"
supply = 2
opening = 5

[[bidders]]
name = "ada"
token = "fe8287710f16305de549bc7176623b17fbd71bb18e47a759861f52d9b6d5b3a7"

[[bidders]]
name = "bob"
token = "186cb3edf481bb94d01b6270ca66191577009644a540cd21dd987c6e09cc0200"

[[bidders]]
name = "cyd"
token = "0f52853b8c900975f88874a5c08a6eb81c2b47010c40cb9ff42ccd0b2f1d6170"
"#;

/// The auction of this text.
fn auction_of(rt: &(impl AllocGlobal + Abort), text: &str) -> Auction {
    assert!(rt; text.len() <= MOST_BYTES);
    match read(rt.alloc(), text.as_bytes()) {
        Ok(auction) => auction,
        Err(fault) => panic!(rt; "{fault:?}"),
    }
}

/// Whether these are the digits of the digest.
fn is_digest(found: [u8; 32], digits: &str) -> bool {
    match <[u8; 32] as hex::FromHex>::from_hex(digits) {
        Ok(digest) => digest == found,
        Err(_) => false,
    }
}

/// Whether the name at this place, of so many, is this one.
fn is_name_at(names: &Sequence<Name>, place: usize, count: usize, name: &str) -> bool {
    match names.as_slice().get(place) {
        Some(found) => found.as_bytes() == name.as_bytes() && names.as_slice().len() == count,
        None => false,
    }
}

/// Whether the token at this place, of so many, has these digits.
fn is_token_at(tokens: &Sequence<[u8; 32]>, place: usize, count: usize, digits: &str) -> bool {
    match tokens.as_slice().get(place) {
        Some(found) => is_digest(*found, digits) && tokens.as_slice().len() == count,
        None => false,
    }
}

/// The terms in words: the version, the goods and their bundles, the bidders, the ceiling and the opening prices.
fn words_of(rt: &impl AllocGlobal, terms: &Terms) -> Result<String, AllocError> {
    let version = terms.version;
    let goods = terms.goods.count();
    let bundles = terms.goods.box_size();
    let bidders = terms.bidders;
    let ceiling = terms.ceiling;
    let opening = terms.opening.as_slice();
    format!(in rt.alloc();
        "{version}: {goods} goods, {bundles} bundles, {bidders} bidders, {ceiling}, {opening:?}"
    )
}

/// The terms of this text in words.
fn terms_of(rt: &(impl AllocGlobal + Abort), text: &str) -> Result<String, AllocError> {
    let auction = auction_of(rt, text);
    words_of(rt, &auction.terms)
}

#[test]
fn reads_two_bidders_for_oil(rt: HostRuntime) -> Result<(), Fail> {
    let text = format!(in rt.alloc(); "{HEAD}{GOODS}{BIDDERS}")?;
    let auction = auction_of(&rt, text.as_str());
    let found = words_of(&rt, &auction.terms)?;
    equal(found.as_str(), "1: 1 goods, 2 bundles, 2 bidders, 10, [0]")?;
    assert!(rt; is_name_at(&auction.good_names, 0, 1, "oil"));
    assert!(rt; is_name_at(&auction.bidder_names, 0, 2, "ada"));
    assert!(rt; is_name_at(&auction.bidder_names, 1, 2, "bob"));
    let ada = "ba7816bf8f01cfea414140de5dae2223b00361a396177a9cb410ff61f20015ad";
    assert!(rt; is_token_at(&auction.token_digests, 0, 2, ada));
    let bob = "2cf24dba5fb0a30e26e83b2ac5b9e29e1b161e5c1fa7425e73043362938b9824";
    assert!(rt; is_token_at(&auction.token_digests, 1, 2, bob));
    let of_file = "6e93b44239fde4c8a23bf3f02acc4951ba3b8c668825df3223f9b93afbdc3e77";
    assert!(rt; is_digest(auction.digest, of_file));
    Ok(())
}

/// As many goods as there can be.
const SIX_GOODS: &str = r#"
[[goods]]
name = "oil"
supply = 1

[[goods]]
name = "gas"
supply = 1

[[goods]]
name = "coal"
supply = 1

[[goods]]
name = "wind"
supply = 1

[[goods]]
name = "peat"
supply = 1

[[goods]]
name = "wood"
supply = 1
"#;

#[test]
fn reads_six_goods(rt: HostRuntime) -> Result<(), Fail> {
    let text = format!(in rt.alloc(); "{HEAD}{SIX_GOODS}{BIDDERS}")?;
    let found = terms_of(&rt, text.as_str())?;
    equal(
        found.as_str(),
        "1: 6 goods, 64 bundles, 2 bidders, 10, [0, 0, 0, 0, 0, 0]",
    )?;
    Ok(())
}

#[test]
fn reads_the_examples(rt: HostRuntime) -> Result<(), Fail> {
    let auction = auction_of(&rt, SPECTRUM);
    let found = words_of(&rt, &auction.terms)?;
    equal(
        found.as_str(),
        "1: 3 goods, 60 bundles, 4 bidders, 1000, [0, 0, 0]",
    )?;
    assert!(rt; is_name_at(&auction.bidder_names, 3, 4, "upland-link"));
    let of_file = "bed3ff8b108e60d7f3222e856133c405a6b89ce144c67078973472783ad47ba6";
    assert!(rt; is_digest(auction.digest, of_file));
    let auction = auction_of(&rt, RESERVES);
    let found = words_of(&rt, &auction.terms)?;
    equal(found.as_str(), "2: 1 goods, 3 bundles, 3 bidders, 100, [5]")?;
    assert!(rt; is_name_at(&auction.bidder_names, 2, 3, "cyd"));
    let cyd = "0f52853b8c900975f88874a5c08a6eb81c2b47010c40cb9ff42ccd0b2f1d6170";
    assert!(rt; is_token_at(&auction.token_digests, 2, 3, cyd));
    let of_file = "5d86aa7fcebf779893fe4f8765b7b44c97e4a7e1f6e82e708534d98c8b16a591";
    assert!(rt; is_digest(auction.digest, of_file));
    Ok(())
}

#[test]
fn reads_the_openings_in_the_order_of_the_goods(rt: HostRuntime) -> Result<(), Fail> {
    let second = format!(in rt.alloc(); "{HEAD_2}{THREE_GOODS}{BIDDERS}")?;
    let found = terms_of(&rt, second.as_str())?;
    equal(
        found.as_str(),
        "2: 3 goods, 24 bundles, 2 bidders, 10, [9, 0, 4]",
    )?;
    let plain = format!(in rt.alloc(); "{HEAD_2}{GOODS}{BIDDERS}")?;
    let found = terms_of(&rt, plain.as_str())?;
    equal(found.as_str(), "2: 1 goods, 2 bundles, 2 bidders, 10, [0]")?;
    Ok(())
}

#[test]
fn reads_other_spellings_of_the_same_tree(rt: HostRuntime) -> Result<(), Fail> {
    let tables = r#"goods = [{ supply = 1, name = "oil" }, { name = "gas", supply = 65_535, },]
"#;
    check(
        &rt,
        &[
            (
                HEAD,
                "goods = [{ name = \"oil\", supply = 1 }]\n",
                BIDDERS,
                "read",
            ),
            (
                "ceiling = 10\n# the version of the format\nversion = 0x1 # 1\n",
                GOODS,
                BIDDERS,
                "read",
            ),
            (
                "\"version\" = 1\r\nceiling = 10_000\r\n",
                GOODS,
                BIDDERS,
                "read",
            ),
            ("version = 1\nceiling = 2\n", GOODS, BIDDERS, "read"),
            (HEAD, BIDDERS, GOODS, "read"),
            (
                HEAD,
                "[[goods]]\nname = \"a-name-of-32-bytes-0123456789abc\"\nsupply = 2047\n",
                BIDDERS,
                "read",
            ),
            (
                HEAD,
                "[[goods]]\nname = 'x'\nsupply = +7\n",
                BIDDERS,
                "read",
            ),
            (
                HEAD,
                GOODS,
                "[[bidders]]\nname = \"oil\"\ntoken = \"BA7816BF8F01CFEA414140DE5DAE2223B00361A396177A9CB410FF61F20015AD\"\n",
                "read",
            ),
            (HEAD, tables, BIDDERS, "Goods(BoxTooLarge(131072))"),
        ],
    )?;
    Ok(())
}

#[test]
fn keeps_what_it_is_made_of(rt: HostRuntime) -> Result<(), Fail> {
    assert!(rt; Name::read(b"oil").is_some());
    assert!(rt; Name::read(b"").is_none());
    let key = KeyText::new(String::from_str(rt.alloc(), "unit")?);
    equal(key.as_str(), "unit")?;
    assert!(rt; matches!(AuctionFault::from(AllocError), AuctionFault::NoMemory));
    Ok(())
}
