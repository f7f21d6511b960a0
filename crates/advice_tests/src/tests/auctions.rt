//! Auction files.
use super::{CHECK, MIGRATE, check_names, check_text};
use auction_file::{AuctionFault, Key, KeyText};
use house_run::Ended;
use lot_base::GoodsFault;
use std::process::Abort;
use std::test::Fail;

/// Each key.
const KEYS: &[Key] = &[
    Key::Version,
    Key::Ceiling,
    Key::Goods,
    Key::Bidders,
    Key::GoodTable(1),
    Key::GoodName(1),
    Key::Supply(1),
    Key::Opening(1),
    Key::BidderTable(2),
    Key::BidderName(2),
    Key::Token(2),
];

#[test]
fn faults_at_keys_name_the_file(rt: HostRuntime) -> Result<(), Fail> {
    for key in KEYS {
        let ends = [
            Ended::BadAuction(AuctionFault::Missing(*key)),
            Ended::BadAuction(AuctionFault::WrongKind(*key)),
            Ended::BadAuction(AuctionFault::Repeated(*key)),
            Ended::BadAuction(AuctionFault::BadName(*key)),
        ];
        check_names(&rt, CHECK, "\"auction.toml\": ", &ends)?;
        check_names(&rt, MIGRATE, "\"old.toml\" or \"new.toml\": ", &ends)?;
    }
    Ok(())
}

#[test]
fn faults_name_the_file(rt: HostRuntime) -> Result<(), Fail> {
    let ends = [
        Ended::BadAuction(AuctionFault::NotToml),
        Ended::BadAuction(AuctionFault::Goods(GoodsFault::NoGoods)),
        Ended::BadAuction(AuctionFault::Goods(GoodsFault::TooManyGoods(7))),
        Ended::BadAuction(AuctionFault::Goods(GoodsFault::ZeroSupply(1))),
        Ended::BadAuction(AuctionFault::Goods(GoodsFault::BoxTooLarge(2_049))),
        Ended::BadAuction(AuctionFault::Bidders(13)),
        Ended::BadAuction(AuctionFault::BadDigest(2)),
        Ended::BadAuction(AuctionFault::Ceiling(1)),
        Ended::BadAuction(AuctionFault::UnknownKey(KeyText::new(String::new(rt.alloc())))),
        Ended::BadAuction(AuctionFault::Version(3)),
        Ended::BadAuction(AuctionFault::BadSupply { good: 0, value: -1 }),
        Ended::BadAuction(AuctionFault::Opening { good: 0, value: 10 }),
        Ended::BadAuction(AuctionFault::NoMemory),
    ];
    check_names(&rt, CHECK, "\"auction.toml\": ", &ends)
}

const VERSION: &str = "1 or 2";

const CEILING: &str = "an integer from 2 to 10,000";

const GOODS: &str = "1 to 6 tables [[goods]]";

const GOOD: &str = "a table with name, supply and (version 2) opening";

const NAME: &str = "1 to 32 of the signs a to z, 0 to 9 and -, and no name twice";

const SUPPLY: &str = "an integer from 0 to 65,535";

const SUPPLIES: &str =
    "1 to 6 goods with a unit each, and at most 2,048 bundles: the product of each supply and one";

const OPENING: &str = "an integer from 0 to the ceiling less 1";

const BIDDERS: &str = "1 to 12 tables [[bidders]]";

const BIDDER: &str = "a table with name and token";

const TOKEN: &str = "64 hexadecimal digits, as printf %s TOKEN | sha256sum writes them";

/// A key, how it is told, and what it has in a file that is read.
type Keyed = (Key, &'static str, &'static str);

const KEYED: &[Keyed] = &[
    (Key::Version, "the key \"version\"", VERSION),
    (Key::Ceiling, "the key \"ceiling\"", CEILING),
    (Key::Goods, "the key \"goods\"", GOODS),
    (Key::Bidders, "the key \"bidders\"", BIDDERS),
    (Key::GoodTable(5), "good 5 (counted from 0)", GOOD),
    (
        Key::GoodName(5),
        "the key \"name\" of good 5 (counted from 0)",
        NAME,
    ),
    (
        Key::Supply(5),
        "the key \"supply\" of good 5 (counted from 0)",
        SUPPLY,
    ),
    (
        Key::Opening(5),
        "the key \"opening\" of good 5 (counted from 0)",
        OPENING,
    ),
    (Key::BidderTable(12), "bidder 12", BIDDER),
    (Key::BidderName(12), "the key \"name\" of bidder 12", NAME),
    (Key::Token(12), "the key \"token\" of bidder 12", TOKEN),
];

/// Checks what is told of an auction file that is refused: what is wrong, and what is expected.
fn check_fault(
    rt: &(impl AllocGlobal + Abort),
    fault: AuctionFault,
    wrong: &str,
    expected: &str,
) -> Result<(), Fail> {
    let lines = format!(in rt.alloc();
        "\"auction.toml\": {wrong}\nexpected: {expected}; crates/auction_file/README.md has the format"
    )?;
    check_text(rt, CHECK, &Ended::BadAuction(fault), lines.as_str())
}

/// Checks what is told of each fault at a key.
fn check_key(rt: &(impl AllocGlobal + Abort), keyed: &Keyed) -> Result<(), Fail> {
    let (key, told, expected) = *keyed;
    let missing = format!(in rt.alloc(); "{told} is missing")?;
    check_fault(rt, AuctionFault::Missing(key), missing.as_str(), expected)?;
    let kind = format!(in rt.alloc(); "{told} is of another kind")?;
    check_fault(rt, AuctionFault::WrongKind(key), kind.as_str(), expected)?;
    let repeated = format!(in rt.alloc(); "{told} is that of an earlier one")?;
    check_fault(rt, AuctionFault::Repeated(key), repeated.as_str(), expected)?;
    let name = format!(in rt.alloc(); "{told} is no name")?;
    check_fault(rt, AuctionFault::BadName(key), name.as_str(), expected)
}

#[test]
fn faults_at_keys_have_their_lines(rt: HostRuntime) -> Result<(), Fail> {
    for keyed in KEYED {
        check_key(&rt, keyed)?;
    }
    Ok(())
}

#[test]
fn an_unknown_key_has_its_lines(rt: HostRuntime) -> Result<(), Fail> {
    let suply = KeyText::new(String::from_str(rt.alloc(), "suply")?);
    check_fault(
        &rt,
        AuctionFault::UnknownKey(suply),
        "the key \"suply\" is not known",
        "version, ceiling, goods, bidders; name, supply and (version 2) opening of a good; name, token of a bidder",
    )
}

#[test]
fn faults_have_their_lines(rt: HostRuntime) -> Result<(), Fail> {
    let rows = [
        (
            AuctionFault::NotToml,
            "it is no TOML document",
            "a TOML document in UTF-8 (https://toml.io)",
        ),
        (
            AuctionFault::Goods(GoodsFault::NoGoods),
            "there is no good",
            SUPPLIES,
        ),
        (
            AuctionFault::Goods(GoodsFault::TooManyGoods(7)),
            "there are 7 goods",
            SUPPLIES,
        ),
        (
            AuctionFault::Goods(GoodsFault::ZeroSupply(5)),
            "good 5 (counted from 0) has no unit",
            SUPPLIES,
        ),
        (
            AuctionFault::Goods(GoodsFault::BoxTooLarge(2_049)),
            "the supplies make 2049 bundles",
            SUPPLIES,
        ),
        (AuctionFault::Bidders(13), "there are 13 bidders", BIDDERS),
        (
            AuctionFault::BadDigest(12),
            "the key \"token\" of bidder 12 is no digest",
            TOKEN,
        ),
        (
            AuctionFault::Ceiling(-1),
            "the key \"ceiling\" is -1",
            CEILING,
        ),
        (
            AuctionFault::Version(3),
            "the key \"version\" is 3",
            VERSION,
        ),
        (
            AuctionFault::BadSupply {
                good: 5,
                value: 70_000,
            },
            "the key \"supply\" of good 5 (counted from 0) is 70000",
            SUPPLY,
        ),
        (
            AuctionFault::Opening { good: 5, value: -1 },
            "the key \"opening\" of good 5 (counted from 0) is -1",
            OPENING,
        ),
        (
            AuctionFault::NoMemory,
            "memory ran out over it",
            "a file for which there is memory",
        ),
    ];
    for (fault, wrong, expected) in rows {
        check_fault(&rt, fault, wrong, expected)?;
    }
    Ok(())
}
