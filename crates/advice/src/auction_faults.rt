//! What is told of an auction file that is refused.
ghost use Rattle.std.specs.Prelude.{◌≡◌, ◌≢◌, [], IfOk, string_bytes};

use crate::names::{Names, auction_text};
use auction_file::{AuctionFault, Key};
use lot_base::GoodsFault;
use std::alloc::{AllocError, Global};

const VERSION: &str = "1 or 2";

const CEILING: &str = "an integer from 2 to 10,000";

const GOODS: &str = "1 to 6 tables [[goods]]";

const GOOD: &str = "a table with name, supply and (version 2) opening";

const NAME: &str = "1 to 32 of the signs a to z, 0 to 9 and -, and no name twice";

const SUPPLY: &str = "an integer from 0 to 65,535";

const SUPPLIES: &str =
    "1 to 6 goods with a unit each, and at most 2,048 bundles: the product of each supply and one";

const OPENING: &str = "an integer from 0 to the ceiling less 1";

const BIDDERS: &str = "1 to 12 tables [[bidders]]";

const BIDDER: &str = "a table with name and token";

const TOKEN: &str = "64 hexadecimal digits, as printf %s TOKEN | sha256sum writes them";

const KEYS: &str =
    "version, ceiling, goods, bidders; name, supply and (version 2) opening of a good; name, token of a bidder";

/// The lines of an auction file that is refused for this fault.
pub(crate) fn refused_auction(
    alloc: Global,
    names: &Names,
    fault: &AuctionFault,
) -> Result<String, AllocError>
    ensures { IfOk result (λ text. string_bytes text ≢ []) }
{
    let file = auction_text(alloc, names)?;
    let wrong = fault_text(alloc, fault)?;
    let expected = expected(fault);
    format!(in alloc;
        "{file}: {wrong}\nexpected: {expected}; crates/auction_file/README.md has the format"
    )
}

/// What is wrong.
fn fault_text(alloc: Global, fault: &AuctionFault) -> Result<String, AllocError>
    ensures { IfOk result (λ text. string_bytes text ≢ []) }
{
    match fault {
        AuctionFault::NotToml => String::from_str(alloc, "it is no TOML document"),
        AuctionFault::Missing(key) => at_key(alloc, *key, "is missing"),
        AuctionFault::WrongKind(key) => at_key(alloc, *key, "is of another kind"),
        AuctionFault::Goods(fault) => goods_text(alloc, fault),
        AuctionFault::Bidders(count) => format!(in alloc; "there are {count} bidders"),
        AuctionFault::BadDigest(bidder) => {
            at_key(alloc, Key::Token(u32::from(*bidder)), "is no digest")
        }
        AuctionFault::Ceiling(value) => format!(in alloc; "the key \"ceiling\" is {value}"),
        AuctionFault::Repeated(key) => at_key(alloc, *key, "is that of an earlier one"),
        AuctionFault::UnknownKey(key) => {
            let key = key.as_str();
            format!(in alloc; "the key \"{key}\" is not known")
        }
        AuctionFault::Version(value) => format!(in alloc; "the key \"version\" is {value}"),
        AuctionFault::BadName(key) => at_key(alloc, *key, "is no name"),
        AuctionFault::BadSupply { good, value } => {
            valued(alloc, Key::Supply(u32::from(*good)), *value)
        }
        AuctionFault::Opening { good, value } => valued(alloc, Key::Opening(*good), *value),
        AuctionFault::NoMemory => String::from_str(alloc, "memory ran out over it"),
    }
}

/// What a key has, as it is told.
fn valued(alloc: Global, key: Key, value: i64) -> Result<String, AllocError>
    ensures { IfOk result (λ text. string_bytes text ≢ []) }
{
    let key = key_text(alloc, key)?;
    format!(in alloc; "{key} is {value}")
}

/// What is wrong at a key.
fn at_key(alloc: Global, key: Key, wrong: &str) -> Result<String, AllocError>
    ensures { IfOk result (λ text. string_bytes text ≢ []) }
{
    let key = key_text(alloc, key)?;
    format!(in alloc; "{key} {wrong}")
}

/// The key, as it is told.
fn key_text(alloc: Global, key: Key) -> Result<String, AllocError>
    ensures { IfOk result (λ text. string_bytes text ≢ []) }
{
    match key {
        Key::Version => String::from_str(alloc, "the key \"version\""),
        Key::Ceiling => String::from_str(alloc, "the key \"ceiling\""),
        Key::Goods => String::from_str(alloc, "the key \"goods\""),
        Key::Bidders => String::from_str(alloc, "the key \"bidders\""),
        Key::GoodTable(good) => format!(in alloc; "good {good} (counted from 0)"),
        Key::GoodName(good) => format!(in alloc;
            "the key \"name\" of good {good} (counted from 0)"
        ),
        Key::Supply(good) => format!(in alloc;
            "the key \"supply\" of good {good} (counted from 0)"
        ),
        Key::Opening(good) => format!(in alloc;
            "the key \"opening\" of good {good} (counted from 0)"
        ),
        Key::BidderTable(bidder) => format!(in alloc; "bidder {bidder}"),
        Key::BidderName(bidder) => format!(in alloc; "the key \"name\" of bidder {bidder}"),
        Key::Token(bidder) => format!(in alloc; "the key \"token\" of bidder {bidder}"),
    }
}

/// What is wrong with the supplies.
fn goods_text(alloc: Global, fault: &GoodsFault) -> Result<String, AllocError>
    ensures { IfOk result (λ text. string_bytes text ≢ []) }
{
    match fault {
        GoodsFault::NoGoods => String::from_str(alloc, "there is no good"),
        GoodsFault::TooManyGoods(count) => format!(in alloc; "there are {count} goods"),
        GoodsFault::ZeroSupply(good) => format!(in alloc;
            "good {good} (counted from 0) has no unit"
        ),
        GoodsFault::BoxTooLarge(count) => format!(in alloc; "the supplies make {count} bundles"),
    }
}

/// What stands in the place of the fault in a file that is read.
fn expected(fault: &AuctionFault) -> &'static str {
    match fault {
        AuctionFault::NotToml => "a TOML document in UTF-8 (https://toml.io)",
        AuctionFault::Missing(key)
        | AuctionFault::WrongKind(key)
        | AuctionFault::Repeated(key)
        | AuctionFault::BadName(key) => expected_at(*key),
        AuctionFault::Goods(_) => SUPPLIES,
        AuctionFault::Bidders(_) => BIDDERS,
        AuctionFault::BadDigest(_) => TOKEN,
        AuctionFault::Ceiling(_) => CEILING,
        AuctionFault::UnknownKey(_) => KEYS,
        AuctionFault::Version(_) => VERSION,
        AuctionFault::BadSupply { .. } => SUPPLY,
        AuctionFault::Opening { .. } => OPENING,
        AuctionFault::NoMemory => "a file for which there is memory",
    }
}

/// What a key has in a file that is read.
fn expected_at(key: Key) -> &'static str {
    match key {
        Key::Version => VERSION,
        Key::Ceiling => CEILING,
        Key::Goods => GOODS,
        Key::Bidders => BIDDERS,
        Key::GoodTable(_) => GOOD,
        Key::GoodName(_) | Key::BidderName(_) => NAME,
        Key::Supply(_) => SUPPLY,
        Key::Opening(_) => OPENING,
        Key::BidderTable(_) => BIDDER,
        Key::Token(_) => TOKEN,
    }
}
