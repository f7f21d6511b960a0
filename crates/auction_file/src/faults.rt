//! Why an auction file is refused, and where.

ghost use Rattle.std.specs.Prelude.{◌≡◌};
ghost use Rattle.auction_file.specs.declared.faults.AuctionFault.TheVariants.{NoMemory};
ghost use Rattle.auction_file.specs.Tree.{fault_of};

use lot_base::GoodsFault;
use std::alloc::{AllocError, AllocFailed};
use toml_tree::{KeyText, TreeFault};

/// A key of an auction file, or a table of one of its arrays. Goods are counted from 0, bidders from 1.
#[derive(Clone, Copy, Debug, PartialEq, Eq)]
pub enum Key {
    /// `version`.
    Version,
    /// `ceiling`.
    Ceiling,
    /// The array of tables `goods`.
    Goods,
    /// The array of tables `bidders`.
    Bidders,
    /// The table of this good.
    GoodTable(u32),
    /// Its `name`.
    GoodName(u32),
    /// Its `supply`.
    Supply(u32),
    /// Its `opening`.
    Opening(u32),
    /// The table of this bidder.
    BidderTable(u32),
    /// His `name`.
    BidderName(u32),
    /// His `token`, by its digest.
    Token(u32),
}

/// Why an auction file is refused: the first fault in the order of the format.
#[derive(Debug, Drop)]
pub enum AuctionFault {
    /// The bytes are no TOML document.
    NotToml,
    /// The key is not there.
    Missing(Key),
    /// The value is of another kind than the format asks for.
    WrongKind(Key),
    /// The supplies cannot be sold.
    Goods(GoodsFault),
    /// There are not 1 to 12 bidders but so many.
    Bidders(u64),
    /// The token of this bidder is not 64 hexadecimal digits.
    BadDigest(u8),
    /// The ceiling is not 2 to 10,000.
    Ceiling(i64),
    /// An earlier element of the same array has the name.
    Repeated(Key),
    /// The least key, in byte order, that the format does not know in its table.
    UnknownKey(KeyText),
    /// The version is neither 1 nor 2.
    Version(i64),
    /// The string is no name.
    BadName(Key),
    /// The supply is not 0 to 65,535. `good` is 255 where the good's place is larger.
    BadSupply { good: u8, value: i64 },
    /// The opening price is not 0 to the ceiling less 1. The good is counted as in a key.
    Opening { good: u32, value: i64 },
    /// Out of memory.
    NoMemory,
}

impl From<TreeFault<Key>> for AuctionFault {
    ghost from_gives = { λ found fault. fault ≡ fault_of found };

    fn from(found: TreeFault<Key>) -> AuctionFault {
        match found {
            TreeFault::Missing(key) => AuctionFault::Missing(key),
            TreeFault::WrongKind(key) => AuctionFault::WrongKind(key),
            TreeFault::UnknownKey(key) => AuctionFault::UnknownKey(key),
            TreeFault::NoMemory => AuctionFault::NoMemory,
        }
    }
}

impl From<AllocError> for AuctionFault {
    ghost from_gives = { λ _ fault. fault ≡ NoMemory };

    fn from(_error: AllocError) -> AuctionFault {
        AuctionFault::NoMemory
    }
}

impl<T: Drop> From<AllocFailed<T>> for AuctionFault {
    ghost from_gives = { λ _ fault. fault ≡ NoMemory };

    fn from(_failed: AllocFailed<T>) -> AuctionFault {
        AuctionFault::NoMemory
    }
}
