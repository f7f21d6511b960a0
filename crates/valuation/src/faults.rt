//! Why a valuation file is refused, and where.

ghost use Rattle.std.specs.Prelude.{◌≡◌};
ghost use Rattle.valuation.specs.declared.faults.ValuesFault.TheVariants.{NoMemory};
ghost use Rattle.valuation.specs.Tree.{fault_of};

use std::alloc::{AllocError, AllocFailed};
use toml_tree::{KeyText, TreeFault};

/// A key of a valuation file, or a table of its array. Bidders are counted from 1.
#[derive(Clone, Copy, Debug, PartialEq, Eq)]
pub enum ValueKey {
    /// The array of tables `valuations`.
    Valuations,
    /// The table of this bidder.
    Table(u32),
    /// His `form`.
    Form(u32),
    /// His `values`.
    Values(u32),
    /// His `lists`.
    Lists(u32),
    /// His `cap`.
    Cap(u32),
}

/// Why a valuation file is refused: the first fault in the order of the format.
#[derive(Debug, Drop)]
pub enum ValuesFault {
    /// The bytes are no TOML document.
    NotToml,
    /// The key is not there.
    Missing(ValueKey),
    /// The value is of another kind than the format asks for.
    WrongKind(ValueKey),
    /// The entry at this place is not 0 to the ceiling less 1; or, where the place is the number of goods, the cap is not 0 to
    /// 65,535.
    Value { bidder: u8, place: u32 },
    /// A list has so many entries, or there are so many lists, and not as many as are needed.
    Length { bidder: u8, found: u64, needed: u32 },
    /// The table of this bidder gives the empty bundle a value.
    EmptyNotZero(u8),
    /// The bundle at this index, the first such one, is worth more than the ceiling less 1.
    Above { bidder: u8, index: u32 },
    /// There are so many valuations, and not one for each bidder.
    Bidders(u64),
    /// The least key, in byte order, that the format does not know in its table.
    UnknownKey(KeyText),
    /// The form of this bidder is none of the four.
    Form(u8),
    /// Out of memory.
    NoMemory,
}

impl From<TreeFault<ValueKey>> for ValuesFault {
    ghost from_gives = { λ found fault. fault ≡ fault_of found };

    fn from(found: TreeFault<ValueKey>) -> ValuesFault {
        match found {
            TreeFault::Missing(key) => ValuesFault::Missing(key),
            TreeFault::WrongKind(key) => ValuesFault::WrongKind(key),
            TreeFault::UnknownKey(key) => ValuesFault::UnknownKey(key),
            TreeFault::NoMemory => ValuesFault::NoMemory,
        }
    }
}

impl From<AllocError> for ValuesFault {
    ghost from_gives = { λ _ fault. fault ≡ NoMemory };

    fn from(_error: AllocError) -> ValuesFault {
        ValuesFault::NoMemory
    }
}

impl<T: Drop> From<AllocFailed<T>> for ValuesFault {
    ghost from_gives = { λ _ fault. fault ≡ NoMemory };

    fn from(_failed: AllocFailed<T>) -> ValuesFault {
        ValuesFault::NoMemory
    }
}

impl From<lot_base::NoMemory> for ValuesFault {
    ghost from_gives = { λ _ fault. fault ≡ NoMemory };

    fn from(_none: lot_base::NoMemory) -> ValuesFault {
        ValuesFault::NoMemory
    }
}
