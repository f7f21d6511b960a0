//! Why a format refuses what stands in a tree.
ghost use Rattle.std.specs.Prelude.{◌≡◌};
ghost use Rattle.toml_tree.specs.declared.faults.TreeFault.TheVariants.{NoMemory};

use crate::keys::KeyText;
use std::alloc::AllocError;

/// Why what stands in a tree is refused, with the key as the format names it.
#[derive(Debug, Drop)]
pub enum TreeFault<K> {
    /// The key is not there.
    Missing(K),
    /// The value is of another kind than the format asks for.
    WrongKind(K),
    /// The least key, in byte order, that the format does not know in its table.
    UnknownKey(KeyText),
    /// Out of memory.
    NoMemory,
}

impl<K> From<AllocError> for TreeFault<K> {
    ghost from_gives = { λ _ fault. fault ≡ NoMemory };

    fn from(_error: AllocError) -> TreeFault<K> {
        TreeFault::NoMemory
    }
}
