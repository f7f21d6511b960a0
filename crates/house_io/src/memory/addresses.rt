//! The addresses that a net in memory was asked for.
ghost use Rattle.std.specs.Prelude.{◌≡◌, [], ◌∷◌, ◌++◌, ℕ, List, map, OnOk, OnErr, string_bytes};

use lot_base::NoMemory;
use std::alloc::Global;
use std::marker::Model;

/// Addresses, seen as the list of their bytes.
#[derive(Drop)]
pub(crate) struct Addresses {
    /// In the order in which they were asked for.
    list: Vec<String>,
}

impl Model for Addresses {
    ghost use Rattle.std.specs.Prelude.{List, ℕ, map, string_bytes};

    ghost Value = { List (List ℕ) };

    ghost view = { λ addresses. map (λ address. string_bytes address) addresses.list.items };
}

impl Addresses {
    /// None yet.
    pub(crate) fn none(alloc: Global) -> Addresses
        ensures { result ≡ [] }
    {
        Addresses {
            list: Vec::new(alloc),
        }
    }

    /// Notes one more.
    pub(crate) fn note(&mut self, alloc: Global, address: &str) -> Result<(), NoMemory>
        ensures noted { OnOk result (self.new ≡ self.old ++ address.now ∷ []) }
        ensures unchanged { OnErr result (self.new ≡ self.old) }
    {
        let Ok(own) = String::from_str(alloc, address) else {
            return Err(NoMemory);
        };
        match self.list.push(own) {
            Ok(()) => Ok(()),
            Err(_) => Err(NoMemory),
        }
    }

    /// The addresses, in order.
    pub(crate) fn list(&self) -> &[String]
        ensures { map (λ address. string_bytes address) result.now ≡ self.now }
    {
        &self.list
    }
}
