//! How a demand is written out again.
ghost use Rattle.std.specs.Prelude.{◌≡◌, ◌≤◌, ◌++◌, ℕ, List, length, drop, Ok, IfOk};
ghost use Rattle.std.specs.List.{AllByRecursion, concat};

use crate::reading::Demand;
use lot_base::{NoMemory, RawDemand, Sequence};
use std::alloc::Global;

impl Demand {
    ghost use Rattle.lot_base.specs.Demands.{IsDemand};
    ghost use Rattle.demand_set.specs.Held.{IsSomeDemand};
    ghost use Rattle.demand_set.specs.Reading.{demand_of, bundles_of, AreWhole};

    /// The number of goods, and the quantities of one bundle after another.
    pub fn raw(&self, alloc: Global) -> Result<RawDemand, NoMemory>
        ensures goods { IfOk result (λ r. AllByRecursion (λ x. length x ≡ r.goods) self.now) }
        ensures quantities { IfOk result (λ r. r.quantities ≡ concat self.now) }

        // So it may be read again, and that gives the same demand.
        ensures whole { IfOk result (λ r. AreWhole r.goods r.quantities) }
        ensures bundles { IfOk result (λ r. bundles_of r.goods r.quantities ≡ self.now) }
        ensures read_back { IfOk result (λ r. (supply : List ℕ) → IsDemand supply self.now
            → demand_of supply r.goods (bundles_of r.goods r.quantities) ≡ Ok self.now) }
    {
        match self.quantities.to_vec(alloc) {
            Ok(quantities) => Ok(RawDemand {
                goods: self.goods,
                quantities: Sequence::from_vec(quantities),
            }),
            Err(_) => Err(NoMemory),
        }
    }

    /// Writes the quantities of one bundle after another, and tells how many there are. What is after them stays.
    pub fn raw_to(&self, into: &mut [u16]) -> u32
        requires { length (concat self.now) ≤ length into.old }
        ensures count { result ≡ length (concat self.now) }
        ensures written { into.new ≡ concat self.now ++ drop (length (concat self.now)) into.old }
    {
        let count = self.quantities.len();
        into[..count].copy_from_slice(&self.quantities);
        count as u32
    }

    /// The quantities of one bundle after another.
    pub fn quantities(&self) -> &[u16]
        ensures value { result.now ≡ concat self.now }
        ensures held { IsSomeDemand self.now }
    {
        &self.quantities
    }
}
