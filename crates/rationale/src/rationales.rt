//! The observations of one bidder.
ghost use Rattle.std.specs.Prelude.{◌≡◌, ◌<◌, ◌+◌, ℕ, List, [], ◌∷◌, ◌++◌, length, OnOk, IfOk, IfErr};
ghost use Rattle.lot_base.specs.Demands.{IsDemand};
ghost use Rattle.rationale.specs.declared.limits.TheConstants.{MOST_OBSERVATIONS};

use crate::stretches::{NotAdded, Stretch, keep};
use demand_set::Demand;
use lot_base::{Goods, NoMemory, Prices};
use std::alloc::Global;
use std::marker::Model;

/// What one bidder demanded at which prices, in the order in which it was added.
#[derive(Debug, Drop)]
pub struct Rationale {
    /// What the demands are of.
    pub(crate) goods: Goods,
    /// The observations, those of one demand after another together.
    pub(crate) stretches: Vec<Stretch>,
    /// How many observations there are.
    pub(crate) count: u32,
}

impl Model for Rationale {
    ghost use Rattle.rationale.specs.Observations.{RationaleOf};
    ghost use Rattle.rationale.specs.Kept.{observations_of, IsKept};

    ghost Value = { RationaleOf };

    ghost view = { λ r. record { supply = r.goods; observations = observations_of r.stretches.items } };

    ghost invariant = { λ r. IsKept r.goods r.stretches.items r.count };
}

impl Rationale {
    ghost use Rattle.rationale.specs.Kept.{AreLow};

    /// No observations, of demands of these goods.
    pub fn new(alloc: Global, goods: &Goods) -> Result<Rationale, NoMemory>
        ensures { IfOk result (λ r. r ≡ record { supply = goods.now; observations = [] }) }
    {
        Ok(Rationale {
            goods: *goods,
            stretches: Vec::new(alloc),
            count: 0,
        })
    }

    /// Adds what was demanded at these prices, and tells the observation's number, from 1. Where memory runs out the demand is
    /// given back, and nothing is added.
    pub fn add(&mut self, alloc: Global, prices: &Prices, demand: Demand) -> Result<u32, NotAdded>
        requires goods { length prices.now ≡ length self.old.supply }
        requires low { AreLow prices.now }
        requires demand { IsDemand self.old.supply demand }
        requires few { length self.old.observations < MOST_OBSERVATIONS }
        ensures added { OnOk result (self.new ≡ record {
          supply = self.old.supply;
          observations = self.old.observations ++ record { prices = prices.now; bundles = demand } ∷ [];
        }) }
        ensures number { IfOk result (λ number. number ≡ length self.old.observations + 1) }
        ensures err { IfErr result (λ e. (e.demand ≡ demand) × (self.new ≡ self.old)) }
    {
        keep(alloc, &self.goods, &mut self.stretches, prices, demand)?;
        self.count += 1;
        Ok(self.count)
    }
}
