//! What a bidder with a valuation wants.
ghost use Rattle.std.specs.Prelude.{◌≡◌, ℕ, length, IfOk};
ghost use Rattle.std.specs.List.{concat};
ghost use Rattle.lot_base.specs.Economy.{demand};
ghost use Rattle.valuation.specs.Values.{valuation_of};
ghost use Rattle.report_wire.specs.Frames.{IsMessage};
ghost use Rattle.report_wire.specs.Messages.{to_house};
ghost use Rattle.report_wire.specs.Payloads.{report_payload};

use crate::agents::Demands;
use lot_base::{Goods, NoMemory, Prices, RawDemand, Sequence};
use std::alloc::Global;
use valuation::Valuation;

/// A bidder who demands the bundles of the greatest surplus, all of them.
#[derive(Clone, Copy)]
pub struct Wants<'a> {
    /// The supply within which the bundles are.
    pub goods: Goods,
    /// What each bundle within the supply is worth to the bidder.
    pub valuation: &'a Valuation,
}

impl<'a> Demands for Wants<'a> {
    ghost goods = { λ wants. length wants.goods };

    ghost demands = { λ wants prices. concat (demand wants.goods (valuation_of wants.goods wants.valuation.now) prices) };

    fn demand(&self, alloc: Global, prices: &Prices) -> Result<RawDemand, NoMemory> {
        let demand = self.valuation.demand(alloc, &self.goods, prices)?;
        let goods = self.goods.count();
        match demand.quantities().to_vec(alloc) {
            Ok(quantities) => Ok(RawDemand {
                goods,
                quantities: Sequence::from_vec(quantities),
            }),
            Err(_) => Err(NoMemory),
        }
    }
}
