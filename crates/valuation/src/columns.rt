//! The units that each bundle has of a set of goods.
ghost use Rattle.std.specs.Prelude.{IfOk};
ghost use Rattle.valuation.specs.Carried.{IsColumn};

use crate::costs::costs_at;
use crate::reader::narrowed;
use lot_base::{GoodSet, Goods, NoMemory, Prices};
use std::alloc::Global;

/// The units that each bundle of the box has of a set of goods, in order of index. One column serves all bidders.
#[derive(Debug, Drop)]
pub struct Column {
    /// A number for each bundle.
    pub units: Vec<u16>,
}

/// The column of a set of the goods: what the bundles cost where each good of the set costs 1, and any other good nothing.
pub fn column_of(alloc: Global, goods: &Goods, set: GoodSet) -> Result<Column, NoMemory>
    ensures { IfOk result (λ c. IsColumn goods.now set.0 c.units.items) }
{
    let _count = goods.count();
    let costs = costs_at(alloc, goods, Prices::zero(goods).raise(set).as_slice())?;
    let units = narrowed(alloc, &costs)?;
    Ok(Column { units })
}
