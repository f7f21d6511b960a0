//! The exchange check.
ghost use Rattle.valuation.specs.Values.{valuation_of};
ghost use Rattle.exchange_check.specs.Verdicts.{IsRight};

use crate::local_test::is_strong;
use crate::scan::first_broken;
use crate::tables::Table;
use lot_base::{Bundle, Goods};
use valuation::Valuation;

/// What the exchange check finds.
#[derive(Clone, Copy, Debug)]
pub enum Verdict {
    /// The goods are strong substitutes at the valuation.
    Holds,
    /// The first triple that breaks the exchange property, by index of `x`, index of `y`, and good: no unit of the good can go from
    /// `x` to `y`, alone or against a unit of another good, without loss.
    Breaks { x: Bundle, y: Bundle, good: u8 },
}

/// Whether the goods are strong substitutes at the valuation. Takes no memory.
pub fn check(goods: &Goods, valuation: &Valuation) -> Verdict
    ensures { IsRight goods.now (valuation_of goods.now valuation.now) result }
{
    let _count = goods.count();
    let supply = goods.as_slice();
    let strides = goods.strides();
    let values = valuation.as_slice();
    let table = Table {
        supply,
        strides: &strides,
        values,
    };
    if is_strong(&table, goods.box_size() as usize) {
        return Verdict::Holds;
    }
    match first_broken(&table, goods.box_size()) {
        Some(triple) => Verdict::Breaks {
            x: goods.bundle(triple.x),
            y: goods.bundle(triple.y),
            good: triple.good,
        },
        None => Verdict::Holds,
    }
}
