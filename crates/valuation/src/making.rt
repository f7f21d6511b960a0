//! Valuations in the forms of a valuation file, without a file.
ghost use Rattle.std.specs.Prelude.{◌≡◌, ◌<◌, ◌^◌, ℕ, List, length, map, slice_index, Ok, IfOk};
ghost use Rattle.lot_base.specs.Box.{box};
ghost use Rattle.valuation.specs.Forms.{total, marginal_value, unit_value, capped_value};
ghost use Rattle.valuation.specs.Values.{AreValues};

use crate::forms::{capped_values, marginal_values, unit_values};
use crate::reader::narrowed;
use crate::values::Valuation;
use lot_base::{Goods, NoMemory};
use std::alloc::Global;

impl Valuation {
    /// The valuation where one unit counts, by a value for each good.
    pub fn unit(alloc: Global, goods: &Goods, values: &[u32]) -> Result<Valuation, NoMemory>
        requires count { length values.now ≡ length goods.now }
        requires small { AreValues (map (unit_value values.now) (box goods.now)) }
        ensures { IfOk result (λ v. v ≡ map (unit_value values.now) (box goods.now)) }
    {
        let worth = unit_values(alloc, goods, values)?;
        from_wide(alloc, &worth)
    }

    /// The valuation where at most so many units count, by a value for each good.
    pub fn capped(
        alloc: Global,
        goods: &Goods,
        values: &[u32],
        cap: u32,
    ) -> Result<Valuation, NoMemory>
        requires { AreValues (map (capped_value values.now cap) (box goods.now)) }
        ensures { IfOk result (λ v. v ≡ map (capped_value values.now cap) (box goods.now)) }
    {
        match capped_values(alloc, goods, values, cap) {
            Ok(worth) => from_wide(alloc, &worth),
            Err(_) => Err(NoMemory),
        }
    }

    /// The valuation where each unit has its marginal value: the units of good 0, the first unit first, then those of each other good.
    pub fn marginal(alloc: Global, goods: &Goods, entries: &[u32]) -> Result<Valuation, NoMemory>
        requires count { length entries.now ≡ total goods.now }
        requires small { AreValues (map (marginal_value goods.now entries.now) (box goods.now)) }
        ensures { IfOk result (λ v. v ≡ map (marginal_value goods.now entries.now) (box goods.now)) }
    {
        let worth = marginal_values(alloc, goods, entries)?;
        from_wide(alloc, &worth)
    }
}

/// The valuation with these values.
fn from_wide(alloc: Global, worth: &[u64]) -> Result<Valuation, NoMemory>
    requires { AreValues worth.now }
    ensures { IfOk result (λ v. v ≡ worth.now) }
{
    let values = narrowed(alloc, worth)?;
    Ok(Valuation::from_values(values))
}
