//! Demands, and how they are read.
ghost use Rattle.std.specs.Prelude.{◌≡◌, ◌↔◌, ◌<◌, ◌≤◌, ◌+◌, ◌*◌, length, take, drop, slice_get, Some, IsTrue, IfOk};
ghost use Rattle.byte_numbers.specs.Spelling.{short_numbers};
ghost use Rattle.demand_set.specs.Reading.{IsOrNoMemory};
ghost use Rattle.demand_set.specs.Same.{same_demand};

use crate::box_order::fault_of;
use byte_numbers::short_numbers_of;
use lot_base::{Bundle, Goods, NoMemory, RawDemand};
use std::alloc::{AllocError, AllocFailed, Global};
use std::marker::Model;

/// Why a demand is refused. Places are those of bundles, from 0.
#[derive(Clone, Copy, Debug, PartialEq, Eq)]
pub enum DemandFault {
    /// There is no bundle.
    Empty,
    /// The bundle at this place does not come after the one before it in lexicographic order.
    NotAscending(u32),
    /// The bundle at this place has more units of a good than there are.
    OutsideSupply(u32),
    /// The bundles are of another number of goods, this one.
    WrongGoods(u8),
    /// There was no memory for it.
    NoMemory,
}

/// The bundles that a bidder would like best, in ascending lexicographic order, seen as their list. It is never empty.
#[derive(Debug, Drop)]
pub struct Demand {
    /// How many goods each bundle is of.
    pub(crate) goods: u8,
    /// The quantities of one bundle after another.
    pub(crate) quantities: Vec<u16>,
}

impl Model for Demand {
    ghost use Rattle.std.specs.Prelude.{ℕ, List};
    ghost use Rattle.demand_set.specs.Reading.{bundles_of};
    ghost use Rattle.demand_set.specs.Packed.{IsPacked};

    ghost Value = { List (List ℕ) };

    ghost view = { λ d. bundles_of d.goods d.quantities.items };

    ghost invariant = { λ d. IsPacked d.goods d.quantities.items };
}

impl Demand {
    ghost use Rattle.lot_base.specs.Demands.{IsDemand};
    ghost use Rattle.demand_set.specs.Held.{IsSomeDemand};
    ghost use Rattle.demand_set.specs.Reading.{demand_of, bundles_of, AreWhole};

    /// The demand of these quantities, if they are bundles of these goods in ascending order. It keeps their list. Takes no memory.
    pub fn from_raw(goods: &Goods, raw: RawDemand) -> Result<Demand, DemandFault>
        requires { AreWhole raw.goods raw.quantities }
        ensures fits { IfOk result (λ d. IsDemand goods.now d) }
        ensures value { result ≡ demand_of goods.now raw.goods (bundles_of raw.goods raw.quantities) }
    {
        let RawDemand {
            goods: count,
            quantities,
        } = raw;
        Demand::from_list(goods, count, quantities.into_vec())
    }

    /// The demand of these quantities of bundles of so many goods, as `from_raw` reads them.
    pub fn read_quantities(
        alloc: Global,
        goods: &Goods,
        count: u8,
        quantities: &[u16],
    ) -> Result<Demand, DemandFault>
        requires { AreWhole count quantities.now }
        ensures fits { IfOk result (λ d. IsDemand goods.now d) }
        ensures value { IsOrNoMemory result (demand_of goods.now count (bundles_of count quantities.now)) }
    {
        let Ok(quantities) = quantities.to_vec(alloc) else {
            return Err(DemandFault::NoMemory);
        };
        Demand::from_list(goods, count, quantities)
    }

    /// The demand of these quantities, of two bytes each, the greater byte first, as `from_raw` reads them.
    pub fn read_bytes(
        alloc: Global,
        goods: &Goods,
        count: u8,
        bytes: &[u8],
    ) -> Result<Demand, DemandFault>
        requires { AreWhole count (short_numbers bytes.now) }
        ensures fits { IfOk result (λ d. IsDemand goods.now d) }
        ensures value { IsOrNoMemory result (demand_of goods.now count (bundles_of count (short_numbers bytes.now))) }
    {
        let Ok(quantities) = short_numbers_of(alloc, bytes) else {
            return Err(DemandFault::NoMemory);
        };
        Demand::from_list(goods, count, quantities)
    }

    /// The demand that keeps this list of quantities, if they are bundles of these goods in ascending order.
    fn from_list(goods: &Goods, count: u8, quantities: Vec<u16>) -> Result<Demand, DemandFault>
        requires { AreWhole count quantities.items }
        ensures fits { IfOk result (λ d. IsDemand goods.now d) }
        ensures value { result ≡ demand_of goods.now count (bundles_of count quantities.items) }
    {
        if let Some(fault) = fault_of(goods, count, &quantities) {
            return Err(fault);
        }
        Ok(Demand {
            goods: count,
            quantities,
        })
    }

    /// How many bundles there are: 1 to 2,048.
    pub fn len(&self) -> u32
        ensures value { result ≡ length self.now }
        ensures held { IsSomeDemand self.now }
    {
        (self.quantities.len() / self.goods as usize) as u32
    }

    /// The bundle at a place, from 0.
    pub fn get(&self, place: u32) -> Bundle
        requires { place < length self.now }
        ensures { slice_get self.now place ≡ Some result }
    {
        bundle_at(&self.quantities, self.goods, place)
    }

    /// Whether it is the same list.
    pub fn same(&self, other: &Demand) -> bool
        ensures same { IsTrue result ↔ (self.now ≡ other.now) }
        ensures test { result ≡ same_demand self.now other.now }
    {
        self.goods == other.goods && self.quantities.as_slice() == other.quantities.as_slice()
    }

    /// The same list once more.
    pub fn copy(&self, alloc: Global) -> Result<Demand, NoMemory>
        ensures { IfOk result (λ d. d ≡ self.now) }
    {
        match self.quantities.to_vec(alloc) {
            Ok(quantities) => Ok(Demand {
                goods: self.goods,
                quantities,
            }),
            Err(_) => Err(NoMemory),
        }
    }
}

impl From<AllocError> for DemandFault {
    ghost use Rattle.std.specs.Prelude.{◌≡◌};
    ghost use Rattle.demand_set.specs.declared.reading.DemandFault.TheVariants.{NoMemory};

    ghost from_gives = { λ _ e. e ≡ NoMemory };

    fn from(_: AllocError) -> Self {
        DemandFault::NoMemory
    }
}

impl<T: Drop> From<AllocFailed<T>> for DemandFault {
    ghost use Rattle.std.specs.Prelude.{◌≡◌};
    ghost use Rattle.demand_set.specs.declared.reading.DemandFault.TheVariants.{NoMemory};

    ghost from_gives = { λ _ e. e ≡ NoMemory };

    fn from(_: AllocFailed<T>) -> Self {
        DemandFault::NoMemory
    }
}

/// The bundle at a place of those with these quantities.
fn bundle_at(quantities: &[u16], goods: u8, place: u32) -> Bundle
    requires some { 1 ≤ goods }
    requires few { goods ≤ 6 }
    requires inside { (place + 1) * goods ≤ length quantities.now }
    ensures { result ≡ take goods (drop (place * goods) quantities.now) }
{
    let start = place as usize * goods as usize;
    let others = quantities.split_at(start).1;
    Bundle::read(&others[..goods as usize]).unwrap()
}
