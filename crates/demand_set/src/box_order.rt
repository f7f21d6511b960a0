//! Bundles by their places in the box: a bundle within the supply comes after another one exactly where its place does.
ghost use Rattle.std.specs.Prelude.{◌≡◌, ◌≤◌, ◌%◌, None, length, slice_index};
ghost use Rattle.lot_base.specs.declared.limits.TheConstants.{MOST_BUNDLES};
ghost use Rattle.lot_base.specs.Goods.{IsSupply, box_size};
ghost use Rattle.demand_set.specs.Reading.{bundles_of, fault_from, unless, demand_of, AreWhole};
ghost use Rattle.demand_set.specs.Places.{place_in};

use crate::reading::DemandFault;
use lot_base::Goods;

/// Why quantities of bundles of so many goods are no demand of these goods, if they are none.
pub(crate) fn fault_of(goods: &Goods, count: u8, quantities: &[u16]) -> Option<DemandFault>
    requires { AreWhole count quantities.now }
    ensures value { unless result (bundles_of count quantities.now) ≡ demand_of goods.now count (bundles_of count quantities.now) }
    ensures supply { IsSupply goods.now }
{
    if count != goods.count() {
        return Some(DemandFault::WrongGoods(count));
    }
    if quantities.is_empty() {
        return Some(DemandFault::Empty);
    }
    first_fault(goods.as_slice(), quantities)
}

/// The first fault of the bundles with these quantities, in one pass.
fn first_fault(supply: &[u16], quantities: &[u16]) -> Option<DemandFault>
    requires supply { IsSupply supply.now }
    requires whole { length quantities.now % length supply.now ≡ 0 }
    ensures { result ≡ fault_from supply.now 0 None (bundles_of (length supply.now) quantities.now) }
{
    let size = supply.len();
    let mut rest = quantities;
    let mut least = 0;
    for place in 0..quantities.len() / size {
        let (first, others) = rest.split_at(size);
        let Some(index) = place_within(supply, first) else {
            return Some(DemandFault::OutsideSupply(place as u32));
        };
        if index < least {
            return Some(DemandFault::NotAscending(place as u32));
        }
        least = index + 1;
        rest = others;
    }
    None
}

/// The place of the quantities among the bundles of the supply, if they are one of them: a number with a digit per good, good 0
/// first.
fn place_within(supply: &[u16], quantities: &[u16]) -> Option<u32>
    requires same { length supply.now ≡ length quantities.now }
    requires small { box_size supply.now ≤ MOST_BUNDLES }
    ensures { result ≡ place_in supply.now quantities.now }
{
    let mut place = 0u32;
    for good in 0..supply.len() {
        let units = supply[good];
        let quantity = quantities[good];
        if quantity > units {
            return None;
        }
        place = place * (units as u32 + 1) + quantity as u32;
    }
    Some(place)
}
