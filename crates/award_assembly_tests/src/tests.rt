//! What no clause says: that calls succeed where there is memory, and choices that were worked by hand.
ghost use Rattle.std.specs.Prelude.{IfOk};
ghost use Rattle.std.specs.List.{AllByRecursion};
ghost use Rattle.lot_base.specs.Demands.{IsDemand};

use award_assembly::{Assembly, Choice, assemble};
use demand_set::{Demand, DemandFault};
use expected_values::{equal, equal_in};
use lot_base::{Bundle, Goods, Prices, compare};
use std::alloc::Global;
use std::cmp::Ordering;
use std::process::Abort;
use std::test::Fail;

fn read(
    rt: &impl Abort,
    alloc: Global,
    goods: &Goods,
    quantities: &[u16],
) -> Result<Demand, DemandFault>
    ensures { IfOk result (λ d. IsDemand goods.now d) }
{
    let count = goods.count();
    assert!(rt; count >= 1 && count <= 6);
    assert_eq!(rt; quantities.len() % count as usize, 0);
    Demand::read_quantities(alloc, goods, count, quantities)
}

/// Twelve times the demand.
fn twelve(
    rt: &impl Abort,
    alloc: Global,
    goods: &Goods,
    quantities: &[u16],
) -> Result<Vec<Demand>, DemandFault>
    ensures { IfOk result (λ v. AllByRecursion (λ d. IsDemand goods.now d) v.items) }
{
    let mut demands = Vec::new(alloc);
    for _ in 0..12 {
        let demand = read(rt, alloc, goods, quantities)?;
        demands.push(demand)?;
    }
    Ok(demands)
}

/// The choice for two demands.
fn choice_of(
    rt: &impl Abort,
    alloc: Global,
    supply: &[u16],
    opening: &[u32],
    prices: &[u32],
    demands: [&[u16]; 2],
) -> Result<Option<Choice>, Fail> {
    let goods = Goods::new(supply)?;
    let opening = Prices::read(opening).ok_or("opening")?;
    let prices = Prices::read(prices).ok_or("prices")?;
    equal(
        (opening.count(), prices.count()),
        (goods.count(), goods.count()),
    )?;
    let first = read(rt, alloc, &goods, demands[0])?;
    let second = read(rt, alloc, &goods, demands[1])?;
    match assemble(alloc, &goods, &opening, &prices, &[first, second])? {
        Assembly::Award(choice) => Ok(Some(choice)),
        Assembly::NoChoice => Ok(None),
    }
}

fn is_bundle(bundle: &Bundle, quantities: &[u16]) -> Result<bool, Fail> {
    let wanted = Bundle::read(quantities).ok_or("bundle")?;
    Ok(compare(bundle, &wanted) == Ordering::Equal)
}

#[test]
fn awards_the_first_choice_that_clears(rt: HostRuntime) -> Result<(), Fail> {
    let both = [0, 1].as_slice();
    let upto_two = [0, 1, 2].as_slice();
    for (supply, opening, price, demands, first, second) in [
        // A unit with a price must be sold, and the first bundles do not sell it.
        ([1], [0], [4], [both, both], [0], [1]),
        // Without a price, or at its opening, it need not be.
        ([1], [0], [0], [both, both], [0], [0]),
        ([1], [4], [4], [both, both], [0], [0]),
        ([1], [3], [4], [both, both], [0], [1]),
        // Of several choices the one at the first places.
        ([2], [0], [1], [upto_two, upto_two], [0], [2]),
    ] {
        let choice = choice_of(&rt, rt.alloc(), &supply, &opening, &price, demands)?.ok_or(
            "no choice",
        )?;
        equal(choice.len(), 2)?;
        assert!(rt; is_bundle(&choice.get(0), &first)?, "at {price:?}");
        assert!(rt; is_bundle(&choice.get(1), &second)?, "at {price:?}");
    }
    Ok(())
}

/// Whether the first gets its one bundle and the second the wanted one, where all goods open at 0.
fn second_gets(
    rt: &impl Abort,
    alloc: Global,
    supply: &[u16],
    prices: &[u32],
    demands: [&[u16]; 2],
    wanted: &[u16],
) -> Result<bool, Fail> {
    let opening = vec![in alloc; 0; supply.len()]?;
    let choice = choice_of(rt, alloc, supply, &opening, prices, demands)?.ok_or("no choice")?;
    let bundles = choice.into_vec();
    equal(bundles.len(), 2)?;
    Ok(is_bundle(&bundles[0], demands[0])? && is_bundle(&bundles[1], wanted)?)
}

// The first bundle of each second demand is more than is left of a good, and yet its place and that of the first demand's
// bundle add up to the place of a bundle that would clear.
#[test]
fn keeps_the_goods_apart(rt: HostRuntime) -> Result<(), Fail> {
    for (supply, prices, demands, wanted) in [
        // Three units of good 1 as one of good 0.
        (
            [1, 2].as_slice(),
            [1, 0].as_slice(),
            [[0, 2].as_slice(), &[0, 1, 1, 0]],
            [1, 0].as_slice(),
        ),
        // Two units of good 2 as one of good 1, and so two of that as one of good 0.
        (
            &[1, 1, 1],
            &[1, 0, 0],
            [&[0, 1, 1], &[0, 0, 1, 1, 0, 0]],
            &[1, 0, 0],
        ),
        // Two of good 1 as one of good 0, which is hidden: the two of good 2 are one of good 1 again.
        (
            &[1, 1, 1],
            &[1, 1, 0],
            [&[0, 1, 1], &[0, 1, 1, 1, 0, 0]],
            &[1, 0, 0],
        ),
        // Through six goods.
        (
            &[3, 3, 3, 3, 3, 1],
            &[1, 0, 0, 0, 0, 0],
            [&[2, 3, 3, 3, 3, 1], &[0, 0, 0, 0, 0, 1, 1, 0, 0, 0, 0, 0]],
            &[1, 0, 0, 0, 0, 0],
        ),
    ] {
        assert!(rt;
            second_gets(&rt, rt.alloc(), supply, prices, demands, wanted)?,
            "at {prices:?}"
        );
    }
    Ok(())
}

#[test]
fn finds_no_choice(rt: HostRuntime) -> Result<(), Fail> {
    // One reports (0,0), the other (0,0), (0,1) and (1,0): at prices 2 and 2 no two of them sell both goods.
    let none = choice_of(
        &rt,
        rt.alloc(),
        &[1, 1],
        &[0, 1],
        &[2, 2],
        [&[0, 0], &[0, 0, 0, 1, 1, 0]],
    )?;
    assert!(rt; none.is_none());
    // Two units each of two.
    let none = choice_of(&rt, rt.alloc(), &[2], &[0], &[0], [&[2], &[2]])?;
    assert!(rt; none.is_none());
    // One unit more than there are, at the end of the box.
    let none = choice_of(&rt, rt.alloc(), &[2047], &[0], &[0], [&[2000], &[48]])?;
    assert!(rt; none.is_none());
    Ok(())
}

// Twelve report 170 or 177 units of 2,047 at a price: eleven take 170, and the last one the rest.
#[test]
fn shares_a_large_supply_among_twelve(rt: HostRuntime) -> Result<(), Fail> {
    let alloc = rt.alloc();
    let goods = Goods::new(&[2047])?;
    let prices = Prices::read(&[1]).ok_or("prices")?;
    equal(prices.count(), goods.count())?;
    let demands = twelve(&rt, alloc, &goods, &[170, 177])?;
    match assemble(alloc, &goods, &Prices::zero(&goods), &prices, &demands)? {
        Assembly::NoChoice => panic!(&rt; "no choice"),
        Assembly::Award(choice) => {
            equal(choice.len(), 12)?;
            for place in 0..11 {
                assert!(rt; is_bundle(&choice.get(place), &[170])?, "for {place}");
            }
            assert!(rt; is_bundle(&choice.get(11), &[177])?);
        }
    }
    Ok(())
}

/// The quantities from 0 up to 2,047, so far apart.
fn multiples(alloc: Global, step: u16) -> Result<Vec<u16>, Fail> {
    let mut quantities = Vec::new(alloc);
    for quantity in 0..2048 {
        if quantity % step.max(1) == 0 {
            quantities.push(quantity)?;
        }
    }
    Ok(quantities)
}

/// What the last of twelve is awarded who all report these quantities of 2,047 units at a price, where the others get none.
fn share_of_the_last(
    rt: &impl Abort,
    alloc: Global,
    quantities: &[u16],
) -> Result<Option<u16>, Fail> {
    let goods = Goods::new(&[2047])?;
    let prices = Prices::read(&[1]).ok_or("prices")?;
    equal(prices.count(), goods.count())?;
    let demands = twelve(rt, alloc, &goods, quantities)?;
    match assemble(alloc, &goods, &Prices::zero(&goods), &prices, &demands)? {
        Assembly::NoChoice => Ok(None),
        Assembly::Award(choice) => {
            equal(choice.len(), 12)?;
            for place in 0..11 {
                assert!(rt; is_bundle(&choice.get(place), &[0])?, "for {place}");
            }
            let last = choice.get(11);
            equal(last.count(), 1)?;
            Ok(Some(last.quantity(0)))
        }
    }
}

#[test]
fn searches_full_and_even_demands(rt: HostRuntime) -> Result<(), Fail> {
    for (step, share) in [(1, Some(2047)), (2, None)] {
        let quantities = multiples(rt.alloc(), step)?;
        equal_in(
            step,
            share_of_the_last(&rt, rt.alloc(), &quantities)?,
            share,
        )?;
    }
    Ok(())
}

#[test]
fn clears_without_demands_where_no_price_has_risen(rt: HostRuntime) -> Result<(), Fail> {
    let goods = Goods::new(&[1, 1])?;
    for (opening, prices, clears) in [
        ([0, 0], [0, 0], true),
        ([0, 0], [0, 1], false),
        ([3, 5], [3, 5], true),
        ([3, 4], [3, 5], false),
    ] {
        let opening = Prices::read(&opening).ok_or("opening")?;
        equal(opening.count(), goods.count())?;
        let prices = Prices::read(&prices).ok_or("prices")?;
        equal(prices.count(), goods.count())?;
        match assemble(rt.alloc(), &goods, &opening, &prices, &[])? {
            Assembly::Award(choice) => assert!(rt; clears && choice.len() == 0),
            Assembly::NoChoice => assert!(rt; !clears),
        }
    }
    Ok(())
}
