//! Values, demands and surpluses of one bidder.
use super::*;
use expected_values::equal;
use lot_base::{GoodSet, NoMemory};
use std::test::Fail;

/// The valuation of a bidder who wants one unit, at best for 7 of good 1 and else for 5 of good 0.
fn bidder(rt: &(impl AllocGlobal + Abort)) -> Valuation {
    let text = "[[valuations]]\nform = \"unit\"\nvalues = [5, 7]\n";
    match read(rt.alloc(), &terms(rt, 1), text.as_bytes()) {
        Ok(mut valuations) => match valuations.pop() {
            Some(valuation) => valuation,
            None => panic!(rt; "no valuation"),
        },
        Err(fault) => panic!(rt; "{fault:?}"),
    }
}

/// These prices.
fn prices(rt: &impl Abort, prices: &[u32]) -> Prices {
    match Prices::read(prices) {
        Some(prices) => prices,
        None => panic!(rt; "prices"),
    }
}

/// Whether the demand at the prices has these quantities.
fn demands(
    rt: &(impl AllocGlobal + Abort),
    at: &[u32],
    quantities: &[u16],
) -> Result<bool, NoMemory> {
    let demand = bidder(rt).demand(rt.alloc(), &goods(rt), &prices(rt, at))?;
    Ok(demand.quantities() == quantities)
}

/// For how many steps on good 1 the demand at price 0 stays the same, and the demand after so many.
fn after_steps(
    rt: &(impl AllocGlobal + Abort),
    times: u8,
    quantities: &[u16],
) -> Result<(u32, bool), NoMemory> {
    let goods = goods(rt);
    let mut surplus = Surplus::new(rt.alloc(), &goods, &bidder(rt), &Prices::zero(&goods))?;
    let set = GoodSet(2);
    let column = column_of(rt.alloc(), &goods, set)?;
    let steady = surplus.steady(set, &column);
    surplus.step(set, &column, u32::from(times));
    let demand = surplus.demand(rt.alloc())?;
    Ok((steady, demand.quantities() == quantities))
}

/// Whether the demand is told to be the same where the prices move from these to those, and whether it has these quantities then.
fn moved(
    rt: &(impl AllocGlobal + Abort),
    from: &[u32],
    to: &[u32],
    quantities: &[u16],
) -> Result<(bool, bool), NoMemory> {
    let goods = goods(rt);
    let valuation = bidder(rt);
    assert!(rt; valuation.as_slice().len() == goods.box_size() as usize);
    let mut surplus = Surplus::new(rt.alloc(), &goods, &valuation, &prices(rt, from))?;
    let costs = Costs::new(rt.alloc(), &goods, &prices(rt, to))?;
    let same = surplus.renew(&valuation, &costs);
    let demand = surplus.demand(rt.alloc())?;
    Ok((same, demand.quantities() == quantities))
}

/// The value of the bundle at an index.
fn value(rt: &(impl AllocGlobal + Abort), index: u32) -> i64 {
    let goods = goods(rt);
    assert!(rt; index < goods.box_size());
    bidder(rt).value(&goods, &goods.bundle(index))
}

#[test]
fn values_are_those_of_the_file(rt: HostRuntime) -> Result<(), Fail> {
    equal(value(&rt, 0), 0)?;
    equal(value(&rt, 2), 5)?;
    equal(value(&rt, 5), 7)?;
    Ok(())
}

#[test]
fn demands_are_the_best_bundles(rt: HostRuntime) -> Result<(), Fail> {
    equal(demands(&rt, &[3, 4], &[0, 1]), Ok(true))?;
    equal(demands(&rt, &[5, 7], &[0, 0, 0, 1, 1, 0]), Ok(true))?;
    equal(demands(&rt, &[0, 7], &[1, 0, 2, 0]), Ok(true))?;
    equal(demands(&rt, &[4294967295, 4294967295], &[0, 0]), Ok(true))?;
    Ok(())
}

#[test]
fn surpluses_are_carried_along(rt: HostRuntime) -> Result<(), Fail> {
    equal(after_steps(&rt, 0, &[0, 1, 1, 1, 2, 1]), Ok((1, true)))?;
    equal(
        after_steps(&rt, 2, &[0, 1, 1, 0, 1, 1, 2, 0, 2, 1]),
        Ok((1, true)),
    )?;
    equal(after_steps(&rt, 3, &[1, 0, 2, 0]), Ok((1, true)))?;
    Ok(())
}

#[test]
fn surpluses_are_told_anew_where_prices_fall(rt: HostRuntime) -> Result<(), Fail> {
    equal(moved(&rt, &[3, 4], &[1, 2], &[0, 1]), Ok((true, true)))?;
    equal(
        moved(&rt, &[3, 4], &[2, 4], &[0, 1, 1, 0]),
        Ok((false, true)),
    )?;
    equal(
        moved(&rt, &[0, 7], &[0, 3], &[1, 0, 2, 0]),
        Ok((true, true)),
    )?;
    equal(
        moved(&rt, &[10000, 10000], &[0, 0], &[0, 1, 1, 1, 2, 1]),
        Ok((false, true)),
    )?;
    equal(
        moved(&rt, &[10000, 10000], &[6, 8], &[0, 0]),
        Ok((true, true)),
    )?;
    Ok(())
}

#[test]
fn surpluses_are_told_anew_where_prices_rise(rt: HostRuntime) -> Result<(), Fail> {
    equal(moved(&rt, &[3, 4], &[4, 4], &[0, 1]), Ok((true, true)))?;
    equal(moved(&rt, &[0, 0], &[1, 0], &[0, 1]), Ok((false, true)))?;
    equal(
        moved(&rt, &[5, 7], &[10000, 10000], &[0, 0]),
        Ok((false, true)),
    )?;
    equal(
        moved(&rt, &[10000, 10000], &[4294967295, 4294967295], &[0, 0]),
        Ok((true, true)),
    )?;
    equal(moved(&rt, &[3, 4], &[3, 4], &[0, 1]), Ok((true, true)))?;
    Ok(())
}
