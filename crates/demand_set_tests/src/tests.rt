//! What no clause says: that calls succeed where there is memory, and values that were worked by hand.
ghost use Rattle.std.specs.Prelude.{IfOk};
ghost use Rattle.lot_base.specs.Demands.{IsDemand};

use demand_set::{Demand, DemandFault};
use expected_values::{equal, equal_in};
use lot_base::Goods;
use std::alloc::Global;
use std::process::Abort;
use std::test::Fail;

fn goods_of(rt: &impl Abort, supply: &[u16]) -> Goods {
    match Goods::new(supply) {
        Ok(goods) => goods,
        Err(fault) => panic!(rt; "{supply:?}: {fault:?}"),
    }
}

fn read(
    rt: &impl Abort,
    alloc: Global,
    goods: &Goods,
    count: u8,
    quantities: &[u16],
) -> Result<Demand, DemandFault>
    ensures { IfOk result (λ d. IsDemand goods.now d) }
{
    assert!(rt; count >= 1 && count <= 6);
    assert_eq!(rt; quantities.len() % count as usize, 0);
    Demand::read_quantities(alloc, goods, count, quantities)
}

#[test]
fn refuses_the_first_fault(rt: HostRuntime) -> Result<(), Fail> {
    let goods = goods_of(&rt, &[2]);
    for (count, quantities, fault) in [
        (1, [2, 1].as_slice(), DemandFault::NotAscending(1)),
        (1, [1, 1].as_slice(), DemandFault::NotAscending(1)),
        (1, [3].as_slice(), DemandFault::OutsideSupply(0)),
        (1, [1, 3, 0].as_slice(), DemandFault::OutsideSupply(1)),
        (1, [].as_slice(), DemandFault::Empty),
        (2, [0, 1].as_slice(), DemandFault::WrongGoods(2)),
        (2, [].as_slice(), DemandFault::WrongGoods(2)),
    ] {
        let answer = read(&rt, rt.alloc(), &goods, count, quantities).err();
        equal_in(quantities, answer, Some(fault))?;
    }
    Ok(())
}

#[test]
fn reads_three_bundles(rt: HostRuntime) -> Result<(), Fail> {
    let goods = goods_of(&rt, &[2]);
    let demand = read(&rt, rt.alloc(), &goods, 1, &[0, 1, 2])?;
    equal(demand.len(), 3)?;
    let last = demand.get(2);
    equal(last.count(), 1)?;
    equal(last.quantity(0), 2)?;
    equal(demand.least_table(&goods).0[1], 0)?;
    equal(demand.greatest_table(&goods).0[1], 2)?;
    Ok(())
}

#[test]
fn copies_and_compares(rt: HostRuntime) -> Result<(), Fail> {
    let goods = goods_of(&rt, &[2]);
    let demand = read(&rt, rt.alloc(), &goods, 1, &[0, 2])?;
    let Ok(copy) = demand.copy(rt.alloc()) else {
        panic!(&rt; "no memory");
    };
    assert!(rt; copy.same(&demand));
    assert!(rt; !demand.same(&read(&rt, rt.alloc(), &goods, 1, &[0, 1])?));
    assert!(rt; !demand.same(&read(&rt, rt.alloc(), &goods, 1, &[0])?));
    Ok(())
}

#[test]
fn writes_what_was_read(rt: HostRuntime) -> Result<(), Fail> {
    let goods = goods_of(&rt, &[2, 3]);
    let quantities = [0, 3, 1, 1, 2, 0];
    let demand = read(&rt, rt.alloc(), &goods, 2, &quantities)?;
    let Ok(raw) = demand.raw(rt.alloc()) else {
        panic!(&rt; "no memory");
    };
    equal(raw.goods, 2)?;
    equal(raw.quantities.as_slice(), quantities.as_slice())?;
    assert!(rt; Demand::from_raw(&goods, raw)?.same(&demand));
    Ok(())
}

#[test]
fn a_full_box_is_read_copied_and_written(rt: HostRuntime) -> Result<(), Fail> {
    let goods = goods_of(&rt, &[3, 3, 3, 3, 3, 1]);
    let mut quantities = Vec::new(rt.alloc());
    for place in 0..goods.box_size() {
        let x = goods.bundle(place);
        for good in 0..x.count() {
            quantities.push(x.quantity(good))?;
        }
    }
    let demand = read(&rt, rt.alloc(), &goods, 6, &quantities)?;
    equal(demand.len(), 2048)?;
    let Ok(copy) = demand.copy(rt.alloc()) else {
        panic!(&rt; "no memory for the copy");
    };
    assert!(rt; copy.same(&demand));
    let Ok(raw) = demand.raw(rt.alloc()) else {
        panic!(&rt; "no memory for the quantities");
    };
    assert!(rt; raw.quantities.as_slice() == quantities.as_slice());
    Ok(())
}

// Bundles (0,3), (1,1) and (2,0) have 3, 2 and 2 units of both goods together.
#[test]
fn tables_of_two_goods(rt: HostRuntime) -> Result<(), Fail> {
    let goods = goods_of(&rt, &[2, 3]);
    let demand = read(&rt, rt.alloc(), &goods, 2, &[0, 3, 1, 1, 2, 0])?;
    let least = demand.least_table(&goods).0;
    let greatest = demand.greatest_table(&goods).0;
    equal(&least[..5], [0, 0, 0, 2, 0].as_slice())?;
    equal(&greatest[..5], [0, 2, 3, 3, 0].as_slice())?;
    Ok(())
}

// Bundles (0,1,2,3,0,1) and (1,0,0,0,3,0).
#[test]
fn tables_of_six_goods(rt: HostRuntime) -> Result<(), Fail> {
    let goods = goods_of(&rt, &[3, 3, 3, 3, 3, 1]);
    let demand = read(
        &rt,
        rt.alloc(),
        &goods,
        6,
        &[0, 1, 2, 3, 0, 1, 1, 0, 0, 0, 3, 0],
    )?;
    let least = demand.least_table(&goods).0;
    let greatest = demand.greatest_table(&goods).0;
    for (set, low, high) in [
        (0, 0, 0),
        (0b100001, 1, 1),
        (0b001110, 0, 6),
        (0b010000, 0, 3),
        (0b111111, 4, 7),
    ] {
        equal_in(set, least[set], low)?;
        equal_in(set, greatest[set], high)?;
    }
    Ok(())
}

#[test]
fn writes_into_a_buffer(rt: HostRuntime) -> Result<(), Fail> {
    let goods = goods_of(&rt, &[2, 3]);
    let demand = read(&rt, rt.alloc(), &goods, 2, &[0, 3, 1, 1])?;
    let mut into = [9u16; 6];
    assert!(rt; demand.quantities().len() <= 6);
    equal(demand.raw_to(&mut into), 4)?;
    equal(into.as_slice(), [0, 3, 1, 1, 9, 9].as_slice())?;
    Ok(())
}

#[test]
fn reads_bytes(rt: HostRuntime) -> Result<(), Fail> {
    let goods = goods_of(&rt, &[2, 300]);
    let demand = Demand::read_bytes(rt.alloc(), &goods, 2, &[0, 0, 1, 3, 0, 1, 0, 1])?;
    equal(demand.quantities(), [0, 259, 1, 1].as_slice())?;
    Ok(())
}
