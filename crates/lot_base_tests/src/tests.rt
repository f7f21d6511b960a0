//! The limits at their edges, and each call once.
use expected_values::equal;
use lot_base::{
    Bundle, GoodSet, Goods, GoodsFault, Prices, Sequence, Terms, TermsFault, compare, cost,
    quantity_in,
};
use std::cmp::Ordering;
use std::test::Fail;

#[test]
fn supplies_at_their_limits(rt: HostRuntime) -> Result<(), Fail> {
    let cases: [(&[u16], Option<GoodsFault>); 13] = [
        (&[], Some(GoodsFault::NoGoods)),
        (&[1], None),
        (&[1, 1, 1, 1, 1, 1], None),
        (&[1, 1, 1, 1, 1, 1, 1], Some(GoodsFault::TooManyGoods(7))),
        (&[0, 1, 1, 1, 1, 1, 1], Some(GoodsFault::TooManyGoods(7))),
        (&[1, 0, 0], Some(GoodsFault::ZeroSupply(1))),
        (&[65535, 65535, 0], Some(GoodsFault::ZeroSupply(2))),
        (&[2047], None),
        (&[2048], Some(GoodsFault::BoxTooLarge(2049))),
        (&[3, 3, 3, 3, 3, 1], None),
        (&[2, 682], Some(GoodsFault::BoxTooLarge(2049))),
        (&[3, 3, 3, 3, 3, 2], Some(GoodsFault::BoxTooLarge(3072))),
        (
            &[65535, 65535, 65535, 65535, 65535, 65535],
            Some(GoodsFault::BoxTooLarge(79228162514264337593543950336)),
        ),
    ];
    for (supply, fault) in cases {
        equal(Goods::new(supply).err(), fault)?;
    }
    Ok(())
}

#[test]
fn terms_at_their_limits(rt: HostRuntime) -> Result<(), Fail> {
    let goods = Goods::new(&[1])?;
    let cases = [
        (0, 2, Some(TermsFault::Bidders(0))),
        (1, 2, None),
        (12, 10_000, None),
        (13, 10_000, Some(TermsFault::Bidders(13))),
        (1, 1, Some(TermsFault::Ceiling(1))),
        (12, 10_001, Some(TermsFault::Ceiling(10_001))),
        (0, 0, Some(TermsFault::Bidders(0))),
        (13, 10_001, Some(TermsFault::Bidders(13))),
    ];
    for (bidders, ceiling, fault) in cases {
        equal(Terms::new(goods, bidders, ceiling).err(), fault)?;
    }
    Ok(())
}

/// The fault of terms for two goods that open at these prices.
fn opening_fault(
    bidders: u8,
    ceiling: u32,
    opening: [u32; 2],
) -> Result<Option<TermsFault>, GoodsFault> {
    let goods = Goods::new(&[1, 1])?;
    match Prices::read(&opening) {
        Some(opening) if opening.count() == goods.count() => {
            Ok(Terms::with_opening(goods, bidders, ceiling, opening).err())
        }
        _ => Ok(None),
    }
}

#[test]
fn openings_at_their_limits(rt: HostRuntime) -> Result<(), Fail> {
    let second = TermsFault::Opening { good: 1, value: 10 };
    let first = TermsFault::Opening { good: 0, value: 11 };
    let cases = [
        (12, 10, [0, 0], None),
        (12, 10, [9, 9], None),
        (12, 10, [9, 10], Some(second)),
        (12, 10, [11, 10], Some(first)),
        (12, 1, [11, 10], Some(TermsFault::Ceiling(1))),
        (13, 1, [11, 10], Some(TermsFault::Bidders(13))),
    ];
    for (bidders, ceiling, opening, fault) in cases {
        equal(opening_fault(bidders, ceiling, opening)?, fault)?;
    }
    Ok(())
}

#[test]
fn one_to_six_numbers_are_read(rt: HostRuntime) -> Result<(), Fail> {
    for (length, count) in [(0, None), (1, Some(1)), (6, Some(6)), (7, None)] {
        let quantities = [9u16; 7];
        let prices = [9u32; 7];
        equal(
            Bundle::read(&quantities[..length]).map(|x| x.count()),
            count,
        )?;
        equal(Prices::read(&prices[..length]).map(|p| p.count()), count)?;
    }
    Ok(())
}

#[test]
fn goods_tell_their_supply(rt: HostRuntime) -> Result<(), Fail> {
    let goods = Goods::new(&[1, 20, 30])?;
    equal(goods.count(), 3)?;
    equal(goods.supply(1), 20)?;
    equal(goods.units(GoodSet(5)), 31)?;
    equal(goods.set_count(), 8)?;
    equal(goods.box_size(), 1302)?;
    Ok(())
}

#[test]
fn bundles_of_a_small_box_in_order(rt: HostRuntime) -> Result<(), Fail> {
    let goods = Goods::new(&[1, 2])?;
    let all = [[0, 0], [0, 1], [0, 2], [1, 0], [1, 1], [1, 2]];
    for (place, quantities) in all.iter().enumerate() {
        let x = Bundle::read(quantities).expect(&rt, "two quantities");
        assert!(rt; goods.fits(&x));
        equal(goods.index(&x), place as u32)?;
        assert!(rt; (place as u32) < goods.box_size());
        let found = goods.bundle(place as u32);
        equal(compare(&found, &x), Ordering::Equal)?;
    }
    Ok(())
}

#[test]
fn places_of_a_full_box(rt: HostRuntime) -> Result<(), Fail> {
    let goods = Goods::new(&[3, 3, 3, 3, 3, 1])?;
    equal(goods.box_size(), 2048)?;
    let mut before: Option<Bundle> = None;
    for place in 0..goods.box_size() {
        let x = goods.bundle(place);
        equal(goods.index(&x), place)?;
        if let Some(y) = before {
            equal(compare(&y, &x), Ordering::Less)?;
        }
        before = Some(x);
    }
    Ok(())
}

#[test]
fn bundles_that_fit(rt: HostRuntime) -> Result<(), Fail> {
    let goods = Goods::new(&[1, 2])?;
    let cases: [(&[u16], bool); 6] = [
        (&[0, 0], true),
        (&[1, 2], true),
        (&[2, 0], false),
        (&[0, 3], false),
        (&[1], false),
        (&[1, 2, 0], false),
    ];
    for (quantities, fits) in cases {
        equal(Bundle::read(quantities).map(|x| goods.fits(&x)), Some(fits))?;
    }
    Ok(())
}

#[test]
fn units_of_a_set(rt: HostRuntime) -> Result<(), Fail> {
    let x = Bundle::read(&[1, 20, 300]).expect(&rt, "three quantities");
    for (set, units) in [(0, 0), (1, 1), (2, 20), (5, 301), (7, 321), (255, 321)] {
        equal(quantity_in(&x, GoodSet(set)), units)?;
    }
    equal(x.quantity(2), 300)?;
    Ok(())
}

#[test]
fn good_0_decides_first(rt: HostRuntime) -> Result<(), Fail> {
    let cases = [
        ([0, 9], [1, 0], Ordering::Less),
        ([1, 0], [1, 0], Ordering::Equal),
        ([1, 1], [1, 0], Ordering::Greater),
    ];
    for (first, second, order) in cases {
        let x = Bundle::read(&first).expect(&rt, "two quantities");
        let y = Bundle::read(&second).expect(&rt, "two quantities");
        equal(compare(&x, &y), order)?;
    }
    Ok(())
}

#[test]
fn costs(rt: HostRuntime) -> Result<(), Fail> {
    let cases: [(&[u32], &[u16], u64); 3] = [
        (&[2, 3], &[1, 2], 8),
        (&[5, 0, 7], &[0, 9, 1], 7),
        (&[4294967295; 6], &[65535; 6], 1688824090066950),
    ];
    for (prices, quantities, total) in cases {
        let p = Prices::read(prices).expect(&rt, "one to six prices");
        let x = Bundle::read(quantities).expect(&rt, "one to six quantities");
        equal(cost(&p, &x), total)?;
    }
    Ok(())
}

#[test]
fn prices_rise_on_a_set(rt: HostRuntime) -> Result<(), Fail> {
    let goods = Goods::new(&[1, 1, 1])?;
    let p = Prices::zero(&goods).raise(GoodSet(5));
    equal([p.get(0), p.get(1), p.get(2)], [1, 0, 1])?;
    Ok(())
}

#[test]
fn a_sequence_gives_back_its_elements(rt: HostRuntime) -> Result<(), Fail> {
    let steps = Sequence::from_vec([6u32, 3, 4, 4].to_vec(rt.alloc())?);
    equal(steps.as_slice(), [6u32, 3, 4, 4].as_slice())?;
    equal(steps.into_vec().as_slice(), [6u32, 3, 4, 4].as_slice())?;
    Ok(())
}
