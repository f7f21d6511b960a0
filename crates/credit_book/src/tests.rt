use crate::{Account, payment};
use lot_base::limits::MOST_STEPS;
use lot_base::{Bundle, GoodSet, Goods, LeastTable, Prices};
use std::test::Fail;

/// The table of a bidder who demands at least so much of the one good.
fn least(units: u16) -> Option<LeastTable> {
    let mut cells = [0u16; 64];
    cells[1] = units;
    Some(LeastTable(cells))
}

#[test]
fn leaves_each_bidder_out_in_turn(rt: HostRuntime) -> Result<(), Fail> {
    // Supply 2; marginal values (10,4), (8,3) and (6,1); the clock of all three, at prices 0 to 5.
    let goods = Goods::new(&[2])?;
    let mut account = Account::new();
    for [first, second, third] in [
        [2, 2, 2],
        [2, 2, 1],
        [2, 2, 1],
        [2, 1, 1],
        [1, 1, 1],
        [1, 1, 1],
    ] {
        let mut tables = [None; 13];
        tables[1] = least(first);
        tables[2] = least(second);
        tables[3] = least(third);
        assert!(rt; account.steps() < MOST_STEPS);
        account.add(&goods, GoodSet(1), &tables);
    }
    assert_eq!(rt; account.steps(), 6);
    for (bidder, credit) in [(0, -14), (1, -4), (2, -5), (3, -7), (4, -14)] {
        assert_eq!(rt; account.without(bidder), credit, "without {bidder}");
    }
    Ok(())
}

#[test]
fn pays_the_price_and_the_debit_less_the_credit(rt: HostRuntime) -> Result<(), Fail> {
    // Supply 2; marginal values (10,9) and (8,3): the first takes both units at price 8, and pays 11.
    let prices = Prices::read(&[8]).ok_or("prices")?;
    let award = Bundle::read(&[2]).ok_or("bundle")?;
    assert_eq!(rt; payment(&prices, &award, 0, 5), 11);
    assert_eq!(rt; payment(&prices, &award, -20, 5), -9);
    Ok(())
}
