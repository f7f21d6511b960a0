ghost use Rattle.std.specs.Prelude.{◌≤◌, length};

use crate::choose;
use lot_base::{Excess, GoodSet, Goods};
use std::test::Fail;

/// A table of these entries, and zeros after them.
fn table(entries: &[i16]) -> Excess
    requires { length entries.now ≤ 64 }
{
    let mut cells = [0i16; 64];
    cells[..entries.len()].copy_from_slice(entries);
    Excess(cells)
}

#[test]
fn takes_greatest_excess_then_fewest_goods_then_smallest_number(
    rt: HostRuntime,
) -> Result<(), Fail> {
    let three = Goods::new(&[1, 1, 1])?;
    // Four bidders report (0,1,0) and (1,0,1) each: goods 0 and 1 are in excess by 2, and so are goods 1 and 2.
    let tied = table(&[0, -1, -1, 2, -1, -2, 2, 1]);
    assert_eq!(rt; choose(&three, &tied), GoodSet(3));
    // Good 2 alone is in excess by as much as goods 0 and 1 together.
    let fewer = table(&[0, -1, -1, 1, 1, 0, 0, 0]);
    assert_eq!(rt; choose(&three, &fewer), GoodSet(4));
    // Three bidders report (1,1,1) each.
    let all = table(&[0, 2, 2, 4, 2, 4, 4, 6]);
    assert_eq!(rt; choose(&three, &all), GoodSet(7));
    Ok(())
}

#[test]
fn takes_no_good_where_none_is_in_excess(rt: HostRuntime) -> Result<(), Fail> {
    let two = Goods::new(&[1, 1])?;
    // One bidder reports (0,1), (1,0), (1,1), the other (1,0), (1,1): the empty set ties with good 0 and with both goods.
    assert_eq!(rt; choose(&two, &table(&[0, 0, -1, 0])), GoodSet(0));
    // Nobody bids. Entries after the last set mean nothing.
    assert_eq!(rt; choose(&two, &table(&[0, -1, -1, -2, 9])), GoodSet(0));
    Ok(())
}
