ghost use Rattle.std.specs.Prelude.{◌≤◌};
ghost use Rattle.lyapunov.specs.Excesses.{IsSmall};

use expected_values::equal;
use lot_base::{Goods, LeastTable};
use lyapunov::{add_table, excess, opening};
use std::test::Fail;

/// A table over the sets of two goods: of good 0, of good 1, of both.
fn table(first: u16, second: u16, both: u16) -> LeastTable
    requires first { first ≤ 2047 }
    requires second { second ≤ 2047 }
    requires both { both ≤ 2047 }
    ensures { IsSmall result.0 }
{
    let mut table = LeastTable([0; 64]);
    table.0[1] = first;
    table.0[2] = second;
    table.0[3] = both;
    table
}

#[test]
fn a_set_that_nobody_demands_lacks_its_supply(rt: HostRuntime) -> Result<(), Fail> {
    let goods = Goods::new(&[2, 3])?;
    let excess = opening(&goods);
    equal(&excess.0[..5], [0, -2, -3, -5, 0].as_slice())?;
    Ok(())
}

#[test]
fn each_table_counts_once(rt: HostRuntime) -> Result<(), Fail> {
    let goods = Goods::new(&[1, 1])?;
    let tables = [table(1, 0, 1), table(0, 1, 2)];
    let excess = excess(&goods, &tables);
    equal(&excess.0[..5], [0, 0, 0, 1, 0].as_slice())?;
    Ok(())
}

#[test]
fn a_table_is_added_at_the_sets_of_the_goods(rt: HostRuntime) -> Result<(), Fail> {
    let goods = Goods::new(&[4])?;
    let mut excess = opening(&goods);
    add_table(&goods, &mut excess, &table(6, 9, 9));
    equal(&excess.0[..4], [0, 2, 0, 0].as_slice())?;
    Ok(())
}
